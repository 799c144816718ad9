//! The types of records.
use record_valid::Check;
use rooms_val::Text;

/// Who shares the records of a type, and for how long.
#[derive(Clone, Copy, Debug, PartialEq, Eq)]
pub enum Scope {
    /// Everybody: they make up the document, and last.
    Document,
    /// Nobody: they belong to one user's session alone.
    Session,
    /// Everybody: they tell where a user is, and last as long as the connection.
    Presence,
}

/// What is said of the records of a type.
#[derive(Drop)]
pub struct TypeRow {
    /// The name, which stands before the `:` of their ids.
    pub name: Text,
    /// Whose records they are.
    pub scope: Scope,
    /// What each of them fits.
    pub check: Check,
}

// What is kept of a type under its name.
#[derive(Drop)]
pub(crate) struct RecordType {
    pub(crate) scope: Scope,
    pub(crate) check: Check,
}
