//! Sessions and their pushes, as accepting sees them.
use crate::plan::SessionPlan;
use field_ops::{Diff, RecordOp};

/// A session as accepting and messages know it.
#[derive(Clone, Copy)]
pub struct Member<'a> {
    /// Its number, from 0.
    pub session: u64,
    /// Whether the room looks at no diff of its pushes.
    pub readonly: bool,
    /// The plan from its schema.
    pub plan: &'a SessionPlan,
}

/// What a push says.
#[derive(Clone, Copy)]
pub struct Push<'a> {
    /// The number of the push among the client's.
    pub client_clock: i64,
    /// What the edit does, if it does anything.
    pub diff: &'a Option<Diff>,
    /// What happens to the session's presence.
    pub presence: &'a Option<RecordOp>,
}
