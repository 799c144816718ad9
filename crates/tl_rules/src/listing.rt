//! The kinds of lists, and where a record stands in them.
ghost use Rattle.std.specs.Prelude.{◌≡◌, IfOk, option_map};
ghost use Rattle.rooms_val.specs.View.{data_of};
ghost use Rattle.shape_tree.specs.Records.{text_or_empty, is_id_of};
ghost use Rattle.shape_tree.specs.View.{maybe_data};

use crate::key::TlKey;
use record_valid::id_type;
use rooms_val::{Mem, Text, Val};
use std::alloc::Global;

/// A kind of lists of ids, one list for each id that owns some.
#[derive(Clone, Copy, Debug, PartialEq, Eq)]
pub enum Listing {
    /// The children of a page or shape, by index and then by id.
    Children,
    /// The bindings that go from an id, by id.
    BoundFrom,
    /// The bindings that go to an id, by id.
    BoundTo,
}

impl Listing {
    ghost use Rattle.tl_rules.specs.Listings.{lists, owner_field, owner_of, index_of, key_of, stands_before};

    /// Under which id a record with this id is listed; under none where the id is of another type.
    ///
    /// A field that is missing or no text names the empty id. It costs one look-up in the record.
    pub fn owner<'a>(self, id: &str, val: &'a Val) -> Option<&'a str>
        ensures { option_map (λ o. o.now) result ≡ owner_of self (id.now, data_of val.now) }
    {
        if self.lists(id) {
            Some(text_or_empty(val, self.owner_field()))
        } else {
            None
        }
    }

    /// The index by which the record stands in its list; the empty text for a binding.
    ///
    /// An index that is missing or no text counts as empty. It costs one look-up in the record.
    pub fn index<'a>(self, val: &'a Val) -> &'a str
        ensures { result.now ≡ index_of self (data_of val.now) }
    {
        match self {
            Listing::Children => text_or_empty(val, "index"),
            Listing::BoundFrom | Listing::BoundTo => "",
        }
    }

    /// The key of the atom that has the list of an owner. It costs a copy of the id.
    ///
    /// # Errors
    ///
    /// Memory was refused.
    pub fn key(self, alloc: Global, owner: &str) -> Mem<TlKey>
        ensures { IfOk result (λ key. key ≡ key_of self owner.now) }
    {
        let owner = Text::of(alloc, owner)?;
        Ok(match self {
            Listing::Children => TlKey::ByParent(owner),
            Listing::BoundFrom => TlKey::BoundFrom(owner),
            Listing::BoundTo => TlKey::BoundTo(owner),
        })
    }

    /// Whether the record under the other id, or null where there is none, stands before an index and an id.
    ///
    /// It costs one look-up in the record.
    pub fn is_before(self, other: Option<&Val>, other_id: &str, index: &str, id: &str) -> bool
        ensures { result ≡ stands_before self other_id.now (maybe_data other.entry)
            (record { index = index.now; id = id.now }) }
    {
        let other_index = match other {
            Some(record) => self.index(record),
            None => "",
        };
        (other_index, other_id) < (index, id)
    }

    // Whether records with such an id are listed.
    fn lists(self, id: &str) -> bool
        ensures { result ≡ lists self id.now }
    {
        match self {
            Listing::Children => is_id_of("shape", id),
            Listing::BoundFrom | Listing::BoundTo => is_id_of("binding", id),
        }
    }

    // The field of a record that names its owner.
    fn owner_field(self) -> &'static str
        ensures { result.now ≡ owner_field self }
    {
        match self {
            Listing::Children => "parentId",
            Listing::BoundFrom => "fromId",
            Listing::BoundTo => "toId",
        }
    }
}

// The text under a key, and the empty text if there is none.
fn text_or_empty<'a>(val: &'a Val, key: &str) -> &'a str
    ensures { result.now ≡ text_or_empty (data_of val.now) key.now }
{
    match val.get(key) {
        Some(found) => found.as_text().unwrap_or(""),
        None => "",
    }
}

// Whether the id is one of a type.
fn is_id_of(name: &str, id: &str) -> bool
    ensures { result ≡ is_id_of name.now id.now }
{
    match id_type(id) {
        Some(found) => found == name,
        None => false,
    }
}
