//! A list of ids in parts, which its copies share.
ghost use Rattle.std.specs.Prelude.{◌≡◌, ◌≤◌, ◌↔◌, [], length, IsTrue, IfOk, option_map, slice_get};
ghost use Rattle.std.specs.Bool.{Decides};
ghost use Rattle.tl_rules.specs.Ids.{flat, ids_eq, ids_equiv, ids_per};

use rooms_val::{Mem, OutOfMemory, Text};
use std::alloc::Global;
use std::marker::Model;
use std::sync::Arc;

// What a part has.
#[derive(Drop)]
struct Together {
    ids: Vec<Text>,
    // By what each id was put at its place. They only help to find places: nothing is said of them, nor of how many there
    // are.
    hints: Vec<Text>,
}

/// Ids that stand together in a list. Copies share them. Contracts see the ids.
///
/// Beside the ids stand hints, texts by which places are guessed (`Ids::guess`).
#[derive(Drop)]
pub struct Part {
    items: Arc<Together>,
}

impl Model for Part {
    ghost use Rattle.std.specs.Prelude.{List, ℕ};

    ghost Value = { List (List ℕ) };

    ghost view = { λ part. part.items.value.ids.items };
}

impl Part {
    /// These ids without hints, which copies will share.
    ///
    /// # Errors
    ///
    /// Memory was refused.
    pub fn of(alloc: Global, ids: Vec<Text>) -> Mem<Part>
        ensures { IfOk result (λ part. part ≡ ids.items) }
    {
        Part::with_hints(alloc, ids, Vec::new(alloc))
    }

    /// These ids with their hints, which copies will share.
    ///
    /// # Errors
    ///
    /// Memory was refused.
    pub fn with_hints(alloc: Global, ids: Vec<Text>, hints: Vec<Text>) -> Mem<Part>
        ensures { IfOk result (λ part. part ≡ ids.items) }
    {
        Ok(Part {
            items: Arc::new(alloc, Together { ids, hints })?,
        })
    }

    /// The ids in order.
    pub fn as_slice(&self) -> &[Text]
        ensures { result.now ≡ self.now }
    {
        &self.items.ids
    }

    /// The hints beside the ids, in order.
    pub fn hints(&self) -> &[Text] {
        &self.items.hints
    }

    /// An equal part, at the cost of counting one more owner. It takes no memory.
    ///
    /// # Errors
    ///
    /// There are 2^63 owners.
    pub fn copy(&self) -> Mem<Part>
        ensures { IfOk result (λ part. part ≡ self.now) }
    {
        Ok(Part {
            items: Arc::try_clone(&self.items)?,
        })
    }

    // Whether the last id and its hint come before others.
    fn ends_before(&self, hint: &str, id: &str) -> bool {
        match self.hints().last() {
            Some(last_hint) => match self.as_slice().last() {
                Some(last) => (last_hint.as_str(), last.as_str()) < (hint, id),
                None => false,
            },
            None => false,
        }
    }

    // How many ids come before an id with a hint, by their hints, if these are in order. It costs a logarithm of their
    // number.
    fn guess(&self, hint: &str, id: &str) -> usize {
        let ids = self.as_slice();
        let hints = self.hints();
        let mut low = 0;
        let mut high = hints.len().min(ids.len());
        'halves: while low < high {
            let middle = low + (high - low) / 2;
            if (hints[middle].as_str(), ids[middle].as_str()) < (hint, id) {
                low = middle + 1;
                continue;
            }
            high = middle;
        }
        low
    }
}

/// A list of ids, which its copies share. Contracts see the list.
///
/// The ids stand in parts, so that a list which differs in one of them shares the others.
#[derive(Drop)]
pub struct Ids {
    // How many ids there are.
    len: usize,
    // Nothing where there are no ids.
    parts: Option<Arc<Vec<Part>>>,
}

impl Model for Ids {
    ghost use Rattle.std.specs.Prelude.{◌≡◌, List, ℕ, length};
    ghost use Rattle.rooms_val.specs.Shared.{shared_items};
    ghost use Rattle.tl_rules.specs.Ids.{flat};

    ghost Value = { List (List ℕ) };

    ghost view = { λ ids. flat (shared_items ids.parts) };

    ghost invariant = { λ ids. ids.len ≡ length (flat (shared_items ids.parts)) };
}

impl PartialEq for Ids {
    ghost eq = { ids_eq };

    ghost laws = { ids_per };

    fn eq(&self, other: &Ids) -> bool {
        self.len == other.len && are_alike(self.parts(), other.parts(), self.len)
    }
}

impl Eq for Ids {
    ghost laws = { ids_equiv };
}

impl Ids {
    /// No ids.
    pub fn new() -> Ids
        ensures { result ≡ [] }
    {
        Ids {
            len: 0,
            parts: None,
        }
    }

    /// These ids in one part, which copies will share.
    ///
    /// # Errors
    ///
    /// Memory was refused.
    pub fn of(alloc: Global, items: Vec<Text>) -> Mem<Ids>
        ensures { IfOk result (λ ids. ids ≡ items.items) }
    {
        let mut parts = Vec::with_capacity(alloc, 1)?;
        parts.push(Part::of(alloc, items)?)?;
        Ids::of_parts(alloc, parts)
    }

    /// The ids of these parts, which copies will share. It costs a look at each part.
    ///
    /// # Errors
    ///
    /// Memory was refused.
    pub fn of_parts(alloc: Global, parts: Vec<Part>) -> Mem<Ids>
        ensures { IfOk result (λ ids. ids ≡ flat parts.items) }
    {
        Ok(Ids {
            len: count(&parts)?,
            parts: Some(Arc::new(alloc, parts)?),
        })
    }

    /// How many ids there are.
    pub fn len(&self) -> usize
        ensures { result ≡ length self.now }
    {
        self.len
    }

    /// Whether there are none.
    pub fn is_empty(&self) -> bool
        ensures { IsTrue result ↔ (self.now ≡ []) }
    {
        self.len == 0
    }

    /// The parts, whose ids in order are those of the list.
    pub fn parts(&self) -> &[Part]
        ensures { flat result.now ≡ self.now }
    {
        match &self.parts {
            Some(parts) => parts,
            None => &[],
        }
    }

    /// The id at a place, if there is one. It costs a look at each part before.
    pub fn get(&self, place: usize) -> Option<&Text>
        ensures { option_map (λ id. id.now) result ≡ slice_get self.now place }
    {
        id_at(self.parts(), place)
    }

    /// Where an id with a hint may stand, or go to, by the hints of the others. Only that it is within the list is known:
    /// who wants the place looks whether it is right. It costs a comparison for each halving, and a look at each part
    /// before.
    pub fn guess(&self, hint: &str, id: &str) -> usize
        ensures { result ≤ length self.now }
    {
        let parts = self.parts();
        let at = parts.partition_point(|part| part.ends_before(hint, id));
        let mut place = 0_usize;
        for part in parts.iter().take(at) {
            place = place.saturating_add(part.as_slice().len());
        }
        if let Some(part) = parts.get(at) {
            place = place.saturating_add(part.guess(hint, id));
        }
        place.min(self.len)
    }

    /// An equal list, at the cost of counting one more owner. It takes no memory.
    ///
    /// # Errors
    ///
    /// There are 2^63 owners.
    pub fn copy(&self) -> Mem<Ids>
        ensures { IfOk result (λ ids. ids ≡ self.now) }
    {
        match &self.parts {
            None => Ok(Ids::new()),
            Some(parts) => Ok(Ids {
                len: self.len,
                parts: Some(Arc::try_clone(parts)?),
            }),
        }
    }
}

// How many ids some parts have. Memory counts as refused where there are 2^64.
fn count(parts: &[Part]) -> Mem<usize>
    ensures { IfOk result (λ n. n ≡ length (flat parts.now)) }
{
    let mut found = 0_usize;
    'parts: for part in parts {
        let Some(more) = found.checked_add(part.as_slice().len()) else {
            return Err(OutOfMemory);
        };
        found = more;
    }
    Ok(found)
}

// The id at a place among those of some parts, if there is one.
pub(crate) fn id_at(parts: &[Part], place: usize) -> Option<&Text>
    ensures { option_map (λ id. id.now) result ≡ slice_get (flat parts.now) place }
{
    let mut left = place;
    'parts: for part in parts {
        let ids = part.as_slice();
        if left < ids.len() {
            return Some(&ids[left]);
        }
        left -= ids.len();
    }
    None
}

// Whether the ids of some parts are those of others, where each have so many.
fn are_alike(left: &[Part], right: &[Part], len: usize) -> bool
    requires left { len ≡ length (flat left.now) }
    requires right { len ≡ length (flat right.now) }
    ensures { Decides result (flat left.now ≡ flat right.now) }
{
    'places: for place in 0..len {
        if !are_same(id_at(left, place), id_at(right, place)) {
            return false;
        }
    }
    true
}

// Whether both are the same id, or there is none.
fn are_same(one: Option<&Text>, other: Option<&Text>) -> bool
    ensures { Decides result
        (option_map (λ id. id.now) one.entry ≡ option_map (λ id. id.now) other.entry) }
{
    match one {
        Some(id) => match other {
            Some(same) => id == same,
            None => false,
        },
        None => other.is_none(),
    }
}
