//! The values of a list.
ghost use Rattle.std.specs.Prelude.{◌≡◌, ◌^◌, ◌-◌, min, [], ◌∷◌, ◌++◌, length, IfOk, OnOk, OnErr, option_map, slice_get, IsTrue, ◌↔◌};
ghost use Rattle.rooms_val.specs.Data.{items_of, AreSoundItems, IsSound};
ghost use Rattle.rooms_val.specs.View.{data_of, items_view};

use crate::memory::Mem;
use crate::val::Val;
use json::Writer;
use std::alloc::Global;
use std::cmp::Ordering;
use std::marker::Model;
use std::sync::Arc;

/// A list of values, which its copies share until one of them is changed. Contracts see the list of what they stand for.
#[cycle(val)]
#[derive(Drop)]
pub struct Vals {
    // Where memory is taken.
    alloc: Global,
    // The values, and nothing where none was added.
    items: Option<Arc<Vec<Val>>>,
}

impl Model for Vals {
    ghost use Rattle.std.specs.Prelude.{List, suc};
    ghost use Rattle.rooms_val.specs.Data.{Data, items_of, items_depth, AreSoundItems};
    ghost use Rattle.rooms_val.specs.Code.{coded_items};

    ghost Value = { List Data };

    ghost coded = { coded_items };

    ghost use Rattle.rooms_val.specs.Shared.{shared_items};
    ghost use Rattle.rooms_val.specs.View.{items_view};

    ghost view = { λ v. items_view (shared_items v.items) };

    ghost invariant = { λ v. AreSoundItems (items_of (items_view (shared_items v.items))) };

    ghost size = { λ ds. suc (items_depth (items_of ds)) };

    ghost use Rattle.rooms_val.specs.Falls.{vals_fall};

    ghost size_decreases = { λ v h. vals_fall v.alloc v.items };
}

impl Vals {
    ghost use Rattle.rooms_val.specs.Json.{items_tokens};
    ghost use Rattle.rooms_val.specs.Order.{items_cmp};
    ghost use Rattle.rooms_val.specs.Weight.{items_weight};

    /// The empty list.
    pub fn new(alloc: Global) -> Vals
        ensures { result ≡ [] }
    {
        Vals { alloc, items: None }
    }

    /// The list of these values. It takes memory exactly if there are any.
    pub(crate) fn from_vec(alloc: Global, items: Vec<Val>) -> Mem<Vals>
        requires { AreSoundItems (items_of (items_view items.items)) }
        ensures { IfOk result (λ vals. vals ≡ items_view items.items) }
    {
        if items.is_empty() {
            return Ok(Vals::new(alloc));
        }
        Ok(Vals {
            alloc,
            items: Some(Arc::new(alloc, items)?),
        })
    }

    /// How many values it has.
    pub fn len(&self) -> usize
        ensures count { result ≡ length self.now }
        ensures sound { AreSoundItems (items_of self.now) }
    {
        self.as_slice().len()
    }

    /// Whether it has no value.
    pub fn is_empty(&self) -> bool
        ensures { IsTrue result ↔ (self.now ≡ []) }
    {
        self.as_slice().is_empty()
    }

    /// The value at a place, counted from 0. `None` exactly past the end.
    pub fn at(&self, place: usize) -> Option<&Val>
        ensures { option_map (λ v. data_of v.now) result ≡ slice_get self.now place }
    {
        self.as_slice().get(place)
    }

    /// The values in order.
    pub fn as_slice(&self) -> &[Val]
        ensures values { items_view result.now ≡ self.now }
        ensures sound { AreSoundItems (items_of self.now) }
    {
        match &self.items {
            Some(items) => items,
            None => &[],
        }
    }

    /// The values in order. It costs nothing if no copy shares them, and else a copy of each.
    pub fn into_vec(self) -> Mem<Vec<Val>>
        ensures { IfOk result (λ v. items_view v.items ≡ self) }
    {
        let Vals { alloc, items } = self;
        let Some(items) = items else {
            return Ok(Vec::new(alloc));
        };
        match Arc::try_unwrap(items) {
            Ok(items) => Ok(items),
            Err(shared) => item_copies(alloc, &shared, 0),
        }
    }

    /// Adds a value at the end. Where memory is refused the list is as before. If copies share the list, it costs a copy of
    /// each value.
    pub fn push(&mut self, val: Val) -> Mem<()>
        ensures ok { OnOk result (self.new ≡ self.old ++ data_of val ∷ []) }
        ensures err { OnErr result (self.new ≡ self.old) }
    {
        // That a value is sound is told by its kind.
        let _ = val.kind();
        let Some(items) = &mut self.items else {
            self.items = Some(Arc::new(self.alloc, one(self.alloc, val)?)?);
            return Ok(());
        };
        match Arc::get_mut(items) {
            Some(items) => add(items, val),
            None => {
                let mut more = item_copies(self.alloc, items, 1)?;
                add(&mut more, val)?;
                *items = Arc::new(self.alloc, more)?;
                Ok(())
            }
        }
    }

    /// An equal list, at the cost of counting one more owner. It takes no memory.
    pub fn copy(&self, alloc: Global) -> Mem<Vals>
        ensures { IfOk result (λ v. v ≡ self.now) }
    {
        match &self.items {
            None => Ok(Vals { alloc, items: None }),
            Some(items) => Ok(Vals {
                alloc,
                items: Some(Arc::try_clone(items)?),
            }),
        }
    }

    /// What its values weigh together, 2^64 - 1 where that is more.
    #[cycle(weight)]
    pub fn weight(&self) -> u64
        ensures { result ≡ min (items_weight (items_of self.now)) (2 ^ 64 - 1) }
    {
        let Some(items) = &self.items else {
            return 0;
        };
        let mut total = 0u64;
        for item in &**items {
            total = total.saturating_add(item.weight());
        }
        total
    }

    /// How the list stands to the other.
    #[cycle(order)]
    pub(crate) fn compare(&self, other: &Vals) -> Ordering
        ensures { result ≡ items_cmp (items_of self.now) (items_of other.now) }
    {
        let Some(items) = &self.items else {
            return 0usize.cmp(&other.len());
        };
        let mut place = 0;
        'items: for item in &**items {
            let Some(theirs) = other.at(place) else {
                return Ordering::Greater;
            };
            match item.compare(theirs) {
                Ordering::Equal => place += 1,
                unequal => return unequal,
            }
        }
        if place < other.len() {
            Ordering::Less
        } else {
            Ordering::Equal
        }
    }

    /// Writes the JSON of the values and the bracket that closes the list.
    #[cycle(write)]
    pub(crate) fn write_to(&self, out: &mut Writer) -> Mem<()>
        ensures ok { OnOk result
            (out.new.tokens ≡ out.old.tokens ++ items_tokens (items_of self.now)) }
        ensures before { out.new.before ≡ out.old.before }
    {
        let Some(items) = &self.items else {
            out.end_array()?;
            return Ok(());
        };
        for item in &**items {
            item.write_to(out)?;
        }
        out.end_array()?;
        Ok(())
    }
}

// A vector of one value.
fn one(alloc: Global, val: Val) -> Mem<Vec<Val>>
    ensures { IfOk result (λ v. v.items ≡ val ∷ []) }
{
    let mut items = Vec::with_capacity(alloc, 1)?;
    items.push(val)?;
    Ok(items)
}

// Copies of some values, with room for so many more.
fn item_copies(alloc: Global, items: &[Val], more: usize) -> Mem<Vec<Val>>
    ensures { IfOk result (λ v. items_view v.items ≡ items_view items.now) }
{
    let mut copies = Vec::with_capacity(alloc, items.len().saturating_add(more))?;
    'items: for item in items {
        copies.push(item.copy(alloc)?)?;
    }
    Ok(copies)
}

// Adds a sound value at the end of sound ones. Where memory is refused nothing changes.
fn add(items: &mut Vec<Val>, val: Val) -> Mem<()>
    requires { AreSoundItems (items_of (items_view items.old.items)) × IsSound (data_of val) }
    ensures ok { OnOk result (items.new.items ≡ items.old.items ++ val ∷ []) }
    ensures sound { AreSoundItems (items_of (items_view items.new.items)) }
    ensures err { OnErr result (items.new.items ≡ items.old.items) }
{
    items.push(val)?;
    Ok(())
}
