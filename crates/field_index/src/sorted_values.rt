//! Values by id, and the same by value.
ghost use Rattle.std.specs.Prelude.{◌≡◌, [], Some, None, false, if◌then◌else◌, IfOk, OnOk, OnErr};
ghost use Rattle.std.specs.List.Sorted.{IsStrictlySortedBy};
ghost use Rattle.rooms_val.specs.Maps.{set_at};
ghost use Rattle.rooms_val.specs.View.{data_of};
ghost use Rattle.field_index.specs.Index.{is_greater, ids_equal, ids_greater};
ghost use Rattle.field_index.specs.Places.{place_order, is_among, is_place_of};
ghost use Rattle.field_index.specs.declared.place.Place.{Place as Stands};

use crate::place::Place;
use rooms_val::{Mem, OutOfMemory, Text, Val};
use std::alloc::Global;
use std::collections::{BTreeMap, BTreeSet};
use std::marker::Model;

/// Values by id, sorted by value too.
#[derive(Drop)]
pub(crate) struct SortedValues {
    // The value of each id.
    by_id: BTreeMap<Text, Val>,
    // The same ids and values.
    by_value: BTreeSet<Place>,
}

impl Model for SortedValues {
    ghost use Rattle.rooms_val.specs.Data.{Pairs};
    ghost use Rattle.rooms_val.specs.Code.{coded_pairs};

    ghost Value = { Pairs };

    ghost coded = { coded_pairs };

    ghost use Rattle.rooms_val.specs.View.{pairs_view};
    ghost use Rattle.field_index.specs.Places.{ArePlaces};

    ghost view = { λ s. pairs_view s.by_id.entries };

    ghost invariant = { λ s. ArePlaces s.by_id.entries s.by_value.keys };
}

impl SortedValues {
    // No value.
    pub(crate) fn new(alloc: Global) -> SortedValues
        ensures { result ≡ [] }
    {
        SortedValues {
            by_id: BTreeMap::new(alloc),
            by_value: BTreeSet::new(alloc),
        }
    }

    // Takes all values away.
    pub(crate) fn clear(&mut self)
        ensures { self.new ≡ [] }
    {
        self.by_id.clear();
        self.by_value.clear();
    }

    // Sets the value of an id. It costs a logarithm.
    //
    // # Errors
    //
    // Memory was refused, and nothing changed.
    pub(crate) fn put(&mut self, alloc: Global, id: &str, value: &Val) -> Mem<()>
        ensures ok { OnOk result (self.new ≡ set_at self.old id.now (Some (data_of value.now))) }
        ensures err { OnErr result (self.new ≡ self.old) }
    {
        let place = Place::of(alloc, value, id)?;
        let gone = Text::of(alloc, id)?;
        let key = Text::of(alloc, id)?;
        let copy = value.copy(alloc)?;
        if !self.by_value.insert(place)? {
            return Ok(());
        }
        match self.by_id.insert(key, copy) {
            Ok(old) => {
                take_place(&mut self.by_value, old, gone);
                Ok(())
            }
            Err(refused) => {
                take_refused(&mut self.by_value, refused.value, gone);
                Err(OutOfMemory)
            }
        }
    }

    // Takes the value of an id away. It costs a logarithm.
    //
    // # Errors
    //
    // Memory was refused, and nothing changed.
    pub(crate) fn take(&mut self, alloc: Global, id: &str) -> Mem<()>
        ensures ok { OnOk result (self.new ≡ set_at self.old id.now None) }
        ensures err { OnErr result (self.new ≡ self.old) }
    {
        let id = Text::of(alloc, id)?;
        let old = self.by_id.remove(&id);
        take_place(&mut self.by_value, old, id);
        Ok(())
    }

    // The ids whose value is equal, by id. It costs a logarithm and what it gives.
    pub(crate) fn equal(&self, alloc: Global, value: &Val) -> Mem<Vec<Text>>
        ensures { IfOk result (λ ids. ids.items ≡ ids_equal (data_of value.now) self.now) }
    {
        let first = Place::of(alloc, value, "")?;
        let mut ids = Vec::new(alloc);
        'places: for place in self.by_value.range(&first..) {
            if place.value != *value {
                return Ok(ids);
            }
            ids.push(place.id.copy(alloc)?)?;
        }
        Ok(ids)
    }

    // The ids whose value is a greater whole number, by id. It costs a logarithm, what it gives, and sorting that.
    pub(crate) fn greater(&self, alloc: Global, number: i64) -> Mem<Vec<Text>>
        ensures { IfOk result (λ ids. ids.items ≡ ids_greater number self.now) }
    {
        // No number is greater than the greatest one, at which the range then begins. A text comes after each number.
        let first = Place::of(alloc, &Val::Int(number.saturating_add(1)), "")?;
        let end = Place::of(alloc, &Val::Text(Text::of(alloc, "")?), "")?;
        let mut ids = BTreeSet::new(alloc);
        'places: for place in self.by_value.range(&first..&end) {
            if is_greater(&place.value, number) {
                let _ = ids.insert(place.id.copy(alloc)?)?;
            }
        }
        Ok(ids.into_iter().collect(alloc)?)
    }
}

// Takes the place of an id with a value away, if there is one.
fn take_place(places: &mut BTreeSet<Place>, value: Option<Val>, id: Text)
    ensures ordered { IsStrictlySortedBy place_order places.old.keys
        → IsStrictlySortedBy place_order places.new.keys }
    ensures rest { (p : Stands) → is_among places.new.keys p
        ≡ (if is_place_of value id p then false else is_among places.old.keys p) }
{
    if let Some(value) = value {
        let _ = places.remove(&Place { value, id });
    }
}

// Takes the place of an id with a value away that was refused, and lets go of a further copy of the id.
fn take_refused(places: &mut BTreeSet<Place>, refused: (Text, Val), _copy: Text)
    ensures ordered { IsStrictlySortedBy place_order places.old.keys
        → IsStrictlySortedBy place_order places.new.keys }
    ensures rest { (p : Stands) → is_among places.new.keys p
        ≡ (if is_place_of (Some refused.1) refused.0 p then false else is_among places.old.keys p) }
{
    let (id, value) = refused;
    take_place(places, Some(value), id);
}

// Whether a value is a greater whole number.
fn is_greater(value: &Val, number: i64) -> bool
    ensures { result ≡ is_greater number (data_of value.now) }
{
    match value.as_int() {
        Some(theirs) => number < theirs,
        None => false,
    }
}
