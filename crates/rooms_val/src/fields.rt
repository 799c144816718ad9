//! The keys of a map with their values.
ghost use Rattle.std.specs.Prelude.{◌≡◌, ◌^◌, ◌-◌, min, [], ◌∷◌, ◌++◌, length, IfOk, OnOk, OnErr, option_map, slice_get, IsTrue, ◌↔◌};
ghost use Rattle.rooms_val.specs.Data.{members_of, IsSound, map};
ghost use Rattle.rooms_val.specs.Maps.{value_at, with_key, without_key};
ghost use Rattle.rooms_val.specs.View.{data_of, pairs_view};

use crate::entries;
use crate::memory::Mem;
use crate::text::Text;
use crate::val::Val;
use json::Writer;
use std::alloc::Global;
use std::cmp::Ordering;
use std::marker::Model;
use std::sync::Arc;

/// A map from texts to values, which its copies share until one of them is changed. Contracts see its pairs, whose keys rise
/// by bytes.
#[cycle(val)]
#[derive(Drop)]
pub struct Fields {
    // Where memory is taken.
    alloc: Global,
    // The keys with their values, and nothing where none was added.
    entries: Option<Arc<Vec<(Text, Val)>>>,
}

impl Model for Fields {
    ghost use Rattle.std.specs.Prelude.{suc};
    ghost use Rattle.rooms_val.specs.Data.{Pairs, members_of, members_depth, IsSound, map};
    ghost use Rattle.rooms_val.specs.Code.{coded_pairs};

    ghost Value = { Pairs };

    ghost coded = { coded_pairs };

    ghost use Rattle.rooms_val.specs.Shared.{shared_items};
    ghost use Rattle.rooms_val.specs.View.{pairs_view};

    ghost view = { λ f. pairs_view (shared_items f.entries) };

    ghost invariant = { λ f. IsSound (map (members_of (pairs_view (shared_items f.entries)))) };

    ghost size = { λ ps. suc (members_depth (members_of ps)) };

    ghost use Rattle.rooms_val.specs.Falls.{fields_fall};

    ghost size_decreases = { λ f h. fields_fall f.alloc f.entries };
}

impl Fields {
    ghost use Rattle.rooms_val.specs.Kinds.{text_at, number_at};
    ghost use Rattle.rooms_val.specs.Json.{members_tokens};
    ghost use Rattle.rooms_val.specs.Order.{members_cmp};
    ghost use Rattle.rooms_val.specs.Weight.{members_weight};

    /// The empty map.
    pub fn new(alloc: Global) -> Fields
        ensures { result ≡ [] }
    {
        Fields {
            alloc,
            entries: None,
        }
    }

    /// The map of these keys, which rise, with these values. It takes memory exactly if there are any.
    pub(crate) fn from_vec(alloc: Global, entries: Vec<(Text, Val)>) -> Mem<Fields>
        requires { IsSound (map (members_of (pairs_view entries.items))) }
        ensures { IfOk result (λ fields. fields ≡ pairs_view entries.items) }
    {
        if entries.is_empty() {
            return Ok(Fields::new(alloc));
        }
        Ok(Fields {
            alloc,
            entries: Some(Arc::new(alloc, entries)?),
        })
    }

    /// How many keys it has.
    pub fn len(&self) -> usize
        ensures count { result ≡ length self.now }
        ensures sound { IsSound (map (members_of self.now)) }
    {
        self.as_slice().len()
    }

    /// Whether it has no key.
    pub fn is_empty(&self) -> bool
        ensures { IsTrue result ↔ (self.now ≡ []) }
    {
        self.as_slice().is_empty()
    }

    /// The key at a place with its value; places count from 0 in the order of the keys. `None` exactly past the end.
    pub fn at(&self, place: usize) -> Option<(&Text, &Val)>
        ensures { option_map (λ e. (e.0.now, data_of e.1.now)) result ≡ slice_get self.now place }
    {
        let entry = self.as_slice().get(place)?;
        Some((&entry.0, &entry.1))
    }

    /// The keys with their values, in order.
    pub fn as_slice(&self) -> &[(Text, Val)]
        ensures pairs { pairs_view result.now ≡ self.now }
        ensures sound { IsSound (map (members_of self.now)) }
    {
        match &self.entries {
            Some(entries) => entries,
            None => &[],
        }
    }

    /// The keys with their values in order. It costs nothing if no copy shares them, and else a copy of each.
    pub fn into_vec(self) -> Mem<Vec<(Text, Val)>>
        ensures { IfOk result (λ v. pairs_view v.items ≡ self) }
    {
        let Fields { alloc, entries } = self;
        let Some(entries) = entries else {
            return Ok(Vec::new(alloc));
        };
        match Arc::try_unwrap(entries) {
            Ok(entries) => Ok(entries),
            Err(shared) => entry_copies(alloc, &shared, 0),
        }
    }

    /// The value under a key. `None` exactly if the map lacks the key. At most 16 keys are looked at one by one, each by
    /// its length and then its words, and more by halves.
    pub fn get(&self, key: &str) -> Option<&Val>
        ensures { option_map (λ v. data_of v.now) result ≡ value_at self.now key.now }
    {
        entries::get(self.as_slice(), key)
    }

    /// The text under a key. `None` exactly if the map lacks the key or has another kind of value there. At most 16 keys
    /// are looked at one by one, each by its length and then its words, and more by halves.
    pub fn text_at(&self, key: &str) -> Option<&str>
        ensures { option_map (λ t. t.now) result ≡ text_at self.now key.now }
    {
        self.get(key)?.as_text()
    }

    /// The number under a key. `None` exactly if the map lacks the key or has another kind of value there. At most 16
    /// keys are looked at one by one, each by its length and then its words, and more by halves.
    pub fn number_at(&self, key: &str) -> Option<i64>
        ensures { result ≡ number_at self.now key.now }
    {
        self.get(key)?.as_int()
    }

    /// Sets the value under a key, and returns the one before. Where memory is refused the map is as before. A key
    /// beyond all others is added at the cost of one comparison. Any other key costs a logarithm, and a move of the keys
    /// after it where it is added. If copies share the map, it costs a copy of each value.
    pub fn put(&mut self, key: Text, val: Val) -> Mem<Option<Val>>
        ensures old { IfOk result (λ v. option_map data_of v ≡ value_at self.old key) }
        ensures ok { OnOk result (self.new ≡ with_key self.old key (data_of val)) }
        ensures err { OnErr result (self.new ≡ self.old) }
    {
        // That a value is sound is told by its kind.
        let _ = val.kind();
        let Some(entries) = &mut self.entries else {
            self.entries = Some(Arc::new(self.alloc, one(self.alloc, key, val)?)?);
            return Ok(None);
        };
        match Arc::get_mut(entries) {
            Some(entries) => put_in(entries, key, val),
            None => {
                let mut more = entry_copies(self.alloc, entries, 1)?;
                let old = put_in(&mut more, key, val)?;
                *entries = Arc::new(self.alloc, more)?;
                Ok(old)
            }
        }
    }

    /// The map with a value under a key, in place of the one that stood there. It costs a copy of the key, and what `put`
    /// costs: what comes after a key that is added moves, and if copies share the map, each value is copied.
    ///
    /// # Errors
    /// Out of memory alone. Then this map is lost, and its copies are as they were.
    pub fn with(mut self, alloc: Global, key: &str, val: Val) -> Mem<Fields>
        ensures { IfOk result (λ made. made ≡ with_key self key.now (data_of val)) }
    {
        drop(self.put(Text::of(alloc, key)?, val)?);
        Ok(self)
    }

    /// Takes a key away, and returns the value that it had. `None` exactly if the map lacks the key. Where memory is refused
    /// the map is as before; it is taken only if copies share the map, and then it costs a copy of each value.
    pub fn take(&mut self, key: &str) -> Mem<Option<Val>>
        ensures old { IfOk result (λ v. option_map data_of v ≡ value_at self.old key.now) }
        ensures ok { OnOk result (self.new ≡ without_key self.old key.now) }
        ensures err { OnErr result (self.new ≡ self.old) }
    {
        let Some(entries) = &mut self.entries else {
            return Ok(None);
        };
        match Arc::get_mut(entries) {
            Some(entries) => Ok(take_from(entries, key)),
            None => {
                let mut rest = entry_copies(self.alloc, entries, 0)?;
                let old = take_from(&mut rest, key);
                *entries = Arc::new(self.alloc, rest)?;
                Ok(old)
            }
        }
    }

    /// An equal map, at the cost of counting one more owner. It takes no memory.
    pub fn copy(&self, alloc: Global) -> Mem<Fields>
        ensures { IfOk result (λ f. f ≡ self.now) }
    {
        match &self.entries {
            None => Ok(Fields {
                alloc,
                entries: None,
            }),
            Some(entries) => Ok(Fields {
                alloc,
                entries: Some(Arc::try_clone(entries)?),
            }),
        }
    }

    /// What its keys and values weigh together, 2^64 - 1 where that is more.
    #[cycle(weight)]
    pub fn weight(&self) -> u64
        ensures { result ≡ min (members_weight (members_of self.now)) (2 ^ 64 - 1) }
    {
        let Some(entries) = &self.entries else {
            return 0;
        };
        let mut total = 0u64;
        for (key, val) in &**entries {
            total = total
                .saturating_add(key.as_str().len() as u64)
                .saturating_add(val.weight());
        }
        total
    }

    /// How the map stands to the other.
    #[cycle(order)]
    pub(crate) fn compare(&self, other: &Fields) -> Ordering
        ensures { result ≡ members_cmp (members_of self.now) (members_of other.now) }
    {
        let Some(entries) = &self.entries else {
            return 0usize.cmp(&other.len());
        };
        let mut place = 0;
        'fields: for (key, val) in &**entries {
            let Some((their_key, theirs)) = other.at(place) else {
                return Ordering::Greater;
            };
            match key.as_str().cmp(&their_key.as_str()) {
                Ordering::Equal => {}
                unequal => return unequal,
            }
            match val.compare(theirs) {
                Ordering::Equal => place += 1,
                unequal => return unequal,
            }
        }
        if place < other.len() {
            Ordering::Less
        } else {
            Ordering::Equal
        }
    }

    /// Writes the JSON of the pairs and the bracket that closes the map.
    #[cycle(write)]
    pub(crate) fn write_to(&self, out: &mut Writer) -> Mem<()>
        ensures ok { OnOk result
            (out.new.tokens ≡ out.old.tokens ++ members_tokens (members_of self.now)) }
        ensures before { out.new.before ≡ out.old.before }
    {
        let Some(entries) = &self.entries else {
            out.end_object()?;
            return Ok(());
        };
        for (key, val) in &**entries {
            out.key(key.as_str())?;
            val.write_to(out)?;
        }
        out.end_object()?;
        Ok(())
    }
}

// A vector of one key with its value.
fn one(alloc: Global, key: Text, val: Val) -> Mem<Vec<(Text, Val)>>
    ensures { IfOk result (λ v. v.items ≡ (key, val) ∷ []) }
{
    let mut entries = Vec::with_capacity(alloc, 1)?;
    entries.push((key, val))?;
    Ok(entries)
}

// Copies of some keys with their values, with room for so many more.
fn entry_copies(alloc: Global, entries: &[(Text, Val)], more: usize) -> Mem<Vec<(Text, Val)>>
    ensures { IfOk result (λ v. pairs_view v.items ≡ pairs_view entries.now) }
{
    let mut copies = Vec::with_capacity(alloc, entries.len().saturating_add(more))?;
    'entries: for (key, val) in entries {
        copies.push((key.copy(alloc)?, val.copy(alloc)?))?;
    }
    Ok(copies)
}

// Sets a sound value under a key of a sound map, and returns the one before. Where memory is refused nothing changes.
fn put_in(entries: &mut Vec<(Text, Val)>, key: Text, val: Val) -> Mem<Option<Val>>
    requires map { IsSound (map (members_of (pairs_view entries.old.items))) }
    requires val { IsSound (data_of val) }
    ensures old { IfOk result
        (λ v. option_map data_of v ≡ value_at (pairs_view entries.old.items) key) }
    ensures ok { OnOk result
        (pairs_view entries.new.items ≡ with_key (pairs_view entries.old.items) key (data_of val)) }
    ensures sound { IsSound (map (members_of (pairs_view entries.new.items))) }
    ensures err { OnErr result (entries.new.items ≡ entries.old.items) }
{
    let old = entries::put(entries, key, val)?;
    Ok(old)
}

// Takes a key out of a sound map, and returns the value that it had.
fn take_from(entries: &mut Vec<(Text, Val)>, key: &str) -> Option<Val>
    requires { IsSound (map (members_of (pairs_view entries.old.items))) }
    ensures old { option_map data_of result ≡ value_at (pairs_view entries.old.items) key.now }
    ensures rest { pairs_view entries.new.items
        ≡ without_key (pairs_view entries.old.items) key.now }
    ensures sound { IsSound (map (members_of (pairs_view entries.new.items))) }
{
    entries::take(entries, key)
}
