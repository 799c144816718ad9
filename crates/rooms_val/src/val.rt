//! A JSON value.
ghost use Rattle.std.specs.Prelude.{◌≡◌, ◌^◌, ◌-◌, ◌++◌, min, IfOk, OnOk, option_map};
ghost use Rattle.std.specs.Option.{option_copied};

use crate::fields::Fields;
use crate::memory::Mem;
use crate::text::Text;
use crate::vals::Vals;
use json::Writer;
use std::alloc::Global;

/// A JSON value whose numbers are whole.
#[cycle(val)]
#[derive(Drop)]
pub enum Val {
    /// `null`.
    Null,
    /// `true` or `false`.
    Bool(bool),
    /// A whole number.
    Int(i64),
    /// A text.
    Text(Text),
    /// A list.
    List(Vals),
    /// A map, whose keys rise by bytes.
    Map(Fields),
}

/// Which form a value has.
#[derive(Clone, Copy, Debug, PartialEq, Eq)]
pub enum Kind {
    Null,
    Bool,
    Int,
    Text,
    List,
    Map,
}

impl Val {
    ghost use Rattle.rooms_val.specs.Data.{IsSound};
    ghost use Rattle.rooms_val.specs.Kinds.{as_text, as_whole, as_map, field};
    ghost use Rattle.rooms_val.specs.Json.{tokens_of};
    ghost use Rattle.rooms_val.specs.View.{data_of, kind_of};
    ghost use Rattle.rooms_val.specs.Weight.{weight};

    /// Which form it has.
    pub fn kind(&self) -> Kind
        ensures kind { result ≡ kind_of self.now }
        ensures sound { IsSound (data_of self.now) }
    {
        match self {
            Val::Null => Kind::Null,
            Val::Bool(_) => Kind::Bool,
            Val::Int(_) => Kind::Int,
            Val::Text(_) => Kind::Text,
            Val::List(items) => {
                let _ = items.len();
                Kind::List
            }
            Val::Map(fields) => {
                let _ = fields.len();
                Kind::Map
            }
        }
    }

    /// The text that it is. `None` exactly if it is of another kind.
    pub fn as_text(&self) -> Option<&str>
        ensures { option_map (λ t. t.now) result ≡ as_text (data_of self.now) }
    {
        match self {
            Val::Text(text) => Some(text.as_str()),
            _ => None,
        }
    }

    /// The whole number that it is. `None` exactly if it is of another kind.
    pub fn as_int(&self) -> Option<i64>
        ensures { result ≡ as_whole (data_of self.now) }
    {
        match self {
            Val::Int(number) => Some(*number),
            _ => None,
        }
    }

    /// The map that it is. `None` exactly if it is of another kind.
    pub fn as_map(&self) -> Option<&Fields>
        ensures { option_map (λ f. f.now) result ≡ as_map (data_of self.now) }
    {
        match self {
            Val::Map(fields) => Some(fields),
            _ => None,
        }
    }

    /// The value under a key. `None` exactly if this is no map or lacks the key. At most 16 keys are looked at one by
    /// one, each by its length and then its words, and more by halves.
    pub fn get(&self, key: &str) -> Option<&Val>
        ensures { option_map (λ v. data_of v.now) result ≡ field (data_of self.now) key.now }
    {
        match self {
            Val::Map(fields) => fields.get(key),
            _ => None,
        }
    }

    /// An equal value, at the cost of counting one more owner. It takes no memory.
    pub fn copy(&self, alloc: Global) -> Mem<Val>
        ensures { IfOk result (λ v. data_of v ≡ data_of self.now) }
    {
        Ok(match self {
            Val::Null => Val::Null,
            Val::Bool(truth) => Val::Bool(*truth),
            Val::Int(number) => Val::Int(*number),
            Val::Text(text) => Val::Text(text.copy(alloc)?),
            Val::List(items) => Val::List(items.copy(alloc)?),
            Val::Map(fields) => Val::Map(fields.copy(alloc)?),
        })
    }

    /// An equal value, if there is one, at the cost of counting one more owner. It takes no memory.
    ///
    /// # Errors
    /// Out of memory alone, where the count of owners is full.
    pub fn copy_of(alloc: Global, val: Option<&Val>) -> Mem<Option<Val>>
        ensures { IfOk result (λ copy.
            option_map data_of copy ≡ option_map data_of (option_copied val.entry)) }
    {
        match val {
            Some(val) => Ok(Some(val.copy(alloc)?)),
            None => Ok(None),
        }
    }

    /// The same, where the value stands in a slot.
    ///
    /// # Errors
    /// Out of memory alone, where the count of owners is full.
    pub fn copy_slot(alloc: Global, slot: &Option<Val>) -> Mem<Option<Val>>
        ensures { IfOk result (λ copy. option_map data_of copy ≡ option_map data_of slot.now) }
    {
        Val::copy_of(alloc, slot.as_ref())
    }

    /// What it weighs: 1 for each value in it, and beside that the bytes of each text and key; 2^64 - 1 where that is
    /// more.
    #[cycle(weight)]
    pub fn weight(&self) -> u64
        ensures { result ≡ min (weight (data_of self.now)) (2 ^ 64 - 1) }
    {
        match self {
            Val::Null | Val::Bool(_) | Val::Int(_) => 1,
            Val::Text(text) => (text.as_str().len() as u64).saturating_add(1),
            Val::List(items) => items.weight().saturating_add(1),
            Val::Map(fields) => fields.weight().saturating_add(1),
        }
    }

    /// Writes the JSON of the value.
    #[cycle(write)]
    pub(crate) fn write_to(&self, out: &mut Writer) -> Mem<()>
        ensures ok { OnOk result (out.new.tokens ≡ out.old.tokens ++ tokens_of (data_of self.now)) }
        ensures before { out.new.before ≡ out.old.before }
    {
        match self {
            Val::Null => out.null()?,
            Val::Bool(truth) => out.boolean(*truth)?,
            Val::Int(number) => out.i64(*number)?,
            Val::Text(text) => out.string(text.as_str())?,
            Val::List(items) => {
                out.begin_array()?;
                items.write_to(out)?;
            }
            Val::Map(fields) => {
                out.begin_object()?;
                fields.write_to(out)?;
            }
        }
        Ok(())
    }
}
