//! The text by which a client names its room.
ghost use Rattle.std.specs.Prelude.{◌≡◌, ◌<◌, ◌^◌, ℕ, Some, IfOk, IfErr, IfSome, MatchOption};
ghost use Rattle.link_texts.specs.Hearing.{IfRefused};
ghost use Rattle.link_texts.specs.Joins.{join_val, IsJoin, IsNoJoin};
ghost use Rattle.link_texts.specs.declared.fault.WireFault.TheVariants as wire;
ghost use Rattle.link_texts.specs.declared.join.Join.{Join};
ghost use Rattle.rooms_val.specs.Json.{text_of};
ghost use Rattle.rooms_val.specs.Kinds.{as_truth};
ghost use Rattle.rooms_val.specs.View.{data_of};
ghost use Rattle.rooms_val.specs.declared.fault.ValFault.TheVariants as val_fault;

use crate::fault::{Unheard, WireFault};
use rooms_val::order::equal_is_same;
use rooms_val::{Fields, Mem, Text, Val, ValFault};
use std::alloc::Global;

/// The first text of a client: the room that it joins, and how.
#[derive(Clone, Copy, Debug, PartialEq, Eq)]
pub struct Join {
    /// Whether the session only reads.
    pub readonly: bool,
    /// The number of the room.
    pub room: u32,
}

impl Join {
    /// Reads a text that names one of so many rooms. Its fields may stand in any order.
    ///
    /// # Errors
    ///
    /// `Refused(Join)` exactly if the text isn't that of a join, or its room is none of those.
    /// `OutOfMemory` if memory was refused.
    ///
    /// Costs the text.
    pub fn read(alloc: Global, bytes: &[u8], rooms: u32) -> Result<Join, Unheard>
        ensures found { IfOk result (IsJoin rooms bytes.now) }
        ensures refused { IfErr result (IfRefused (λ fault.
            (fault ≡ wire.Join) × IsNoJoin rooms bytes.now)) }
    {
        let val = match Val::read(alloc, bytes) {
            Ok(val) => val,
            Err(fault) => return Err(no_value(fault)),
        };
        match join_in(alloc, &val, rooms)? {
            Some(join) => Ok(join),
            None => Err(Unheard::Refused(WireFault::Join)),
        }
    }

    /// The text of the join, in UTF-8.
    pub fn print(&self, alloc: Global) -> Mem<Vec<u8>>
        ensures text { IfOk result (λ text. text.items ≡ text_of (join_val self.now)) }
        ensures reads_back { IfOk result (λ text.
            (rooms : ℕ) → self.now.room < rooms → IsJoin rooms text.items self.now) }
    {
        self.val(alloc)?.print(alloc)
    }

    // The value of the join.
    fn val(self, alloc: Global) -> Mem<Val>
        ensures value { IfOk result (λ val. data_of val ≡ join_val self) }
        ensures small { self.room < 2 ^ 32 }
    {
        let fields = Fields::new(alloc).with(alloc, "readonly", Val::Bool(self.readonly))?;
        let fields = fields.with(alloc, "room", Val::Int(i64::from(self.room)))?;
        let fields = fields.with(alloc, "type", Val::Text(Text::of(alloc, "join")?))?;
        Ok(Val::Map(fields))
    }
}

// Why a text that is no value isn't taken.
fn no_value(fault: ValFault) -> Unheard
    ensures { IfRefused (λ why. (why ≡ wire.Join) × ¬ (fault ≡ val_fault.OutOfMemory)) result }
{
    match fault {
        ValFault::OutOfMemory => Unheard::OutOfMemory,
        _ => Unheard::Refused(WireFault::Join),
    }
}

// The join whose value this is, if its room is one of so many.
fn join_in(alloc: Global, val: &Val, rooms: u32) -> Mem<Option<Join>>
    ensures { IfOk result (λ found. MatchOption found
        ((join : Join) → join.room < rooms → ¬ (data_of val.now ≡ join_val join))
        (λ join. (data_of val.now ≡ join_val join) × (join.room < rooms))) }
{
    let Some(join) = named_in(val, rooms) else {
        return Ok(None);
    };
    let whole = join.val(alloc)?;
    equal_is_same();
    if *val == whole {
        Ok(Some(join))
    } else {
        Ok(None)
    }
}

// The join that a value has under its keys, if there is one and its room is one of so many. The
// value may have more beside, and another type.
fn named_in(val: &Val, rooms: u32) -> Option<Join>
    ensures there { IfSome result (λ join. join.room < rooms) }
    ensures only { (join : Join) → join.room < rooms → data_of val.now ≡ join_val join →
        result ≡ Some join }
{
    let readonly = truth_of(val.get("readonly")?)?;
    let number = val.get("room")?.as_int()?;
    let Ok(room) = u32::try_from(number) else {
        return None;
    };
    if room < rooms {
        Some(Join { readonly, room })
    } else {
        None
    }
}

// The truth value that a value is.
fn truth_of(val: &Val) -> Option<bool>
    ensures { result ≡ as_truth (data_of val.now) }
{
    match val {
        Val::Bool(truth) => Some(*truth),
        _ => None,
    }
}
