//! What a key comes to, and what an answer is of the kind that was asked for.
ghost use Rattle.std.specs.Prelude.{◌≡◌, ◌^◌, length, IfSome, IfOk};
ghost use Rattle.shape_tree.specs.Boxes.{HasSidesWithin};
ghost use Rattle.shape_tree.specs.View.{maybe_data};
ghost use Rattle.tl_rules.specs.Answers.{is_near, are_near, is_small};
ghost use Rattle.tl_rules.specs.Ids.{flat};

use crate::ids::{Ids, Part};
use rooms_val::{Mem, Val};
use shape_tree::Rect;
use std::alloc::Global;

/// What a key comes to.
#[derive(PartialEq, Eq, Drop)]
pub enum TlValue {
    /// The record, if there is one.
    Rec(Option<Val>),
    /// Ids, in order.
    Ids(Ids),
    /// How many there are.
    Number(u64),
    /// The box, if there is one.
    Rect(Option<Rect>),
}

// How far a side of a box may be away from 0.
const MOST_SIDE: i64 = 576_460_752_303_423_488;

impl TlValue {
    ghost use Rattle.tl_rules.specs.Answers.{record_in, ids_in, box_in};

    /// The record, if it is one.
    pub fn record(&self) -> Option<&Val>
        ensures { maybe_data result ≡ record_in self.now }
    {
        match self {
            TlValue::Rec(Some(record)) => Some(record),
            _ => None,
        }
    }

    /// The ids, which are shared; none if it is something else.
    ///
    /// # Errors
    ///
    /// Memory was refused.
    pub fn ids(&self) -> Mem<Ids>
        ensures { IfOk result (λ ids. ids ≡ ids_in self.now) }
    {
        match self {
            TlValue::Ids(ids) => ids.copy(),
            _ => Ok(Ids::new()),
        }
    }

    /// The parts of the ids in order; none if it is something else.
    pub fn parts(&self) -> &[Part]
        ensures { flat result.now ≡ ids_in self.now }
    {
        match self {
            TlValue::Ids(ids) => ids.parts(),
            _ => &[],
        }
    }

    /// How many ids there are; none if it is something else.
    pub fn count(&self) -> usize
        ensures { result ≡ length (ids_in self.now) }
    {
        match self {
            TlValue::Ids(ids) => ids.len(),
            _ => 0,
        }
    }

    /// The box, if it is one and its sides are at most 2^59 away from 0, as those are that are computed.
    pub fn rect(&self) -> Option<Rect>
        ensures value { result ≡ box_in self.now }
        ensures small { IfSome result (HasSidesWithin (2 ^ 59)) }
    {
        match self {
            TlValue::Rect(Some(rect)) => { if is_small(*rect) { Some(*rect) } else { None } }
            _ => None,
        }
    }

    /// An equal value.
    ///
    /// # Errors
    ///
    /// Memory was refused.
    pub fn copy(&self, alloc: Global) -> Mem<TlValue>
        ensures { IfOk result (λ v. v ≡ self.now) }
    {
        Ok(match self {
            TlValue::Rec(None) => TlValue::Rec(None),
            TlValue::Rec(Some(record)) => TlValue::Rec(Some(copy_record(alloc, record)?)),
            TlValue::Ids(ids) => TlValue::Ids(ids.copy()?),
            TlValue::Number(number) => TlValue::Number(*number),
            TlValue::Rect(rect) => TlValue::Rect(*rect),
        })
    }
}

// An equal record. Values that stand for the same are the same.
fn copy_record(alloc: Global, val: &Val) -> Mem<Val>
    ensures { IfOk result (λ v. v ≡ val.now) }
{
    val.copy(alloc)
}

// Whether the sides of the box are near enough to 0.
fn is_small(rect: Rect) -> bool
    ensures { result ≡ is_small rect }
{
    are_near(rect.x, rect.w) && are_near(rect.y, rect.h)
}

// Whether a stretch begins and ends near enough to 0.
fn are_near(start: i64, size: i64) -> bool
    ensures { result ≡ are_near start size }
{
    match start.checked_add(size) {
        Some(end) => is_near(start) && is_near(end),
        None => false,
    }
}

// Whether a side is near enough to 0.
fn is_near(side: i64) -> bool
    ensures { result ≡ is_near side }
{
    -MOST_SIDE <= side && side <= MOST_SIDE
}
