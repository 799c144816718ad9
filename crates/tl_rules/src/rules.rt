//! The rules of a board.
ghost use Rattle.tl_rules.specs.Meaning.{tl_meaning};
ghost use Rattle.tl_rules.specs.Lawful.{tl_lawful};
ghost use Rattle.tl_rules.specs.Exact.{same_keys, same_values};

use crate::bound::{ask_bound, ask_count};
use crate::boxes::ask_box;
use crate::ids::Ids;
use crate::key::TlKey;
use crate::tree::ask_tree;
use crate::value::TlValue;
use rooms_val::{Mem, Steps};
use signal_rules::{Ask, Rules};
use std::alloc::Global;
use std::sync::ledger::Ledger;

/// The rules of a board: what each key asks for, and what it comes to.
///
/// Bindings, counts and boxes find what they need next at once. A tree walks through the answers so far, but for the
/// children of the page itself. No answer is copied before the last ask.
#[derive(Clone, Copy)]
pub struct TlRules;

impl Rules for TlRules {
    type Key = TlKey;

    type Value = TlValue;

    ghost meaning = { λ _. tl_meaning };

    fn rank(&self, key: &TlKey) -> u8 {
        key.rank()
    }

    fn blank(&self, alloc: Global, key: &TlKey) -> Mem<TlValue> {
        match key {
            TlKey::Rec(_) => Ok(TlValue::Rec(None)),
            _ => Ok(TlValue::Ids(Ids::new())),
        }
    }

    fn ask<L: Ledger>(
        &self,
        alloc: Global,
        key: &TlKey,
        got: &[TlValue],
        steps: &mut Steps<L>,
    ) -> Mem<Ask<TlKey, TlValue>> {
        steps.tick();
        match key {
            TlKey::Bound(id) => ask_bound(alloc, id, got),
            TlKey::Tree(page) => ask_tree(alloc, page, got),
            TlKey::Count(page) => ask_count(alloc, page, got),
            TlKey::Box(id, level) => ask_box(alloc, id, *level, got),
            TlKey::Rec(_) | TlKey::ByParent(_) | TlKey::BoundFrom(_) | TlKey::BoundTo(_) => {
                unreachable!()
            }
        }
    }

    fn copy_key(&self, alloc: Global, key: &TlKey) -> Mem<TlKey> {
        key.copy(alloc)
    }

    fn copy_value(&self, alloc: Global, value: &TlValue) -> Mem<TlValue> {
        value.copy(alloc)
    }

    ghost lawful = { λ _. tl_lawful };

    ghost same_keys = { same_keys };

    ghost same_values = { same_values };
}
