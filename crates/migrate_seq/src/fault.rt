//! Why there is no plan, and why sequences don't fit together.
ghost use Rattle.std.specs.Prelude.{◌≡◌};
ghost use Rattle.migrate_seq.specs.declared.fault.PlanFault.TheVariants as plan_fault;
ghost use Rattle.migrate_seq.specs.declared.fault.SeqFault.TheVariants as seq_fault;

use rooms_val::{OutOfMemory, Text};
use std::fmt;
use std::marker::Model;
use thiserror::Error;

/// Why there is no plan from what somebody holds. The first name at fault, in the order of the names' bytes, is
/// returned.
#[derive(Drop, Error)]
pub enum PlanFault {
    /// This sequence is held at a version above its newest.
    #[error("a sequence is held at a version above its newest")]
    TooNew(Text),
    /// No sequence has this name.
    #[error("no sequence has a name that is held")]
    UnknownSequence(Text),
    /// Memory was refused.
    #[error("out of memory")]
    OutOfMemory,
}

impl From<OutOfMemory> for PlanFault {
    ghost from_gives = { λ _ e. e ≡ plan_fault.OutOfMemory };

    fn from(_refused: OutOfMemory) -> PlanFault {
        PlanFault::OutOfMemory
    }
}

/// Ids of migrations. Contracts see a list of texts.
#[derive(Drop)]
pub struct Ids {
    items: Vec<Text>,
}

impl Model for Ids {
    ghost use Rattle.std.specs.Prelude.{List, ℕ};

    ghost Value = { List (List ℕ) };

    ghost view = { λ i. i.items.items };
}

impl Ids {
    // Some ids.
    pub(crate) fn new(items: Vec<Text>) -> Ids
        ensures { result ≡ items.items }
    {
        Ids { items }
    }

    /// The ids in order.
    pub fn as_slice(&self) -> &[Text]
        ensures { result.now ≡ self.now }
    {
        &self.items
    }
}

/// Why sequences don't fit together. Of several causes the first in this order is returned, and under each the first
/// at fault in the order of the list.
#[derive(Drop, Error)]
pub enum SeqFault {
    /// The version in this migration's id isn't its place in its sequence, counted from 1.
    #[error("a version is not its place in its sequence")]
    Gap(Text),
    /// A sequence has this id, which is empty or has a `/`; or a migration has it, and it isn't its sequence's id, `/`
    /// and a decimal from 1.
    #[error("an id is not of its form")]
    BadId(Text),
    /// A sequence has the id of one before it.
    #[error("two sequences have one id")]
    Doubled(Text),
    /// A migration depends on this id, which no migration has.
    #[error("no migration has an id that another depends on")]
    UnknownDependency(Text),
    /// These migrations can't be put in an order, since each follows another of them: their ids, by the ids of their
    /// sequences and their versions.
    #[error("migrations follow one another in a circle")]
    Cycle(Ids),
    /// Memory was refused.
    #[error("out of memory")]
    OutOfMemory,
}

impl From<OutOfMemory> for SeqFault {
    ghost from_gives = { λ _ e. e ≡ seq_fault.OutOfMemory };

    fn from(_refused: OutOfMemory) -> SeqFault {
        SeqFault::OutOfMemory
    }
}

impl fmt::Debug for PlanFault {
    fn fmt<W: fmt::Write>(&self, f: &mut fmt::Formatter<W>) -> fmt::Result {
        write!(f, "{self}")
    }
}

impl fmt::Debug for SeqFault {
    fn fmt<W: fmt::Write>(&self, f: &mut fmt::Formatter<W>) -> fmt::Result {
        write!(f, "{self}")
    }
}
