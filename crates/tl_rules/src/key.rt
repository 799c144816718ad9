//! What can be asked of a board.
ghost use Rattle.std.specs.Prelude.{◌≡◌, IfOk};

use crate::level::Level;
use rooms_val::{Mem, Text};
use std::alloc::Global;

/// What can be asked of a board. The first four are atoms, which a store sets; the others are computed.
#[derive(PartialEq, Eq, PartialOrd, Ord, Drop)]
pub enum TlKey {
    /// The record under an id.
    Rec(Text),
    /// The children of a page or shape, in order.
    ByParent(Text),
    /// The bindings that go from an id, by id.
    BoundFrom(Text),
    /// The bindings that go to an id, by id.
    BoundTo(Text),
    /// The bindings with an end at an id, by id.
    Bound(Text),
    /// The shapes below a page.
    Tree(Text),
    /// How many shapes are below a page.
    Count(Text),
    /// The box of a shape and of the shapes so many levels below it.
    Box(Text, Level),
}

impl TlKey {
    ghost use Rattle.tl_rules.specs.Meaning.{rank_of};

    /// The rank: 0 for an atom. A key asks for keys of lower ranks alone.
    pub fn rank(&self) -> u8
        ensures { result ≡ rank_of self.now }
    {
        match self {
            TlKey::Rec(_) | TlKey::ByParent(_) | TlKey::BoundFrom(_) | TlKey::BoundTo(_) => 0,
            TlKey::Bound(_) | TlKey::Tree(_) => 1,
            TlKey::Count(_) => 2,
            TlKey::Box(_, level) => 3 + level.number(),
        }
    }

    /// An equal key.
    ///
    /// # Errors
    ///
    /// Memory was refused.
    pub fn copy(&self, alloc: Global) -> Mem<TlKey>
        ensures { IfOk result (λ k. k ≡ self.now) }
    {
        Ok(match self {
            TlKey::Rec(id) => TlKey::Rec(id.copy(alloc)?),
            TlKey::ByParent(id) => TlKey::ByParent(id.copy(alloc)?),
            TlKey::BoundFrom(id) => TlKey::BoundFrom(id.copy(alloc)?),
            TlKey::BoundTo(id) => TlKey::BoundTo(id.copy(alloc)?),
            TlKey::Bound(id) => TlKey::Bound(id.copy(alloc)?),
            TlKey::Tree(page) => TlKey::Tree(page.copy(alloc)?),
            TlKey::Count(page) => TlKey::Count(page.copy(alloc)?),
            TlKey::Box(id, level) => TlKey::Box(id.copy(alloc)?, *level),
        })
    }
}
