//! What a store of records is.
ghost use Rattle.std.specs.Prelude.{◌≡◌, ◌≢◌, ◌+◌, ◌≤◌, ◌↔◌, [], ◌∷◌, length, map, IfOk, OnOk, OnErr, option_map};
ghost use Rattle.doc_store.specs.declared.store.TheConstants.{MOST_OPEN};

use rooms_val::{Mem, Steps, Text, TxnFault, Val};
use std::alloc::Global;
use std::sync::ledger::Ledger;

/// How many transactions of one store may be open at a time. A transaction counts from its `begin` until its `commit` or
/// `abort`; so does the one that `apply` begins for a diff. Where so many or more are open, `begin` and `apply` are refused.
pub const MOST_OPEN: usize = 16;

/// Records by id, with transactions that nest up to 16 deep.
pub trait DocStore {
    ghost use Rattle.std.specs.Prelude.{List};
    ghost use Rattle.rooms_val.specs.Data.{Pairs, members_of, IsSound, map as map_data};
    ghost use Rattle.rooms_val.specs.Maps.{value_at, set_at};
    ghost use Rattle.rooms_val.specs.View.{data_of};
    ghost use Rattle.field_ops.specs.View.{maybe_data};
    ghost use Rattle.doc_store.specs.Begun.{outer};

    // The records by id.
    ghost records: { Self → Pairs };

    // The records when each open transaction began, the newest first.
    ghost begun: { Self → List Pairs };

    // What the store holds beside them, which no call of the trait changes.
    ghost Rest: { Type 0 };

    ghost rest: { Self → Self.Rest };

    /// The record of an id. `None` exactly where there is none.
    fn get(&self, id: &str) -> Option<&Val>
        ensures found { option_map (λ v. data_of v.now) result
            ≡ value_at (records self.now) id.now }
        ensures sound { IsSound (map_data (members_of (records self.now))) };

    /// The ids of the records, in order.
    fn ids(&self, alloc: Global) -> Mem<Vec<Text>>
        ensures { IfOk result (λ ids. ids.items ≡ map (λ p. p.0) (records self.now)) };

    /// Sets the record of an id, or takes it away, and returns the one before. It counts one step. Where memory is
    /// refused the records are as before, and at most one step is counted.
    fn write<L: Ledger>(
        &mut self,
        alloc: Global,
        id: &str,
        stored: Option<Val>,
        steps: &mut Steps<L>,
    ) -> Mem<Option<Val>>
        ensures old { IfOk result (λ r. maybe_data r ≡ value_at (records self.old) id.now) }
        ensures ok { OnOk result
            (records self.new ≡ set_at (records self.old) id.now (maybe_data stored)) }
        ensures err { OnErr result (records self.new ≡ records self.old) }
        ensures ticked { OnOk result (steps.new ≡ steps.old + 1) }
        ensures untold { OnErr result (steps.new ≤ steps.old + 1) }
        ensures begun { begun self.new ≡ begun self.old }
        ensures rest { rest self.new ≡ rest self.old };

    /// Opens a transaction. `TooNested` exactly where 16 or more are open, or `OutOfMemory`; then none more is open. It
    /// copies no record.
    fn begin(&mut self) -> Result<(), TxnFault>
        ensures ok { OnOk result (begun self.new ≡ records self.old ∷ begun self.old) }
        ensures nested { (result ≡ Err TxnFault.TooNested) ↔ (MOST_OPEN ≤ length (begun self.old)) }
        ensures err { OnErr result (begun self.new ≡ begun self.old) }
        ensures records { records self.new ≡ records self.old }
        ensures rest { rest self.new ≡ rest self.old };

    /// Closes the newest transaction, of which there is one, and keeps what was written in it.
    fn commit(&mut self)
        requires { begun self.old ≢ [] }
        ensures begun { begun self.new ≡ outer (begun self.old) }
        ensures records { records self.new ≡ records self.old }
        ensures rest { rest self.new ≡ rest self.old };

    /// Closes the newest transaction, of which there is one, and brings back the records with which it began.
    fn abort(&mut self)
        requires { begun self.old ≢ [] }
        ensures restored { begun self.old ≡ records self.new ∷ begun self.new }
        ensures rest { rest self.new ≡ rest self.old };
}
