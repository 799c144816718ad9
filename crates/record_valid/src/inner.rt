//! A check inside another.
ghost use Rattle.std.specs.Prelude.{◌≡◌, IfOk, None};
ghost use Rattle.std.specs.Result.{result_err};
ghost use Rattle.std.specs.Option.{option_copied};

use crate::reject::{Reject, RejectKind, at};
use crate::tree::Check;
use rooms_val::{Mem, Val};
use std::alloc::Global;
use std::marker::Model;

/// A check that stands in a box. Contracts see its tree.
#[cycle(check)]
#[derive(Drop)]
pub struct Inner {
    check: Box<Check>,
}

impl Model for Inner {
    ghost use Rattle.std.specs.Prelude.{suc};
    ghost use Rattle.record_valid.specs.Tree.{CheckTree, depth};
    ghost use Rattle.record_valid.specs.Code.{coded_tree};

    ghost Value = { CheckTree };

    ghost coded = { coded_tree };

    ghost use Rattle.record_valid.specs.View.{tree_of};

    ghost view = { λ i. tree_of i.check.value };

    ghost size = { λ c. suc (depth c) };

    ghost use Rattle.record_valid.specs.Falls.{inner_falls};

    ghost size_decreases = { λ i h. inner_falls i.check.value };
}

impl Inner {
    ghost use Rattle.rooms_val.specs.View.{data_of};
    ghost use Rattle.record_valid.specs.Tree.{list_of};
    ghost use Rattle.record_valid.specs.Faults.{first_fault, null_or};
    ghost use Rattle.record_valid.specs.View.{tree_of};

    /// Puts a check in a box.
    pub fn new(alloc: Global, check: Check) -> Mem<Inner>
        ensures { IfOk result (λ i. i ≡ tree_of check) }
    {
        Ok(Inner {
            check: Box::new(alloc, check)?,
        })
    }

    /// As `check_value`, where `null` fits too.
    #[cycle(valid)]
    pub(crate) fn check_nullable(
        &self,
        val: &Val,
        depth: u32,
        kind: Option<&str>,
    ) -> Result<(), Reject>
        ensures { result_err result ≡ null_or
            (first_fault depth (option_copied kind.entry) self.now (data_of val.now))
            (data_of val.now) }
    {
        match val {
            Val::Null => Ok(()),
            _ => self.check.check_value(val, depth, kind),
        }
    }

    /// The first fault of a list whose items are to fit.
    #[cycle(valid)]
    pub(crate) fn check_list(&self, val: &Val, depth: u32) -> Result<(), Reject>
        ensures { result_err result ≡ first_fault depth None (list_of self.now) (data_of val.now) }
    {
        let Val::List(items) = val else {
            return at(depth, Err(RejectKind::WrongKind));
        };
        for item in items.as_slice() {
            self.check.check_value(item, depth.saturating_add(1), None)?;
        }
        Ok(())
    }
}
