//! The kinds of checks.
ghost use Rattle.std.specs.Prelude.{◌≡◌, IfOk, map};
ghost use Rattle.std.specs.Result.{result_err};
ghost use Rattle.std.specs.Option.{option_copied};

use crate::check_table::Checks;
use crate::inner::Inner;
use crate::plain::{
    check_dict, check_id, check_key, check_length, check_listed, check_truth, check_whole,
};
use crate::reject::{Reject, RejectKind, at};
use crate::texts::Texts;
use rooms_val::{Mem, Val};
use std::alloc::Global;

/// What a value must be.
#[cycle(check)]
#[derive(Drop)]
pub enum Check {
    /// A whole number from the first bound to the second, both among them.
    Whole(i64, i64),
    /// A text of at most this many bytes.
    Text(u64),
    /// One of these texts.
    Enum(Texts),
    /// `true` or `false`.
    Bool,
    /// A valid index key of at most 256 characters.
    Key,
    /// An id of one of these types.
    Id(Texts),
    /// `null`, or what the check wants.
    Nullable(Inner),
    /// A list whose items fit the check.
    ListOf(Inner),
    /// A map with any keys and values.
    Dict,
    /// A map with exactly these keys, each with a value that fits its check.
    Object(Checks),
    /// As a field of an `Object`: what the check wants that stands here under the text in the sibling field `type`.
    ByType(Checks),
    /// Any value.
    Any,
}

impl Check {
    ghost use Rattle.rooms_val.specs.View.{data_of};
    ghost use Rattle.record_valid.specs.Tree.{one_of, id_of, nullable, list_of};
    ghost use Rattle.record_valid.specs.View.{tree_of};
    ghost use Rattle.record_valid.specs.Faults.{first_fault};

    /// A text that is one of these.
    pub fn one_of(alloc: Global, texts: &[&str]) -> Mem<Check>
        ensures { IfOk result (λ c. tree_of c ≡ one_of (map (λ t. t.now) texts.now)) }
    {
        Ok(Check::Enum(Texts::of(alloc, texts)?))
    }

    /// An id of one of these types.
    pub fn id_of(alloc: Global, types: &[&str]) -> Mem<Check>
        ensures { IfOk result (λ c. tree_of c ≡ id_of (map (λ t. t.now) types.now)) }
    {
        Ok(Check::Id(Texts::of(alloc, types)?))
    }

    /// `null`, or what the check wants.
    pub fn nullable(alloc: Global, check: Check) -> Mem<Check>
        ensures { IfOk result (λ c. tree_of c ≡ nullable (tree_of check)) }
    {
        Ok(Check::Nullable(Inner::new(alloc, check)?))
    }

    /// A list whose items fit the check.
    pub fn list_of(alloc: Global, check: Check) -> Mem<Check>
        ensures { IfOk result (λ c. tree_of c ≡ list_of (tree_of check)) }
    {
        Ok(Check::ListOf(Inner::new(alloc, check)?))
    }

    /// The first fault of a value that stands so deep, as a field of a map with this text under `type`, or with none.
    #[cycle(valid)]
    pub(crate) fn check_value(
        &self,
        val: &Val,
        depth: u32,
        kind: Option<&str>,
    ) -> Result<(), Reject>
        ensures { result_err result
            ≡ first_fault depth (option_copied kind.entry) (tree_of self.now) (data_of val.now) }
    {
        match self {
            Check::Whole(least, most) => at(depth, check_whole(val, *least, *most)),
            Check::Text(most) => at(depth, check_length(val, *most)),
            Check::Enum(texts) => at(depth, check_listed(val, texts.as_slice())),
            Check::Bool => at(depth, check_truth(val)),
            Check::Key => at(depth, check_key(val)),
            Check::Id(types) => at(depth, check_id(val, types.as_slice())),
            Check::Nullable(inner) => inner.check_nullable(val, depth, kind),
            Check::ListOf(inner) => inner.check_list(val, depth),
            Check::Dict => at(depth, check_dict(val)),
            Check::Object(fields) => fields.check_object(val, depth),
            Check::ByType(rows) => rows.check_row(val, depth, kind),
            Check::Any => Ok(()),
        }
    }
}
