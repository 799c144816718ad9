//! Operations on the value at a key.
ghost use Rattle.std.specs.Prelude.{◌≡◌, ◌<◌, ◌^◌, ◌∷◌, [], List, ℕ, pos, IfOk, IfErr};
ghost use Rattle.rooms_val.specs.Data.{Data, map, whole};
ghost use Rattle.rooms_val.specs.View.{data_of, items_view};
ghost use Rattle.field_ops.specs.ValueOps.{ValueOpTree, Patch, edits_of, IsSoundPatch};
ghost use Rattle.field_ops.specs.View.{edit_of};
ghost use Rattle.field_ops.specs.Wire.{append_data, edit_data, edits_data, IsAppendable};

use crate::object_diff::ObjectDiff;
use crate::parts::{arguments, list_of_name, single, with};
use rooms_val::{Mem, OpFault, Text, Val, Vals};
use std::alloc::Global;

/// What happens to the value at a key of a map.
#[cycle(op)]
#[derive(Drop)]
pub enum ValueOp {
    /// The key gets the value.
    Put(Val),
    /// The map under the key is patched. Where no map is there, nothing happens.
    Patch(ObjectDiff),
    /// The list under the key is followed by the values. Where no list of that length is there, nothing happens.
    Append(Vals, u32),
    /// The text under the key is followed by the text. Where no text of that many bytes is there, nothing happens.
    AppendText(Text, u32),
    /// The key is taken away.
    Delete,
}

impl ValueOp {
    ghost use Rattle.field_ops.specs.ValueOps.{edit_name, edit_has_append, IsSoundEdit};

    /// Its name: `put`, `patch`, `append` or `delete`.
    pub fn name(&self) -> &'static str
        ensures name { result.now ≡ edit_name (edit_of self.now) }
        ensures sound { IsSoundEdit (edit_of self.now) }
    {
        match self {
            ValueOp::Put(val) => {
                let _ = val.kind();
                "put"
            }
            ValueOp::Patch(diff) => {
                let _ = diff.len();
                "patch"
            }
            ValueOp::Append(vals, offset) => {
                let _ = (vals.len(), *offset);
                "append"
            }
            ValueOp::AppendText(text, offset) => {
                let _ = (text.as_str().len(), *offset);
                "append"
            }
            ValueOp::Delete => "delete",
        }
    }

    /// The value by which it is sent and kept: a list of its name and what it holds.
    #[cycle(print)]
    pub(crate) fn to_val(&self, alloc: Global) -> Mem<Val>
        ensures { IfOk result (λ v. data_of v ≡ edit_data (edit_of self.now)) }
    {
        match self {
            ValueOp::Put(val) => Ok(Val::List(with(
                list_of_name(alloc, "put")?,
                val.copy(alloc)?,
            )?)),
            ValueOp::Patch(diff) => Ok(Val::List(with(
                list_of_name(alloc, "patch")?,
                Val::Map(diff.to_fields(alloc)?),
            )?)),
            ValueOp::Append(vals, offset) => append_val(
                alloc,
                Val::List(vals.copy(alloc)?),
                *offset,
            ),
            ValueOp::AppendText(text, offset) => append_val(
                alloc,
                Val::Text(text.copy(alloc)?),
                *offset,
            ),
            ValueOp::Delete => Ok(Val::List(list_of_name(alloc, "delete")?)),
        }
    }

    /// Reads an operation from the value by which it is sent. `WrongKind` exactly where the value is that of no
    /// operation, or `OutOfMemory`.
    #[cycle(read)]
    pub(crate) fn read(alloc: Global, val: &Val) -> Result<ValueOp, OpFault>
        ensures found { IfOk result (λ op. data_of val.now ≡ edit_data (edit_of op)) }
        ensures only { result ≡ Err OpFault.WrongKind → (e : ValueOpTree) → IsSoundEdit e
            → ¬ (data_of val.now ≡ edit_data e) }
    {
        if let Some(args) = arguments(val, "put") {
            let val = single(args)?;
            return Ok(ValueOp::Put(val.copy(alloc)?));
        }
        if let Some(args) = arguments(val, "patch") {
            return Ok(ValueOp::Patch(read_patch(alloc, args)?));
        }
        if let Some(args) = arguments(val, "append") {
            let (what, offset) = read_append(args)?;
            return append_of(alloc, what, offset);
        }
        if let Some(args) = arguments(val, "delete") {
            return if args.is_empty() {
                Ok(ValueOp::Delete)
            } else {
                Err(OpFault::WrongKind)
            };
        }
        Err(OpFault::WrongKind)
    }

    /// Whether an append stands anywhere in it.
    #[cycle(has_append)]
    pub(crate) fn has_append(&self) -> bool
        ensures { result ≡ edit_has_append (edit_of self.now) }
    {
        match self {
            ValueOp::Put(_) => false,
            ValueOp::Patch(diff) => diff.has_append(),
            ValueOp::Append(_, _) => true,
            ValueOp::AppendText(_, _) => true,
            ValueOp::Delete => false,
        }
    }

    /// An equal operation.
    #[cycle(copy)]
    pub fn copy(&self, alloc: Global) -> Mem<ValueOp>
        ensures { IfOk result (λ op. edit_of op ≡ edit_of self.now) }
    {
        Ok(match self {
            ValueOp::Put(val) => ValueOp::Put(val.copy(alloc)?),
            ValueOp::Patch(diff) => ValueOp::Patch(diff.copy(alloc)?),
            ValueOp::Append(vals, offset) => ValueOp::Append(vals.copy(alloc)?, *offset),
            ValueOp::AppendText(text, offset) => ValueOp::AppendText(text.copy(alloc)?, *offset),
            ValueOp::Delete => ValueOp::Delete,
        })
    }
}

// What a patch holds, which is one map of operations.
#[cycle(read)]
fn read_patch(alloc: Global, args: &[Val]) -> Result<ObjectDiff, OpFault>
    ensures found { IfOk result (λ p. items_view args.now ≡ map (edits_data (edits_of p)) ∷ []) }
    ensures only { result ≡ Err OpFault.WrongKind → (p : Patch) → IsSoundPatch p
        → ¬ (items_view args.now ≡ map (edits_data (edits_of p)) ∷ []) }
{
    match single(args)? {
        Val::Map(fields) => Ok(ObjectDiff::read(alloc, fields)?),
        _ => Err(OpFault::WrongKind),
    }
}

// What is appended, and an offset of 32 bits.
fn read_append(args: &[Val]) -> Result<(&Val, u32), OpFault>
    ensures found { IfOk result
        (λ a. items_view args.now ≡ data_of a.0.now ∷ whole (pos a.1) ∷ []) }
    ensures only { IfErr result (λ e. (e ≡ OpFault.WrongKind)
        × ((d : Data) (n : ℕ) → n < 2 ^ 32 → ¬ (items_view args.now ≡ d ∷ whole (pos n) ∷ []))) }
{
    let Some((what, rest)) = args.split_first() else {
        return Err(OpFault::WrongKind);
    };
    let Val::Int(number) = single(rest)? else {
        return Err(OpFault::WrongKind);
    };
    match u32::try_from(*number) {
        Ok(offset) => Ok((what, offset)),
        Err(_) => Err(OpFault::WrongKind),
    }
}

// The append of a list or a text. `WrongKind` exactly where the value is neither, or `OutOfMemory`.
fn append_of(alloc: Global, what: &Val, offset: u32) -> Result<ValueOp, OpFault>
    ensures found { IfOk result
        (λ op. edit_data (edit_of op) ≡ append_data (data_of what.now) offset) }
    ensures only { result ≡ Err OpFault.WrongKind → ¬ IsAppendable (data_of what.now) }
{
    match what {
        Val::List(vals) => Ok(ValueOp::Append(vals.copy(alloc)?, offset)),
        Val::Text(text) => Ok(ValueOp::AppendText(text.copy(alloc)?, offset)),
        _ => Err(OpFault::WrongKind),
    }
}

// The value of an append.
fn append_val(alloc: Global, what: Val, offset: u32) -> Mem<Val>
    ensures { IfOk result (λ v. data_of v ≡ append_data (data_of what) offset) }
{
    let parts = with(list_of_name(alloc, "append")?, what)?;
    Ok(Val::List(with(parts, Val::Int(i64::from(offset)))?))
}
