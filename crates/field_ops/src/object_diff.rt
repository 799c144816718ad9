//! The keys of a patch with their operations.
ghost use Rattle.std.specs.Prelude.{◌≡◌, [], length, IfOk, OnOk, OnErr, option_map, slice_get, IsTrue, ◌↔◌};

use crate::value_op::ValueOp;
use rooms_val::{Fields, Mem, OpFault, Text, entries};
use std::alloc::Global;
use std::marker::Model;

/// What happens to the keys of a map. Contracts see its pairs, whose keys rise by bytes.
#[cycle(op)]
#[derive(Drop)]
pub struct ObjectDiff {
    entries: Vec<(Text, ValueOp)>,
}

impl Model for ObjectDiff {
    ghost use Rattle.std.specs.Prelude.{List, suc};
    ghost use Rattle.field_ops.specs.ValueOps.{Patch, edits_of, edits_depth, IsSoundPatch};
    ghost use Rattle.field_ops.specs.Wire.{coded_patch};

    ghost Value = { Patch };

    ghost coded = { coded_patch };

    ghost use Rattle.field_ops.specs.View.{patch_view};

    ghost view = { λ d. patch_view d.entries.items };

    ghost invariant = { λ d. IsSoundPatch (patch_view d.entries.items) };

    ghost size = { λ ps. suc (edits_depth (edits_of ps)) };

    ghost use Rattle.field_ops.specs.Falls.{patch_fall};

    ghost size_decreases = { λ d h. patch_fall d.entries.items };
}

impl ObjectDiff {
    ghost use Rattle.field_ops.specs.ValueOps.{Patch, edits_of, edits_have_append, IsSoundPatch};
    ghost use Rattle.field_ops.specs.Wire.{patch_pairs};
    ghost use Rattle.rooms_val.specs.Maps.{added, value_at, with_key};
    ghost use Rattle.field_ops.specs.View.{edit_of, maybe_edit, patch_view};

    /// The patch that names no key.
    pub fn new(alloc: Global) -> ObjectDiff
        ensures { result ≡ [] }
    {
        ObjectDiff {
            entries: Vec::new(alloc),
        }
    }

    /// How many keys it names.
    pub fn len(&self) -> usize
        ensures count { result ≡ length self.now }
        ensures sound { IsSoundPatch self.now }
    {
        self.entries.len()
    }

    /// Whether it names no key.
    pub fn is_empty(&self) -> bool
        ensures { IsTrue result ↔ (self.now ≡ []) }
    {
        self.entries.is_empty()
    }

    /// The key at a place with its operation; places count from 0 in the order of the keys. `None` exactly past the end.
    pub fn at(&self, place: usize) -> Option<(&Text, &ValueOp)>
        ensures { option_map (λ e. (e.0.now, edit_of e.1.now)) result ≡ slice_get self.now place }
    {
        let entry = self.entries.get(place)?;
        Some((&entry.0, &entry.1))
    }

    /// The keys with their operations, in order.
    pub fn as_slice(&self) -> &[(Text, ValueOp)]
        ensures pairs { patch_view result.now ≡ self.now }
        ensures sound { IsSoundPatch self.now }
    {
        &self.entries
    }

    /// The operation on a key. `None` exactly where the patch doesn't name the key. It costs a logarithm of the patch's
    /// size.
    pub fn get(&self, key: &str) -> Option<&ValueOp>
        ensures { option_map (λ op. edit_of op.now) result ≡ value_at self.now key.now }
    {
        entries::get(&self.entries, key)
    }

    /// Sets the operation on a key, and returns the one before. Where memory is refused the patch is as before. A key
    /// beyond all others is added at the cost of one comparison.
    pub fn put(&mut self, key: Text, op: ValueOp) -> Mem<Option<ValueOp>>
        ensures old { IfOk result (λ o. option_map edit_of o ≡ value_at self.old key) }
        ensures ok { OnOk result (self.new ≡ with_key self.old key (edit_of op)) }
        ensures err { OnErr result (self.new ≡ self.old) }
    {
        // That an operation is sound is told by its name.
        let _ = op.name();
        let old = entries::put(&mut self.entries, key, op)?;
        Ok(old)
    }

    /// Sets the operation on a key, where there is one to set.
    pub(crate) fn keep(&mut self, alloc: Global, key: &Text, found: Option<ValueOp>) -> Mem<()>
        ensures ok { OnOk result (self.new ≡ added self.old key.now (maybe_edit found)) }
        ensures err { OnErr result (self.new ≡ self.old) }
    {
        if let Some(op) = found {
            self.put(key.copy(alloc)?, op)?;
        }
        Ok(())
    }

    /// The map by which it is sent and kept.
    #[cycle(print)]
    pub(crate) fn to_fields(&self, alloc: Global) -> Mem<Fields>
        ensures { IfOk result (λ f. f ≡ patch_pairs self.now) }
    {
        let mut fields = Fields::new(alloc);
        for (key, op) in &self.entries {
            fields.put(key.copy(alloc)?, op.to_val(alloc)?)?;
        }
        Ok(fields)
    }

    /// Reads a patch from the map by which it is sent. `WrongKind` exactly where the map is that of no patch, or
    /// `OutOfMemory`.
    #[cycle(read)]
    pub(crate) fn read(alloc: Global, fields: &Fields) -> Result<ObjectDiff, OpFault>
        ensures found { IfOk result (λ p. fields.now ≡ patch_pairs p) }
        ensures only { result ≡ Err OpFault.WrongKind → (p : Patch) → IsSoundPatch p
            → ¬ (fields.now ≡ patch_pairs p) }
    {
        let mut diff = ObjectDiff::new(alloc);
        for (key, val) in fields.as_slice() {
            diff.put(key.copy(alloc)?, ValueOp::read(alloc, val)?)?;
        }
        Ok(diff)
    }

    /// Whether an append stands anywhere in it.
    #[cycle(has_append)]
    pub(crate) fn has_append(&self) -> bool
        ensures { result ≡ edits_have_append (edits_of self.now) }
    {
        for (_, op) in &self.entries {
            if op.has_append() {
                return true;
            }
        }
        false
    }

    /// An equal patch.
    #[cycle(copy)]
    pub fn copy(&self, alloc: Global) -> Mem<ObjectDiff>
        ensures { IfOk result (λ d. d ≡ self.now) }
    {
        let mut entries = Vec::with_capacity(alloc, self.entries.len())?;
        for (key, op) in &self.entries {
            entries.push((key.copy(alloc)?, op.copy(alloc)?))?;
        }
        Ok(ObjectDiff { entries })
    }
}
