//! Laws of operations. Each function does nothing: its contract is the law.
ghost use Rattle.field_ops.specs.Laws as laws;

/// Each key of a patched map has what the key's operation makes of its value.
pub fn patches_by_key()
    ensures { laws.PatchesByKey }
{}

/// The patch that brings a map back has at each key what undoes the key's operation.
pub fn inverts_by_key()
    ensures { laws.InvertsByKey }
{}

/// The one patch that does two in turn has at each key the one operation that does both of the key.
pub fn composes_by_key()
    ensures { laws.ComposesByKey }
{}

/// An operation and then its inverse leave a record as it was.
pub fn inverse_brings_back()
    ensures { laws.InverseBringsBack }
{}

/// One operation does what two do in turn, where neither has an append.
pub fn in_turn_does_both()
    ensures { laws.InTurnDoesBoth }
{}

/// A sound operation leaves a sound record sound.
pub fn raw_is_sound()
    ensures { laws.RawIsSound }
{}

/// Each value is that of one operation at most, so that what was printed is read back.
pub fn one_operation_each()
    ensures { laws.OneOperationEach }
{}

/// Each value is that of one diff at most, so that what was printed is read back.
pub fn one_diff_each()
    ensures { laws.OneDiffEach }
{}
