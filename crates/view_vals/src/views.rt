//! The values by which views are written.
ghost use Rattle.std.specs.Prelude.{◌≡◌, ℕ, List, [], ◌∷◌, IfOk, IfErr};
ghost use Rattle.rooms_val.specs.Data.{text};
ghost use Rattle.rooms_val.specs.View.{data_of, pairs_view};
ghost use Rattle.rooms_val.specs.Answers.{Refuses};
ghost use Rattle.view_vals.specs.Views.{view_data, text_alone, IsNoView};

use rooms_val::{Fields, Mem, OpFault, Text, Val};
use shape_tree::View;
use std::alloc::Global;

/// The view that a value stands for: a map of the one key `box`, `tree`, `bound` or `count`, with
/// any text under it. It costs the text.
///
/// # Errors
/// `WrongKind` exactly if the value is that of no view, or `OutOfMemory`.
pub fn read_view(alloc: Global, val: &Val) -> Result<View, OpFault>
    ensures found { IfOk result (λ v. data_of val.now ≡ view_data v) }
    ensures refused { IfErr result (Refuses (IsNoView (data_of val.now))) }
{
    let (key, id) = key_and_text(val)?;
    match key.as_str() {
        "box" => Ok(View::Box(id.copy(alloc)?)),
        "tree" => Ok(View::Tree(id.copy(alloc)?)),
        "bound" => Ok(View::Bound(id.copy(alloc)?)),
        "count" => Ok(View::Count(id.copy(alloc)?)),
        _ => Err(OpFault::WrongKind),
    }
}

/// The value of a view. It costs the text.
pub fn view_val(alloc: Global, view: &View) -> Mem<Val>
    ensures { IfOk result (λ v. data_of v ≡ view_data view.now) }
{
    match view {
        View::Box(id) => text_alone(alloc, "box", id),
        View::Tree(page) => text_alone(alloc, "tree", page),
        View::Bound(id) => text_alone(alloc, "bound", id),
        View::Count(page) => text_alone(alloc, "count", page),
    }
}

// The key of a map that has no other, and the text under it. Refused exactly if the value is no
// such map.
fn key_and_text(val: &Val) -> Result<(&Text, &Text), OpFault>
    ensures found { IfOk result (λ p. data_of val.now ≡ text_alone p.0.now p.1.now) }
    ensures refused { IfErr result (Refuses
        ((key id : List ℕ) → ¬ (data_of val.now ≡ text_alone key id))) }
{
    match val {
        Val::Map(fields) => Ok(only_entry(fields.as_slice())?),
        _ => Err(OpFault::WrongKind),
    }
}

// The one key of these, and the text under it. Refused exactly if there are none or several, or no
// text.
fn only_entry(entries: &[(Text, Val)]) -> Result<(&Text, &Text), OpFault>
    ensures found { IfOk result (λ p. pairs_view entries.now ≡ (p.0.now, text p.1.now) ∷ []) }
    ensures refused { IfErr result (Refuses
        ((key id : List ℕ) → ¬ (pairs_view entries.now ≡ (key, text id) ∷ []))) }
{
    let [entry] = entries else {
        return Err(OpFault::WrongKind);
    };
    match &entry.1 {
        Val::Text(text) => Ok((&entry.0, text)),
        _ => Err(OpFault::WrongKind),
    }
}

// The map of a text under a key alone.
fn text_alone(alloc: Global, key: &str, id: &Text) -> Mem<Val>
    ensures { IfOk result (λ v. data_of v ≡ text_alone key.now id.now) }
{
    let mut fields = Fields::new(alloc);
    fields.put(Text::of(alloc, key)?, Val::Text(id.copy(alloc)?))?;
    Ok(Val::Map(fields))
}
