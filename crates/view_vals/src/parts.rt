//! Lists that begin with a name.
ghost use Rattle.std.specs.Prelude.{◌≡◌, ℕ, ℤ, ◌∷◌, ◌++◌, [], List, IfOk, IfErr};
ghost use Rattle.rooms_val.specs.Data.{Data, text, whole, list, items_of};
ghost use Rattle.rooms_val.specs.View.{data_of, items_view};
ghost use Rattle.rooms_val.specs.Answers.{Refuses};
ghost use Rattle.view_vals.specs.Queries as queries;

use rooms_val::{Mem, OpFault, Text, Val, Vals};
use std::alloc::Global;

/// The list of a name alone.
pub(crate) fn list_of_name(alloc: Global, name: &str) -> Mem<Vals>
    ensures { IfOk result (λ l. l ≡ text name.now ∷ []) }
{
    let mut parts = Vals::new(alloc);
    parts.push(Val::Text(Text::of(alloc, name)?))?;
    Ok(parts)
}

/// The list followed by a value.
pub(crate) fn with(mut parts: Vals, val: Val) -> Mem<Vals>
    ensures { IfOk result (λ l. l ≡ parts ++ data_of val ∷ []) }
{
    parts.push(val)?;
    Ok(parts)
}

/// The text with which a list begins, and what follows it. Refused exactly if the value is no list
/// that begins with a text.
pub(crate) fn name_and_rest(val: &Val) -> Result<(&Text, &[Val]), OpFault>
    ensures found { IfOk result (λ p.
        data_of val.now ≡ queries.named p.0.now (items_view p.1.now)) }
    ensures refused { IfErr result (Refuses
        ((name : List ℕ) (rest : List Data) → ¬ (data_of val.now ≡ queries.named name rest))) }
{
    let Val::List(items) = val else {
        return Err(OpFault::WrongKind);
    };
    let Some((first, rest)) = items.as_slice().split_first() else {
        return Err(OpFault::WrongKind);
    };
    match first {
        Val::Text(name) => Ok((name, rest)),
        _ => Err(OpFault::WrongKind),
    }
}

/// The one value of a slice. Refused exactly if the slice has none or several.
pub(crate) fn single(vals: &[Val]) -> Result<&Val, OpFault>
    ensures found { IfOk result (λ v. items_view vals.now ≡ data_of v.now ∷ []) }
    ensures refused { IfErr result (Refuses ((d : Data) → ¬ (items_view vals.now ≡ d ∷ []))) }
{
    match vals {
        [val] => Ok(val),
        _ => Err(OpFault::WrongKind),
    }
}

/// The text and the value of a slice of these two. Refused exactly if the slice is another.
pub(crate) fn text_and_value(vals: &[Val]) -> Result<(&Text, &Val), OpFault>
    ensures found { IfOk result (λ p. items_view vals.now ≡ text p.0.now ∷ data_of p.1.now ∷ []) }
    ensures refused { IfErr result (Refuses
        ((t : List ℕ) (d : Data) → ¬ (items_view vals.now ≡ text t ∷ d ∷ []))) }
{
    let [first, second] = vals else {
        return Err(OpFault::WrongKind);
    };
    match first {
        Val::Text(text) => Ok((text, second)),
        _ => Err(OpFault::WrongKind),
    }
}

/// The text and the whole number of a slice of these two. Refused exactly if the slice is another.
pub(crate) fn text_and_number(vals: &[Val]) -> Result<(&Text, i64), OpFault>
    ensures found { IfOk result (λ p. items_view vals.now ≡ text p.0.now ∷ whole p.1 ∷ []) }
    ensures refused { IfErr result (Refuses
        ((t : List ℕ) (z : ℤ) → ¬ (items_view vals.now ≡ text t ∷ whole z ∷ []))) }
{
    let (text, val) = text_and_value(vals)?;
    match val {
        Val::Int(number) => Ok((text, *number)),
        _ => Err(OpFault::WrongKind),
    }
}

/// The values of the one list of a slice. Refused exactly if the slice is another.
pub(crate) fn single_list(vals: &[Val]) -> Result<&[Val], OpFault>
    ensures found { IfOk result (λ items.
        items_view vals.now ≡ list (items_of (items_view items.now)) ∷ []) }
    ensures refused { IfErr result (Refuses
        ((ds : List Data) → ¬ (items_view vals.now ≡ list (items_of ds) ∷ []))) }
{
    match single(vals)? {
        Val::List(items) => Ok(items.as_slice()),
        _ => Err(OpFault::WrongKind),
    }
}
