//! Lists that begin with a name.
ghost use Rattle.std.specs.Prelude.{◌≡◌, ◌∷◌, ◌++◌, [], IfOk, IfErr, IfSome, IfNone};
ghost use Rattle.rooms_val.specs.Data.{Data, Items, text, items_of};
ghost use Rattle.rooms_val.specs.View.{data_of, items_view};
ghost use Rattle.field_ops.specs.Wire as wire;

use rooms_val::{Mem, OpFault, Text, Val, Vals};
use std::alloc::Global;

/// The list of a name alone.
pub fn list_of_name(alloc: Global, name: &str) -> Mem<Vals>
    ensures { IfOk result (λ l. l ≡ text name.now ∷ []) }
{
    let mut parts = Vals::new(alloc);
    parts.push(Val::Text(Text::of(alloc, name)?))?;
    Ok(parts)
}

/// The list followed by a value.
pub fn with(mut parts: Vals, val: Val) -> Mem<Vals>
    ensures { IfOk result (λ l. l ≡ parts ++ data_of val ∷ []) }
{
    parts.push(val)?;
    Ok(parts)
}

/// What follows the name in a list that begins with it. `None` exactly where the value is no such list.
pub fn arguments<'a>(val: &'a Val, name: &str) -> Option<&'a [Val]>
    ensures found { IfSome result
        (λ args. data_of val.now ≡ wire.named name.now (items_of (items_view args.now))) }
    ensures only { IfNone result ((ds : Items) → ¬ (data_of val.now ≡ wire.named name.now ds)) }
{
    let Val::List(items) = val else {
        return None;
    };
    let (first, rest) = items.as_slice().split_first()?;
    let Val::Text(text) = first else {
        return None;
    };
    if text.as_str() == name {
        Some(rest)
    } else {
        None
    }
}

/// The one value of a slice. `WrongKind` exactly where there are none or several.
pub fn single(vals: &[Val]) -> Result<&Val, OpFault>
    ensures found { IfOk result (λ v. items_view vals.now ≡ data_of v.now ∷ []) }
    ensures only { IfErr result
        (λ e. (e ≡ OpFault.WrongKind) × ((d : Data) → ¬ (items_view vals.now ≡ d ∷ []))) }
{
    let Some((first, rest)) = vals.split_first() else {
        return Err(OpFault::WrongKind);
    };
    if rest.is_empty() {
        Ok(first)
    } else {
        Err(OpFault::WrongKind)
    }
}
