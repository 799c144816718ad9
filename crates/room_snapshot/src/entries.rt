//! What a field of a line is: its key, and a value of the kind that the key has.
ghost use Rattle.std.specs.Prelude.{◌≡◌, ℤ, List, IfOk, IfErr};
ghost use Rattle.rooms_val.specs.Data.{Data, Pairs, whole, list, items_of, map, members_of};
ghost use Rattle.rooms_val.specs.View.{data_of, field_of};

use rooms_val::{Fields, OpFault, Text, Val, Vals};

/// The value of a field with this key. Refused exactly where the key is another one.
pub(crate) fn val_in<'a>(entry: &'a (Text, Val), key: &str) -> Result<&'a Val, OpFault>
    ensures found { IfOk result (λ v. field_of entry.now ≡ (key.now, data_of v.now)) }
    ensures only { IfErr result (λ _. (d : Data) → ¬ (field_of entry.now ≡ (key.now, d))) }
{
    if entry.0.as_str() == key {
        Ok(&entry.1)
    } else {
        Err(OpFault::WrongKind)
    }
}

/// The whole number in a field with this key. Refused exactly where it is no such field.
pub(crate) fn number_in(entry: &(Text, Val), key: &str) -> Result<i64, OpFault>
    ensures found { IfOk result (λ z. field_of entry.now ≡ (key.now, whole z)) }
    ensures only { IfErr result (λ _. (z : ℤ) → ¬ (field_of entry.now ≡ (key.now, whole z))) }
{
    match val_in(entry, key)? {
        Val::Int(number) => Ok(*number),
        _ => Err(OpFault::WrongKind),
    }
}

/// The list in a field with this key. Refused exactly where it is no such field.
pub(crate) fn list_in<'a>(entry: &'a (Text, Val), key: &str) -> Result<&'a Vals, OpFault>
    ensures found { IfOk result (λ l. field_of entry.now ≡ (key.now, list (items_of l.now))) }
    ensures only { IfErr result (λ _.
        (ds : List Data) → ¬ (field_of entry.now ≡ (key.now, list (items_of ds)))) }
{
    match val_in(entry, key)? {
        Val::List(items) => Ok(items),
        _ => Err(OpFault::WrongKind),
    }
}

/// The map in a field with this key. Refused exactly where it is no such field.
pub(crate) fn map_in<'a>(entry: &'a (Text, Val), key: &str) -> Result<&'a Fields, OpFault>
    ensures found { IfOk result (λ m. field_of entry.now ≡ (key.now, map (members_of m.now))) }
    ensures only { IfErr result (λ _.
        (ps : Pairs) → ¬ (field_of entry.now ≡ (key.now, map (members_of ps)))) }
{
    match val_in(entry, key)? {
        Val::Map(fields) => Ok(fields),
        _ => Err(OpFault::WrongKind),
    }
}
