//! What a field of a message is: its key, and a value of the kind that the key has.
ghost use Rattle.std.specs.Prelude.{◌≡◌, ℕ, ℤ, List, Bool, IfOk, IfErr};
ghost use Rattle.rooms_val.specs.Data.{Data, whole, text, boolean};
ghost use Rattle.rooms_val.specs.View.{data_of, field_of};
ghost use Rattle.wire_msgs.specs.Events.{typed, IsClock};
ghost use Rattle.wire_msgs.specs.Messages.{hydration_word};
ghost use Rattle.sync_msgs.specs.declared.server_message.Hydration.{Hydration};

use rooms_val::{OpFault, Text, Val};
use sync_msgs::Hydration;

/// The value of a field with this key. Refused exactly where the key is another one.
pub(crate) fn val_in<'a>(entry: &'a (Text, Val), key: &str) -> Result<&'a Val, OpFault>
    ensures found { IfOk result (λ v. field_of entry.now ≡ (key.now, data_of v.now)) }
    ensures only { IfErr result (λ _. (d : Data) → ¬ (field_of entry.now ≡ (key.now, d))) }
{
    if entry.0.as_str() == key {
        Ok(&entry.1)
    } else {
        Err(OpFault::WrongKind)
    }
}

/// The whole number in a field with this key. Refused exactly where it is no such field.
pub(crate) fn number_in(entry: &(Text, Val), key: &str) -> Result<i64, OpFault>
    ensures found { IfOk result (λ z. field_of entry.now ≡ (key.now, whole z)) }
    ensures only { IfErr result (λ _. (z : ℤ) → ¬ (field_of entry.now ≡ (key.now, whole z))) }
{
    match val_in(entry, key)? {
        Val::Int(number) => Ok(*number),
        _ => Err(OpFault::WrongKind),
    }
}

/// The whole number from 0 in a field with this key. Refused exactly where it is no such field.
pub(crate) fn clock_in(entry: &(Text, Val), key: &str) -> Result<i64, OpFault>
    ensures found { IfOk result (λ z. (field_of entry.now ≡ (key.now, whole z)) × IsClock z) }
    ensures only { IfErr result (λ _.
        (z : ℤ) → IsClock z → ¬ (field_of entry.now ≡ (key.now, whole z))) }
{
    let clock = number_in(entry, key)?;
    if 0 <= clock {
        Ok(clock)
    } else {
        Err(OpFault::WrongKind)
    }
}

/// The text in a field with this key. Refused exactly where it is no such field.
pub(crate) fn text_in<'a>(entry: &'a (Text, Val), key: &str) -> Result<&'a Text, OpFault>
    ensures found { IfOk result (λ t. field_of entry.now ≡ (key.now, text t.now)) }
    ensures only { IfErr result (λ _.
        (t : List ℕ) → ¬ (field_of entry.now ≡ (key.now, text t))) }
{
    match val_in(entry, key)? {
        Val::Text(text) => Ok(text),
        _ => Err(OpFault::WrongKind),
    }
}

/// The truth value in a field with this key. Refused exactly where it is no such field.
pub(crate) fn truth_in(entry: &(Text, Val), key: &str) -> Result<bool, OpFault>
    ensures found { IfOk result (λ b. field_of entry.now ≡ (key.now, boolean b)) }
    ensures only { IfErr result (λ _.
        (b : Bool) → ¬ (field_of entry.now ≡ (key.now, boolean b))) }
{
    match val_in(entry, key)? {
        Val::Bool(truth) => Ok(*truth),
        _ => Err(OpFault::WrongKind),
    }
}

/// What a client keeps, in a field with this key. Refused exactly where it is no such field.
pub(crate) fn hydration_in(entry: &(Text, Val), key: &str) -> Result<Hydration, OpFault>
    ensures found { IfOk result (λ h. field_of entry.now ≡ (key.now, text (hydration_word h))) }
    ensures only { IfErr result (λ _.
        (h : Hydration) → ¬ (field_of entry.now ≡ (key.now, text (hydration_word h)))) }
{
    match text_in(entry, key)?.as_str() {
        "wipe_all" => Ok(Hydration::WipeAll),
        "wipe_presence" => Ok(Hydration::WipePresence),
        _ => Err(OpFault::WrongKind),
    }
}

/// Sees that a field says this type. Refused exactly where it doesn't.
pub(crate) fn check_type(entry: &(Text, Val), word: &str) -> Result<(), OpFault>
    ensures found { IfOk result (λ _. field_of entry.now ≡ typed word.now) }
    ensures only { IfErr result (λ _. ¬ (field_of entry.now ≡ typed word.now)) }
{
    if text_in(entry, "type")?.as_str() == word {
        Ok(())
    } else {
        Err(OpFault::WrongKind)
    }
}
