//! What a field of an event is: its key, and a value of the kind that the key has.
ghost use Rattle.std.specs.Prelude.{◌≡◌, ℕ, List, Bool, IfOk, IfErr, pos};
ghost use Rattle.rooms_val.specs.Data.{Data, whole, text, boolean};
ghost use Rattle.rooms_val.specs.View.{data_of};
ghost use Rattle.rec_format.specs.Events.{field_of, does};
ghost use Rattle.tl_tables.specs.Tables.{IsVersion};

use crate::fault::IllFormed;
use crate::verb::Verb;
use rooms_val::{Text, Val};
use tl_tables::NEWEST_VERSION;

/// The value of a field with this key. Refused exactly where the key is another one.
pub(crate) fn val_in<'a>(entry: &'a (Text, Val), key: &str) -> Result<&'a Val, IllFormed>
    ensures found { IfOk result (λ v. field_of entry.now ≡ (key.now, data_of v.now)) }
    ensures only { IfErr result (λ _. (d : Data) → ¬ (field_of entry.now ≡ (key.now, d))) }
{
    if entry.0.as_str() == key {
        Ok(&entry.1)
    } else {
        Err(IllFormed)
    }
}

/// The whole number from 0 in a field with this key. Refused exactly where it is no such field.
pub(crate) fn number_in(entry: &(Text, Val), key: &str) -> Result<u64, IllFormed>
    ensures found { IfOk result (λ n. field_of entry.now ≡ (key.now, whole (pos n))) }
    ensures only { IfErr result (λ _.
        (n : ℕ) → ¬ (field_of entry.now ≡ (key.now, whole (pos n)))) }
{
    match val_in(entry, key)? {
        Val::Int(number) => u64::try_from(*number).ok().ok_or(IllFormed),
        _ => Err(IllFormed),
    }
}

/// The text in a field with this key. Refused exactly where it is no such field.
pub(crate) fn text_in<'a>(entry: &'a (Text, Val), key: &str) -> Result<&'a Text, IllFormed>
    ensures found { IfOk result (λ t. field_of entry.now ≡ (key.now, text t.now)) }
    ensures only { IfErr result (λ _.
        (t : List ℕ) → ¬ (field_of entry.now ≡ (key.now, text t))) }
{
    match val_in(entry, key)? {
        Val::Text(text) => Ok(text),
        _ => Err(IllFormed),
    }
}

/// The truth value in a field with this key. Refused exactly where it is no such field.
pub(crate) fn truth_in(entry: &(Text, Val), key: &str) -> Result<bool, IllFormed>
    ensures found { IfOk result (λ b. field_of entry.now ≡ (key.now, boolean b)) }
    ensures only { IfErr result (λ _.
        (b : Bool) → ¬ (field_of entry.now ≡ (key.now, boolean b))) }
{
    match val_in(entry, key)? {
        Val::Bool(truth) => Ok(*truth),
        _ => Err(IllFormed),
    }
}

/// The version of a schema in a field with this key. Refused exactly where it is no such field.
pub(crate) fn version_in(entry: &(Text, Val), key: &str) -> Result<u32, IllFormed>
    ensures found { IfOk result (λ v.
        (field_of entry.now ≡ (key.now, whole (pos v))) × IsVersion v) }
    ensures only { IfErr result (λ _.
        (v : ℕ) → IsVersion v → ¬ (field_of entry.now ≡ (key.now, whole (pos v)))) }
{
    let version = number_in(entry, key)?;
    if 1 <= version && version <= u64::from(NEWEST_VERSION) {
        Ok(version as u32)
    } else {
        Err(IllFormed)
    }
}

/// Sees that a field says what to do by this verb. Refused exactly where it doesn't.
pub(crate) fn check_verb(entry: &(Text, Val), verb: Verb) -> Result<(), IllFormed>
    ensures found { IfOk result (λ _. field_of entry.now ≡ does verb) }
    ensures only { IfErr result (λ _. ¬ (field_of entry.now ≡ does verb)) }
{
    if text_in(entry, "do")?.as_str() == verb.word() {
        Ok(())
    } else {
        Err(IllFormed)
    }
}
