//! The fields of a copy and of a paste.
ghost use Rattle.std.specs.Prelude.{◌≡◌, ◌++◌, ◌∷◌, [], ℕ, ℤ, List, IfOk, IfErr, OnOk, IsTrue, map};
ghost use Rattle.std.specs.List.{list_all};
ghost use Rattle.rooms_val.specs.Data.{whole, text};
ghost use Rattle.rooms_val.specs.View.{data_of, pairs_view, items_view};
ghost use Rattle.record_valid.specs.Ids.{is_unique_byte};
ghost use Rattle.shape_tree.specs.Views.{ids_data};
ghost use Rattle.room_model.specs.Clips.{is_prefix};
ghost use Rattle.rec_format.specs.Events.{event_fields, field_of, IsProper, IsMove, IsParentId};
ghost use Rattle.rec_format.specs.Rows.{IsOfNoEvent, RefusesRow};
ghost use Rattle.rec_format.specs.declared.verb.Verb.TheVariants as verb';

use crate::entries::{check_verb, number_in, text_in, val_in};
use crate::fault::{IllFormed, LineFault};
use crate::verb::Verb;
use record_valid::id_type;
use room_model::{Event, IdList};
use rooms_val::limits::GREATEST_WHOLE;
use rooms_val::{Mem, Text, Val};
use std::alloc::Global;

// The most characters of a prefix: four digits follow it in an id.
const LONGEST_PREFIX: usize = 60;

/// The copy that has these fields. `Field` exactly if it has none.
pub(crate) fn copy_event(alloc: Global, entries: &[(Text, Val)]) -> Result<Event, LineFault>
    ensures found { IfOk result (λ e. (pairs_view entries.now ≡ event_fields e) × IsProper e) }
    ensures refused { IfErr result (RefusesRow (IsOfNoEvent verb'.Copy (pairs_view entries.now))) }
{
    let [client, word, ids] = entries else {
        return Err(LineFault::Field);
    };
    check_verb(word, Verb::Copy)?;
    let client = number_in(client, "client")?;
    let ids = ids_of(alloc, val_in(ids, "ids")?)?;
    Ok(Event::Copy { client, ids })
}

/// The paste that has these fields. `Field` exactly if it has none.
pub(crate) fn paste_event(alloc: Global, entries: &[(Text, Val)]) -> Result<Event, LineFault>
    ensures found { IfOk result (λ e. (pairs_view entries.now ≡ event_fields e) × IsProper e) }
    ensures refused { IfErr result (RefusesRow (IsOfNoEvent verb'.Paste (pairs_view entries.now))) }
{
    let [client, word, dx, dy, parent, prefix] = entries else {
        return Err(LineFault::Field);
    };
    check_verb(word, Verb::Paste)?;
    let client = number_in(client, "client")?;
    let dx = move_in(dx, "dx")?;
    let dy = move_in(dy, "dy")?;
    let parent = parent_in(parent, "parent")?;
    let prefix = prefix_in(prefix, "prefix")?;
    Ok(Event::Paste {
        client,
        dx,
        dy,
        parent: parent.copy(alloc)?,
        prefix: prefix.copy(alloc)?,
    })
}

// The ids for which a value stands.
fn ids_of(alloc: Global, val: &Val) -> Result<IdList, LineFault>
    ensures found { IfOk result (λ ids. data_of val.now ≡ ids_data ids) }
    ensures refused { IfErr result (RefusesRow
        ((ids : List (List ℕ)) → ¬ (data_of val.now ≡ ids_data ids))) }
{
    match val {
        Val::List(vals) => Ok(IdList::of(texts_of(alloc, vals.as_slice())?)),
        _ => Err(LineFault::Field),
    }
}

// The texts that some values are.
fn texts_of(alloc: Global, vals: &[Val]) -> Result<Vec<Text>, LineFault>
    ensures found { IfOk result (λ ids. items_view vals.now ≡ map text ids.items) }
    ensures refused { IfErr result (RefusesRow
        ((ids : List (List ℕ)) → ¬ (items_view vals.now ≡ map text ids))) }
{
    let mut ids = Vec::new(alloc);
    'vals: for val in vals {
        let Val::Text(id) = val else {
            return Err(LineFault::Field);
        };
        add_copy(alloc, id, &mut ids)?;
    }
    Ok(ids)
}

// Adds a copy of a text.
fn add_copy(alloc: Global, id: &Text, ids: &mut Vec<Text>) -> Mem<()>
    ensures { OnOk result (ids.new.items ≡ ids.old.items ++ id.now ∷ []) }
{
    ids.push(id.copy(alloc)?)?;
    Ok(())
}

// The whole number in a field with this key, which is at most 2^53 - 1 on either side of 0. Refused exactly if it is no such
// field.
fn move_in(entry: &(Text, Val), key: &str) -> Result<i64, IllFormed>
    ensures found { IfOk result (λ z. (field_of entry.now ≡ (key.now, whole z)) × IsMove z) }
    ensures only { IfErr result (λ _.
        (z : ℤ) → IsMove z → ¬ (field_of entry.now ≡ (key.now, whole z))) }
{
    let Val::Int(number) = val_in(entry, key)? else {
        return Err(IllFormed);
    };
    if -GREATEST_WHOLE <= *number && *number <= GREATEST_WHOLE {
        Ok(*number)
    } else {
        Err(IllFormed)
    }
}

// The id of a page or a shape in a field with this key. Refused exactly if it is no such field.
fn parent_in<'a>(entry: &'a (Text, Val), key: &str) -> Result<&'a Text, IllFormed>
    ensures found { IfOk result (λ t.
        (field_of entry.now ≡ (key.now, text t.now)) × IsParentId t.now) }
    ensures only { IfErr result (λ _.
        (t : List ℕ) → IsParentId t → ¬ (field_of entry.now ≡ (key.now, text t))) }
{
    let id = text_in(entry, key)?;
    match id_type(id.as_str()) {
        Some("page" | "shape") => Ok(id),
        _ => Err(IllFormed),
    }
}

// The prefix of new ids in a field with this key. Refused exactly if it is no such field.
fn prefix_in<'a>(entry: &'a (Text, Val), key: &str) -> Result<&'a Text, IllFormed>
    ensures found { IfOk result (λ t.
        (field_of entry.now ≡ (key.now, text t.now)) × IsTrue (is_prefix t.now)) }
    ensures only { IfErr result (λ _.
        (t : List ℕ) → IsTrue (is_prefix t) → ¬ (field_of entry.now ≡ (key.now, text t))) }
{
    let prefix = text_in(entry, key)?;
    if is_prefix(prefix.as_str()) {
        Ok(prefix)
    } else {
        Err(IllFormed)
    }
}

// Whether a text is 1 to 60 characters that may stand after the `:` of an id.
fn is_prefix(prefix: &str) -> bool
    ensures { result ≡ is_prefix prefix.now }
{
    !prefix.is_empty() && prefix.len() <= LONGEST_PREFIX && are_unique_bytes(prefix.as_bytes())
}

// Whether each byte is one of `A-Z a-z 0-9 _ -`.
fn are_unique_bytes(bytes: &[u8]) -> bool
    ensures { result ≡ list_all is_unique_byte bytes.now }
{
    bytes.iter().all(|byte| is_unique_byte(*byte))
}

// Whether a byte is one of these.
fn is_unique_byte(byte: u8) -> bool
    ensures { result ≡ is_unique_byte byte }
{
    byte.is_ascii_alphanumeric() || byte == b'_' || byte == b'-'
}
