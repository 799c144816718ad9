//! The text of an edit's fault.
ghost use Rattle.std.specs.Prelude.{◌≡◌, IfOk, Some};
ghost use Rattle.fault_texts.specs.Texts.{no_key_text, edit_fault_text, invalid_text};

use crate::record::record_fault_text;
use crate::words::with_word;
use index_keys::BetweenFault;
use rooms_val::{Mem, OutOfMemory, Text};
use schema_core::RecordFault;
use side_effects::EditFault;
use std::alloc::Global;

/// The text of an edit's fault: its name, the id that it carries, and why the record under that id
/// isn't admitted. It costs the text.
///
/// # Errors
///
/// `OutOfMemory` where the fault is that, or where memory is refused.
pub fn edit_fault_text(alloc: Global, fault: &EditFault) -> Mem<Text>
    ensures { IfOk result (λ text. edit_fault_text fault.now ≡ Some text) }
{
    match fault {
        EditFault::TooMany => Text::of(alloc, "TooMany"),
        EditFault::WrongScope(id) => with_word(alloc, "WrongScope", id.as_str()),
        EditFault::NoRecord(id) => with_word(alloc, "NoRecord", id.as_str()),
        EditFault::Invalid(id, fault) => invalid_text(alloc, id, fault),
        EditFault::NoKey(fault) => no_key_text(alloc, *fault),
        EditFault::LastPage => Text::of(alloc, "LastPage"),
        EditFault::NoParent(id) => with_word(alloc, "NoParent", id.as_str()),
        EditFault::UnderItself(id) => with_word(alloc, "UnderItself", id.as_str()),
        EditFault::NoEnd(id) => with_word(alloc, "NoEnd", id.as_str()),
        EditFault::OutOfMemory => Err(OutOfMemory),
    }
}

// The text of a new shape that gets no key.
pub(crate) fn no_key_text(alloc: Global, fault: BetweenFault) -> Mem<Text>
    ensures { IfOk result (λ text. no_key_text fault ≡ Some text) }
{
    match fault {
        BetweenFault::NotKey => with_word(alloc, "NoKey", "NotKey"),
        BetweenFault::NotLess => with_word(alloc, "NoKey", "NotLess"),
        BetweenFault::NoRoom => with_word(alloc, "NoKey", "NoRoom"),
        BetweenFault::KeyTooLong => with_word(alloc, "NoKey", "KeyTooLong"),
        BetweenFault::OutOfMemory => Err(OutOfMemory),
    }
}

// The text of a record that isn't admitted under its id.
fn invalid_text(alloc: Global, id: &Text, fault: &RecordFault) -> Mem<Text>
    ensures { IfOk result (λ text. text ≡ invalid_text id.now fault.now) }
{
    let named = with_word(alloc, "Invalid", id.as_str())?;
    with_word(alloc, named.as_str(), record_fault_text(fault))
}
