//! The text of why an event can't happen.
ghost use Rattle.std.specs.Prelude.{◌≡◌, IfOk, Some};
ghost use Rattle.fault_texts.specs.Texts.{step_fault_text, connect_fault_text};
ghost use Rattle.fault_texts.specs.Texts.{clip_fault_text, paste_fault_text};

use crate::edit::{edit_fault_text, no_key_text};
use crate::words::with_word;
use rec_format::reason_text;
use room_model::fault::{ConnectFault, StepFault};
use room_model::{ClipFault, PasteFault};
use rooms_val::{Mem, OutOfMemory, Text};
use side_effects::EditFault;
use std::alloc::Global;

/// The text of why an event can't happen: the name of the fault, or of the fault of the edit or the
/// connection, with what that carries. It costs the text.
///
/// # Errors
///
/// `OutOfMemory` where the fault is that, or where memory is refused.
pub fn step_fault_text(alloc: Global, fault: &StepFault<EditFault>) -> Mem<Text>
    ensures { IfOk result (λ text. step_fault_text fault.now ≡ Some text) }
{
    match fault {
        StepFault::NoSuchClient => Text::of(alloc, "NoSuchClient"),
        StepFault::NoSuchSession => Text::of(alloc, "NoSuchSession"),
        StepFault::NothingThere => Text::of(alloc, "NothingThere"),
        StepFault::Edit(fault) => edit_fault_text(alloc, fault),
        StepFault::Connect(fault) => connect_fault_text(alloc, *fault),
        StepFault::NoMark => Text::of(alloc, "NoMark"),
        StepFault::Limit => Text::of(alloc, "Limit"),
        StepFault::Clip(fault) => clip_fault_text(alloc, fault),
        StepFault::NoClip => Text::of(alloc, "NoClip"),
        StepFault::Paste(fault) => paste_fault_text(alloc, fault),
        StepFault::OutOfMemory => Err(OutOfMemory),
    }
}

// The text of why there is nothing to copy.
fn clip_fault_text(alloc: Global, fault: &ClipFault) -> Mem<Text>
    ensures { IfOk result (λ text. clip_fault_text fault.now ≡ Some text) }
{
    match fault {
        ClipFault::NoShape(id) => with_word(alloc, "NoShape", id.as_str()),
        ClipFault::Doubled(id) => with_word(alloc, "Doubled", id.as_str()),
        ClipFault::TooMany => Text::of(alloc, "TooMany"),
        ClipFault::OutOfMemory => Err(OutOfMemory),
    }
}

// The text of why a clip isn't pasted.
fn paste_fault_text(alloc: Global, fault: &PasteFault) -> Mem<Text>
    ensures { IfOk result (λ text. paste_fault_text fault.now ≡ Some text) }
{
    match fault {
        PasteFault::Taken(id) => with_word(alloc, "Taken", id.as_str()),
        PasteFault::NoKey(fault) => no_key_text(alloc, *fault),
        PasteFault::OutOfMemory => Err(OutOfMemory),
    }
}

// The text of why a client can't connect.
fn connect_fault_text(alloc: Global, fault: ConnectFault) -> Mem<Text>
    ensures { IfOk result (λ text. connect_fault_text fault ≡ Some text) }
{
    match fault {
        ConnectFault::AlreadyOpen => Text::of(alloc, "AlreadyOpen"),
        ConnectFault::Refused(reason) => with_word(alloc, "Refused", reason_text(reason)),
        ConnectFault::OutOfMemory => Err(OutOfMemory),
    }
}
