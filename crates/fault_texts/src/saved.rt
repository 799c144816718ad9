//! The texts of what keeps a room from beginning from a saved one.
ghost use Rattle.std.specs.Prelude.{◌≡◌, IfOk, Some};
ghost use Rattle.fault_texts.specs.Texts.{bad_record_text, load_fault_text, plan_fault_text, snap_fault_text};

use crate::line::val_fault_text;
use crate::words::with_word;
use migrate_seq::PlanFault;
use room_model::LoadFault;
use room_snapshot::fault::SnapFault;
use rooms_val::{Mem, OutOfMemory, Text};
use std::alloc::Global;

/// The text of the fault of a line that is no saved room's: its name, or the name of the fault of the
/// line's value. It costs the text.
///
/// # Errors
///
/// `OutOfMemory` where the fault is that, or where memory is refused.
pub fn snap_fault_text(alloc: Global, fault: SnapFault) -> Mem<Text>
    ensures { IfOk result (λ text. snap_fault_text fault ≡ Some text) }
{
    match fault {
        SnapFault::LineTooLong => Text::of(alloc, "LineTooLong"),
        SnapFault::Val(fault) => val_fault_text(alloc, fault),
        SnapFault::Shape => Text::of(alloc, "Shape"),
        SnapFault::OutOfMemory => Err(OutOfMemory),
    }
}

/// The text of why there is no plan: its name, and the sequence at fault. It costs the text.
///
/// # Errors
///
/// `OutOfMemory` where the fault is that, or where memory is refused.
pub fn plan_fault_text(alloc: Global, fault: &PlanFault) -> Mem<Text>
    ensures { IfOk result (λ text. plan_fault_text fault.now ≡ Some text) }
{
    match fault {
        PlanFault::TooNew(name) => with_word(alloc, "TooNew", name.as_str()),
        PlanFault::UnknownSequence(name) => with_word(alloc, "UnknownSequence", name.as_str()),
        PlanFault::OutOfMemory => Err(OutOfMemory),
    }
}

/// The text of a saved record or a removed id that is refused. It costs the text.
///
/// # Errors
///
/// Out of memory alone.
pub fn bad_record_text(alloc: Global, id: &Text) -> Mem<Text>
    ensures { IfOk result (λ text. text ≡ bad_record_text id.now) }
{
    with_word(alloc, "BadRecord", id.as_str())
}

/// The text of why no room begins from a saved one: its name, and the id at fault. It costs the text.
///
/// # Errors
///
/// `OutOfMemory` where the fault is that, or where memory is refused.
pub fn load_fault_text(alloc: Global, fault: &LoadFault) -> Mem<Text>
    ensures { IfOk result (λ text. load_fault_text fault.now ≡ Some text) }
{
    match fault {
        LoadFault::Clocks => Text::of(alloc, "Clocks"),
        LoadFault::BadRecord(id) => bad_record_text(alloc, id),
        LoadFault::TooLarge => Text::of(alloc, "TooLarge"),
        LoadFault::OutOfMemory => Err(OutOfMemory),
    }
}
