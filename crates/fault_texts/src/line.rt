//! The text of a line's fault.
ghost use Rattle.std.specs.Prelude.{◌≡◌, IfOk, Some};
ghost use Rattle.fault_texts.specs.Texts.{line_fault_text, val_fault_text};

use rec_format::LineFault;
use rooms_val::{Mem, OutOfMemory, Text, ValFault};
use std::alloc::Global;

/// The text of a line's fault: its name, or the name of the fault of the line's value. It costs the
/// text.
///
/// # Errors
///
/// `OutOfMemory` where the fault is that, or where memory is refused.
pub fn line_fault_text(alloc: Global, fault: LineFault) -> Mem<Text>
    ensures { IfOk result (λ text. line_fault_text fault ≡ Some text) }
{
    match fault {
        LineFault::LineTooLong => Text::of(alloc, "LineTooLong"),
        LineFault::Val(fault) => val_fault_text(alloc, fault),
        LineFault::NoHeader => Text::of(alloc, "NoHeader"),
        LineFault::UnknownEvent => Text::of(alloc, "UnknownEvent"),
        LineFault::Field => Text::of(alloc, "Field"),
        LineFault::OutOfMemory => Err(OutOfMemory),
    }
}

// The name of a value's fault.
pub(crate) fn val_fault_text(alloc: Global, fault: ValFault) -> Mem<Text>
    ensures { IfOk result (λ text. val_fault_text fault ≡ Some text) }
{
    match fault {
        ValFault::BadJson => Text::of(alloc, "BadJson"),
        ValFault::NotWhole => Text::of(alloc, "NotWhole"),
        ValFault::OutOfRange => Text::of(alloc, "OutOfRange"),
        ValFault::TooDeep => Text::of(alloc, "TooDeep"),
        ValFault::OutOfMemory => Err(OutOfMemory),
    }
}
