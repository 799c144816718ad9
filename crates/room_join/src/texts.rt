//! The texts of faults.
ghost use Rattle.std.specs.Prelude.{◌≡◌, Some, IfOk};
ghost use Rattle.room_join.specs.Texts.{piece_fault_text, message_fault_text};
ghost use Rattle.room_join.specs.Texts.{wire_fault_text, take_fault_text};
ghost use Rattle.fault_texts.specs.Texts.{val_fault_text};

use link_texts::WireFault;
use rooms_val::{Mem, OutOfMemory, Text, ValFault};
use std::alloc::Global;
use sync_client::TakeFault;
use wire_msgs::MsgFault;
use wire_text::PieceFault;

/// The name of the innermost fault of a text that isn't taken.
pub(crate) fn wire_fault_text(alloc: Global, fault: WireFault) -> Mem<Text>
    ensures { IfOk result (λ text. wire_fault_text fault ≡ Some text) }
{
    match fault {
        WireFault::Join => Text::of(alloc, "Join"),
        WireFault::Piece(fault) => piece_fault_text(alloc, fault),
        WireFault::Message(fault) => message_fault_text(alloc, fault),
    }
}

// The name of a piece's fault.
fn piece_fault_text(alloc: Global, fault: PieceFault) -> Mem<Text>
    ensures { IfOk result (λ text. piece_fault_text fault ≡ Some text) }
{
    match fault {
        PieceFault::BadPiece => Text::of(alloc, "BadPiece"),
        PieceFault::OutOfTurn(_, _) => Text::of(alloc, "OutOfTurn"),
        PieceFault::TooLong => Text::of(alloc, "TooLong"),
        PieceFault::OutOfMemory => Err(OutOfMemory),
    }
}

// The name of a message's fault, or of that of its value.
fn message_fault_text(alloc: Global, fault: MsgFault) -> Mem<Text>
    ensures { IfOk result (λ text. message_fault_text fault ≡ Some text) }
{
    match fault {
        MsgFault::Val(fault) => val_fault_text(alloc, fault),
        MsgFault::UnknownType => Text::of(alloc, "UnknownType"),
        MsgFault::MissingField => Text::of(alloc, "MissingField"),
        MsgFault::ExtraField => Text::of(alloc, "ExtraField"),
        MsgFault::WrongKind => Text::of(alloc, "WrongKind"),
        MsgFault::OutOfMemory => Err(OutOfMemory),
    }
}

// The name of a value's fault.
fn val_fault_text(alloc: Global, fault: ValFault) -> Mem<Text>
    ensures { IfOk result (λ text. val_fault_text fault ≡ Some text) }
{
    match fault {
        ValFault::BadJson => Text::of(alloc, "BadJson"),
        ValFault::NotWhole => Text::of(alloc, "NotWhole"),
        ValFault::OutOfRange => Text::of(alloc, "OutOfRange"),
        ValFault::TooDeep => Text::of(alloc, "TooDeep"),
        ValFault::OutOfMemory => Err(OutOfMemory),
    }
}

/// The name of why a client doesn't take a message.
pub(crate) fn take_fault_text(alloc: Global, fault: TakeFault) -> Mem<Text>
    ensures { IfOk result (λ text. take_fault_text fault ≡ Some text) }
{
    match fault {
        TakeFault::NotOpen => Text::of(alloc, "NotOpen"),
        TakeFault::WrongRequest => Text::of(alloc, "WrongRequest"),
        TakeFault::NoPending(_) => Text::of(alloc, "NoPending"),
        TakeFault::WrongPending(_, _) => Text::of(alloc, "WrongPending"),
        TakeFault::ClockBack(_, _) => Text::of(alloc, "ClockBack"),
        TakeFault::OutOfMemory => Err(OutOfMemory),
    }
}
