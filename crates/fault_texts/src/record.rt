//! The text of why a record isn't admitted.
ghost use Rattle.std.specs.Prelude.{◌≡◌};
ghost use Rattle.fault_texts.specs.Texts.{record_fault_text, reject_text};

use record_valid::RejectKind;
use schema_core::RecordFault;

/// The name of a record's fault, or the kind of what its check rejects.
pub(crate) fn record_fault_text(fault: &RecordFault) -> &'static str
    ensures { result.now ≡ record_fault_text fault.now }
{
    match fault {
        RecordFault::BadId => "BadId",
        RecordFault::UnknownType => "UnknownType",
        RecordFault::Rejected(reject) => reject_text(reject.kind),
        RecordFault::TooHeavy => "TooHeavy",
    }
}

// The name of a kind of rejection.
fn reject_text(kind: RejectKind) -> &'static str
    ensures { result.now ≡ reject_text kind }
{
    match kind {
        RejectKind::Missing => "Missing",
        RejectKind::Extra => "Extra",
        RejectKind::WrongKind => "WrongKind",
        RejectKind::OutOfBounds => "OutOfBounds",
        RejectKind::NotListed => "NotListed",
        RejectKind::BadKey => "BadKey",
        RejectKind::BadId => "BadId",
    }
}
