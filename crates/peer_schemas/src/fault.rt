//! The fault of an edit for that of a presence.
ghost use Rattle.std.specs.Prelude.{◌≡◌};
ghost use Rattle.peer_schemas.specs.Clients.{edit_fault_of};

use side_effects::EditFault;
use sync_client::PresenceFault;

/// The fault of an edit that has the name of a presence's, and says the same. It takes no memory.
pub fn edit_fault(fault: PresenceFault) -> EditFault
    ensures { result ≡ edit_fault_of fault }
{
    match fault {
        PresenceFault::WrongScope(id) => EditFault::WrongScope(id),
        PresenceFault::Invalid(id, fault) => EditFault::Invalid(id, fault),
        PresenceFault::OutOfMemory => EditFault::OutOfMemory,
    }
}
