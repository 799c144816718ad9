//! What the clients of a board show, and the room's clock.
ghost use Rattle.std.specs.Prelude.{◌≡◌, pos, length, Some, None, slice_get, IfSome, IfNone};
ghost use Rattle.room_model.specs.Schemas.{WorldSchemas};
ghost use Rattle.room_model.specs.Replicas.{Client};
ghost use Rattle.room_model.specs.Worlds as model;
ghost use Rattle.side_effects.specs.declared.fault.EditFault.{EditFault};
ghost use Rattle.sync_peer.specs.Standing as peer_of;
ghost use Rattle.sync_world.specs.States.{client_state};
ghost use Rattle.shared_board.specs.Calls.{Tells, IsShown, IsOwed};
ghost use Rattle.shared_board.specs.Standing.{Stands};

use crate::board::{Board, ClientId};
use crate::fault::BoardFault;
use rooms_val::Val;
use sync_peer::Peer;

impl Board {
    /// What a client shows, as a map by id: what the room accepted up to the clock that the client has reached, seen at its
    /// version, with its pending edits done over it. It costs a copy of the records.
    ///
    /// # Errors
    /// `NoSuchClient` exactly where there is none, or `OutOfMemory`.
    pub fn document(&self, client: ClientId) -> Result<Val, BoardFault>
        ensures { (schemas : WorldSchemas EditFault) (state : model.World)
            → Stands schemas state self.now
            → Tells (IsShown schemas state) state client.number result }
    {
        match self.peer(client) {
            Some(peer) => match peer.document(self.alloc) {
                Ok(val) => Ok(val),
                Err(_) => Err(BoardFault::OutOfMemory),
            },
            None => Err(BoardFault::NoSuchClient),
        }
    }

    /// How many edits and presences of a client are pending: the room hasn't answered them.
    ///
    /// # Errors
    /// `NoSuchClient` exactly where there is none.
    pub fn owed(&self, client: ClientId) -> Result<usize, BoardFault>
        ensures { (schemas : WorldSchemas EditFault) (state : model.World)
            → Stands schemas state self.now
            → Tells IsOwed state client.number result }
    {
        match self.peer(client) {
            Some(peer) => Ok(peer.owed()),
            None => Err(BoardFault::NoSuchClient),
        }
    }

    /// The room's clock: how many entries its history has. Each push that the room takes is an entry, also one of a client
    /// that only reads, and so is each removal of a presence.
    pub fn clock(&self) -> i64
        ensures { (schemas : WorldSchemas EditFault) (state : model.World)
            → Stands schemas state self.now → result ≡ pos (length state.room.history) }
    {
        self.world.room().clock()
    }

    // The peer of a client, if the client has joined.
    fn peer(&self, client: ClientId) -> Option<&Peer>
        ensures found { IfSome result (λ peer. (schemas : WorldSchemas EditFault)
            (state : model.World) → Stands schemas state self.now
            → (one : Client) × (slice_get state.clients client.number ≡ Some one)
            × peer_of.Stands schemas (client_state schemas state.room.history one) peer.now) }
        ensures none { IfNone result ((schemas : WorldSchemas EditFault) (state : model.World)
            → Stands schemas state self.now → slice_get state.clients client.number ≡ None) }
    {
        if self.world.has_client(client.number) {
            return Some(self.world.peer(client.number));
        }
        None
    }
}
