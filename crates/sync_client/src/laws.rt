//! Laws of what clients stand for. Each function does nothing: its contract is the law.
ghost use Rattle.std.specs.Prelude.{◌≡◌, ℕ, pos, if◌then◌else◌};
ghost use Rattle.rooms_val.specs.Data.{Data, Pairs};
ghost use Rattle.room_model.specs.Schemas.{records_with};
ghost use Rattle.room_model.specs.Replicas.{Client, is_open, push_all, push_none};
ghost use Rattle.room_model.specs.Replicas.{after_presence, after_snapshot};
ghost use Rattle.room_model.specs.declared.connection.Connection.TheVariants.{Asking};
ghost use Rattle.client_replica.specs.Standing.{document_of};
ghost use Rattle.client_replica.specs.Stashes.{written_over};
ghost use Rattle.sync_client.specs.Calls.{ClientState, after_answer};
ghost use Rattle.sync_client.specs.Presences.{with_presence};
ghost use Rattle.sync_client.specs.Standing.{Stands};
ghost use Rattle.sync_client.specs.declared.client.SyncClient.{SyncClient};

/// The base's document is what the store has with the stash written over it, so that a client needs no copy of it.
pub fn bases_lie_under<D: Drop>()
    ensures { (records : D → Pairs) (state : ClientState) (client : SyncClient D)
        → Stands records state client
        → written_over client.replica.stash (records client.replica.store)
        ≡ records_with (document_of client.replica) state.base }
{}

/// An answer makes of a client what the model's snapshot makes of it before it pushes.
pub fn answers_are_snapshots()
    ensures { (session clock : ℕ) (client : Client) → client.connection ≡ Asking session
        → after_snapshot session clock client ≡ push_all (after_answer (pos clock) client) }
{}

/// So does a presence that is set.
pub fn presences_are_set()
    ensures { (d : Data) (client : Client) → after_presence d client
        ≡ (if is_open client.connection then push_all (with_presence d client)
        else push_none (with_presence d client)) }
{}
