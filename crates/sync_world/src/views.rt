//! What the clients of a world watch and query.
ghost use Rattle.std.specs.Prelude.{◌≡◌, ◌<◌, ◌↔◌, ℕ, IsTrue, IfOk, OnOk, OnErr, Some, Err, slice_get, vec_len};
ghost use Rattle.shape_tree.specs.Queries.{ids_meeting};
ghost use Rattle.signal_core.specs.Watches.{IsFull, IsLeastFree};
ghost use Rattle.signal_core.specs.declared.watch.WatchFault.TheVariants as watch_fault;
ghost use Rattle.live_views.specs.Telling.{by_number};
ghost use Rattle.live_views.specs.Watches.{Watches, IsWatching, news, all_told};
ghost use Rattle.room_model.specs.Schemas.{WorldSchemas};
ghost use Rattle.room_model.specs.Replicas.{Client};
ghost use Rattle.room_model.specs.Worlds as model;
ghost use Rattle.room_model.specs.Worlds.{shown_in};
ghost use Rattle.record_store.specs.Seen.{Seen, watches};
ghost use Rattle.side_effects.specs.declared.fault.EditFault.{EditFault};
ghost use Rattle.sync_world.specs.Standing.{Stands};
ghost use Rattle.sync_world.specs.Viewing.{stores_of, ViewsOne, HasWatches, IsClosed};

use crate::world::World;
use live_views::{WatchFault, WatchId};
use rooms_val::{Mem, Steps, Text, Val};
use shape_tree::{Query, View};
use std::alloc::Global;
use std::sync::ledger::Ledger;

impl World {
    /// Whether a client was made.
    pub fn has_client(&self, client: u64) -> bool
        ensures { IsTrue result ↔ (client < vec_len self.now.live.clients) }
    {
        self.live.place(client).is_some()
    }

    /// The ids of the records of a type that a client, which was made, shows and that meet a query, by id. It costs a walk
    /// over the ids of what the client shows, and a look-up and the query for each of the type.
    pub fn query(
        &self,
        alloc: Global,
        client: u64,
        type_name: &str,
        query: &Query,
    ) -> Mem<Vec<Text>>
        requires { client < vec_len self.now.live.clients }
        ensures { IfOk result (λ ids. (schemas : WorldSchemas EditFault) (world : model.World)
            (one : Client) → Stands schemas world self.now
            → slice_get world.clients client ≡ Some one
            → ids.items ≡ ids_meeting (shown_in schemas world one) type_name.now query.now) }
    {
        self.live.clients[client as usize]
            .peer
            .query(alloc, type_name, query)
    }

    /// Has a client, which was made, watch a view by the least number that it doesn't watch by. It is told at the next
    /// [`World::told`], whatever it comes to.
    ///
    /// # Errors
    /// `Full` exactly where the client watches 64 views, or `OutOfMemory`; then the world is as before.
    pub fn watch(&mut self, alloc: Global, client: u64, view: &View) -> Result<WatchId, WatchFault>
        requires { client < vec_len self.old.live.clients }
        ensures number { IfOk result (λ id. (store : Seen)
            → slice_get (stores_of self.old) client ≡ Some store
            → IsLeastFree (watches store) id.number) }
        ensures ok { IfOk result (λ id. (old new : Watches) → HasWatches client self.old old
            → IsWatching old new id.number view.now → HasWatches client self.new new) }
        ensures full { (store : Seen) → slice_get (stores_of self.old) client ≡ Some store
            → (result ≡ Err watch_fault.Full) ↔ IsFull (watches store) }
        ensures err { OnErr result ((ws : Watches) → HasWatches client self.old ws
            → HasWatches client self.new ws) }
        ensures stands { (schemas : WorldSchemas EditFault) (world : model.World)
            → Stands schemas world self.old → Stands schemas world self.new }
        ensures stores { ViewsOne client (stores_of self.old) (stores_of self.new) }
    {
        self.live.clients[client as usize].peer.watch(alloc, view)
    }

    /// What a client, which was made, has to tell: its watched views that tell something else of what it shows than was
    /// last told of them, a new watch always, each with what it tells, by rising number. From then on this counts as told.
    /// While a transaction of the client's store is open nothing is told. It costs a look-up for each watch on which nothing
    /// hangs that changed, and a copy of what is told. Where memory is refused nothing counts as told.
    pub fn told<L: Ledger>(
        &mut self,
        alloc: Global,
        client: u64,
        steps: &mut Steps<L>,
    ) -> Mem<Vec<(WatchId, Val)>>
        requires { client < vec_len self.old.live.clients }
        ensures told { IfOk result (λ told. (schemas : WorldSchemas EditFault) (world : model.World)
            (one : Client) (ws : Watches) → Stands schemas world self.old
            → slice_get world.clients client ≡ Some one → IsClosed client self.old
            → HasWatches client self.old ws
            → by_number told.items ≡ news (shown_in schemas world one) ws) }
        ensures ok { OnOk result ((schemas : WorldSchemas EditFault) (world : model.World)
            (one : Client) (ws : Watches) → Stands schemas world self.old
            → slice_get world.clients client ≡ Some one → IsClosed client self.old
            → HasWatches client self.old ws
            → HasWatches client self.new (all_told (shown_in schemas world one) ws)) }
        ensures stands { (schemas : WorldSchemas EditFault) (world : model.World)
            → Stands schemas world self.old → Stands schemas world self.new }
        ensures stores { ViewsOne client (stores_of self.old) (stores_of self.new) }
    {
        self.live.clients[client as usize].peer.told(alloc, steps)
    }
}
