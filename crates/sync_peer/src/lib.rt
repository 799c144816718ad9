//! A client of the tables' schemas: its edits are completed before they are made, and can be taken back.
//!
//! A `Peer` is a `SyncClient` over a store with live views, with the schema of a version of the tables. Contracts say for
//! which of `room_model`'s clients, with which base, it stands (`specs/Standing.antt`): each call returns what the
//! definition says, by what the tables decide (`peer_schemas`), and afterwards the peer stands for the definition's next.
//! What it watches is read from its store (`specs/Viewing.antt`): `watch` and `told` alone change it. The crate stands on
//! `sync_client`, `side_effects`, `undo_marks`, `live_views` and `store_query`.
#![tactic(auto)]

pub mod peer;

pub use peer::Peer;
