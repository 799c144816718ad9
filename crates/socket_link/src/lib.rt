//! The links of servers and clients over sockets: a link of `room_link` over a WebSocket, a worker that
//! accepts such links from a listener, which all workers share, and a worker that connects once.
//!
//! Contracts see a link as its count of faults and its `Wire`: a stream before the handshake, a socket
//! after it, or neither. A text that a link gives is one that its socket read, and a text or a close
//! that it sent went into its socket, by the definitions of `websocket`. That socket is one that the
//! handshake of the link's `Side` gave: a server's or a client's. Neither tells its content, as
//! the system's streams tell none. When a peer is asked, and how long is waited for it, no clause says:
//! those are the constants of `bounds`. The crate stands on `room_link`, and on `tungstenite`.
#![tactic(auto)]

pub mod bounds;
pub mod connecting;
mod counting;
mod exchange;
pub mod heard;
pub mod link;
pub mod reason;
pub mod side;
mod silence;
pub mod wire;
pub mod worker;
