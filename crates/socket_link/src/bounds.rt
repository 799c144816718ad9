//! How long is waited, and how much is taken.

/// How long a read waits for a byte, in milliseconds. Its passing is an Idle.
pub const READ_WAIT: u64 = 50;

/// How long a write waits for room, in milliseconds.
pub const WRITE_WAIT: u64 = 5_000;

/// With this many waits a handshake fails. At most 99 pass in one that succeeds.
pub const HANDSHAKE_WAITS: u32 = 100;

/// How many bytes a message may have, and a frame: a text of 4,194,304 bytes, with its number as a
/// piece, and one byte more.
pub const LONGEST_MESSAGE: usize = 4_194_312;

/// After how many waits in a row without a byte the peer is sent a ping.
pub const WAITS_TO_PING: u32 = 600;

/// After how many waits in a row without a byte a silent peer is a fault.
pub const WAITS_TO_FAULT: u32 = 1_200;

/// How many messages and waits may pass until a peer answers a close.
pub const CLOSE_WAITS: u32 = 20;

/// How many bytes of what a peer still sends after its fault are read at once, to be dropped.
pub const DROPPED_PIECE: usize = 16_384;

/// How many such reads there are at most.
pub const DROPPED_READS: u32 = 1_024;

/// How many accepts there are at most for one link. Another follows where a connection was aborted before
/// it was accepted, or a signal came.
pub const ACCEPTS: u32 = 64;

/// The code with which a link is closed for a reason of the room.
pub const CLOSE_CODE: u16 = 4_099;
