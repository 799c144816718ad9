//! The limits of rooms and worlds.

use rooms_val::limits::GREATEST_WHOLE;

/// The most pushes of a client: 2^53 - 1, the greatest whole number that JSON's readers agree on.
pub const MOST_PUSHES: u64 = GREATEST_WHOLE as u64;

/// The most pings of a session that wait; a further one isn't counted.
pub const MOST_PINGS: u64 = 4_294_967_295;

/// The most records of a room's document.
pub const MOST_RECORDS: u64 = 16_384;

/// The most that the records of a room's document weigh together.
pub const MOST_WEIGHT: u64 = 2_097_152;

/// The most removed ids that a room remembers. One more, and the oldest are forgotten.
pub const MOST_DEAD: u64 = 3_000;

/// How many removed ids are remembered, at most, once the oldest are forgotten.
pub const KEPT_DEAD: u64 = 2_700;

/// The most entries that a session is told one by one; more are told as what changed.
pub const MOST_TOLD: u64 = 32;

/// The most sessions in a room at one time.
pub const MOST_SESSIONS: u64 = 64;

/// The most sessions that ever enter a room: 2^53 - 1.
pub const MOST_ENTERED: u64 = GREATEST_WHOLE as u64;

/// The number of the protocol that rooms speak.
pub const PROTOCOL: i64 = 2;

/// The most clients of a recording.
pub const MOST_CLIENTS: u64 = 64;

/// The most sessions of a recording.
pub const MOST_RECORDED: u64 = 4_096;

/// The clock from which on the room of a recording refuses pushes: 2^53 - 65.
pub const LAST_CLOCK: u64 = GREATEST_WHOLE as u64 - 64;
