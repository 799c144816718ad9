//! That threads may share a running room, and that what it hands out may go to another thread.
use crate::close::Closed;
use crate::passes::{Gone, Pass};
use crate::running::RunningRoom;

/// Threads may share a running room. It, its passes, what becomes of them, and what the room was may each go to another
/// thread. The calls are checked, and do nothing.
pub fn may_cross_threads() {
    is_shared::<RunningRoom>();
    is_sent::<RunningRoom>();
    is_sent::<Pass>();
    is_sent::<Gone>();
    is_sent::<Closed>();
}

// That threads may share values of a type.
fn is_shared<T: Sync>() {}

// That values of a type may go to another thread.
fn is_sent<T: Send>() {}
