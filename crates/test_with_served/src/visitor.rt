//! Another session, which comes while a link is served.
use room_link::gate::Gate;
use room_run::RunningRoom;
use rooms_val::{Mem, OutOfMemory};
use std::sync::Wait;
use sync_msgs::ClientMessage;

// The text of a link after whose answer the session comes: the first message.
const COMES_AFTER: u64 = 1;

// A session that has something to say, if it comes.
#[derive(Drop)]
pub(crate) struct Visitor<'a, R: Wait> {
    pub(crate) rt: &'a R,
    pub(crate) room: &'a RunningRoom,
    // what it says
    pub(crate) says: &'a [ClientMessage],
}

impl<'a, R: Wait> Gate for Visitor<'a, R> {
    fn enter(&self, _worker: u32, _text: u64) {}

    fn answered(&self, _worker: u32, text: u64) {
        if text == COMES_AFTER && !self.says.is_empty() {
            drop(self.visit());
        }
    }
}

impl<'a, R: Wait> Visitor<'a, R> {
    // Enters, says what it has to say, and stays. What it is given shows in the room's history.
    fn visit(&self) -> Mem<()> {
        let Ok(mut pass) = self.room.pass(self.rt, false) else {
            return Err(OutOfMemory);
        };
        'says: for message in self.says {
            drop(self.room.handle(self.rt, &mut pass, message)?);
        }
        Ok(())
    }
}
