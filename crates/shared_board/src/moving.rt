//! What is on the way arrives.
ghost use Rattle.std.specs.Prelude.{◌≡◌, ◌≢◌, ◌||◌, IfOk, OnOk};
ghost use Rattle.room_model.specs.Schemas.{WorldSchemas};
ghost use Rattle.room_model.specs.Worlds as model;
ghost use Rattle.room_model.specs.declared.fault.StepFault.TheVariants as step_fault;
ghost use Rattle.side_effects.specs.declared.fault.EditFault.{EditFault};
ghost use Rattle.shared_board.specs.Moving.{IsMoving, Settles};
ghost use Rattle.shared_board.specs.Rounds.{Attempts, Tries, Passes, move_of};
ghost use Rattle.shared_board.specs.Sharing.{Shares};
ghost use Rattle.shared_board.specs.Standing.{Stands};

use crate::board::{Board, step};
use crate::fault::BoardFault;
use room_model::Event;
use room_model::fault::StepFault;
use room_model::limits::MOST_CLIENTS;
use rooms_val::{Mem, OutOfMemory};
use side_effects::EditFault;

// A way by which messages move.
#[derive(Clone, Copy)]
pub(crate) enum Leg {
    // A session's next message is given to the room.
    Handle,
    // The room gives out what is next for a session.
    Send,
    // A client is given what is next for it.
    Deliver,
}

impl Board {
    /// Lets everything that is on the way arrive, until nothing is: the room hears all that its clients said, and each
    /// client all that the room has for it. Then each client that is connected owes no edit, and shows the room's document,
    /// seen at its version. It costs what is on the way, and passes over the connections that were made: one each time that
    /// something moved, and one more.
    ///
    /// # Errors
    /// `OutOfMemory`. `Restless` where after 2^64 - 1 passes something was still on the way.
    pub fn settle(&mut self) -> Result<(), BoardFault>
        ensures settles { (schemas : WorldSchemas EditFault) (state : model.World)
            → Stands schemas state self.old → Settles schemas state result self.new }
        ensures shared { OnOk result ((schemas : WorldSchemas EditFault) (state : model.World)
            → Stands schemas state self.old → Shares schemas self.new) }
    {
        'passes: for _ in 0..u64::MAX {
            match self.pass() {
                Ok(moved) => {
                    if !moved {
                        return Ok(());
                    }
                }
                Err(_) => return Err(BoardFault::OutOfMemory),
            }
        }
        Err(BoardFault::Restless)
    }

    // The next message of each session is given to the room, then each is given what is next for it, and then each client
    // is. Returns whether anything moved.
    fn pass(&mut self) -> Mem<bool>
        ensures { IfOk result (λ moved. (schemas : WorldSchemas EditFault) (state : model.World)
            → Stands schemas state self.old → Passes schemas state moved self.new) }
    {
        let entered = self.entered;
        let heard = self.try_each(Leg::Handle, entered)?;
        let entered = self.entered;
        let told = self.try_each(Leg::Send, entered)?;
        let given = self.try_each(Leg::Deliver, MOST_CLIENTS)?;
        Ok(either(either(heard, told), given))
    }

    // Lets a move of each number below a count happen that can. Returns whether one happened.
    fn try_each(&mut self, leg: Leg, count: u64) -> Mem<bool>
        ensures { IfOk result (λ moved. (schemas : WorldSchemas EditFault) (state : model.World)
            → Stands schemas state self.old → Tries schemas state leg count moved self.new) }
    {
        let mut moved = false;
        let mut number = 0;
        'numbers: while number < count {
            let happened = self.attempt(move_of(leg, number))?;
            moved = either(moved, happened);
            number += 1;
        }
        Ok(moved)
    }

    // Lets an event that moves something happen, if it can. Returns whether it did.
    fn attempt(&mut self, event: Event) -> Mem<bool>
        requires { IsMoving event }
        ensures { IfOk result (λ happened. (schemas : WorldSchemas EditFault) (state : model.World)
            → Stands schemas state self.old → Attempts schemas state event happened self.new) }
    {
        match step(self.alloc, &mut self.world, event) {
            Ok(_) => Ok(true),
            Err(why) => {
                unless_spent(&why)?;
                Ok(false)
            }
        }
    }
}

// The event by which something moves.
fn move_of(leg: Leg, number: u64) -> Event
    ensures { result ≡ move_of leg number }
{
    match leg {
        Leg::Handle => Event::Handle { session: number },
        Leg::Send => Event::Send { session: number },
        Leg::Deliver => Event::Deliver { client: number },
    }
}

// Whether one of two holds.
fn either(one: bool, other: bool) -> bool
    ensures { result ≡ one || other }
{
    one || other
}

// Out of memory, if that is the cause.
fn unless_spent(cause: &StepFault<EditFault>) -> Mem<()>
    ensures { OnOk result (cause.now ≢ step_fault.OutOfMemory) }
{
    match cause {
        StepFault::OutOfMemory => Err(OutOfMemory),
        _ => Ok(()),
    }
}
