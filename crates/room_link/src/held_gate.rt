//! A gate by which a test says which worker goes before which.

use crate::gate::Gate;
use std::sync::atomic::{AtomicBool, Ordering};
use std::thread::yield_now;

/// One text of one worker.
#[derive(Clone, Copy, Debug, PartialEq, Eq)]
pub struct Step {
    /// The worker's place.
    pub worker: u32,
    /// The text's number on its link.
    pub text: u64,
}

/// A step that waits for the answer to another.
#[derive(Drop)]
pub struct Hold {
    held: Step,
    until: Step,
    is_open: AtomicBool,
}

impl Hold {
    /// Holds a step until another one is answered.
    pub fn new(held: Step, until: Step) -> Hold {
        Hold {
            held,
            until,
            is_open: AtomicBool::new(false),
        }
    }
}

/// A gate that holds the steps of its list, each for a limited number of turns. What it did to other
/// threads no clause says: a test asks it.
#[derive(Drop)]
pub struct HeldGate {
    holds: Vec<Hold>,
    // How often a held step looks whether it may go on.
    turns: u64,
    gave_up: AtomicBool,
}

impl HeldGate {
    /// A gate with these holds, at which a step gives up after so many turns.
    pub fn new(holds: Vec<Hold>, turns: u64) -> HeldGate {
        HeldGate {
            holds,
            turns,
            gave_up: AtomicBool::new(false),
        }
    }

    /// Whether a step went on since its turns were over, and not since the other was answered.
    pub fn gave_up(&self) -> bool {
        self.gave_up.load(Ordering::SeqCst)
    }

    // Waits until the hold is open, or the turns are over.
    fn wait(&self, hold: &Hold) {
        for _ in 0..self.turns {
            if hold.is_open.load(Ordering::SeqCst) {
                return;
            }
            yield_now();
        }
        self.gave_up.store(true, Ordering::SeqCst);
    }
}

impl Gate for HeldGate {
    /// Waits where the step is held. It takes no memory.
    fn enter(&self, worker: u32, text: u64) {
        for hold in &self.holds {
            if hold.held == (Step { worker, text }) {
                self.wait(hold);
            }
        }
    }

    /// Opens the holds that wait for the step.
    fn answered(&self, worker: u32, text: u64) {
        for hold in &self.holds {
            if hold.until == (Step { worker, text }) {
                hold.is_open.store(true, Ordering::SeqCst);
            }
        }
    }
}
