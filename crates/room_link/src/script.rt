//! Which calls of a form in memory fail.
ghost use Rattle.std.specs.Prelude.{◌≡◌, ℕ, ◌+◌, ◌-◌, ◌<◌, ◌≤◌, ◌↔◌, min, IsTrue, if◌then◌else◌};

/// The calls that are to fail, by their numbers from 0, the number of the next call, and how many
/// have failed. The number stands still at its end, and no call fails there.
#[derive(Drop)]
pub struct Script {
    pub failing: Vec<u64>,
    pub next: u64,
    pub faults: u64,
    ghost few: { faults ≤ next },
}

impl Script {
    ghost use Rattle.room_link.specs.Script.{IsToFail};

    /// The script before the first call.
    pub fn new(failing: Vec<u64>) -> Self
        ensures failing { result.failing ≡ failing }
        ensures next { result.next ≡ 0 }
        ensures faults { result.faults ≡ 0 }
    {
        Script {
            failing,
            next: 0,
            faults: 0,
        }
    }

    /// Counts a call, and tells whether it fails.
    pub fn fails(&mut self) -> bool
        ensures listed { IsTrue result ↔ IsToFail self.old }
        ensures failing { self.new.failing ≡ self.old.failing }
        ensures next { self.new.next ≡ min (self.old.next + 1) u64.MAX }
        ensures faults { self.new.faults ≡ self.old.faults + (if result then 1 else 0) }
    {
        let call = self.next;
        self.next = call.saturating_add(1);
        let fails = call < u64::MAX && self.failing.contains(&call);
        if fails {
            self.faults += 1;
        }
        fails
    }
}
