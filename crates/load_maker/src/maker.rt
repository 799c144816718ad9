//! What draws recordings.
ghost use Rattle.std.specs.Prelude.{◌≡◌, IfOk, OnOk, OnErr};

use crate::draw::next_draw;
use crate::events::{events_of, first_events};
use rand_core::SeedableRng;
use rand_pcg::Pcg32;
use room_model::Event;
use rooms_val::Mem;
use std::alloc::Global;
use std::marker::Model;

/// What draws the events of a recording, the same for the same seed. Contracts see the state of its
/// generator, a Pcg32.
#[derive(Drop)]
pub struct Maker {
    generator: Pcg32,
}

impl Model for Maker {
    ghost use Rattle.rand_pcg.specs.Lcg.{Lcg};

    ghost Value = { Lcg };

    ghost view = { λ m. m.generator };
}

impl Maker {
    ghost use Rattle.load_maker.specs.Draws.{generator_of, draw_of};
    ghost use Rattle.load_maker.specs.Made.{first_events, events_of};

    /// What draws by a seed.
    #[tactic(auto, unfolding(crate::specs::Draws::generator_of))]
    pub fn new(seed: u64) -> Maker
        ensures { result ≡ generator_of seed }
    {
        Maker {
            generator: Pcg32::seed_from_u64(seed),
        }
    }

    /// The events before the draws, the same for every seed: four clients of the versions 3, 3, 2
    /// and 1 come and enter by the sessions 0 to 3, client 0 makes the page `page:p`, and each hears
    /// of it.
    pub fn first(&self, alloc: Global) -> Mem<Vec<Event>>
        ensures { IfOk result (λ events. events.items ≡ first_events) }
    {
        first_events(alloc)
    }

    /// The events of the next draw, one or two, where `last` has the last session of each client.
    /// Whether they can happen is the world's to say. Where memory is refused nothing is drawn.
    pub fn draw(&mut self, alloc: Global, last: &[u64; 4]) -> Mem<Vec<Event>>
        ensures events { IfOk result (λ events.
            events.items ≡ events_of (draw_of self.old).0 last.now) }
        ensures next { OnOk result (self.new ≡ (draw_of self.old).1) }
        ensures err { OnErr result (self.new ≡ self.old) }
    {
        let mut generator = self.generator.clone()?;
        let draw = next_draw(&mut generator);
        let events = events_of(alloc, draw, last)?;
        self.generator = generator;
        Ok(events)
    }
}
