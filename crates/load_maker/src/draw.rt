//! What is drawn, and the numbers by which it is drawn.
ghost use Rattle.std.specs.Prelude.{◌≡◌, ◌<◌};
ghost use Rattle.load_maker.specs.Draws.{below, act_of, draw_of};

use rand_core::utils::NextWord;
use rand_pcg::Pcg32;

/// What a client does.
#[derive(Clone, Copy, Debug, PartialEq, Eq)]
pub enum Act {
    /// It puts the shape with this number at this x.
    Put { shape: u32, x: u32 },
    /// It moves the shape with this number to this x.
    Move { shape: u32, x: u32 },
    /// It removes the shape with this number.
    Remove { shape: u32 },
    /// It shows its cursor at this x.
    Point { x: u32 },
    /// It makes a mark.
    Mark,
    /// It takes back.
    Undo,
    /// It does again.
    Redo,
    /// The room is given what its session sent.
    Handle,
    /// The room gives out what is next for its session.
    Send,
    /// It takes what was given out.
    Deliver,
    /// It loses its connection.
    Cut,
    /// The room loses its session, and it asks for another.
    Reconnect,
}

/// A client, from 0 to 3, and what it does.
#[derive(Clone, Copy, Debug, PartialEq, Eq)]
pub struct Draw {
    pub client: u32,
    pub act: Act,
}

/// The next draw.
#[tactic(auto, unfolding(crate::specs::Draws::draw_of))]
pub(crate) fn next_draw(generator: &mut Pcg32) -> Draw
    ensures draw { result ≡ (draw_of generator.old).0 }
    ensures rest { generator.new ≡ (draw_of generator.old).1 }
    ensures client { result.client < 4 }
{
    let client = next_below(generator, 4);
    let kind = next_below(generator, 20);
    let act = next_act(generator, kind);
    Draw { client, act }
}

// The act of a kind, with the numbers that it takes.
#[tactic(auto, unfolding(crate::specs::Draws::act_of))]
fn next_act(generator: &mut Pcg32, kind: u32) -> Act
    ensures act { result ≡ (act_of kind generator.old).0 }
    ensures rest { generator.new ≡ (act_of kind generator.old).1 }
{
    match kind {
        0..=3 => {
            let (shape, x) = next_shape_and_x(generator);
            Act::Put { shape, x }
        }
        4 => {
            let (shape, x) = next_shape_and_x(generator);
            Act::Move { shape, x }
        }
        5 => Act::Remove {
            shape: next_below(generator, 50),
        },
        6 => Act::Point {
            x: next_below(generator, 1000),
        },
        7 => Act::Mark,
        8 => Act::Undo,
        9 => Act::Redo,
        10..=12 => Act::Handle,
        13 | 14 => Act::Send,
        15..=17 => Act::Deliver,
        18 => Act::Cut,
        _ => Act::Reconnect,
    }
}

// The number of a shape, and then an x.
fn next_shape_and_x(generator: &mut Pcg32) -> (u32, u32)
    ensures shape { result.0 ≡ (below 50 generator.old).0 }
    ensures x { result.1 ≡ (below 1000 (below 50 generator.old).1).0 }
    ensures rest { generator.new ≡ (below 1000 (below 50 generator.old).1).1 }
{
    let shape = next_below(generator, 50);
    let x = next_below(generator, 1000);
    (shape, x)
}

// The next number below a bound.
#[tactic(auto, unfolding(crate::specs::Draws::below))]
fn next_below(generator: &mut Pcg32, bound: u32) -> u32
    requires { 0 < bound }
    ensures number { result ≡ (below bound generator.old).0 }
    ensures rest { generator.new ≡ (below bound generator.old).1 }
    ensures low { result < bound }
{
    generator.next_word() % bound
}
