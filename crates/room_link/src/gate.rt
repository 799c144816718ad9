//! What a server's workers pass, so that a test may hold them.

/// What a worker passes at each text. The texts of a link are counted from 0, the join, which passes
/// no gate.
pub trait Gate {
    /// A worker has read a text, and takes it to the room next.
    fn enter(&self, worker: u32, text: u64);

    /// A worker has sent what answers a text.
    fn answered(&self, worker: u32, text: u64);
}

/// A gate that holds nobody.
#[derive(Clone, Copy, Debug, PartialEq, Eq)]
pub struct OpenGate;

impl Gate for OpenGate {
    fn enter(&self, _worker: u32, _text: u64) {}

    fn answered(&self, _worker: u32, _text: u64) {}
}
