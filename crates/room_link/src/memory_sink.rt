//! Sinks that keep what they are given in memory.
ghost use Rattle.std.specs.Prelude.{◌≡◌, ℕ, ◌<◌, ◌≤◌, ◌↔◌, List, [], Option, Some, None, length, IsTrue, IsSome, IfSome, IfOk, IsErr, OnErr, if◌then◌else◌};
ghost use Rattle.room_link.specs.Held.{Extends, taken_of};

use crate::Failed;
use crate::script::Script;
use crate::sink::Sink;
use std::alloc::Global;
use std::marker::Model;

/// A sink that keeps what it is given and never fails. Contracts see it as the bytes that it
/// holds, or `None` once memory for them ran out: from then on it tells nothing.
#[derive(Drop)]
pub struct SteadySink {
    kept: Vec<u8>,
    is_whole: bool,
    most: usize,
}

impl Model for SteadySink {
    ghost Value = { Option (List ℕ) };

    ghost view = { λ s. if s.is_whole then Some s.kept.items else None };

    ghost invariant = { λ s. 0 < s.most };
}

impl SteadySink {
    /// An empty sink, of which one call takes at most `most` bytes.
    pub fn new(alloc: Global, most: usize) -> Self
        requires { 0 < most }
        ensures { result ≡ Some [] }
    {
        SteadySink {
            kept: Vec::new(alloc),
            is_whole: true,
            most,
        }
    }

    /// Whether all that was given is kept.
    pub fn is_whole(&self) -> bool
        ensures { IsTrue result ↔ IsSome self.now }
    {
        self.is_whole
    }

    /// What is kept: all that was given, or what came before memory ran out.
    pub fn bytes(&self) -> &[u8]
        ensures { IfSome self.now (λ held. result.now ≡ held) }
    {
        self.kept.as_slice()
    }
}

impl Sink for SteadySink {
    ghost faults = { λ _. 0 };

    ghost held = { λ s. s };

    fn write(&mut self, bytes: &[u8]) -> Result<usize, Failed> {
        let n = bytes.len().min(self.most);
        self.is_whole = self.is_whole && self.kept.extend_from_slice(&bytes[..n]).is_ok();
        Ok(n)
    }
}

/// A sink that keeps what it is given, and of which listed calls fail. It tells what it holds
/// until memory for it runs out.
#[derive(Drop)]
pub struct MemorySink {
    pub sink: SteadySink,
    pub script: Script,
}

impl Sink for MemorySink {
    ghost use Rattle.room_link.specs.Script.{IsToFail};

    ghost faults = { λ s. s.script.faults };

    ghost held = { λ s. s.sink };

    fn write(&mut self, bytes: &[u8]) -> Result<usize, Failed>
        ensures listed { IsErr result ↔ IsToFail self.old.script }

        // As at any sink.
        ensures faults_stay { self.old.script.faults ≤ self.new.script.faults }
        ensures failed { OnErr result (self.old.script.faults < self.new.script.faults) }
        ensures bound { IfOk result (λ n. n ≤ length bytes.now) }
        ensures goes_on { IfOk result (λ n. n ≡ 0 → bytes.now ≡ []) }
        ensures held { Extends self.old.sink self.new.sink (taken_of result bytes.now) }
    {
        if self.script.fails() {
            return Err(Failed);
        }
        self.sink.write(bytes)
    }
}
