//! Sources over bytes in memory.
ghost use Rattle.std.specs.Prelude.{◌≡◌, ℕ, ◌<◌, ◌≤◌, ◌↔◌, List, Some, drop, length, vec_len, IfOk, IsErr, OnErr};
ghost use Rattle.std.specs.Io.KnownBytes.{ReadConsumes};

use crate::Failed;
use crate::script::Script;
use crate::source::Source;
use std::marker::Model;

/// A source over bytes in memory that never fails. Contracts see it as the bytes that are left.
#[derive(Drop)]
pub struct SteadySource {
    content: Vec<u8>,
    at: usize,
    most: usize,
}

impl Model for SteadySource {
    ghost Value = { List ℕ };

    ghost view = { λ s. drop s.at s.content.items };

    ghost invariant = { λ s. (s.at ≤ vec_len s.content) × (0 < s.most) };
}

impl SteadySource {
    /// A source of the content, of which one call gives at most `most` bytes.
    pub fn new(content: Vec<u8>, most: usize) -> Self
        requires { 0 < most }
        ensures { result ≡ content.items }
    {
        SteadySource {
            content,
            at: 0,
            most,
        }
    }
}

impl Source for SteadySource {
    ghost faults = { λ _. 0 };

    ghost left = { λ s. Some s };

    fn read(&mut self, buf: &mut [u8]) -> Result<usize, Failed> {
        let rest = &self.content[self.at..];
        let n = rest.len().min(self.most).min(buf.len());
        buf[..n].copy_from_slice(&rest[..n]);
        self.at += n;
        Ok(n)
    }
}

/// A source over bytes in memory of which listed calls fail. It tells what is left.
#[derive(Drop)]
pub struct MemorySource {
    pub source: SteadySource,
    pub script: Script,
}

impl Source for MemorySource {
    ghost use Rattle.room_link.specs.Script.{IsToFail};

    ghost faults = { λ s. s.script.faults };

    ghost left = { λ s. Some s.source };

    fn read(&mut self, buf: &mut [u8]) -> Result<usize, Failed>
        ensures listed { IsErr result ↔ IsToFail self.old.script }

        // As at any source.
        ensures faults_stay { self.old.script.faults ≤ self.new.script.faults }
        ensures failed { OnErr result (self.old.script.faults < self.new.script.faults) }
        ensures bound { IfOk result (λ n. n ≤ length buf.new) }
        ensures bytes { ReadConsumes (Some self.old.source) (Some self.new.source) result buf.new }
    {
        if self.script.fails() {
            return Err(Failed);
        }
        self.source.read(buf)
    }
}
