//! Values as JSON: reading them by `serde_json`, whose definition of JSON decides, and printing them
//! token by token.
ghost use Rattle.std.specs.Prelude.{IfOk, IsTrue, ◌≤◌, ◌≡◌};
ghost use Rattle.serde_json.specs.View.{view};
ghost use Rattle.rooms_val.specs.Answers.{Gives};
ghost use Rattle.rooms_val.specs.Json.{json_at};
ghost use Rattle.rooms_val.specs.declared.fault.ValFault.TheVariants.{OutOfMemory};

use crate::fault::ValFault;
use crate::from_json::val_of;
use crate::memory::Mem;
use crate::survey::Survey;
use crate::val::Val;
use json::Writer;
use serde_json::Value;
use std::alloc::Global;

/// How deep lists and maps may nest in a value that is read.
const DEEPEST: usize = 64;

impl Val {
    ghost use Rattle.std.specs.Prelude.{Ok, IsUtf8};
    ghost use Rattle.rooms_val.specs.Data.{depth};
    ghost use Rattle.rooms_val.specs.Json.{json_of, is_within, deepest, value_of, text_of};
    ghost use Rattle.rooms_val.specs.View.{data_of};

    /// The value that the bytes are as JSON, or the first fault in the order of [`ValFault`]. Where an object names a
    /// key twice, the last one stands.
    pub fn read(alloc: Global, bytes: &[u8]) -> Result<Val, ValFault>
        ensures { Gives OutOfMemory data_of result (value_of bytes.now) }
    {
        let json = json_of_bytes(alloc, bytes)?;
        let survey = Survey::of(&json, DEEPEST);
        if !survey.is_whole {
            return Err(ValFault::NotWhole);
        }
        if !survey.is_within {
            return Err(ValFault::OutOfRange);
        }
        if !survey.is_shallow {
            return Err(ValFault::TooDeep);
        }
        Ok(val_of(alloc, json)?)
    }

    /// The value as compact JSON, with the keys of every map rising by bytes.
    pub fn print(&self, alloc: Global) -> Mem<Vec<u8>>
        ensures text { IfOk result (λ text. text.items ≡ text_of (data_of self.now)) }
        ensures utf8 { IfOk result (λ text. IsUtf8 text.items) }
        // What is printed is read as the value again, where its numbers are in range and it isn't too deep.
        ensures reads_back { IfOk result (λ text. let d = data_of self.now in
            IsTrue (is_within (json_of d)) → depth d ≤ deepest → value_of text.items ≡ Ok d) }
    {
        // That the value is sound, its keys rising, is told by its kind.
        let _ = self.kind();
        let mut out = Writer::new(Vec::with_capacity(alloc, 128)?);
        self.write_to(&mut out)?;
        Ok(out.into_inner())
    }
}

// The JSON that the bytes are.
fn json_of_bytes(alloc: Global, bytes: &[u8]) -> Result<Value, ValFault>
    ensures { Gives OutOfMemory view result (json_at bytes.now) }
{
    match Value::from_slice(alloc, bytes) {
        Ok(json) => Ok(json),
        Err(error) => {
            if error.is_memory() {
                Err(ValFault::OutOfMemory)
            } else {
                Err(ValFault::BadJson)
            }
        }
    }
}
