//! The versions of sequences that somebody has, as they are sent and saved.
ghost use Rattle.std.specs.Prelude.{◌≡◌, ◌^◌, ◌<◌, ◌↔◌, ℕ, List, [], length, IfOk, OnOk, OnErr, IsTrue, IfSome, IfNone, Err, option_map, slice_get};
ghost use Rattle.std.specs.Prelude.{pos};
ghost use Rattle.rooms_val.specs.Data.{Pairs, whole};
ghost use Rattle.rooms_val.specs.View.{data_of};
ghost use Rattle.rooms_val.specs.declared.fault.OpFault.TheVariants as op_fault;
ghost use Rattle.migrate_seq.specs.Versions.{is_number, are_numbers, number_in, schema_with, schema_of};
ghost use Rattle.rooms_val.specs.Maps.{value_at, with_key};

use rooms_val::{Fields, Mem, OpFault, Text, Val};
use std::alloc::Global;
use std::marker::Model;

const SCHEMA_KEY: &str = "schemaVersion";

const SEQUENCES_KEY: &str = "sequences";

/// Names of sequences with a version from 0 each. Contracts see a list of names with versions, which rises by the
/// names' bytes.
#[derive(Drop)]
pub struct Serialized {
    versions: Fields,
}

impl Model for Serialized {
    ghost use Rattle.std.specs.Prelude.{List, ℕ, IsTrue};
    ghost use Rattle.migrate_seq.specs.Versions.{are_numbers, versions_in};

    ghost Value = { List (List ℕ × ℕ) };

    ghost view = { λ s. versions_in s.versions };

    // Each value is a whole number from 0.
    ghost invariant = { λ s. IsTrue (are_numbers s.versions) };
}

impl Serialized {
    /// No version of any sequence.
    pub fn new(alloc: Global) -> Serialized
        ensures { result ≡ [] }
    {
        Serialized {
            versions: Fields::new(alloc),
        }
    }

    /// How many sequences it names.
    pub fn len(&self) -> usize
        ensures { result ≡ length self.now }
    {
        self.versions.len()
    }

    /// Whether it names no sequence.
    pub fn is_empty(&self) -> bool
        ensures { IsTrue result ↔ (self.now ≡ []) }
    {
        self.len() == 0
    }

    /// The name at a place with its version; places count from 0 in the order of the names. `None` exactly past the
    /// end.
    pub fn at(&self, place: usize) -> Option<(&Text, u64)>
        ensures { option_map (λ e. (e.0.now, e.1)) result ≡ slice_get self.now place }
    {
        let (name, val) = self.versions.at(place)?;
        Some((name, number(val)))
    }

    /// The version of a sequence. `None` exactly where the sequence isn't named.
    pub fn get(&self, name: &str) -> Option<u64>
        ensures { result ≡ value_at self.now name.now }
    {
        match self.versions.get(name) {
            Some(val) => Some(number(val)),
            None => None,
        }
    }

    /// Sets the version of a sequence. Where memory is refused nothing changes.
    pub fn put(&mut self, name: Text, version: u64) -> Mem<()>
        requires { version < 2 ^ 63 }
        ensures ok { OnOk result (self.new ≡ with_key self.old name version) }
        ensures err { OnErr result (self.new ≡ self.old) }
    {
        self.versions.put(name, Val::Int(version as i64))?;
        Ok(())
    }

    /// The value that is sent and saved: `{"schemaVersion":2,"sequences":{..}}`, with a number under each name.
    pub fn val(&self, alloc: Global) -> Mem<Val>
        ensures { IfOk result (λ v. data_of v ≡ schema_of self.now) }
    {
        let key = Text::of(alloc, SCHEMA_KEY)?;
        let name = Text::of(alloc, SEQUENCES_KEY)?;
        let versions = self.versions.copy(alloc)?;
        let mut fields = Fields::new(alloc);
        fields.put(key, Val::Int(2))?;
        fields.put(name, Val::Map(versions))?;
        Ok(Val::Map(fields))
    }

    /// The versions that a value stands for. `WrongKind` exactly where it stands for none.
    pub fn read(alloc: Global, val: &Val) -> Result<Serialized, OpFault>
        ensures found { IfOk result (λ s. data_of val.now ≡ schema_of s) }
        ensures wrong { result ≡ Err op_fault.WrongKind → (s : List (List ℕ × ℕ))
            → ¬ (data_of val.now ≡ schema_of s) }
    {
        match sequences_in(val) {
            Some(versions) => {
                if are_numbers(versions) {
                    let versions = versions.copy(alloc)?;
                    Ok(Serialized { versions })
                } else {
                    Err(OpFault::WrongKind)
                }
            }
            None => Err(OpFault::WrongKind),
        }
    }

    /// An equal list of versions.
    pub fn copy(&self, alloc: Global) -> Mem<Serialized>
        ensures { IfOk result (λ s. s ≡ self.now) }
    {
        Ok(Serialized {
            versions: self.versions.copy(alloc)?,
        })
    }
}

// The number that a value is; any other value counts as 0.
fn number(val: &Val) -> u64
    ensures { result ≡ number_in (data_of val.now) }
{
    match val {
        Val::Int(number) => u64::try_from(*number).unwrap_or(0),
        _ => 0,
    }
}

fn is_number(val: &Val) -> bool
    ensures { result ≡ is_number (data_of val.now) }
{
    match val {
        Val::Int(number) => 0 <= *number,
        _ => false,
    }
}

fn are_numbers(fields: &Fields) -> bool
    ensures { result ≡ are_numbers fields.now }
{
    for entry in fields.as_slice() {
        if !is_number(&entry.1) {
            return false;
        }
    }
    true
}

// What stands for the versions, where a value has the form that is sent and saved.
fn sequences_in(val: &Val) -> Option<&Fields>
    ensures found { IfSome result (λ fields. data_of val.now ≡ schema_with fields.now) }
    ensures none { IfNone result ((ps : Pairs) → ¬ (data_of val.now ≡ schema_with ps)) }
{
    let Val::Map(fields) = val else { return None };
    if fields.len() != 2 {
        return None;
    }
    let Some((key, version)) = fields.at(0) else {
        return None
    };
    if !is_text(key, SCHEMA_KEY) {
        return None;
    }
    if !is_two(version) {
        return None;
    }
    let Some((name, sequences)) = fields.at(1) else {
        return None
    };
    if !is_text(name, SEQUENCES_KEY) {
        return None;
    }
    match sequences {
        Val::Map(versions) => Some(versions),
        _ => None,
    }
}

fn is_text(text: &Text, expected: &str) -> bool
    ensures { IsTrue result ↔ (text.now ≡ expected.now) }
{
    text.as_str() == expected
}

fn is_two(val: &Val) -> bool
    ensures { IsTrue result ↔ (data_of val.now ≡ whole (pos 2)) }
{
    match val {
        Val::Int(number) => *number == 2,
        _ => false,
    }
}
