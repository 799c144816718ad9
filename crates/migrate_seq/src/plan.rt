//! Plans: the migrations that somebody misses, in the order in which they are run.
ghost use Rattle.std.specs.Prelude.{◌≡◌, ◌-◌, ◌++◌, [], ◌↔◌, option_map, find, Option, Some, Ok, Err, length, IfOk, OnOk, IsTrue};
ghost use Rattle.std.specs.Option.{option_map_or};
ghost use Rattle.std.specs.Str.{bytes_eq};
ghost use Rattle.rooms_val.specs.Answers.{Gives};
ghost use Rattle.migrate_seq.specs.declared.fault.PlanFault.TheVariants as plan_fault;
ghost use Rattle.migrate_seq.specs.Plans.{places_from, first_missing, missing, migrations_at, version_fault, first_fault, refusal, are_of_records, are_both_ways};

use crate::fault::PlanFault;
use crate::order::at;
use crate::place::Place;
use crate::serialized::Serialized;
use migrate_steps::{MigScope, Sequence};
use rooms_val::{Mem, Text};
use std::alloc::Global;

/// Migrations in the order in which they are run.
#[derive(Drop)]
pub struct Plan {
    places: Vec<Place>,
    both_ways: bool,
    records_only: bool,
}

impl Plan {
    ghost use Rattle.migrate_seq.specs.Shown.{places_in, goes_both_ways, is_of_records};

    // The plan of some migrations in their order.
    pub(crate) fn new(sequences: &[Sequence], places: Vec<Place>) -> Plan
        ensures places { places_in result ≡ places.items }
        ensures both_ways { goes_both_ways result
            ≡ are_both_ways (migrations_at sequences.now places.items) }
        ensures records_only { is_of_records result
            ≡ are_of_records (migrations_at sequences.now places.items) }
    {
        let both_ways = are_both_ways(sequences, &places);
        let records_only = are_of_records(sequences, &places);
        Plan {
            places,
            both_ways,
            records_only,
        }
    }

    /// Whether each migration works on one record at a time and may be run down.
    pub fn both_ways(&self) -> bool
        ensures { result ≡ goes_both_ways self.now }
    {
        self.both_ways
    }

    /// Whether each migration works on one record at a time.
    pub fn records_only(&self) -> bool
        ensures { result ≡ is_of_records self.now }
    {
        self.records_only
    }

    /// Whether there is no migration to run.
    pub fn is_empty(&self) -> bool
        ensures { IsTrue result ↔ (places_in self.now ≡ []) }
    {
        self.places.is_empty()
    }

    // The places of the migrations, in their order.
    pub(crate) fn places(&self) -> &[Place]
        ensures { result.now ≡ places_in self.now }
    {
        &self.places
    }
}

fn are_both_ways(sequences: &[Sequence], places: &[Place]) -> bool
    ensures { result ≡ are_both_ways (migrations_at sequences.now places.now) }
{
    for place in places {
        if let Some(migration) = at(sequences, *place) {
            if migration.scope != MigScope::Record || !migration.has_down {
                return false;
            }
        }
    }
    true
}

fn are_of_records(sequences: &[Sequence], places: &[Place]) -> bool
    ensures { result ≡ are_of_records (migrations_at sequences.now places.now) }
{
    for place in places {
        if let Some(migration) = at(sequences, *place) {
            if migration.scope != MigScope::Record {
                return false;
            }
        }
    }
    true
}

// The migrations that somebody misses.
pub(crate) fn missing(alloc: Global, sequences: &[Sequence], held: &Serialized) -> Mem<Vec<Place>>
    ensures { IfOk result (λ places. places.items ≡ missing sequences.now held.now) }
{
    let mut places = Vec::new(alloc);
    for (index, sequence) in sequences.iter().enumerate() {
        let first = first_missing(sequence, held);
        push_places(&mut places, index, first, sequence.migrations.len())?;
    }
    Ok(places)
}

// How many of a sequence's migrations aren't missed.
fn first_missing(sequence: &Sequence, held: &Serialized) -> usize
    ensures { result ≡ first_missing held.now sequence.now }
{
    match held.get(sequence.id.as_str()) {
        Some(version) => version as usize,
        None => {
            if sequence.retroactive {
                0
            } else {
                sequence.migrations.len()
            }
        }
    }
}

// Adds the places of a sequence's migrations from one up to another.
pub(crate) fn push_places(
    places: &mut Vec<Place>,
    sequence: usize,
    first: usize,
    end: usize,
) -> Mem<()>
    ensures { OnOk result
        (places.new.items ≡ places.old.items ++ places_from sequence first (end - first)) }
{
    for migration in first..end {
        places.push(Place {
            sequence,
            migration,
        })?;
    }
    Ok(())
}

// Refuses versions that can't be raised, by the first name at fault.
pub(crate) fn check(
    alloc: Global,
    sequences: &[Sequence],
    held: &Serialized,
) -> Result<(), PlanFault>
    ensures { Gives plan_fault.OutOfMemory (λ _. tt) result
        (refusal (first_fault sequences.now held.now)) }
{
    for place in 0..held.len() {
        let Some((name, version)) = held.at(place) else {
            return Ok(())
        };
        if let Err(fault) = check_version(alloc, sequences, name, version) {
            return Err(fault);
        }
    }
    Ok(())
}

fn check_version(
    alloc: Global,
    sequences: &[Sequence],
    name: &Text,
    version: u64,
) -> Result<(), PlanFault>
    ensures { Gives plan_fault.OutOfMemory (λ _. tt) result
        (refusal (version_fault sequences.now (name.now, version))) }
{
    match find(sequences, name) {
        Some(sequence) => {
            if (sequence.migrations.len() as u64) < version {
                let name = name.copy(alloc)?;
                Err(PlanFault::TooNew(name))
            } else {
                Ok(())
            }
        }
        None => {
            let name = name.copy(alloc)?;
            Err(PlanFault::UnknownSequence(name))
        }
    }
}

// The first sequence with an id.
fn find<'a>(sequences: &'a [Sequence], id: &Text) -> Option<&'a Sequence>
    ensures { option_map (λ s. s.now) result ≡ find (λ s. bytes_eq s.id id.now) sequences.now }
{
    for sequence in sequences {
        if sequence.id.as_str() == id.as_str() {
            return Some(sequence);
        }
    }
    None
}
