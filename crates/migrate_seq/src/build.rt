//! How sequences are checked and put in the order of their ids.
ghost use Rattle.std.specs.Prelude.{◌≡◌, ◌≤◌, length, option_map, insert, nat_eq, IfOk, OnOk};
ghost use Rattle.std.specs.List.{list_any, list_all};
ghost use Rattle.std.specs.Str.{bytes_eq};
ghost use Rattle.migrate_seq.specs.Order.{first_some};
ghost use Rattle.migrate_seq.specs.Plans.{places_of};
ghost use Rattle.migrate_seq.specs.Builds.{after_slash, is_digit, is_decimal, number_of, digits_in, is_sequence_id, has_other_version, gap_from, gap, bad_id_among, bad_id, doubled, has_migration, is_known, unknown_in, unknown, inserted, by_id, ids_at};
ghost use Rattle.migrate_steps.specs.declared.migration.Sequence.{Sequence};

use crate::order::at;
use crate::place::Place;
use crate::plan::push_places;
use migrate_steps::{Migration, Sequence};
use rooms_val::{Mem, Text};
use std::alloc::Global;

// The first migration whose version isn't its place.
pub(crate) fn gap(list: &[Sequence]) -> Option<&Text>
    ensures { option_map (λ id. id.now) result ≡ gap list.now }
{
    for sequence in list {
        if is_sequence_id(&sequence.id) {
            if let Some(id) = gap_in(&sequence.id, &sequence.migrations) {
                return Some(id);
            }
        }
    }
    None
}

fn gap_in<'a>(sequence: &Text, migrations: &'a [Migration]) -> Option<&'a Text>
    ensures { option_map (λ id. id.now) result ≡ gap_from sequence.now 1 migrations.now }
{
    for (place, migration) in migrations.iter().enumerate() {
        if has_other_version(sequence, &migration.id, place + 1) {
            return Some(&migration.id);
        }
    }
    None
}

// Whether an id names another version of the sequence.
fn has_other_version(sequence: &Text, id: &Text, version: usize) -> bool
    ensures { result ≡ has_other_version sequence.now id.now version }
{
    match digits_in(sequence, id) {
        Some(digits) => !is_number(digits, version),
        None => false,
    }
}

// The first id that isn't of its form.
pub(crate) fn bad_id(list: &[Sequence]) -> Option<&Text>
    ensures { option_map (λ id. id.now) result ≡ bad_id list.now }
{
    for sequence in list {
        if !is_sequence_id(&sequence.id) {
            return Some(&sequence.id);
        }
        if let Some(id) = bad_id_in(&sequence.id, &sequence.migrations) {
            return Some(id);
        }
    }
    None
}

fn bad_id_in<'a>(sequence: &Text, migrations: &'a [Migration]) -> Option<&'a Text>
    ensures { option_map (λ id. id.now) result ≡ bad_id_among sequence.now migrations.now }
{
    for migration in migrations {
        match digits_in(sequence, &migration.id) {
            Some(_) => {}
            None => return Some(&migration.id),
        }
    }
    None
}

// The decimal that stands in an id after its sequence's id and `/`.
fn digits_in<'a>(sequence: &Text, id: &'a Text) -> Option<&'a [u8]>
    ensures { option_map (λ ds. ds.now) result ≡ digits_in sequence.now id.now }
{
    match after_slash(sequence.as_str().as_bytes(), id.as_str().as_bytes()) {
        Some(digits) => {
            if is_decimal(digits) {
                Some(digits)
            } else {
                None
            }
        }
        None => None,
    }
}

fn after_slash<'a>(sequence: &[u8], id: &'a [u8]) -> Option<&'a [u8]>
    ensures { option_map (λ ds. ds.now) result ≡ after_slash sequence.now id.now }
{
    for place in 0..sequence.len() {
        if place >= id.len() {
            return None;
        }
        if id[place] != sequence[place] {
            return None;
        }
    }
    match &id[sequence.len()..] {
        [b'/', digits @ ..] => Some(digits),
        _ => None,
    }
}

fn is_decimal(digits: &[u8]) -> bool
    ensures { result ≡ is_decimal digits.now }
{
    match digits {
        [first, rest @ ..] => *first != b'0' && is_digit(*first) && are_digits(rest),
        [] => false,
    }
}

fn are_digits(bytes: &[u8]) -> bool
    ensures { result ≡ list_all is_digit bytes.now }
{
    for byte in bytes {
        if !is_digit(*byte) {
            return false;
        }
    }
    true
}

fn is_digit(byte: u8) -> bool
    ensures { result ≡ is_digit byte }
{
    b'0' <= byte && byte <= b'9'
}

fn is_number(digits: &[u8], number: usize) -> bool
    ensures { result ≡ nat_eq (number_of digits.now) number }
{
    let mut value: usize = 0;
    for digit in digits {
        let Some(tens) = value.checked_mul(10) else {
            return false
        };
        let units = usize::from(digit.saturating_sub(b'0'));
        let Some(more) = tens.checked_add(units) else {
            return false
        };
        value = more;
    }
    value == number
}

// Whether a text isn't empty and has no `/`.
fn is_sequence_id(id: &Text) -> bool
    ensures { result ≡ is_sequence_id id.now }
{
    let bytes = id.as_str().as_bytes();
    !bytes.is_empty() && !has_slash(bytes)
}

fn has_slash(bytes: &[u8]) -> bool
    ensures { result ≡ list_any (λ b. nat_eq b 47) bytes.now }
{
    for byte in bytes {
        if *byte == b'/' {
            return true;
        }
    }
    false
}

// The first id that another sequence had before.
pub(crate) fn doubled_id(list: &[Sequence]) -> Option<&Text>
    ensures { option_map (λ id. id.now) result ≡ doubled list.now }
{
    for (place, sequence) in list.iter().enumerate() {
        if is_among(&list[..place], &sequence.id) {
            return Some(&sequence.id);
        }
    }
    None
}

fn is_among(list: &[Sequence], id: &Text) -> bool
    ensures { result ≡ list_any (λ s. bytes_eq s.id id.now) list.now }
{
    for sequence in list {
        if sequence.id.as_str() == id.as_str() {
            return true;
        }
    }
    false
}

// The first dependency that no migration has as its id.
pub(crate) fn unknown(list: &[Sequence]) -> Option<&Text>
    ensures { option_map (λ id. id.now) result ≡ unknown list.now }
{
    for sequence in list {
        if let Some(id) = unknown_of(list, &sequence.migrations) {
            return Some(id);
        }
    }
    None
}

fn unknown_of<'a>(list: &[Sequence], migrations: &'a [Migration]) -> Option<&'a Text>
    ensures { option_map (λ id. id.now) result
        ≡ first_some (λ m. unknown_in list.now m.depends.items) migrations.now }
{
    for migration in migrations {
        if let Some(id) = unknown_in(list, &migration.depends) {
            return Some(id);
        }
    }
    None
}

fn unknown_in<'a>(list: &[Sequence], depends: &'a [Text]) -> Option<&'a Text>
    ensures { option_map (λ id. id.now) result ≡ unknown_in list.now depends.now }
{
    for id in depends {
        if !is_known(list, id) {
            return Some(id);
        }
    }
    None
}

fn is_known(list: &[Sequence], id: &Text) -> bool
    ensures { result ≡ is_known list.now id.now }
{
    for sequence in list {
        if has_migration(&sequence.migrations, id) {
            return true;
        }
    }
    false
}

fn has_migration(migrations: &[Migration], id: &Text) -> bool
    ensures { result ≡ has_migration id.now migrations.now }
{
    for migration in migrations {
        if migration.id.as_str() == id.as_str() {
            return true;
        }
    }
    false
}

// The sequences in the order of their ids.
pub(crate) fn by_id(alloc: Global, list: Vec<Sequence>) -> Mem<Vec<Sequence>>
    ensures { IfOk result (λ sorted. sorted.items ≡ by_id list.items) }
{
    let mut sorted = Vec::new(alloc);
    for sequence in list {
        insert_by_id(&mut sorted, sequence)?;
    }
    Ok(sorted)
}

fn insert_by_id(sorted: &mut Vec<Sequence>, sequence: Sequence) -> Mem<()>
    ensures { OnOk result (sorted.new.items ≡ inserted sequence sorted.old.items) }
{
    let place = place_for(sorted, &sequence.id);
    sorted.insert(place, sequence)?;
    Ok(())
}

// Where a sequence with an id goes: before the first one with a greater id.
fn place_for(sorted: &[Sequence], id: &Text) -> usize
    ensures within { result ≤ length sorted.now }
    ensures place { (s : Sequence) → s.id ≡ id.now
        → insert sorted.now result s ≡ inserted s sorted.now }
{
    for place in 0..sorted.len() {
        if id.as_str() < sorted[place].id.as_str() {
            return place;
        }
    }
    sorted.len()
}

// The places of all migrations.
pub(crate) fn all_places(alloc: Global, sequences: &[Sequence]) -> Mem<Vec<Place>>
    ensures { IfOk result (λ places. places.items ≡ places_of 0 sequences.now) }
{
    let mut places = Vec::new(alloc);
    for (index, sequence) in sequences.iter().enumerate() {
        push_places(&mut places, index, 0, sequence.migrations.len())?;
    }
    Ok(places)
}

// The ids of the migrations at some places.
pub(crate) fn ids_at(alloc: Global, sequences: &[Sequence], places: &[Place]) -> Mem<Vec<Text>>
    ensures { IfOk result (λ ids. ids.items ≡ ids_at sequences.now places.now) }
{
    let mut ids = Vec::new(alloc);
    for place in places {
        if let Some(migration) = at(sequences, *place) {
            ids.push(migration.id.copy(alloc)?)?;
        }
    }
    Ok(ids)
}
