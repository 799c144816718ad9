//! The order of migrations where one may follow another.
ghost use Rattle.std.specs.Prelude.{◌≡◌, option_map, length, IfOk, IfSome, IfNone, slice_index_or, remove, ◌<◌};
ghost use Rattle.std.specs.Prelude.{nat_eq, suc, ◌&&◌};
ghost use Rattle.std.specs.List.{list_any};
ghost use Rattle.std.specs.Str.{bytes_eq};
ghost use Rattle.migrate_seq.specs.Order.{is_free, picked, in_order, never_taken};
ghost use Rattle.migrate_seq.specs.declared.place.Place.{Place};
ghost use Rattle.migrate_seq.specs.Plans.{migration_at, depends_on, follows};

use crate::place::Place;
use migrate_steps::{Migration, Sequence};
use rooms_val::Mem;
use std::alloc::Global;

// Migrations in their order, and those that could never be taken.
#[derive(Drop)]
pub(crate) struct Taken {
    pub(crate) taken: Vec<Place>,
    pub(crate) left: Vec<Place>,
}

// The first free migration is taken again and again.
pub(crate) fn take_in_turn(alloc: Global, sequences: &[Sequence], places: Vec<Place>) -> Mem<Taken>
    ensures taken { IfOk result
        (λ r. r.taken.items ≡ in_order (follows sequences.now) places.items) }
    ensures left { IfOk result
        (λ r. r.left.items ≡ never_taken (follows sequences.now) places.items) }
{
    let mut taken = Vec::new(alloc);
    let mut left = places;
    'places: while let Some(place) = take_free(sequences, &mut left) {
        taken.push(place)?;
    }
    Ok(Taken { taken, left })
}

// Takes the first one that follows none of them.
fn take_free(sequences: &[Sequence], left: &mut Vec<Place>) -> Option<Place>
    ensures picked { option_map (λ p. (p, left.new.items)) result
        ≡ picked (is_free (follows sequences.now) left.old.items) left.old.items }
    ensures none { IfNone result (left.new.items ≡ left.old.items) }
{
    match first_free(sequences, left) {
        Some(index) => Some(left.remove(index)),
        None => None,
    }
}

fn first_free(sequences: &[Sequence], left: &[Place]) -> Option<usize>
    ensures within { IfSome result (λ i. i < length left.now) }
    ensures picked { (d : Place) → picked (is_free (follows sequences.now) left.now) left.now
        ≡ option_map (λ i. (slice_index_or left.now i d, remove left.now i)) result }
{
    for index in 0..left.len() {
        if is_free(sequences, left[index], left) {
            return Some(index);
        }
    }
    None
}

fn is_free(sequences: &[Sequence], place: Place, left: &[Place]) -> bool
    ensures { result ≡ is_free (follows sequences.now) left.now place }
{
    for earlier in left {
        if follows(sequences, place, *earlier) {
            return false;
        }
    }
    true
}

fn follows(sequences: &[Sequence], later: Place, earlier: Place) -> bool
    ensures { result ≡ follows sequences.now later earlier }
{
    is_next(later, earlier) || depends(sequences, later, earlier)
}

fn is_next(later: Place, earlier: Place) -> bool
    ensures { result ≡ (nat_eq later.sequence earlier.sequence
        && nat_eq later.migration (suc earlier.migration)) }
{
    later.sequence == earlier.sequence
        && earlier.migration < later.migration
        && later.migration - earlier.migration == 1
}

fn depends(sequences: &[Sequence], later: Place, earlier: Place) -> bool
    ensures { result ≡ depends_on (migration_at sequences.now later)
        (migration_at sequences.now earlier) }
{
    match at(sequences, later) {
        Some(later) => match at(sequences, earlier) {
            Some(earlier) => names(later, earlier.id.as_str()),
            None => false,
        },
        None => false,
    }
}

// Whether a migration depends on the one with an id.
fn names(migration: &Migration, id: &str) -> bool
    ensures { result ≡ list_any (λ name. bytes_eq name id.now) migration.now.depends.items }
{
    migration.depends.iter().any(|name| name.as_str() == id)
}

// The migration at a place.
pub(crate) fn at(sequences: &[Sequence], place: Place) -> Option<&Migration>
    ensures { option_map (λ m. m.now) result ≡ migration_at sequences.now place }
{
    match sequences.get(place.sequence) {
        Some(sequence) => sequence.migrations.get(place.migration),
        None => None,
    }
}
