//! Sequences of migrations that fit together.
ghost use Rattle.std.specs.Prelude.{◌≡◌, Bool, IsTrue, IfOk, count_by};
ghost use Rattle.std.specs.List.{list_all};
ghost use Rattle.rooms_val.specs.Answers.{Gives};
ghost use Rattle.rooms_val.specs.View.{data_of};
ghost use Rattle.migrate_seq.specs.declared.fault.PlanFault.TheVariants as plan_fault;
ghost use Rattle.migrate_seq.specs.declared.fault.SeqFault.TheVariants as seq_fault;
ghost use Rattle.migrate_seq.specs.Builds.{built, have_rising_ids};
ghost use Rattle.migrate_steps.specs.Steps.{can_scale};
ghost use Rattle.migrate_steps.specs.Records.{raised_along, raised_map, lowered_along};
ghost use Rattle.migrate_seq.specs.Plans.{migration_at, migrations_at, is_acyclic, can_all_scale, plan_answer, IsPlan, newest_versions, are_both_ways, are_of_records};
ghost use Rattle.migrate_seq.specs.Shown.{places_in, goes_both_ways, is_of_records};

use crate::build::{all_places, bad_id, by_id, doubled_id, gap, ids_at, unknown};
use crate::fault::{Ids, PlanFault, SeqFault};
use crate::order::{at, take_in_turn};
use crate::place::Place;
use crate::plan::{Plan, check, missing};
use crate::serialized::Serialized;
use migrate_steps::{Migration, Sequence, Way, migrate, migrate_each};
use rooms_val::{Fields, Mem, Val};
use std::alloc::Global;

/// Sequences in the order of their ids, of which every migration can be run in turn.
#[derive(Drop)]
pub struct Sequences {
    sequences: Vec<Sequence>,
    ghost acyclic: { IsTrue (is_acyclic sequences.items) },
    ghost scaled: { IsTrue (can_all_scale sequences.items) },
}

impl Sequences {
    ghost use Rattle.std.specs.Prelude.{option_map, IfSome, List};
    ghost use Rattle.migrate_seq.specs.SequencesOf.{sequences_of};

    /// The sequences of a list, in the order of their ids. It is refused exactly where one of the causes of `SeqFault`
    /// applies. The factor of each `Scale` is at least 2.
    pub fn build(alloc: Global, list: Vec<Sequence>) -> Result<Sequences, SeqFault>
        requires { IsTrue (can_all_scale list.items) }
        ensures answer { Gives seq_fault.OutOfMemory sequences_of result (built list.items) }
        ensures rising { IfOk result (λ s. IsTrue (have_rising_ids (sequences_of s))) }

        // They are the listed ones, each as often.
        ensures same { IfOk result (λ s. (test : Sequence → Bool)
            → count_by test (sequences_of s) ≡ count_by test list.items) }
    {
        if let Some(id) = gap(&list) {
            let id = id.copy(alloc)?;
            return Err(SeqFault::Gap(id));
        }
        if let Some(id) = bad_id(&list) {
            let id = id.copy(alloc)?;
            return Err(SeqFault::BadId(id));
        }
        if let Some(id) = doubled_id(&list) {
            let id = id.copy(alloc)?;
            return Err(SeqFault::Doubled(id));
        }
        if let Some(id) = unknown(&list) {
            let id = id.copy(alloc)?;
            return Err(SeqFault::UnknownDependency(id));
        }
        let sequences = by_id(alloc, list)?;
        let places = all_places(alloc, &sequences)?;
        let order = take_in_turn(alloc, &sequences, places)?;
        if !order.left.is_empty() {
            let ids = ids_at(alloc, &sequences, &order.left)?;
            return Err(SeqFault::Cycle(Ids::new(ids)));
        }
        Ok(Sequences { sequences })
    }

    /// The plan of the migrations that somebody misses, who holds these versions. At each place stands the least free
    /// one, by the id of its sequence and its version, of those from there on.
    pub fn since(&self, alloc: Global, held: &Serialized) -> Result<Plan, PlanFault>
        ensures plan { Gives plan_fault.OutOfMemory places_in result
            (plan_answer (sequences_of self.now) held.now) }
        ensures order { IfOk result (λ p. IsPlan (sequences_of self.now) held.now (places_in p)) }
        ensures only { IfOk result (λ p. (other : List Place)
            → IsPlan (sequences_of self.now) held.now other → other ≡ places_in p) }
        ensures both_ways { IfOk result (λ p. goes_both_ways p
            ≡ are_both_ways (migrations_at (sequences_of self.now) (places_in p))) }
        ensures records_only { IfOk result (λ p. is_of_records p
            ≡ are_of_records (migrations_at (sequences_of self.now) (places_in p))) }
    {
        let sequences = self.sequences.as_slice();
        check(alloc, sequences, held)?;
        let missing = missing(alloc, sequences, held)?;
        let order = take_in_turn(alloc, sequences, missing)?;
        Ok(Plan::new(sequences, order.taken))
    }

    /// A record after the migrations of a plan, in their order.
    pub fn up(&self, alloc: Global, plan: &Plan, stored: &Val) -> Mem<Val>
        requires { IsTrue (is_of_records plan.now) }
        ensures { IfOk result (λ v. data_of v ≡ raised_along
            (migrations_at (sequences_of self.now) (places_in plan.now)) (data_of stored.now)) }
    {
        let mut after = stored.copy(alloc)?;
        for place in plan.places() {
            if let Some(migration) = self.at(*place) {
                after = migrate(alloc, migration, Way::Up, after)?;
            }
        }
        Ok(after)
    }

    /// A map of records by their ids after the migrations of a plan, in their order and whatever their scope: each changes
    /// the records that its filter matches. It costs a pass over the map for each migration, and a copy of the records
    /// that are changed; copies of the map share the others.
    pub fn up_map(&self, alloc: Global, plan: &Plan, records: &Fields) -> Mem<Fields>
        ensures { IfOk result (λ m. m
            ≡ raised_map (migrations_at (sequences_of self.now) (places_in plan.now)) records.now) }
    {
        let mut after = records.copy(alloc)?;
        for place in plan.places() {
            if let Some(migration) = self.at(*place) {
                after = migrate_each(alloc, migration, after)?;
            }
        }
        Ok(after)
    }

    /// A record after the migrations of a plan are run down, the last one first.
    pub fn down(&self, alloc: Global, plan: &Plan, stored: &Val) -> Mem<Val>
        requires { IsTrue (goes_both_ways plan.now) }
        ensures { IfOk result (λ v. data_of v ≡ lowered_along
            (migrations_at (sequences_of self.now) (places_in plan.now)) (data_of stored.now)) }
    {
        let places = plan.places();
        let mut after = stored.copy(alloc)?;
        let mut left = places.len();
        'places: while 0 < left {
            left -= 1;
            if let Some(migration) = self.at(places[left]) {
                after = migrate(alloc, migration, Way::Down, after)?;
            }
        }
        Ok(after)
    }

    /// The newest version of each of the sequences that has migrations.
    pub fn serialized(&self, alloc: Global) -> Mem<Serialized>
        ensures { IfOk result (λ s. s ≡ newest_versions (sequences_of self.now)) }
    {
        let mut versions = Serialized::new(alloc);
        for sequence in &self.sequences {
            if !sequence.migrations.is_empty() {
                let newest = sequence.migrations.len() as u64;
                versions.put(sequence.id.copy(alloc)?, newest)?;
            }
        }
        Ok(versions)
    }

    // The migration at a place.
    fn at(&self, place: Place) -> Option<&Migration>
        ensures found { option_map (λ m. m.now) result
            ≡ migration_at (sequences_of self.now) place }
        ensures scales { IfSome result (λ m. IsTrue (list_all can_scale m.now.steps.items)) }
    {
        at(&self.sequences, place)
    }
}
