//! Migrations, and what one makes of a record.
ghost use Rattle.std.specs.Prelude.{◌≡◌, IsTrue, IfOk, OnOk};
ghost use Rattle.std.specs.List.{list_all};
ghost use Rattle.rooms_val.specs.Data.{Data};
ghost use Rattle.rooms_val.specs.Kinds.{field};
ghost use Rattle.rooms_val.specs.Maps.{with_key};
ghost use Rattle.rooms_val.specs.View.{data_of};
ghost use Rattle.migrate_steps.specs.Steps.{can_scale};
ghost use Rattle.migrate_steps.specs.Records.{has_text, passes, raised, lowered, migrated, raised_each};

use crate::row::walk;
use crate::step::{MigStep, Way};
use rooms_val::{Fields, Mem, Text, Val};
use std::alloc::Global;

/// Which records a migration changes; it is tested on the record as the migration meets it.
#[derive(Drop)]
pub enum Filter {
    /// Every record.
    All,
    /// The records whose `typeName` is this text.
    Type_(Text),
    /// The records whose `typeName` is the first text and whose `type` is the second.
    Kind(Text, Text),
}

/// What a migration works on.
#[derive(Clone, Copy, Debug, PartialEq, Eq)]
pub enum MigScope {
    /// One record at a time.
    Record,
    /// The whole store.
    Store,
}

/// A change of the records of some kind, from one version of its sequence to the next.
#[derive(Drop)]
pub struct Migration {
    /// The id of its sequence, `/` and its version, a decimal from 1.
    pub id: Text,
    pub scope: MigScope,
    pub filter: Filter,
    /// In the order in which they raise a record.
    pub steps: Vec<MigStep>,
    /// Whether its steps may be run down.
    pub has_down: bool,
    /// The ids of the migrations that it follows beside the one before it in its sequence.
    pub depends: Vec<Text>,
}

/// Migrations that follow one another, each at the version that is its place, counted from 1.
#[derive(Drop)]
pub struct Sequence {
    /// Not empty, and without `/`.
    pub id: Text,
    /// Whether who doesn't name the sequence misses all of it.
    pub retroactive: bool,
    pub migrations: Vec<Migration>,
}

/// A record after a migration, up or down: where its filter lets the record through, after its steps, and else as it was.
/// Each factor of its steps is at least 2. It costs a copy of what the steps change of the record.
///
/// # Errors
///
/// Memory was refused; the record is lost.
pub fn migrate(alloc: Global, migration: &Migration, way: Way, stored: Val) -> Mem<Val>
    requires { IsTrue (list_all can_scale migration.now.steps.items) }
    ensures { IfOk result (λ v. data_of v ≡ migrated way migration.now (data_of stored)) }
{
    if !passes(&migration.filter, &stored) {
        return Ok(stored);
    }
    match way {
        Way::Up => raise(alloc, &migration.steps, stored),
        Way::Down => lower(alloc, &migration.steps, stored),
    }
}

/// A map of records by their ids, after a migration up. Each record that the migration's filter lets through is as the
/// steps leave it, and each other record is as it was. The migration's scope makes no difference. Each factor of the steps
/// is at least 2.
///
/// It costs one pass over the map, and a copy of what the steps change of each record. A record that isn't changed is
/// shared with the copies of the map.
///
/// # Errors
///
/// Memory was refused; the map is lost.
pub fn migrate_each(alloc: Global, migration: &Migration, records: Fields) -> Mem<Fields>
    requires { IsTrue (list_all can_scale migration.now.steps.items) }
    ensures { IfOk result (λ m. m ≡ raised_each migration.now records) }
{
    // That the ids rise is told by the length.
    let _ = records.len();
    let mut after = Fields::new(alloc);
    'records: for (id, stored) in records.into_vec()? {
        put_raised(alloc, migration, id, stored, &mut after)?;
    }
    Ok(after)
}

// Puts a record after a migration up under its id.
fn put_raised(
    alloc: Global,
    migration: &Migration,
    id: Text,
    stored: Val,
    records: &mut Fields,
) -> Mem<()>
    requires { IsTrue (list_all can_scale migration.now.steps.items) }
    ensures { OnOk result (records.new
        ≡ with_key records.old id (migrated Way.Up migration.now (data_of stored))) }
{
    let raised = migrate(alloc, migration, Way::Up, stored)?;
    records.put(id, raised)?;
    Ok(())
}

fn raise(alloc: Global, steps: &[MigStep], stored: Val) -> Mem<Val>
    requires { IsTrue (list_all can_scale steps.now) }
    ensures { IfOk result (λ v. data_of v ≡ raised steps.now (data_of stored)) }
{
    let mut after = stored;
    for step in steps {
        after = walk(alloc, after, step.path(), step, Way::Up)?;
    }
    Ok(after)
}

fn lower(alloc: Global, steps: &[MigStep], stored: Val) -> Mem<Val>
    requires { IsTrue (list_all can_scale steps.now) }
    ensures { IfOk result (λ v. data_of v ≡ lowered steps.now (data_of stored)) }
{
    let mut after = stored;
    let mut left = steps.len();
    'steps: while 0 < left {
        left -= 1;
        let step = &steps[left];
        after = walk(alloc, after, step.path(), step, Way::Down)?;
    }
    Ok(after)
}

fn passes(filter: &Filter, stored: &Val) -> bool
    ensures { result ≡ passes filter.now (data_of stored.now) }
{
    match filter {
        Filter::All => true,
        Filter::Type_(name) => has_text(stored, "typeName", name),
        Filter::Kind(name, kind) => {
            has_text(stored, "typeName", name) && has_text(stored, "type", kind)
        }
    }
}

// Whether a record has a text under a key.
fn has_text(stored: &Val, key: &str, text: &Text) -> bool
    ensures { result ≡ has_text text.now (field (data_of stored.now) key.now) }
{
    match stored.get(key) {
        Some(val) => match val {
            Val::Text(found) => found.as_str() == text.as_str(),
            _ => false,
        },
        None => false,
    }
}
