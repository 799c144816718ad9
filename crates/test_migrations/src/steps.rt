//! What the steps of migrations make of records, up and down.
use crate::build::{migration, sequences_of, step};
use migrate_seq::{Plan, Sequences, Serialized};
use migrate_steps::{Filter, MigStep, Migration, Sequence};
use rooms_val::Text;
use std::alloc::Global;
use std::test::Fail;
use test_with_cases::{cells, val_text, value};

/// The one step of a name.
fn one_step(alloc: Global, name: &str) -> Result<Vec<MigStep>, Fail> {
    let mut steps = Vec::new(alloc);
    steps.push(step(alloc, name)?)?;
    Ok(steps)
}

/// The migration by one step, of the records that a filter lets through.
fn stepping(alloc: Global, id: &str, filter: Filter, name: &str) -> Result<Migration, Fail> {
    let steps = one_step(alloc, name)?;
    let id = Text::of(alloc, id)?;
    Ok(migration(id, filter, steps, Vec::new(alloc)))
}

/// The sequence `b` of these migrations.
fn sequence(alloc: Global, migrations: Vec<Migration>) -> Result<Vec<Sequence>, Fail> {
    let mut list = Vec::new(alloc);
    list.push(Sequence {
        id: Text::of(alloc, "b")?,
        retroactive: true,
        migrations,
    })?;
    Ok(list)
}

/// The plan of all migrations of some sequences.
fn plan_of_all(alloc: Global, sequences: &Sequences) -> Result<Plan, Fail> {
    Ok(sequences.since(alloc, &Serialized::new(alloc))?)
}

/// What a record is after all migrations up.
fn after_up(alloc: Global, sequences: &Sequences, text: &str) -> Result<String, Fail> {
    let plan = plan_of_all(alloc, sequences)?;
    if !plan.records_only() {
        return Err(Fail::from("a plan of records was wanted"));
    }
    let after = sequences.up(alloc, &plan, &value(alloc, text)?)?;
    val_text(alloc, &after)
}

/// What a record is after all migrations down.
fn after_down(alloc: Global, sequences: &Sequences, text: &str) -> Result<String, Fail> {
    let plan = plan_of_all(alloc, sequences)?;
    if !plan.both_ways() {
        return Err(Fail::from("a plan both ways was wanted"));
    }
    let after = sequences.down(alloc, &plan, &value(alloc, text)?)?;
    val_text(alloc, &after)
}

/// The sequence of one step of all records.
fn sequence_of_step(alloc: Global, name: &str) -> Result<Sequences, Fail> {
    let mut migrations = Vec::new(alloc);
    migrations.push(stepping(alloc, "b/1", Filter::All, name)?)?;
    sequences_of(alloc, sequence(alloc, migrations)?)
}

/// What the record of a row is after its step up, and after its step down.
pub(crate) fn up_and_down(alloc: Global, row: &str) -> Result<String, Fail> {
    let [name, old, ..] = cells(row);
    let sequences = sequence_of_step(alloc, name)?;
    let up = after_up(alloc, &sequences, old)?;
    let down = after_down(alloc, &sequences, old)?;
    Ok(format!(in alloc; "{up} and {down}")?)
}

/// The step of a filter: a step of all, one of those with a `typeName`, and one of those with a `type` too.
fn filtering(alloc: Global, number: u32) -> Result<Migration, Fail> {
    if number == 0 {
        return stepping(alloc, "b/1", Filter::All, "rename");
    }
    let shape = Text::of(alloc, "shape")?;
    if number == 1 {
        return stepping(alloc, "b/2", Filter::Type_(shape), "add 1");
    }
    let geo = Filter::Kind(shape, Text::of(alloc, "geo")?);
    stepping(alloc, "b/3", geo, "scale 10")
}

/// The sequence of the three steps with filters.
fn sequence_of_filters(alloc: Global) -> Result<Sequences, Fail> {
    let mut migrations = Vec::new(alloc);
    for number in 0..3 {
        migrations.push(filtering(alloc, number)?)?;
    }
    sequences_of(alloc, sequence(alloc, migrations)?)
}

/// What a record is after the steps with filters up, if it is as before after them down again.
pub(crate) fn let_through(alloc: Global, old: &str) -> Result<String, Fail> {
    let sequences = sequence_of_filters(alloc)?;
    let up = after_up(alloc, &sequences, old)?;
    let down = after_down(alloc, &sequences, up.as_str())?;
    if down.as_str() == old {
        return Ok(up);
    }
    Ok(format!(in alloc; "{up} and {down}")?)
}
