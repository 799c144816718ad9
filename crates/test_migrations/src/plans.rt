//! Which migrations are missing from what is held, and in which order they are run.
use crate::build::sequences_of;
use crate::sequences::read_sequences;
use migrate_seq::{Plan, PlanFault, Sequences, Serialized};
use rooms_val::Val;
use std::alloc::Global;
use std::test::Fail;
use test_with_cases::{cells, val_text, value};

/// The versions of a map that is written as JSON.
fn versions(alloc: Global, held: &str) -> Result<Serialized, Fail> {
    let text = format!(in alloc; "{{\"schemaVersion\":2,\"sequences\":{held}}}")?;
    Ok(Serialized::read(alloc, &value(alloc, text.as_str())?)?)
}

/// The order in which a plan runs its migrations, as the record tells it, and the same of a map that has it.
fn order(alloc: Global, sequences: &Sequences, plan: &Plan) -> Result<String, Fail> {
    if !plan.records_only() {
        return Err(Fail::from("a plan of records was wanted"));
    }
    let after = sequences.up(alloc, plan, &value(alloc, r#"{"at":0}"#)?)?;
    let told = val_text(alloc, &after)?;
    let Val::Map(records) = value(alloc, r#"{"q":{"at":0},"r":7}"#)? else {
        return Err(Fail::from("records by their ids were wanted"));
    };
    let all = val_text(alloc, &Val::Map(sequences.up_map(alloc, plan, &records)?))?;
    let wanted = format!(in alloc; "{{\"q\":{},\"r\":7}}", told.as_str())?;
    if all.as_str() != wanted.as_str() {
        return Ok(all);
    }
    Ok(told)
}

/// The record that tells an order.
fn order_text(alloc: Global, ids: &str) -> Result<String, Fail> {
    let mut text = String::from_str(alloc, r#"{"at":0}"#)?;
    for id in ids.split_whitespace() {
        text = format!(in alloc; "{{\"{id}\":{text}}}")?;
    }
    Ok(text)
}

/// Whether a plan may be run down, if it runs the migrations of these ids and no others; else what it runs.
fn direction(alloc: Global, sequences: &Sequences, plan: &Plan, ids: &str) -> Result<String, Fail> {
    let found = order(alloc, sequences, plan)?;
    let wanted = order_text(alloc, ids)?;
    if found.as_str() != wanted.as_str() || plan.is_empty() != ids.is_empty() {
        return Ok(found);
    }
    Ok(format!(in alloc; "{}", plan.both_ways())?)
}

/// What the sequences of a row miss of the versions that are held.
pub(crate) fn missing(alloc: Global, row: &str) -> Result<String, Fail> {
    let [words, held, ids, ..] = cells(row);
    let sequences = sequences_of(alloc, read_sequences(alloc, words)?)?;
    let plan = sequences.since(alloc, &versions(alloc, held)?)?;
    direction(alloc, &sequences, &plan, ids)
}

/// How a sequence `a` at 1 refuses versions that are held.
pub(crate) fn refusal_of(alloc: Global, held: &str) -> Result<String, Fail> {
    let sequences = sequences_of(alloc, read_sequences(alloc, "a a/1")?)?;
    match sequences.since(alloc, &versions(alloc, held)?) {
        Err(PlanFault::TooNew(id)) => Ok(format!(in alloc; "TooNew {}", id.as_str())?),
        Err(PlanFault::UnknownSequence(id)) => {
            Ok(format!(in alloc; "UnknownSequence {}", id.as_str())?)
        }
        _ => Err(Fail::from("a fault was wanted")),
    }
}
