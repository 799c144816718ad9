//! Which sequences of migrations fit together.
use crate::build::{can_all_scale, migration, texts};
use migrate_seq::{SeqFault, Sequences};
use migrate_steps::{Filter, MigStep, Migration, Sequence};
use rooms_val::Text;
use std::alloc::Global;
use std::test::Fail;
use test_with_cases::val_text;

/// What the record of an order has before any migration, and the ids of all those that are run here.
const MARKS: [&str; 9] = ["at", "a/1", "b/1", "b/2", "c/1", "c/2", "d/1", "d/2", "e/1"];

/// A migration that puts all that the migrations before it made under its own id, so that a record tells their order. It
/// may depend on one, behind a `<`.
fn marking(alloc: Global, words: &str) -> Result<Migration, Fail> {
    match words.split_once('<') {
        Some((id, on)) => marking_after(alloc, id, texts(alloc, &[on])?),
        None => marking_after(alloc, words, Vec::new(alloc)),
    }
}

fn marking_after(alloc: Global, id: &str, depends: Vec<Text>) -> Result<Migration, Fail> {
    let steps = marking_steps(alloc, id)?;
    Ok(migration(Text::of(alloc, id)?, Filter::All, steps, depends))
}

fn marking_steps(alloc: Global, id: &str) -> Result<Vec<MigStep>, Fail> {
    let mut steps = Vec::new(alloc);
    steps.push(marking_step(alloc, id)?)?;
    Ok(steps)
}

fn marking_step(alloc: Global, id: &str) -> Result<MigStep, Fail> {
    let keys = texts(alloc, &MARKS)?;
    let into = Text::of(alloc, id)?;
    Ok(MigStep::Nest {
        path: Vec::new(alloc),
        keys,
        into,
    })
}

/// The sequence of its id and its migrations. It is retroactive, if its id isn't `d`.
fn sequence(alloc: Global, words: &str) -> Result<Sequence, Fail> {
    let mut parts = words.split(' ');
    let Some(id) = parts.next() else {
        return Err(Fail::from("an id was wanted"));
    };
    let mut migrations = Vec::new(alloc);
    for part in parts {
        migrations.push(marking(alloc, part)?)?;
    }
    Ok(Sequence {
        id: Text::of(alloc, id)?,
        retroactive: id != "d",
        migrations,
    })
}

/// The sequences that are parted by semicolons.
pub(crate) fn read_sequences(alloc: Global, words: &str) -> Result<Vec<Sequence>, Fail> {
    let mut sequences = Vec::new(alloc);
    for words in words.split("; ") {
        sequences.push(sequence(alloc, words)?)?;
    }
    Ok(sequences)
}

/// The ids that can't be put in order.
fn cycle_text(alloc: Global, ids: &[Text]) -> Result<String, Fail> {
    let mut text = String::from_str(alloc, "Cycle")?;
    for id in ids {
        text.push(' ')?;
        text.push_str(id.as_str())?;
    }
    Ok(text)
}

/// The name of a fault, and the ids at fault.
fn fault_text(alloc: Global, fault: &SeqFault) -> Result<String, Fail> {
    match fault {
        SeqFault::Gap(id) => Ok(format!(in alloc; "Gap {}", id.as_str())?),
        SeqFault::BadId(id) => Ok(format!(in alloc; "BadId {}", id.as_str())?),
        SeqFault::Doubled(id) => Ok(format!(in alloc; "Doubled {}", id.as_str())?),
        SeqFault::UnknownDependency(id) => Ok(format!(in alloc; "Unknown {}", id.as_str())?),
        SeqFault::Cycle(ids) => cycle_text(alloc, ids.as_slice()),
        SeqFault::OutOfMemory => Err(Fail::from("memory was refused")),
    }
}

/// The newest versions of some sequences, or the fault.
pub(crate) fn newest_or_fault(alloc: Global, words: &str) -> Result<String, Fail> {
    let list = read_sequences(alloc, words)?;
    if !can_all_scale(&list) {
        return Err(Fail::from("factors of 2 and more were wanted"));
    }
    match Sequences::build(alloc, list) {
        Ok(sequences) => newest(alloc, &sequences),
        Err(fault) => fault_text(alloc, &fault),
    }
}

/// The newest versions of some sequences.
fn newest(alloc: Global, sequences: &Sequences) -> Result<String, Fail> {
    let versions = sequences.serialized(alloc)?.copy(alloc)?;
    val_text(alloc, &versions.val(alloc)?)
}
