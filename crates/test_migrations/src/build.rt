//! Migrations and their steps.
ghost use Rattle.std.specs.Prelude.{◌≡◌};
ghost use Rattle.std.specs.List.{list_all};
ghost use Rattle.migrate_steps.specs.Steps.{can_scale};
ghost use Rattle.migrate_seq.specs.Plans.{can_all_scale};

use migrate_seq::Sequences;
use migrate_steps::{Filter, MigScope, MigStep, Migration, Sequence};
use rooms_val::{Text, Val};
use std::alloc::Global;
use std::test::Fail;

fn can_scale(step: &MigStep) -> bool
    ensures { result ≡ can_scale step.now }
{
    match step {
        MigStep::Scale { factor, .. } => 2 <= *factor,
        MigStep::Add { .. }
        | MigStep::Remove { .. }
        | MigStep::Rename { .. }
        | MigStep::MapEnum { .. }
        | MigStep::Nest { .. }
        | MigStep::Unnest { .. } => true,
    }
}

fn can_scale_by(migration: &Migration) -> bool
    ensures { result ≡ list_all can_scale migration.now.steps.items }
{
    migration.steps.iter().all(|step| can_scale(step))
}

fn can_scale_in(sequence: &Sequence) -> bool
    ensures { result ≡ list_all (λ m. list_all can_scale m.steps.items) sequence.now.migrations.items }
{
    sequence
        .migrations
        .iter()
        .all(|migration| can_scale_by(migration))
}

/// Whether each factor of some sequences is 2 or more.
pub(crate) fn can_all_scale(list: &[Sequence]) -> bool
    ensures { result ≡ can_all_scale list.now }
{
    list.iter().all(|sequence| can_scale_in(sequence))
}

/// The sequences of a list that fit together.
pub(crate) fn sequences_of(alloc: Global, list: Vec<Sequence>) -> Result<Sequences, Fail> {
    if !can_all_scale(&list) {
        return Err(Fail::from("factors of 2 and more were wanted"));
    }
    Ok(Sequences::build(alloc, list)?)
}

/// Copies of some texts.
pub(crate) fn texts(alloc: Global, all: &[&str]) -> Result<Vec<Text>, Fail> {
    let mut copies = Vec::new(alloc);
    for text in all {
        copies.push(Text::of(alloc, text)?)?;
    }
    Ok(copies)
}

/// The step of its name that changes what stands under `k` of the map under `p`.
fn at_key(alloc: Global, name: &str) -> Result<MigStep, Fail> {
    let path = texts(alloc, &["p"])?;
    let key = Text::of(alloc, "k")?;
    Ok(match name {
        "add 1" => MigStep::Add {
            path,
            key,
            val: Val::Int(1),
        },
        "remove 1" => MigStep::Remove {
            path,
            key,
            val: Val::Int(1),
        },
        "scale 10" => MigStep::Scale {
            path,
            key,
            factor: 10,
        },
        _ => MigStep::MapEnum {
            path,
            key,
            pairs: pairs(alloc)?,
        },
    })
}

/// Pairs of texts, two of them with the same first and two with the same second.
fn pairs(alloc: Global) -> Result<Vec<(Text, Text)>, Fail> {
    let mut made = Vec::new(alloc);
    for (first, second) in [("x", "y"), ("x", "z"), ("w", "y")] {
        made.push((Text::of(alloc, first)?, Text::of(alloc, second)?))?;
    }
    Ok(made)
}

/// The step of its name, in the map under `p`.
pub(crate) fn step(alloc: Global, name: &str) -> Result<MigStep, Fail> {
    Ok(match name {
        "rename" => MigStep::Rename {
            path: texts(alloc, &["p"])?,
            old: Text::of(alloc, "a")?,
            new: Text::of(alloc, "b")?,
        },
        "nest" => MigStep::Nest {
            path: texts(alloc, &["p"])?,
            keys: texts(alloc, &["a", "n"])?,
            into: Text::of(alloc, "n")?,
        },
        "unnest" => MigStep::Unnest {
            path: texts(alloc, &["p"])?,
            keys: texts(alloc, &["a", "n"])?,
            into: Text::of(alloc, "n")?,
        },
        _ => at_key(alloc, name)?,
    })
}

/// A migration of one record at a time. That of the id `a/1` can't be run down.
pub(crate) fn migration(
    id: Text,
    filter: Filter,
    steps: Vec<MigStep>,
    depends: Vec<Text>,
) -> Migration {
    let has_down = id.as_str() != "a/1";
    Migration {
        id,
        scope: MigScope::Record,
        filter,
        steps,
        has_down,
        depends,
    }
}
