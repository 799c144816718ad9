//! Shapes of version 1 that are taken up to version 4.
ghost use Rattle.std.specs.Prelude.{IsTrue};
ghost use Rattle.migrate_seq.specs.Shown.{is_of_records};

use crate::made::record_of;
use migrate_seq::{Plan, Sequences};
use rooms_val::{Fields, Mem, OutOfMemory, Text};
use std::alloc::Global;
use tl_tables::{TableFault, schema_at};

/// A shape of version 1 without id.
const SHAPE: &str =
    r#"{"alpha":5,"index":"a0","isLocked":false,"meta":{},"parentId":"page:p","props":{"color":"black","fill":"none","geo":"oval","h":10,"size":"m","text":"","w":10},"rotation":0,"type":"geo","typeName":"shape","x":0,"y":0}"#;

/// How the shapes are taken up.
#[derive(Clone, Copy)]
pub(crate) enum Raise {
    /// As one map.
    Together,
    /// One by one, into a list.
    Alone,
}

/// Takes a shape of each id up, so many times. It returns how many shapes there were in all.
pub(crate) fn raise_times(way: Raise, alloc: Global, ids: &[Text], times: u32) -> Mem<i64> {
    match raised_all(way, alloc, ids, times) {
        Ok(count) => Ok(count),
        Err(_) => Err(OutOfMemory),
    }
}

fn raised_all(way: Raise, alloc: Global, ids: &[Text], times: u32) -> Result<i64, TableFault> {
    let older = schema_at(alloc, 1)?;
    let held = older.sequences().serialized(alloc)?;
    let schema = schema_at(alloc, 4)?;
    let Ok(plan) = schema.sequences().since(alloc, &held) else {
        return Err(TableFault::OutOfMemory);
    };
    let shapes = shapes(alloc, ids)?;
    let mut count = 0i64;
    if plan.records_only() {
        for _ in 0..times {
            let more = raised_once(way, alloc, schema.sequences(), &plan, &shapes)?;
            count = count.saturating_add(more);
        }
    }
    Ok(count)
}

/// A shape under each id.
fn shapes(alloc: Global, ids: &[Text]) -> Mem<Fields> {
    let mut shapes = Fields::new(alloc);
    for id in ids {
        let shape = record_of(alloc, SHAPE, &[("id", id.as_str())])?;
        drop(shapes.put(id.copy(alloc)?, shape)?);
    }
    Ok(shapes)
}

/// Takes each shape of a map up. It returns how many there were.
fn raised_once(
    way: Raise,
    alloc: Global,
    sequences: &Sequences,
    plan: &Plan,
    shapes: &Fields,
) -> Mem<i64>
    requires { IsTrue (is_of_records plan.now) }
{
    match way {
        Raise::Together => {
            let after = sequences.up_map(alloc, plan, shapes)?;
            Ok(i64::try_from(after.len()).unwrap_or(i64::MAX))
        }
        Raise::Alone => {
            let mut after = Vec::with_capacity(alloc, shapes.len())?;
            for (_, shape) in shapes.as_slice() {
                after.push(sequences.up(alloc, plan, shape)?)?;
            }
            Ok(i64::try_from(after.len()).unwrap_or(i64::MAX))
        }
    }
}
