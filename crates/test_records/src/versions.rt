//! What becomes of a whiteboard's records between its versions.
use crate::played::{Call, plays};
use crate::schemas::{schema_of, with_patch};
use migrate_seq::{Plan, PlanFault, Sequences, Serialized};
use rooms_val::Val;
use std::alloc::Global;
use std::test::Fail;
use test_with_cases::{cells, val_text, value};

// The newest versions of the sequences, for each version of the whiteboard.
const NEWEST: &str = r#"
1 | {"schemaVersion":2,"sequences":{"rooms.base":1}}
2 | {"schemaVersion":2,"sequences":{"rooms.base":1,"rooms.shape":1}}
3 | {"schemaVersion":2,"sequences":{"rooms.base":1,"rooms.binding":1,"rooms.shape":2}}
4 | {"schemaVersion":2,"sequences":{"rooms.asset":1,"rooms.base":1,"rooms.binding":1,"rooms.shape":2}}
5 | {"schemaVersion":2,"sequences":{"rooms.asset":1,"rooms.base":1,"rooms.binding":1,"rooms.page":1,"rooms.shape":2}}
"#;

// An older version and a newer one, an id, how its records at the two differ from those of the table of records, and `=` where
// each becomes the other.
const CHANGES: &str = r#"
1 2 | shape:geo | {} | {} | =
1 3 | shape:geo | {} | {} | =
1 3 | shape:geo | {"alpha":["put",5],"props":["patch",{"geo":["put","oval"]}]} | {"opacity":["put",50],"props":["patch",{"geo":["put","ellipse"]}]} | =
2 3 | shape:geo | {"opacity":["put",55],"props":["patch",{"geo":["put","oval"]}]} | {"opacity":["put",55],"props":["patch",{"geo":["put","ellipse"]}]} | =
2 3 | shape:frame | {} | {} | =
1 2 | binding:b | {} | {} | =
1 3 | binding:b | {} | {} | =
2 3 | binding:b | {} | {} | =
1 3 | page:p | {} | {} | =
1 4 | shape:geo | {} | {} | =
1 4 | binding:b | {} | {} | =
1 4 | page:p | {} | {} | =
1 4 | asset:i | {} | {} | =
3 4 | asset:i | {"props":["patch",{"w":["put",7]}]} | {"props":["patch",{"dims":["patch",{"w":["put",7]}]}]} | =
"#;

// A newer version and an older one, an id, how its record at the newer one differs from that of the table of records before it
// is lowered and raised again, how it does afterwards, and `=` where that is so.
const ROUNDS: &str = r#"
4 3 | asset:i | {} | {} | =
# Other keys inside `dims` are dropped, and a side that lacks there still lacks.
4 3 | asset:i | {"props":["patch",{"dims":["patch",{"d":["put",9],"dims":["put",{"w":1}]}]}]} | {} | =
4 3 | asset:i | {"props":["patch",{"dims":["put",{"d":9,"w":5}]}]} | {"props":["patch",{"dims":["put",{"w":5}]}]} | =
4 3 | asset:i | {"props":["patch",{"dims":["put",{"d":9}]}]} | {"props":["patch",{"dims":["delete"]}]} | =
# What is no map stays; of a side that stands outside too the one inside is left.
4 3 | asset:i | {"props":["patch",{"dims":["put",7]}]} | {"props":["patch",{"dims":["put",7]}]} | =
4 3 | asset:i | {"props":["patch",{"w":["put",5]}]} | {} | =
4 3 | asset:i | {"props":["patch",{"dims":["put",{"h":20}],"w":["put",5]}]} | {"props":["patch",{"dims":["patch",{"w":["put",5]}]}]} | =
"#;

// An older version and a newer one, records by their ids, and what they all are after the plan. Some aren't admitted, one isn't
// even a map; of a shape that is a `geo` and has an alpha the second migration changes what the first one left.
const BOARDS: &str = r#"
1 5 | {} | {}
1 5 | {"asset:i":{"props":{"h":20,"name":"i","w":30},"typeName":"asset"}} | {"asset:i":{"props":{"dims":{"h":20,"w":30},"name":"i"},"typeName":"asset"}}
1 5 | {"binding:b":{"props":{"anchorX":1,"anchorY":2},"typeName":"binding"}} | {"binding:b":{"props":{"anchor":{"x":1,"y":2}},"typeName":"binding"}}
1 5 | {"odd":7,"page:p":{"typeName":"page"},"page:q":{"hidden":true,"typeName":"page"}} | {"odd":7,"page:p":{"hidden":false,"typeName":"page"},"page:q":{"hidden":true,"typeName":"page"}}
1 5 | {"shape:a":{"alpha":5,"props":{"geo":"oval"},"type":"geo","typeName":"shape"},"shape:b":{"alpha":"5","props":7,"type":"geo","typeName":"shape"}} | {"shape:a":{"opacity":50,"props":{"dash":"draw","geo":"ellipse"},"type":"geo","typeName":"shape"},"shape:b":{"opacity":"5","props":7,"type":"geo","typeName":"shape"}}
4 5 | {"asset:i":{"props":{"h":20,"w":30},"typeName":"asset"},"page:p":{"typeName":"page"}} | {"asset:i":{"props":{"h":20,"w":30},"typeName":"asset"},"page:p":{"hidden":false,"typeName":"page"}}
3 4 | {"page:p":{"typeName":"page"},"shape:a":{"alpha":5,"typeName":"shape"}} | {"page:p":{"typeName":"page"},"shape:a":{"alpha":5,"typeName":"shape"}}
"#;

// A version, the versions of sequences that somebody holds, and how the version refuses them, or what its plan is. A sequence
// that has no migration there is unknown. The first migration of all is run up alone.
const HELD: &str = r#"
1 | {"rooms.base":1,"rooms.shape":1} | UnknownSequence rooms.shape
1 | {"rooms.shape":0} | UnknownSequence rooms.shape
1 | {"rooms.base":2,"rooms.shape":1} | TooNew rooms.base
2 | {"rooms.base":1,"rooms.binding":1,"rooms.shape":2} | UnknownSequence rooms.binding
2 | {"rooms.base":1,"rooms.shape":2} | TooNew rooms.shape
3 | {"rooms.base":1,"rooms.binding":2,"rooms.shape":2} | TooNew rooms.binding
3 | {} | up alone
3 | {"rooms.asset":1} | UnknownSequence rooms.asset
4 | {"rooms.base":1} | up and down
4 | {"rooms.asset":1,"rooms.base":1,"rooms.binding":1,"rooms.page":1,"rooms.shape":2} | UnknownSequence rooms.page
5 | {"rooms.asset":1,"rooms.base":1,"rooms.binding":1,"rooms.shape":2} | not of records
5 | {"rooms.base":1,"rooms.page":1} | up and down
5 | {"rooms.page":2} | TooNew rooms.page
"#;

#[test]
fn versions_are_told_and_records_migrated(rt: HostRuntime) -> Result<(), Fail> {
    plays(&rt, rt.alloc(), Call::Newest, NEWEST)?;
    plays(&rt, rt.alloc(), Call::Migrate, CHANGES)?;
    plays(&rt, rt.alloc(), Call::Round, ROUNDS)?;
    plays(&rt, rt.alloc(), Call::Board, BOARDS)?;
    plays(&rt, rt.alloc(), Call::Since, HELD)
}

/// The newest version of each sequence.
pub(crate) fn newest(alloc: Global, version: &str) -> Result<String, Fail> {
    let schema = schema_of(alloc, version)?;
    let versions = schema.sequences().serialized(alloc)?;
    let val = versions.val(alloc)?;
    val_text(alloc, &val)
}

/// The plan by which records of an older version are raised.
fn plan_from(alloc: Global, sequences: &Sequences, older: &str) -> Result<Plan, Fail> {
    let schema = schema_of(alloc, older)?;
    let held = schema.sequences().serialized(alloc)?;
    Ok(sequences.since(alloc, &held)?)
}

/// What a record of an older version is raised to.
fn raise_record(alloc: Global, sequences: &Sequences, older: &str, val: &Val) -> Result<Val, Fail> {
    let plan = plan_from(alloc, sequences, older)?;
    if !plan.records_only() {
        return Err(Fail::from("a plan of records was wanted"));
    }
    Ok(sequences.up(alloc, &plan, val)?)
}

/// What a record is lowered to for an older version.
fn lower_record(alloc: Global, sequences: &Sequences, older: &str, val: &Val) -> Result<Val, Fail> {
    let plan = plan_from(alloc, sequences, older)?;
    if !plan.both_ways() {
        return Err(Fail::from("a plan both ways was wanted"));
    }
    Ok(sequences.down(alloc, &plan, val)?)
}

/// Whether two records are written the same.
fn is_same(alloc: Global, found: &Val, wanted: &Val) -> Result<bool, Fail> {
    Ok(val_text(alloc, found)?.as_str() == val_text(alloc, wanted)?.as_str())
}

/// Whether the record of a row goes up from an older version to a newer one as it is to.
fn goes_up(alloc: Global, sequences: &Sequences, row: &str) -> Result<bool, Fail> {
    let [versions, id, older, newer] = cells(row);
    let (from, to) = versions.split_once(' ').unwrap_or((versions, versions));
    let before = with_patch(alloc, from, id, older)?;
    let found = raise_record(alloc, sequences, from, &before)?;
    is_same(alloc, &found, &with_patch(alloc, to, id, newer)?)
}

/// Whether it comes down so.
fn comes_down(alloc: Global, sequences: &Sequences, row: &str) -> Result<bool, Fail> {
    let [versions, id, older, newer] = cells(row);
    let (from, to) = versions.split_once(' ').unwrap_or((versions, versions));
    let after = with_patch(alloc, to, id, newer)?;
    let found = lower_record(alloc, sequences, from, &after)?;
    is_same(alloc, &found, &with_patch(alloc, from, id, older)?)
}

/// `=`, if the records of a row become each other.
pub(crate) fn migrate_row(alloc: Global, row: &str) -> Result<String, Fail> {
    let [versions, ..] = cells(row);
    let (_, newer) = versions.split_once(' ').unwrap_or((versions, versions));
    let schema = schema_of(alloc, newer)?;
    if !goes_up(alloc, schema.sequences(), row)? {
        return Ok(String::from_str(alloc, "another record up")?);
    }
    if !comes_down(alloc, schema.sequences(), row)? {
        return Ok(String::from_str(alloc, "another record down")?);
    }
    Ok(String::from_str(alloc, "=")?)
}

/// `=`, if the record of a row is as it is to be after it was lowered and raised again.
pub(crate) fn lower_and_raise(alloc: Global, row: &str) -> Result<String, Fail> {
    let [versions, id, before, after] = cells(row);
    let (newer, older) = versions.split_once(' ').unwrap_or((versions, versions));
    let schema = schema_of(alloc, newer)?;
    let sequences = schema.sequences();
    let low = lower_record(
        alloc,
        sequences,
        older,
        &with_patch(alloc, newer, id, before)?,
    )?;
    let high = raise_record(alloc, sequences, older, &low)?;
    if is_same(alloc, &high, &with_patch(alloc, newer, id, after)?)? {
        return Ok(String::from_str(alloc, "=")?);
    }
    val_text(alloc, &high)
}

/// What the records of a row are raised to together.
pub(crate) fn board_raised(alloc: Global, row: &str) -> Result<String, Fail> {
    let [versions, board, ..] = cells(row);
    let (older, newer) = versions.split_once(' ').unwrap_or((versions, versions));
    let schema = schema_of(alloc, newer)?;
    let plan = plan_from(alloc, schema.sequences(), older)?;
    let Val::Map(records) = value(alloc, board)? else {
        return Err(Fail::from("records by their ids were wanted"));
    };
    let after = schema.sequences().up_map(alloc, &plan, &records)?;
    val_text(alloc, &Val::Map(after))
}

/// The versions of a map that is written as JSON.
fn versions(alloc: Global, held: &str) -> Result<Serialized, Fail> {
    let text = format!(in alloc; "{{\"schemaVersion\":2,\"sequences\":{held}}}")?;
    let val = value(alloc, text.as_str())?;
    Ok(Serialized::read(alloc, &val)?)
}

/// How the version of a row refuses what somebody holds, or its plan.
pub(crate) fn since(alloc: Global, row: &str) -> Result<String, Fail> {
    let [version, held, ..] = cells(row);
    let held = versions(alloc, held)?;
    let schema = schema_of(alloc, version)?;
    match schema.sequences().since(alloc, &held) {
        Ok(plan) => Ok(String::from_str(alloc, plan_text(&plan))?),
        Err(PlanFault::TooNew(name)) => Ok(format!(in alloc; "TooNew {}", name.as_str())?),
        Err(PlanFault::UnknownSequence(name)) => {
            Ok(format!(in alloc; "UnknownSequence {}", name.as_str())?)
        }
        Err(PlanFault::OutOfMemory) => Err(Fail::from("memory was refused")),
    }
}

/// Which way a plan of records can be run.
fn plan_text(plan: &Plan) -> &'static str {
    if !plan.records_only() {
        return "not of records";
    }
    if plan.both_ways() {
        "up and down"
    } else {
        "up alone"
    }
}
