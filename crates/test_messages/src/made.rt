//! Made recordings as lines, against lines that were made elsewhere by the published algorithm of the generator.
use field_ops::{Diff, RecordOp};
use load_maker::Maker;
use rec_format::{Event, print_event};
use schema_core::Schema;
use std::alloc::Global;
use std::process::Abort;
use std::test::Fail;
use tl_tables::schema_at;

// The last session of each client.
const LAST: [u64; 4] = [9, 7, 8, 5];

// The events before the draws.
const FIRST: &str = r#"
{"do":"client","version":3}
{"do":"client","version":3}
{"do":"client","version":2}
{"do":"client","version":1}
{"client":0,"do":"connect","readonly":false}
{"do":"handle","session":0}
{"do":"send","session":0}
{"client":0,"do":"deliver"}
{"client":1,"do":"connect","readonly":false}
{"do":"handle","session":1}
{"do":"send","session":1}
{"client":1,"do":"deliver"}
{"client":2,"do":"connect","readonly":false}
{"do":"handle","session":2}
{"do":"send","session":2}
{"client":2,"do":"deliver"}
{"client":3,"do":"connect","readonly":false}
{"do":"handle","session":3}
{"do":"send","session":3}
{"client":3,"do":"deliver"}
{"client":0,"diff":{"page:p":["put",{"id":"page:p","index":"a0","meta":{},"name":"P","typeName":"page"}]},"do":"edit"}
{"do":"handle","session":0}
{"do":"send","session":0}
{"client":0,"do":"deliver"}
{"do":"send","session":1}
{"client":1,"do":"deliver"}
{"do":"send","session":2}
{"client":2,"do":"deliver"}
{"do":"send","session":3}
{"client":3,"do":"deliver"}
"#;

// The events of the first 50 draws by the seed 7, among which each kind stands.
const BY_7: &str = r#"
{"client":1,"do":"presence","record":{"color":"red","currentPageId":"page:p","cursor":{"x":285,"y":0},"id":"instance_presence:me","meta":{},"selectedShapeIds":[],"typeName":"instance_presence","userName":"c1"}}
{"client":0,"diff":{"shape:s43":["put",{"id":"shape:s43","index":"a1","isLocked":false,"meta":{},"opacity":100,"parentId":"page:p","props":{"color":"black","dash":"draw","fill":"none","geo":"rectangle","h":10,"size":"m","text":"","w":10},"rotation":0,"type":"geo","typeName":"shape","x":468,"y":0}]},"do":"edit"}
{"do":"handle","session":9}
{"client":0,"diff":{"shape:s36":["put",{"id":"shape:s36","index":"a1","isLocked":false,"meta":{},"opacity":100,"parentId":"page:p","props":{"color":"black","dash":"draw","fill":"none","geo":"rectangle","h":10,"size":"m","text":"","w":10},"rotation":0,"type":"geo","typeName":"shape","x":856,"y":0}]},"do":"edit"}
{"do":"handle","session":7}
{"do":"handle","session":7}
{"do":"send","session":9}
{"client":2,"do":"undo"}
{"do":"lose","session":5}
{"client":3,"do":"connect","readonly":false}
{"client":2,"diff":{"shape:s10":["put",{"id":"shape:s10","index":"a1","isLocked":false,"meta":{},"opacity":100,"parentId":"page:p","props":{"color":"black","fill":"none","geo":"rectangle","h":10,"size":"m","text":"","w":10},"rotation":0,"type":"geo","typeName":"shape","x":349,"y":0}]},"do":"edit"}
{"do":"send","session":7}
{"do":"lose","session":7}
{"client":1,"do":"connect","readonly":false}
{"do":"handle","session":9}
{"client":0,"do":"undo"}
{"do":"handle","session":9}
{"client":1,"diff":{"shape:s37":["remove"]},"do":"edit"}
{"do":"handle","session":7}
{"client":0,"do":"presence","record":{"color":"red","currentPageId":"page:p","cursor":{"x":303,"y":0},"id":"instance_presence:me","meta":{},"selectedShapeIds":[],"typeName":"instance_presence","userName":"c0"}}
{"client":3,"do":"redo"}
{"client":1,"do":"deliver"}
{"client":0,"diff":{"shape:s9":["put",{"id":"shape:s9","index":"a1","isLocked":false,"meta":{},"opacity":100,"parentId":"page:p","props":{"color":"black","dash":"draw","fill":"none","geo":"rectangle","h":10,"size":"m","text":"","w":10},"rotation":0,"type":"geo","typeName":"shape","x":705,"y":0}]},"do":"edit"}
{"do":"handle","session":9}
{"client":3,"diff":{"shape:s4":["put",{"alpha":10,"id":"shape:s4","index":"a1","isLocked":false,"meta":{},"parentId":"page:p","props":{"color":"black","fill":"none","geo":"rectangle","h":10,"size":"m","text":"","w":10},"rotation":0,"type":"geo","typeName":"shape","x":903,"y":0}]},"do":"edit"}
{"do":"handle","session":8}
{"client":2,"do":"deliver"}
{"client":2,"diff":{"shape:s22":["put",{"id":"shape:s22","index":"a1","isLocked":false,"meta":{},"opacity":100,"parentId":"page:p","props":{"color":"black","fill":"none","geo":"rectangle","h":10,"size":"m","text":"","w":10},"rotation":0,"type":"geo","typeName":"shape","x":989,"y":0}]},"do":"edit"}
{"do":"lose","session":9}
{"client":0,"do":"connect","readonly":false}
{"do":"handle","session":7}
{"client":0,"do":"presence","record":{"color":"red","currentPageId":"page:p","cursor":{"x":666,"y":0},"id":"instance_presence:me","meta":{},"selectedShapeIds":[],"typeName":"instance_presence","userName":"c0"}}
{"do":"send","session":8}
{"client":2,"diff":{"shape:s27":["put",{"id":"shape:s27","index":"a1","isLocked":false,"meta":{},"opacity":100,"parentId":"page:p","props":{"color":"black","fill":"none","geo":"rectangle","h":10,"size":"m","text":"","w":10},"rotation":0,"type":"geo","typeName":"shape","x":847,"y":0}]},"do":"edit"}
{"client":1,"diff":{"shape:s39":["put",{"id":"shape:s39","index":"a1","isLocked":false,"meta":{},"opacity":100,"parentId":"page:p","props":{"color":"black","dash":"draw","fill":"none","geo":"rectangle","h":10,"size":"m","text":"","w":10},"rotation":0,"type":"geo","typeName":"shape","x":31,"y":0}]},"do":"edit"}
{"client":1,"do":"deliver"}
{"client":2,"diff":{"shape:s42":["put",{"id":"shape:s42","index":"a1","isLocked":false,"meta":{},"opacity":100,"parentId":"page:p","props":{"color":"black","fill":"none","geo":"rectangle","h":10,"size":"m","text":"","w":10},"rotation":0,"type":"geo","typeName":"shape","x":778,"y":0}]},"do":"edit"}
{"client":0,"diff":{"shape:s36":["patch",{"x":["put",468]}]},"do":"edit"}
{"do":"send","session":8}
{"client":3,"do":"deliver"}
{"do":"handle","session":5}
{"do":"handle","session":8}
{"client":3,"do":"deliver"}
{"client":1,"do":"cut"}
{"client":1,"diff":{"shape:s34":["remove"]},"do":"edit"}
{"client":3,"do":"presence","record":{"color":"red","currentPageId":"page:p","cursor":{"x":827,"y":0},"id":"instance_presence:me","meta":{},"selectedShapeIds":[],"typeName":"instance_presence","userName":"c3"}}
{"client":3,"do":"cut"}
{"client":2,"do":"redo"}
{"client":1,"do":"redo"}
{"client":1,"diff":{"shape:s14":["patch",{"x":["put",306]}]},"do":"edit"}
{"client":2,"do":"deliver"}
{"client":2,"do":"cut"}
{"client":1,"do":"mark","name":"m"}
"#;

// The events of the first 4 draws by the seed 2^32 + 7.
const BY_A_LONGER_SEED: &str = r#"
{"client":0,"diff":{"shape:s35":["remove"]},"do":"edit"}
{"client":1,"diff":{"shape:s23":["patch",{"x":["put",513]}]},"do":"edit"}
{"client":1,"diff":{"shape:s35":["put",{"id":"shape:s35","index":"a1","isLocked":false,"meta":{},"opacity":100,"parentId":"page:p","props":{"color":"black","dash":"draw","fill":"none","geo":"rectangle","h":10,"size":"m","text":"","w":10},"rotation":0,"type":"geo","typeName":"shape","x":233,"y":0}]},"do":"edit"}
{"client":3,"diff":{"shape:s1":["put",{"alpha":10,"id":"shape:s1","index":"a1","isLocked":false,"meta":{},"parentId":"page:p","props":{"color":"black","fill":"none","geo":"rectangle","h":10,"size":"m","text":"","w":10},"rotation":0,"type":"geo","typeName":"shape","x":448,"y":0}]},"do":"edit"}
"#;

// A made recording, or the events before the draws where there are none.
struct Recording {
    // The seed.
    seed: u64,
    // How many draws it has.
    draws: u32,
    // The lines of their events.
    lines: &'static str,
}

const RECORDINGS: [Recording; 3] = [
    Recording {
        seed: 7,
        draws: 0,
        lines: FIRST,
    },
    Recording {
        seed: 7,
        draws: 50,
        lines: BY_7,
    },
    Recording {
        seed: 4_294_967_303,
        draws: 4,
        lines: BY_A_LONGER_SEED,
    },
];

// Adds the line of each event.
fn add_lines(alloc: Global, lines: &mut String, events: &[Event]) -> Result<(), Fail> {
    for event in events {
        let line = String::from_utf8(print_event(alloc, event)?)?;
        lines.push_str(line.as_str())?;
        lines.push_str("\n")?;
    }
    Ok(())
}

// Adds the lines of the next draw.
fn add_draw(alloc: Global, lines: &mut String, maker: &mut Maker) -> Result<(), Fail> {
    let events = maker.draw(alloc, &LAST)?;
    add_lines(alloc, lines, &events)
}

// The lines of so many draws by a seed, or those before the draws.
fn lines_of(alloc: Global, seed: u64, draws: u32) -> Result<String, Fail> {
    let mut maker = Maker::new(seed);
    let mut lines = String::from_str(alloc, "\n")?;
    if draws == 0 {
        add_lines(alloc, &mut lines, &maker.first(alloc)?)?;
    }
    for _ in 0..draws {
        add_draw(alloc, &mut lines, &mut maker)?;
    }
    Ok(lines)
}

// Asserts that recordings are made as a table has them.
fn makes(rt: &impl Abort, alloc: Global, table: &[Recording]) -> Result<(), Fail> {
    for row in table {
        let found = lines_of(alloc, row.seed, row.draws)?;
        assert_eq!(rt; found.as_str(), row.lines);
    }
    Ok(())
}

#[test]
fn makes_the_lines_of_each_seed(rt: HostRuntime) -> Result<(), Fail> {
    makes(&rt, rt.alloc(), &RECORDINGS)
}

// How many draws by the seed 7 there are, and how many records are put by them and before them.
const COUNTS: [(u32, u32); 2] = [(0, 1), (50, 14)];

// How many records events put at clients of a version. Each of them has to be admitted there.
fn count_admitted(alloc: Global, version: u32, events: &[Event]) -> Result<u32, Fail> {
    let schema = schema_at(alloc, version)?;
    let mut count = 0u32;
    for event in events {
        count = count.saturating_add(admitted_of(&schema, event)?);
    }
    Ok(count)
}

// How many records an event puts. Each of them has to be admitted.
fn admitted_of(schema: &Schema, event: &Event) -> Result<u32, Fail> {
    match event {
        Event::Edit { diff, .. } => admitted_in(schema, diff),
        Event::Presence { stored, .. } => {
            schema.admits("instance_presence:me", stored)?;
            Ok(1)
        }
        _ => Ok(0),
    }
}

// How many records a diff puts. Each of them has to be admitted.
fn admitted_in(schema: &Schema, diff: &Diff) -> Result<u32, Fail> {
    let mut count = 0u32;
    for (id, op) in diff.as_slice() {
        if let RecordOp::Put(record) = op {
            schema.admits(id.as_str(), record)?;
            count = count.saturating_add(1);
        }
    }
    Ok(count)
}

// The version of the client of an edit or a presence, and 3 for other events.
fn version_of(event: &Event) -> u32 {
    match event {
        Event::Edit { client, .. } | Event::Presence { client, .. } => match client {
            2 => 2,
            3 => 1,
            _ => 3,
        },
        _ => 3,
    }
}

// How many records the next draw puts.
fn admitted_by(alloc: Global, maker: &mut Maker) -> Result<u32, Fail> {
    let events = maker.draw(alloc, &LAST)?;
    let version = events.first().map_or(3, version_of);
    count_admitted(alloc, version, &events)
}

// How many records are put by so many draws, and before them.
fn count_put(alloc: Global, seed: u64, draws: u32) -> Result<u32, Fail> {
    let mut maker = Maker::new(seed);
    let mut count = count_admitted(alloc, 3, &maker.first(alloc)?)?;
    for _ in 0..draws {
        count = count.saturating_add(admitted_by(alloc, &mut maker)?);
    }
    Ok(count)
}

// Asserts that as many records are put as a table has.
fn puts(rt: &impl Abort, alloc: Global, table: &[(u32, u32)]) -> Result<(), Fail> {
    for (draws, count) in table {
        assert_eq!(rt; count_put(alloc, 7, *draws)?, *count, "by {draws}");
    }
    Ok(())
}

#[test]
fn puts_records_that_the_clients_version_admits(rt: HostRuntime) -> Result<(), Fail> {
    puts(&rt, rt.alloc(), &COUNTS)
}
