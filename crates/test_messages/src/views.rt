//! The values of views and queries: what each is read as, and which are none.
use crate::tables::{Reading, plays};
use rooms_val::OpFault;
use std::alloc::Global;
use std::test::Fail;
use test_with_cases::{val_text, value};
use view_vals::{query_val, read_query, read_view, view_val};

// A view of each form.
const VIEWS: &str = r#"
{"box":"shape:a"}
{"tree":"page:a"}
{"bound":"shape:a"}
{"count":"page:a"}
{"tree":""}
{"count":"a text of more than twenty-two bytes"}
"#;

// Values that are those of no view, each after the fault.
const NO_VIEWS: &str = r#"
WrongKind | null
WrongKind | "tree"
WrongKind | ["tree","page:a"]
WrongKind | {}
WrongKind | {"tree":1}
WrongKind | {"tree":null}
WrongKind | {"tree":["page:a"]}
WrongKind | {"Tree":"page:a"}
WrongKind | {"trees":"page:a"}
WrongKind | {"":"page:a"}
WrongKind | {"box":"shape:a","tree":"page:a"}
WrongKind | {"tree":"page:a","z":0}
"#;

// A query of each form.
const QUERIES: &str = r#"
["eq","x",1]
["eq","",null]
["eq","props",{"w":[1,{"h":2}]}]
["neq","name","n"]
["neq","x",["eq","x",1]]
["gt","x",-9007199254740991]
["gt","a text of more than twenty-two bytes",0]
["and",[]]
["and",[["eq","x",1]]]
["or",[]]
["or",[["eq","x",1],["neq","x",1],["gt","x",1],["and",[]],["or",[]]]]
["not",["or",[]]]
["not",["not",["and",[["not",["eq","x",false]],["or",[["gt","x",1]]]]]]]
"#;

// Values that are those of no query, each after the fault.
const NO_QUERIES: &str = r#"
WrongKind | null
WrongKind | "eq"
WrongKind | {}
WrongKind | {"eq":["x",1]}
WrongKind | []
WrongKind | ["eq"]
WrongKind | ["eq","x"]
WrongKind | ["eq","x",1,2]
WrongKind | ["eq",1,"x"]
WrongKind | ["Eq","x",1]
WrongKind | ["is","x",1]
WrongKind | [["eq","x",1]]
WrongKind | [1,"x",1]
WrongKind | ["neq","x"]
WrongKind | ["neq","x",1,2]
WrongKind | ["neq",null,1]
WrongKind | ["gt","x"]
WrongKind | ["gt","x","1"]
WrongKind | ["gt","x",null]
WrongKind | ["gt","x",1,2]
WrongKind | ["gt",1,1]
WrongKind | ["and"]
WrongKind | ["and",["eq","x",1]]
WrongKind | ["and",["eq","x",1],["eq","y",1]]
WrongKind | ["and",{}]
WrongKind | ["and",[["eq","x",1],null]]
WrongKind | ["and",[["eq","x"],["eq","x",1]]]
WrongKind | ["or"]
WrongKind | ["or",null]
WrongKind | ["or",[[]]]
WrongKind | ["or",[],[]]
WrongKind | ["not"]
WrongKind | ["not",[]]
WrongKind | ["not",["eq","x"]]
WrongKind | ["not",["or",[]],["or",[]]]
WrongKind | ["not","or",[]]
"#;

// The value that a view is written as which is read from one, or the name of the fault.
pub(crate) fn view_text(alloc: Global, text: &str) -> Result<String, Fail> {
    match read_view(alloc, &value(alloc, text)?) {
        Ok(view) => val_text(alloc, &view_val(alloc, &view)?),
        Err(fault) => fault_text(alloc, fault),
    }
}

// The value that a query is written as which is read from one, or the name of the fault.
pub(crate) fn query_text(alloc: Global, text: &str) -> Result<String, Fail> {
    match read_query(alloc, &value(alloc, text)?) {
        Ok(query) => val_text(alloc, &query_val(alloc, &query)?),
        Err(fault) => fault_text(alloc, fault),
    }
}

// The name of a fault that a table speaks of.
fn fault_text(alloc: Global, fault: OpFault) -> Result<String, Fail> {
    match fault {
        OpFault::WrongKind => Ok(String::from_str(alloc, "WrongKind")?),
        _ => Err(Fail::from("out of memory")),
    }
}

#[test]
fn reads_and_writes_each_view(rt: HostRuntime) -> Result<(), Fail> {
    plays(&rt, rt.alloc(), Reading::View, &[VIEWS, NO_VIEWS])
}

#[test]
fn reads_and_writes_each_query(rt: HostRuntime) -> Result<(), Fail> {
    plays(&rt, rt.alloc(), Reading::Query, &[QUERIES, NO_QUERIES])
}
