//! What edits are completed to, and why they are refused.
use crate::stores::{diff, schema, two_assets};
use crate::tables::{Reading, plays};
use doc_store::MapDoc;
use field_ops::{Diff, diff_val, read_diff};
use rooms_val::{Fields, Text, Val};
use schema_core::{RecordFault, Schema};
use side_effects::{EditFault, complete};
use std::alloc::Global;
use std::test::Fail;
use test_with_cases::{val_text, value};

// An edit of two assets, and the answer: the fault by the first rule, with the least id, or the edit.
const EDITS: &str = r#"
{"asset:1":["patch",{"x":["put",7]}],"asset:2":["remove"]} | {"asset:1":["patch",{"x":["put",7]}],"asset:2":["remove"]}
{} | {}
# Ids of sessions, of no type and of no form.
{"camera:1":["remove"],"camera:2":["remove"]} | WrongScope camera:1
{"asset:9":["remove"],"thing:1":["put",{}]} | WrongScope thing:1
{"asset":["remove"],"asset:1":["put",{}]} | WrongScope asset
# Records that aren't there.
{"asset:1":["patch",{"x":["put",700]}],"asset:3":["patch",{}],"asset:4":["remove"]} | NoRecord asset:3
{"asset:1":["remove"],"asset:4":["remove"]} | NoRecord asset:4
# Records that aren't admitted.
{"asset:1":["patch",{"x":["put",700]}],"asset:2":["put",{}]} | Rejected asset:1
{"asset:1":["remove"],"asset:2":["put",{"id":"asset:1","typeName":"asset","x":1}]} | BadId asset:2
"#;

// So many removes where there is no record: 8,192 operations are looked at and no more.
const REMOVES: &str = r#"
8192 | NoRecord shape:0000
8193 | TooMany
"#;

// What an edit of two assets is completed to.
pub(crate) fn edit_text(alloc: Global, text: &str) -> Result<String, Fail> {
    let schema = schema(alloc)?;
    let store = two_assets(alloc, &schema)?;
    answer(alloc, &schema, &store, &diff(alloc, text)?)
}

// What so many removes of no record are completed to.
pub(crate) fn removes_text(alloc: Global, count: &str) -> Result<String, Fail> {
    let schema = schema(alloc)?;
    let edit = removes(alloc, count.parse::<u32>()?)?;
    answer(alloc, &schema, &MapDoc::new(alloc), &edit)
}

// What an edit is completed to, or the name of the fault with its id.
fn answer(alloc: Global, schema: &Schema, store: &MapDoc, edit: &Diff) -> Result<String, Fail> {
    match complete(alloc, schema, store, edit) {
        Ok(made) => val_text(alloc, &diff_val(alloc, &made)?),
        Err(fault) => fault_text(alloc, &fault),
    }
}

fn fault_text(alloc: Global, fault: &EditFault) -> Result<String, Fail> {
    Ok(match fault {
        EditFault::TooMany => String::from_str(alloc, "TooMany")?,
        EditFault::WrongScope(id) => format!(in alloc; "WrongScope {}", id.as_str())?,
        EditFault::NoRecord(id) => format!(in alloc; "NoRecord {}", id.as_str())?,
        EditFault::Invalid(id, RecordFault::Rejected(_)) => {
            format!(in alloc; "Rejected {}", id.as_str())?
        }
        EditFault::Invalid(id, fault) => format!(in alloc; "{fault:?} {}", id.as_str())?,
        EditFault::NoKey(fault) => format!(in alloc; "NoKey {fault:?}")?,
        EditFault::LastPage => String::from_str(alloc, "LastPage")?,
        EditFault::NoParent(id) => format!(in alloc; "NoParent {}", id.as_str())?,
        EditFault::UnderItself(id) => format!(in alloc; "UnderItself {}", id.as_str())?,
        EditFault::NoEnd(id) => format!(in alloc; "NoEnd {}", id.as_str())?,
        EditFault::OutOfMemory => String::from_str(alloc, "OutOfMemory")?,
    })
}

// A diff of so many removes.
fn removes(alloc: Global, count: u32) -> Result<Diff, Fail> {
    let mut fields = Fields::new(alloc);
    for place in 0..count {
        let id = format!(in alloc; "shape:{place:04}")?;
        drop(fields.put(
            Text::of(alloc, id.as_str())?,
            value(alloc, r#"["remove"]"#)?,
        )?);
    }
    Ok(read_diff(alloc, &Val::Map(fields))?)
}

#[test]
fn refuses_by_the_first_rule_and_the_least_id(rt: HostRuntime) -> Result<(), Fail> {
    plays(&rt, rt.alloc(), Reading::Edit, EDITS)?;
    plays(&rt, rt.alloc(), Reading::Removes, REMOVES)
}
