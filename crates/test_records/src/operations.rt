//! What operations make of records, what undoes them, what two make in turn, and which values are operations.
use crate::played::{Call, plays};
use field_ops::{
    RecordOp, apply_record, diff_val, has_append, inverse, op_val, read_diff, read_op, then,
};
use rooms_val::{Fields, Text, Val};
use std::alloc::Global;
use std::test::Fail;
use test_with_cases::{cells, val_text, value};

// A record, an operation, and what it makes of the record with what undoes it.
const CHANGES: &str = r#"
# Whole records.
- | ["put",{"y":2}] | {"y":2} and ["remove"]
{"x":1} | ["put",{"y":2}] | {"y":2} and ["put",{"x":1}]
{"x":1} | ["remove"] | - and ["put",{"x":1}]
- | ["remove"] | - and -
- | ["patch",{"x":["put",2]}] | - and -
5 | ["patch",{"x":["put",2]}] | 5 and ["patch",{}]
# A put takes effect always, and a delete where something stands.
{"a":0} | ["patch",{"k":["put",2]}] | {"a":0,"k":2} and ["patch",{"k":["delete"]}]
{"k":2} | ["patch",{"k":["put",2]}] | {"k":2} and ["patch",{"k":["put",2]}]
{"k":null} | ["patch",{"k":["delete"]}] | {} and ["patch",{"k":["put",null]}]
{"a":0} | ["patch",{"k":["delete"]}] | {"a":0} and ["patch",{}]
# An append takes effect on a list that is so long.
{"k":[1]} | ["patch",{"k":["append",[2,3],1]}] | {"k":[1,2,3]} and ["patch",{"k":["put",[1]]}]
{"k":[1]} | ["patch",{"k":["append",[],1]}] | {"k":[1]} and ["patch",{"k":["put",[1]]}]
{"k":[1]} | ["patch",{"k":["append",[2],0]}] | {"k":[1]} and ["patch",{}]
{"k":"t"} | ["patch",{"k":["append",[2],1]}] | {"k":"t"} and ["patch",{}]
# A text takes an append where it has so many bytes.
{"k":"t"} | ["patch",{"k":["append","u",1]}] | {"k":"tu"} and ["patch",{"k":["put","t"]}]
{"k":""} | ["patch",{"k":["append","é",0]}] | {"k":"é"} and ["patch",{"k":["put",""]}]
{"k":"é"} | ["patch",{"k":["append","!",2]}] | {"k":"é!"} and ["patch",{"k":["put","é"]}]
{"k":"é"} | ["patch",{"k":["append","!",1]}] | {"k":"é"} and ["patch",{}]
{"k":"t"} | ["patch",{"k":["append","u",0]}] | {"k":"t"} and ["patch",{}]
{"k":"0123456789012345678901"} | ["patch",{"k":["append","2",22]}] | {"k":"01234567890123456789012"} and ["patch",{"k":["put","0123456789012345678901"]}]
{"k":[1]} | ["patch",{"k":["append","t",1]}] | {"k":[1]} and ["patch",{}]
{} | ["patch",{"k":["append","t",0]}] | {} and ["patch",{}]
# A patch takes effect on a map.
{"k":{"x":1}} | ["patch",{"k":["patch",{"y":["delete"]}]}] | {"k":{"x":1}} and ["patch",{"k":["patch",{}]}]
{"k":5} | ["patch",{"k":["patch",{"x":["put",2]}]}] | {"k":5} and ["patch",{}]
{"m":{"l":1},"x":1} | ["patch",{"m":["patch",{"l":["delete"]}],"x":["delete"],"y":["put",4]}] | {"m":{},"y":4} and ["patch",{"m":["patch",{"l":["put",1]}],"x":["put",1],"y":["delete"]}]
"#;

// Two operations without appends on a record, and the one that does both.
const BOTH: &str = r#"
["patch",{"x":["put",2]}] | ["put",{"y":1}] | ["put",{"y":1}]
["put",{"x":1}] | ["remove"] | ["remove"]
["put",{"x":1}] | ["patch",{"x":["put",2]}] | ["put",{"x":2}]
["remove"] | ["patch",{"x":["put",2]}] | ["remove"]
["patch",{"a":["put",1],"b":["put",2]}] | ["patch",{"b":["put",3],"c":["delete"]}] | ["patch",{"a":["put",1],"b":["put",3],"c":["delete"]}]
["patch",{"k":["delete"]}] | ["patch",{"k":["patch",{"x":["put",1]}]}] | ["patch",{"k":["delete"]}]
["patch",{"k":["put",{"x":1,"y":2}]}] | ["patch",{"k":["patch",{"x":["delete"]}]}] | ["patch",{"k":["put",{"y":2}]}]
["patch",{"k":["patch",{"x":["put",1]}]}] | ["patch",{"k":["patch",{"y":["delete"]}]}] | ["patch",{"k":["patch",{"x":["put",1],"y":["delete"]}]}]
"#;

// A value, and `=` where it is an operation on a record, else the fault.
const OPERATIONS: &str = r#"
["put",null] | =
["patch",{"a":["append",[1,[]],4294967295],"d":["delete"],"p":["patch",{}]}] | =
["patch",{"k":["append","é",4294967295]}] | =
["remove"] | =
# No lists that begin with a name of an operation on records.
null | WrongKind
{"remove":[]} | WrongKind
[] | WrongKind
["Put",1] | WrongKind
["append",[1],0] | WrongKind
["append","t",0] | WrongKind
["delete"] | WrongKind
# A part less, a part more, and parts of another kind.
["put"] | WrongKind
["put",1,2] | WrongKind
["patch",[]] | WrongKind
["remove",null] | WrongKind
# Operations on values.
["patch",{"k":["append",[],4294967296]}] | WrongKind
["patch",{"k":["append",[],-1]}] | WrongKind
["patch",{"k":["append",[1]]}] | WrongKind
["patch",{"k":["append",{},0]}] | WrongKind
["patch",{"k":["append",7,0]}] | WrongKind
["patch",{"k":["append","t",4294967296]}] | WrongKind
["patch",{"k":["append","t",-1]}] | WrongKind
["patch",{"k":["append","t"]}] | WrongKind
["patch",{"k":["delete",null]}] | WrongKind
["patch",{"k":["remove"]}] | WrongKind
["patch",{"k":["patch",{"x":["put"]}]}] | WrongKind
"#;

// How many operations a diff has, and `=` where it is printed as it was read.
const MANY: &str = r#"
9000 | =
"#;

#[test]
fn operations_are_read_and_change_records(rt: HostRuntime) -> Result<(), Fail> {
    plays(&rt, rt.alloc(), Call::Change, CHANGES)?;
    plays(&rt, rt.alloc(), Call::Both, BOTH)?;
    plays(&rt, rt.alloc(), Call::Operation, OPERATIONS)?;
    plays(&rt, rt.alloc(), Call::Many, MANY)
}

/// The operation of a text.
pub(crate) fn operation(alloc: Global, text: &str) -> Result<RecordOp, Fail> {
    let val = value(alloc, text)?;
    Ok(read_op(alloc, &val)?)
}

/// The text of an operation that there may be, or `-`.
fn op_text(alloc: Global, op: Option<&RecordOp>) -> Result<String, Fail> {
    match op {
        Some(op) => val_text(alloc, &op_val(alloc, op)?),
        None => Ok(String::from_str(alloc, "-")?),
    }
}

/// The text of a record that there may be, or `-`.
fn record_text(alloc: Global, val: Option<&Val>) -> Result<String, Fail> {
    match val {
        Some(val) => val_text(alloc, val),
        None => Ok(String::from_str(alloc, "-")?),
    }
}

/// The record of a text, or none of `-`.
fn record_of(alloc: Global, text: &str) -> Result<Option<Val>, Fail> {
    match text {
        "-" => Ok(None),
        _ => Ok(Some(value(alloc, text)?)),
    }
}

/// What an operation makes of a record.
fn after_text(alloc: Global, before: Option<&Val>, op: &RecordOp) -> Result<String, Fail> {
    let after = apply_record(alloc, before, op)?;
    record_text(alloc, after.as_ref())
}

/// What undoes an operation on a record.
fn undo_text(alloc: Global, before: Option<&Val>, op: &RecordOp) -> Result<String, Fail> {
    let back = inverse(alloc, before, op)?;
    op_text(alloc, back.as_ref())
}

/// What the operation of a row makes of its record, and what undoes it.
pub(crate) fn change_text(alloc: Global, row: &str) -> Result<String, Fail> {
    let [old, op, ..] = cells(row);
    let before = record_of(alloc, old)?;
    let op = operation(alloc, op)?.copy(alloc)?;
    let after = after_text(alloc, before.as_ref(), &op)?;
    let undo = undo_text(alloc, before.as_ref(), &op)?;
    Ok(format!(in alloc; "{after} and {undo}")?)
}

/// The operation that does the two of a row.
pub(crate) fn both(alloc: Global, row: &str) -> Result<String, Fail> {
    let [first, second, ..] = cells(row);
    let first = operation(alloc, first)?;
    let second = operation(alloc, second)?;
    both_text(alloc, &first, &second)
}

/// The operation that does two without appends.
fn both_text(alloc: Global, first: &RecordOp, second: &RecordOp) -> Result<String, Fail> {
    if has_append(first) || has_append(second) {
        return Err(Fail::from("no append was wanted"));
    }
    let both = then(alloc, first, second)?;
    op_text(alloc, Some(&both))
}

/// What a value is read as: `=` for the operation that is printed so, or the fault.
pub(crate) fn read_text(alloc: Global, text: &str) -> Result<String, Fail> {
    let answer = match read_op(alloc, &value(alloc, text)?) {
        Ok(op) => op_text(alloc, Some(&op))?,
        Err(fault) => format!(in alloc; "{fault:?}")?,
    };
    if answer.as_str() == text {
        return Ok(String::from_str(alloc, "=")?);
    }
    Ok(answer)
}

/// The value of a diff with so many operations.
fn many_val(alloc: Global, count: u32) -> Result<Val, Fail> {
    let mut fields = Fields::new(alloc);
    for place in 0..count {
        let id = format!(in alloc; "shape:{place:04}")?;
        let op = value(alloc, r#"["remove"]"#)?;
        drop(fields.put(Text::of(alloc, id.as_str())?, op)?);
    }
    Ok(Val::Map(fields))
}

/// How many operations a diff of so many has, and what is printed of it: `=` where both are as they were.
pub(crate) fn many_text(alloc: Global, count: &str) -> Result<String, Fail> {
    let val = many_val(alloc, count.parse::<u32>()?)?;
    let diff = read_diff(alloc, &val)?.copy(alloc)?;
    let length = format!(in alloc; "{}", diff.len())?;
    let shown = val_text(alloc, &diff_val(alloc, &diff)?)?;
    let wanted = val_text(alloc, &val)?;
    if length.as_str() == count && shown.as_str() == wanted.as_str() {
        return Ok(String::from_str(alloc, "=")?);
    }
    Ok(length)
}
