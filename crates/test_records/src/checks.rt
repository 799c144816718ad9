//! Which values fit a check, and the first fault of the others with its depth.
use crate::operations::operation;
use crate::played::{Call, plays};
use field_ops::apply_record;
use record_valid::fits::check;
use record_valid::{Check, Checks, Reject};
use rooms_val::Val;
use std::alloc::Global;
use std::test::Fail;
use test_with_cases::value;

/// A check with one of each kind, over a `type` by which the properties go.
fn every_kind(alloc: Global) -> Result<Check, Fail> {
    let sizes = Checks::new(alloc).with(alloc, "w", Check::Whole(0, 9))?;
    let by_type = Checks::new(alloc)
        .with(alloc, "geo", Check::Object(sizes))?
        .with(alloc, "note", Check::Bool)?;
    let types = Check::one_of(alloc, &["geo", "note", "oval"])?;
    Ok(Check::Object(
        plain_kinds(alloc)?
            .with(
                alloc,
                "list",
                Check::list_of(alloc, Check::nullable(alloc, Check::Bool)?)?,
            )?
            .with(alloc, "props", Check::ByType(by_type))?
            .with(alloc, "type", types)?,
    ))
}

/// Checks of the kinds that hold no others.
fn plain_kinds(alloc: Global) -> Result<Checks, Fail> {
    Ok(
        Checks::new(alloc)
            .with(alloc, "any", Check::Any)?
            .with(alloc, "dict", Check::Dict)?
            .with(alloc, "id", Check::id_of(alloc, &["page", "shape"])?)?
            .with(alloc, "key", Check::Key)?
            .with(alloc, "text", Check::Text(4))?
            .with(alloc, "whole", Check::Whole(-5, 5))?,
    )
}

const GOOD: &str =
    r#"{"any":[{}],"dict":{"a":1},"id":"page:a-B_9","key":"a0V","list":[null,true],"props":{"w":9},"text":"éé","type":"geo","whole":-5}"#;

/// A patch of the good value, and the fault of what it makes.
const PATCHES: &str = r#"
["patch",{}] | fits
["patch",{"whole":["put",5]}] | fits
["patch",{"list":["put",[]]}] | fits
["patch",{"id":["put","shape:1"]}] | fits
["patch",{"type":["put","note"],"props":["put",true]}] | fits
["put",[]] | WrongKind 0
["patch",{"any":["delete"]}] | Missing 1
["patch",{"more":["put",0]}] | Extra 1
["patch",{"whole":["put","1"]}] | WrongKind 1
["patch",{"whole":["put",-6]}] | OutOfBounds 1
["patch",{"whole":["put",6]}] | OutOfBounds 1
["patch",{"text":["put",1]}] | WrongKind 1
["patch",{"text":["put","ééé"]}] | OutOfBounds 1
["patch",{"type":["put",null]}] | NotListed 1
["patch",{"type":["put","star"]}] | NotListed 1
["patch",{"dict":["put",[]]}] | WrongKind 1
["patch",{"key":["put","a10"]}] | BadKey 1
["patch",{"key":["put",0]}] | WrongKind 1
["patch",{"id":["put",{}]}] | WrongKind 1
["patch",{"id":["put","page"]}] | BadId 1
["patch",{"id":["put","page:"]}] | BadId 1
["patch",{"id":["put","page:a:b"]}] | BadId 1
["patch",{"id":["put","page:a b"]}] | BadId 1
["patch",{"id":["put","star:1"]}] | BadId 1
# What may be null is no level, and what stands in lists and maps is.
["patch",{"list":["put",{}]}] | WrongKind 1
["patch",{"list":["put",[true,0]]}] | WrongKind 2
["patch",{"props":["put",{}]}] | Missing 2
["patch",{"props":["put",{"w":10}]}] | OutOfBounds 2
# No row has the type.
["patch",{"type":["put","oval"]}] | NotListed 1
# The least missing key comes first, then a key too many, then the fields by key.
["patch",{"any":["delete"],"more":["put",0],"id":["put",0]}] | Missing 1
["patch",{"more":["put",0],"id":["put",0]}] | Extra 1
["patch",{"list":["put",[0]],"whole":["put",6]}] | WrongKind 2
"#;

#[test]
fn names_the_first_fault_of_a_value(rt: HostRuntime) -> Result<(), Fail> {
    plays(&rt, rt.alloc(), Call::Fit, PATCHES)
}

/// The good value after an operation.
fn good_after(alloc: Global, op: &str) -> Result<Option<Val>, Fail> {
    let op = operation(alloc, op)?;
    let good = value(alloc, GOOD)?;
    Ok(apply_record(alloc, Some(&good), &op)?)
}

/// The fault of the good value after an operation, in words.
pub(crate) fn fault_after(alloc: Global, op: &str) -> Result<String, Fail> {
    let Some(after) = good_after(alloc, op)? else {
        return Err(Fail::from("a value was wanted"));
    };
    let checks = every_kind(alloc)?;
    match check(&checks, &after) {
        Ok(()) => Ok(String::from_str(alloc, "fits")?),
        Err(Reject { depth, kind }) => Ok(format!(in alloc; "{kind:?} {depth}")?),
    }
}
