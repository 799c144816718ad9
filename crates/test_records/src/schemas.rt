//! Which records the schemas of a whiteboard admit, at each version, and why they refuse others.
use crate::operations::operation;
use crate::played::{Call, plays};
use crate::records::{RECORDS, record_at};
use field_ops::{RecordOp, apply_record};
use migrate_seq::Sequences;
use record_valid::{Check, Reject};
use rooms_val::{Text, Val};
use schema_core::{RecordFault, Schema, SchemaFault, Scope, TypeRow};
use std::alloc::Global;
use std::test::Fail;
use test_with_cases::{cells, rows, value};
use tl_tables::{TableFault, schema_at};

// A version, and `=` where it admits those of the table of records that it is to admit, and no others.
const VERSIONS: &str = r#"
1 | =
2 | =
3 | =
4 | =
5 | =
# The tables have no other.
0 | NoSuchVersion
6 | NoSuchVersion
"#;

// A version, the id of a record, a patch of it, and what the schema answers then.
const PATCHES: &str = r#"
3 | page:p | {"name":["put","two"]} | Document
3 | page:p | {"none":["delete"]} | Document
3 | page:p | {"id":["put","page:q"]} | BadId
3 | page:p | {"typeName":["put","document"]} | BadId
3 | asset:i | {"props":["patch",{"w":["put",7]}]} | Document
3 | shape:note | {"type":["put","frame"]} | Missing 2
3 | shape:frame | {"type":["put","group"]} | Extra 2
3 | shape:frame | {"type":["put","group"],"props":["put",{}]} | Document
3 | document:d | {"name":["put",5]} | WrongKind 1
3 | document:d | {"name":["delete"]} | Missing 1
3 | document:d | {"gridSize":["put",0]} | OutOfBounds 1
3 | document:d | {"gridSize":["put",1001]} | OutOfBounds 1
3 | document:d | {"meta":["put",[]]} | WrongKind 1
3 | document:d | {"more":["put",0]} | Extra 1
3 | page:p | {"name":["put",null]} | WrongKind 1
3 | page:p | {"index":["put","a10"]} | BadKey 1
3 | page:p | {"meta":["put",null]} | WrongKind 1
3 | asset:i | {"type":["put","video"]} | NotListed 1
3 | asset:i | {"props":["patch",{"w":["put",-1]}]} | OutOfBounds 2
3 | asset:i | {"props":["patch",{"h":["put","1"]}]} | WrongKind 2
3 | asset:i | {"props":["patch",{"name":["put",null]}]} | WrongKind 2
3 | asset:i | {"props":["patch",{"src":["put",1]}]} | WrongKind 2
3 | asset:i | {"props":["patch",{"src":["put",null],"mimeType":["put",[]]}]} | WrongKind 2
3 | asset:i | {"props":["patch",{"dims":["put",{}]}]} | Extra 2
4 | asset:i | {"props":["patch",{"dims":["patch",{"w":["put",7]}]}]} | Document
4 | asset:i | {"props":["patch",{"dims":["patch",{"w":["put",-1]}]}]} | OutOfBounds 3
4 | asset:i | {"props":["patch",{"dims":["patch",{"h":["delete"]}]}]} | Missing 3
4 | asset:i | {"props":["patch",{"dims":["patch",{"d":["put",0]}]}]} | Extra 3
4 | asset:i | {"props":["patch",{"dims":["put",null]}]} | WrongKind 2
5 | asset:i | {"props":["patch",{"w":["put",7]}]} | Extra 2
4 | page:p | {"hidden":["put",false]} | Extra 1
5 | page:p | {"hidden":["put",true]} | Document
5 | page:p | {"hidden":["put",0]} | WrongKind 1
5 | page:p | {"hidden":["delete"]} | Missing 1
3 | binding:b | {"type":["put","line"]} | NotListed 1
3 | binding:b | {"fromId":["put","page:p"]} | BadId 1
3 | binding:b | {"toId":["put","shape:"]} | BadId 1
3 | binding:b | {"props":["patch",{"terminal":["put","mid"]}]} | NotListed 2
3 | binding:b | {"props":["patch",{"isExact":["put",1]}]} | WrongKind 2
3 | binding:b | {"props":["patch",{"anchor":["patch",{"x":["put",1001]}]}]} | OutOfBounds 3
3 | binding:b | {"props":["patch",{"anchor":["patch",{"y":["put",-1]}]}]} | OutOfBounds 3
1 | binding:b | {"props":["patch",{"anchorX":["put",1001]}]} | OutOfBounds 2
2 | binding:b | {"props":["patch",{"anchorY":["put",-1]}]} | OutOfBounds 2
3 | camera:c | {"x":["put","0"]} | WrongKind 1
3 | camera:c | {"y":["delete"]} | Missing 1
3 | camera:c | {"z":["put",0]} | OutOfBounds 1
3 | camera:c | {"z":["put",100001]} | OutOfBounds 1
3 | instance:i | {"currentPageId":["put","shape:s"]} | BadId 1
3 | instance_presence:me | {"userName":["put",0]} | WrongKind 1
3 | instance_presence:me | {"color":["put",null]} | WrongKind 1
3 | instance_presence:me | {"currentPageId":["put",null]} | WrongKind 1
3 | instance_presence:me | {"cursor":["put",{"x":1}]} | Missing 2
3 | instance_presence:me | {"selectedShapeIds":["put",["shape:a","page:p"]]} | BadId 2
# The fields of every shape; the properties come before the type that they go by.
3 | shape:frame | {"type":["put","star"]} | NotListed 1
3 | shape:frame | {"x":["put",null]} | WrongKind 1
3 | shape:frame | {"y":["put","0"]} | WrongKind 1
3 | shape:frame | {"rotation":["put",true]} | WrongKind 1
3 | shape:frame | {"index":["put",""]} | BadKey 1
3 | shape:frame | {"parentId":["put","asset:i"]} | BadId 1
3 | shape:frame | {"parentId":["put","shape:a"]} | Document
3 | shape:frame | {"isLocked":["put",0]} | WrongKind 1
3 | shape:frame | {"opacity":["put",101]} | OutOfBounds 1
3 | shape:frame | {"alpha":["put",1]} | Extra 1
1 | shape:geo | {"alpha":["put",11]} | OutOfBounds 1
1 | shape:geo | {"opacity":["put",1]} | Extra 1
# The properties of each shape.
1 | shape:geo | {"props":["patch",{"geo":["put","oval"]}]} | Document
3 | shape:geo | {"props":["patch",{"geo":["put","oval"]}]} | NotListed 2
3 | shape:geo | {"props":["patch",{"geo":["put","ellipse"],"dash":["put","dotted"],"fill":["put","pattern"]}]} | Document
3 | shape:geo | {"props":["patch",{"w":["put",-1]}]} | OutOfBounds 2
3 | shape:geo | {"props":["patch",{"h":["put",null]}]} | WrongKind 2
3 | shape:geo | {"props":["patch",{"color":["put","pink"]}]} | NotListed 2
3 | shape:geo | {"props":["patch",{"fill":["put","full"]}]} | NotListed 2
3 | shape:geo | {"props":["patch",{"dash":["put","none"]}]} | NotListed 2
3 | shape:geo | {"props":["patch",{"dash":["delete"]}]} | Missing 2
3 | shape:geo | {"props":["patch",{"size":["put","xs"]}]} | NotListed 2
3 | shape:geo | {"props":["patch",{"text":["put",0]}]} | WrongKind 2
1 | shape:draw | {"props":["patch",{"points":["put",[{"x":0}]]}]} | Missing 4
1 | shape:draw | {"props":["patch",{"isClosed":["put",null]}]} | WrongKind 2
1 | shape:draw | {"props":["patch",{"color":["put",""]}]} | NotListed 2
2 | shape:arrow | {"props":["patch",{"start":["put",{"x":0,"y":"0"}]}]} | WrongKind 3
2 | shape:arrow | {"props":["patch",{"end":["put",null]}]} | WrongKind 2
2 | shape:arrow | {"props":["patch",{"bend":["put","0"]}]} | WrongKind 2
2 | shape:arrow | {"props":["patch",{"text":["delete"]}]} | Missing 2
3 | shape:text | {"props":["patch",{"autoSize":["put",1]}]} | WrongKind 2
3 | shape:text | {"props":["patch",{"text":["put",null]}]} | WrongKind 2
3 | shape:text | {"props":["patch",{"w":["put",-1]}]} | OutOfBounds 2
3 | shape:text | {"props":["patch",{"size":["put","xxl"]}]} | NotListed 2
3 | shape:frame | {"props":["patch",{"name":["put",0]}]} | WrongKind 2
3 | shape:frame | {"props":["patch",{"h":["put","1"]}]} | WrongKind 2
3 | shape:group | {"props":["patch",{"w":["put",0]}]} | Extra 2
3 | shape:note | {"props":["patch",{"text":["put",0]}]} | WrongKind 2
3 | shape:note | {"props":["patch",{"color":["put",null]}]} | WrongKind 2
3 | shape:image | {"props":["patch",{"assetId":["put","page:p"]}]} | BadId 2
3 | shape:image | {"props":["patch",{"assetId":["put","asset:i"]}]} | Document
3 | shape:image | {"props":["patch",{"w":["put",-1]}]} | OutOfBounds 2
# What stands under an id that isn't its own comes before all else.
3 | page:p | {"id":["put","page:q"],"more":["put",0]} | BadId
3 | page:p | {"typeName":["put","shape"]} | BadId
3 | page:p | {"typeName":["put",null]} | BadId
"#;

// An id, and what the schema answers of a record under it. None of them has a scope.
const IDS: &str = r#"
 | BadId
page | BadId
page: | BadId
a:b:c | BadId
star:s | UnknownType
"#;

// The length of a text and an index, and what the schema answers of a page that has both and weighs 44 more than the text.
// The check comes before the weight.
const WEIGHTS: &str = r#"
32724 | a0 | Document
32725 | a0 | TooHeavy
32725 | ?0 | BadKey 1
"#;

// The names of types, and the one that stands twice.
const TYPES: &str = r#"
b a c a b | a
"#;

#[test]
fn schemas_admit_records_or_tell_the_fault(rt: HostRuntime) -> Result<(), Fail> {
    plays(&rt, rt.alloc(), Call::Admit, VERSIONS)?;
    plays(&rt, rt.alloc(), Call::Patch, PATCHES)?;
    plays(&rt, rt.alloc(), Call::Id, IDS)?;
    plays(&rt, rt.alloc(), Call::Weight, WEIGHTS)?;
    plays(&rt, rt.alloc(), Call::Types, TYPES)
}

/// The schema of a version that is written in digits.
pub(crate) fn schema_of(alloc: Global, version: &str) -> Result<Schema, Fail> {
    Ok(schema_at(alloc, version.parse::<u32>()?)?)
}

/// What a schema answers, in words.
fn answer_text(alloc: Global, answer: Result<Scope, RecordFault>) -> Result<String, Fail> {
    match answer {
        Ok(scope) => Ok(format!(in alloc; "{scope:?}")?),
        Err(RecordFault::Rejected(Reject { depth, kind })) => {
            Ok(format!(in alloc; "{kind:?} {depth}")?)
        }
        Err(fault) => Ok(format!(in alloc; "{fault:?}")?),
    }
}

/// What a schema answers of a record, in words.
fn admits_text(alloc: Global, schema: &Schema, id: &str, val: &Val) -> Result<String, Fail> {
    answer_text(alloc, schema.admits(id, val))
}

/// Whether a schema admits a record with the scope of its id.
fn admits_with(
    alloc: Global,
    schema: &Schema,
    id: &str,
    val: &Val,
    scope: &str,
) -> Result<bool, Fail> {
    let answer = schema.admits(id, val);
    let is_scope = schema.scope_of(id) == answer.ok();
    let text = admits_text(alloc, schema, id, val)?;
    Ok(is_scope && text.as_str() == scope)
}

/// Whether a schema of a version admits the record of a row where the row says so, and refuses it elsewhere.
fn admits_row(alloc: Global, schema: &Schema, version: &str, row: &str) -> Result<bool, Fail> {
    let [versions, id, scope, text] = cells(row);
    let val = value(alloc, text)?;
    if versions.contains(version) {
        return admits_with(alloc, schema, id, &val, scope);
    }
    Ok(schema.admits(id, &val).is_err())
}

/// The first row of the table of records with another answer of the schema of a version, or `=`.
pub(crate) fn records_difference(alloc: Global, version: &str) -> Result<String, Fail> {
    let schema = match schema_at(alloc, version.parse::<u32>()?) {
        Ok(schema) => schema,
        Err(TableFault::NoSuchVersion) => return Ok(String::from_str(alloc, "NoSuchVersion")?),
        Err(TableFault::OutOfMemory) => return Err(Fail::from("memory was refused")),
    };
    for row in &rows(alloc, RECORDS)? {
        if !admits_row(alloc, &schema, version, row)? {
            return Ok(String::from_str(alloc, row)?);
        }
    }
    Ok(String::from_str(alloc, "=")?)
}

/// The operation that patches a record.
fn patch_op(alloc: Global, patch: &str) -> Result<RecordOp, Fail> {
    let text = format!(in alloc; "[\"patch\",{patch}]")?;
    operation(alloc, text.as_str())
}

/// A copy of a record that an operation has changed.
fn record_after(alloc: Global, val: &Val, op: &RecordOp) -> Result<Val, Fail> {
    match apply_record(alloc, Some(val), op)? {
        Some(after) => Ok(after),
        None => Err(Fail::from("a record was wanted")),
    }
}

/// The record of an id at a version, as a patch changes it.
pub(crate) fn with_patch(alloc: Global, version: &str, id: &str, patch: &str) -> Result<Val, Fail> {
    let op = patch_op(alloc, patch)?;
    let val = record_at(alloc, version, id)?;
    record_after(alloc, &val, &op)
}

/// What a schema answers of a record that a patch has made, if it looks at what the patch names.
fn by_patch_text(
    alloc: Global,
    schema: &Schema,
    id: &str,
    val: &Val,
    patch: &str,
) -> Result<String, Fail> {
    let RecordOp::Patch(diff) = patch_op(alloc, patch)? else {
        return Err(Fail::from("a patch was wanted"));
    };
    answer_text(alloc, schema.admits_patched(id, val, &diff))
}

/// What the schema of a row answers of its patched record, whole and by the patch.
pub(crate) fn patched_text(alloc: Global, row: &str) -> Result<String, Fail> {
    let [version, id, patch, ..] = cells(row);
    let val = with_patch(alloc, version, id, patch)?;
    let schema = schema_of(alloc, version)?;
    let whole = admits_text(alloc, &schema, id, &val)?;
    let part = by_patch_text(alloc, &schema, id, &val, patch)?;
    if whole.as_str() == part.as_str() {
        return Ok(whole);
    }
    Ok(format!(in alloc; "{whole} and {part}")?)
}

/// What a schema answers of a record under an id without a scope.
pub(crate) fn id_text(alloc: Global, id: &str) -> Result<String, Fail> {
    let text = format!(in alloc; "{{\"id\":\"{id}\",\"typeName\":\"star\"}}")?;
    let val = value(alloc, text.as_str())?;
    let schema = schema_at(alloc, 3)?;
    if schema.scope_of(id).is_some() {
        return Ok(String::from_str(alloc, "a scope")?);
    }
    admits_text(alloc, &schema, id, &val)
}

/// What a schema answers of a page with a text of a length, and with an index.
pub(crate) fn weight_text(alloc: Global, row: &str) -> Result<String, Fail> {
    let [length, index, ..] = cells(row);
    let patch = long_patch(alloc, length.parse::<u32>()?, index)?;
    let page = with_patch(alloc, "3", "page:p", patch.as_str())?;
    let schema = schema_at(alloc, 3)?;
    admits_text(alloc, &schema, "page:p", &page)
}

/// The patch that puts a text of a length, and an index.
fn long_patch(alloc: Global, length: u32, index: &str) -> Result<String, Fail> {
    let mut long = String::new(alloc);
    for _ in 0..length {
        long.push('a')?;
    }
    Ok(format!(in alloc;
        "{{\"index\":[\"put\",\"{index}\"],\"meta\":[\"put\",{{\"k\":\"{long}\"}}]}}"
    )?)
}

/// Types of these names.
fn types(alloc: Global, names: &str) -> Result<Vec<TypeRow>, Fail> {
    let mut made = Vec::new(alloc);
    for name in names.split(' ') {
        let name = Text::of(alloc, name)?;
        made.push(TypeRow {
            name,
            scope: Scope::Document,
            check: Check::Any,
        })?;
    }
    Ok(made)
}

/// The name that a schema of some types says to stand twice.
pub(crate) fn doubled_name(alloc: Global, names: &str) -> Result<String, Fail> {
    let made = types(alloc, names)?;
    let sequences = Sequences::build(alloc, Vec::new(alloc))?;
    match Schema::build(alloc, made, sequences) {
        Err(SchemaFault::DoubledType(name)) => Ok(String::from_str(alloc, name.as_str())?),
        _ => Err(Fail::from("a type was to stand twice")),
    }
}
