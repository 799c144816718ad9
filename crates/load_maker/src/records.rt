//! The records that are put.
ghost use Rattle.std.specs.Prelude.{◌≡◌, ◌∷◌, ◌++◌, codes, decimal, IfOk};
ghost use Rattle.rooms_val.specs.Data.{text};
ghost use Rattle.rooms_val.specs.Maps.{with_key};
ghost use Rattle.load_maker.specs.Records.{page, shape_id, says, later_props, props, shape, presence};
ghost use Rattle.load_maker.specs.Records.{early_fields, later_fields};

use itoa::Buffer;
use rooms_val::{Fields, Mem, Text, Val, Vals};
use std::alloc::Global;

/// The page.
pub(crate) fn page(alloc: Global) -> Mem<Fields>
    ensures { IfOk result (λ fields. fields ≡ page) }
{
    let fields = with_text(alloc, Fields::new(alloc), "id", "page:p")?;
    let fields = with_text(alloc, fields, "index", "a0")?;
    let fields = fields.with(alloc, "meta", Val::Map(Fields::new(alloc)))?;
    let fields = with_text(alloc, fields, "name", "P")?;
    with_text(alloc, fields, "typeName", "page")
}

/// The id of the shape with a number.
pub(crate) fn shape_id(alloc: Global, number: u32) -> Mem<Text>
    ensures { IfOk result (λ id. id ≡ shape_id number) }
{
    numbered_text(alloc, "shape:s", number)
}

// A text with a number behind it.
fn numbered_text(alloc: Global, front: &str, number: u32) -> Mem<Text>
    ensures { IfOk result (λ made. made ≡ front.now ++ decimal number) }
{
    let mut digits = Buffer::new();
    let mut made = String::from_str(alloc, front)?;
    made.push_str(digits.format(number))?;
    Text::of(alloc, made.as_str())
}

/// The shape with a number at this x, as a version has it.
pub(crate) fn shape(alloc: Global, version: u32, number: u32, x: u32) -> Mem<Fields>
    ensures { IfOk result (λ fields. fields ≡ shape version number x) }
{
    let fields = bare_shape(alloc, number, props(alloc, version)?, x)?;
    if version <= 1 {
        fields.with(alloc, "alpha", Val::Int(10))
    } else {
        fields.with(alloc, "opacity", Val::Int(100))
    }
}

// The fields of a shape without how much of it is seen.
fn bare_shape(alloc: Global, number: u32, props: Fields, x: u32) -> Mem<Fields>
    ensures { IfOk result (λ fields. fields ≡ early_fields number ++ later_fields props x) }
{
    let id = Val::Text(shape_id(alloc, number)?);
    let fields = Fields::new(alloc).with(alloc, "id", id)?;
    let fields = with_text(alloc, fields, "index", "a1")?;
    let fields = fields.with(alloc, "isLocked", Val::Bool(false))?;
    let fields = fields.with(alloc, "meta", Val::Map(Fields::new(alloc)))?;
    let fields = with_text(alloc, fields, "parentId", "page:p")?;
    let fields = fields.with(alloc, "props", Val::Map(props))?;
    let fields = fields.with(alloc, "rotation", Val::Int(0))?;
    let fields = with_text(alloc, fields, "type", "geo")?;
    let fields = with_text(alloc, fields, "typeName", "shape")?;
    let fields = fields.with(alloc, "x", Val::Int(i64::from(x)))?;
    fields.with(alloc, "y", Val::Int(0))
}

// The properties of a shape, as a version has them.
fn props(alloc: Global, version: u32) -> Mem<Fields>
    ensures { IfOk result (λ fields. fields ≡ props version) }
{
    let fields = common_props(alloc)?;
    if 3 <= version {
        with_text(alloc, fields, "dash", "draw")
    } else {
        Ok(fields)
    }
}

// The properties of a shape that each version has.
fn common_props(alloc: Global) -> Mem<Fields>
    ensures { IfOk result (λ fields. fields ≡ says (codes "color") (codes "black") ∷ later_props) }
{
    let fields = with_text(alloc, Fields::new(alloc), "color", "black")?;
    let fields = with_text(alloc, fields, "fill", "none")?;
    let fields = with_text(alloc, fields, "geo", "rectangle")?;
    let fields = fields.with(alloc, "h", Val::Int(10))?;
    let fields = with_text(alloc, fields, "size", "m")?;
    let fields = with_text(alloc, fields, "text", "")?;
    fields.with(alloc, "w", Val::Int(10))
}

/// The presence of a client.
pub(crate) fn presence(alloc: Global, client: u32, x: u32) -> Mem<Fields>
    ensures { IfOk result (λ fields. fields ≡ presence client x) }
{
    let fields = with_text(alloc, Fields::new(alloc), "color", "red")?;
    let fields = with_text(alloc, fields, "currentPageId", "page:p")?;
    let cursor = Fields::new(alloc).with(alloc, "x", Val::Int(i64::from(x)))?;
    let cursor = cursor.with(alloc, "y", Val::Int(0))?;
    let fields = fields.with(alloc, "cursor", Val::Map(cursor))?;
    let fields = with_text(alloc, fields, "id", "instance_presence:me")?;
    let fields = fields.with(alloc, "meta", Val::Map(Fields::new(alloc)))?;
    let fields = fields.with(alloc, "selectedShapeIds", Val::List(Vals::new(alloc)))?;
    let fields = with_text(alloc, fields, "typeName", "instance_presence")?;
    fields.with(
        alloc,
        "userName",
        Val::Text(numbered_text(alloc, "c", client)?),
    )
}

// The map with a further text.
fn with_text(alloc: Global, fields: Fields, key: &str, said: &str) -> Mem<Fields>
    ensures { IfOk result (λ made. made ≡ with_key fields key.now (text said.now)) }
{
    fields.with(alloc, key, Val::Text(Text::of(alloc, said)?))
}
