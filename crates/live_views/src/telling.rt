//! Answers as they are told.
ghost use Rattle.std.specs.Prelude.{◌≡◌, ◌++◌, IfOk, OnOk, map};
ghost use Rattle.rooms_val.specs.View.{data_of};
ghost use Rattle.shape_tree.specs.Views.{box_data, ids_data};
ghost use Rattle.tl_rules.specs.Ids.{flat};
ghost use Rattle.live_views.specs.Telling.{told_of};

use rooms_val::{Fields, Mem, Text, Val, Vals};
use shape_tree::Rect;
use shape_tree::limits::MOST_SHAPES;
use std::alloc::Global;
use tl_rules::{Part, TlValue};

// The value by which an answer is told.
pub(crate) fn told_value(alloc: Global, value: &TlValue) -> Mem<Val>
    ensures { IfOk result (λ val. data_of val ≡ told_of value.now) }
{
    match value {
        TlValue::Rec(_) => Ok(Val::Null),
        TlValue::Ids(ids) => told_ids(alloc, ids.parts()),
        TlValue::Number(number) => Ok(Val::Int((*number).min(MOST_SHAPES as u64) as i64)),
        TlValue::Rect(None) => Ok(Val::Null),
        TlValue::Rect(Some(rect)) => told_box(alloc, *rect),
    }
}

// The box as a map of its numbers.
fn told_box(alloc: Global, rect: Rect) -> Mem<Val>
    ensures { IfOk result (λ val. data_of val ≡ box_data (Some rect)) }
{
    let mut fields = Fields::new(alloc);
    drop(fields.put(Text::of(alloc, "h")?, Val::Int(rect.h))?);
    drop(fields.put(Text::of(alloc, "w")?, Val::Int(rect.w))?);
    drop(fields.put(Text::of(alloc, "x")?, Val::Int(rect.x))?);
    drop(fields.put(Text::of(alloc, "y")?, Val::Int(rect.y))?);
    Ok(Val::Map(fields))
}

// The ids of some parts as a list of texts.
fn told_ids(alloc: Global, parts: &[Part]) -> Mem<Val>
    ensures { IfOk result (λ val. data_of val ≡ ids_data (flat parts.now)) }
{
    let mut list = Vals::new(alloc);
    'parts: for part in parts {
        'ids: for id in part.as_slice() {
            list.push(Val::Text(id.copy(alloc)?))?;
        }
    }
    Ok(Val::List(list))
}
