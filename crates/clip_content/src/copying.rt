//! What a copy takes of a document.
ghost use Rattle.std.specs.Prelude.{◌≡◌, [], length, ◌&&◌, filter, option_map, IfOk, OnOk, if◌then◌else◌, ℕ, List};
ghost use Rattle.rooms_val.specs.Maps.{with_key};
ghost use Rattle.rooms_val.specs.View.{data_of};
ghost use Rattle.shape_tree.specs.Records.{is_shape, is_binding};
ghost use Rattle.side_effects.specs.Reaching.{reaches};
ghost use Rattle.side_effects.specs.Records.{has};
ghost use Rattle.side_effects.specs.Whole.{parents};
ghost use Rattle.clip_content.specs.Copied.{is_one_of, first_missing, first_again, shapes_under, is_within, bindings_within};

use crate::records::{has, has_shape, is_binding, is_shape, parent_at, text_or_empty};
use rooms_val::{Fields, Mem, Text, Val};
use std::alloc::Global;

// The first of some ids that is no shape of the document.
pub(crate) fn first_missing<'a>(records: &Fields, ids: &'a [Text]) -> Option<&'a Text>
    ensures { option_map (λ t. t.now) result ≡ first_missing records.now ids.now }
{
    'ids: for id in ids {
        if !has_shape(records, id.as_str()) {
            return Some(id);
        }
    }
    None
}

// The first of some ids that stood before it.
pub(crate) fn first_again(alloc: Global, ids: &[Text]) -> Mem<Option<Text>>
    ensures { IfOk result (λ again. again ≡ first_again [] ids.now) }
{
    let mut before = Fields::new(alloc);
    'ids: for id in ids {
        let met = has(&before, id.as_str());
        if met {
            return Ok(Some(id.copy(alloc)?));
        }
        before.put(id.copy(alloc)?, Val::Null)?;
    }
    Ok(None)
}

// The ids as the keys of a map.
pub(crate) fn set_of(alloc: Global, ids: &[Text]) -> Mem<Fields>
    ensures { IfOk result (λ named. (id : List ℕ) → has named id ≡ is_one_of ids.now id) }
{
    let mut named = Fields::new(alloc);
    'ids: for id in ids {
        named.put(id.copy(alloc)?, Val::Null)?;
    }
    Ok(named)
}

// Whether the id is one of a set, or leads to one by the parents of shapes. It costs two look-ups for each parent.
fn leads_to<'a>(records: &'a Fields, named: &Fields, id: &'a str) -> bool
    ensures { result ≡ reaches (parents records.now) (has named.now) (length records.now) id.now }
{
    let mut at = id;
    'parents: for _step in 0..records.len() {
        if has(named, at) {
            return true;
        }
        match parent_at(records, at) {
            Some(parent) => at = parent,
            None => return false,
        }
    }
    has(named, at)
}

// Whether the id is that of a shape that leads to one of a set.
fn is_copied(records: &Fields, named: &Fields, id: &str) -> bool
    ensures { result ≡ (is_shape id.now
        && reaches (parents records.now) (has named.now) (length records.now) id.now) }
{
    is_shape(id) && leads_to(records, named, id)
}

// The shapes of a document that are copied for some ids.
pub(crate) fn shapes_under(alloc: Global, records: &Fields, ids: &[Text]) -> Mem<Fields>
    ensures { IfOk result (λ shapes. shapes ≡ shapes_under records.now ids.now) }
{
    let named = set_of(alloc, ids)?;
    shapes_leading_to(alloc, records, &named)
}

// The shapes of a document that lead to one of a set.
fn shapes_leading_to(alloc: Global, records: &Fields, named: &Fields) -> Mem<Fields>
    ensures { IfOk result (λ shapes. shapes ≡ filter (λ e. is_shape e.0 &&
        reaches (parents records.now) (has named.now) (length records.now) e.0) records.now) }
{
    let mut shapes = Fields::new(alloc);
    'records: for (id, val) in records.as_slice() {
        let copies = is_copied(records, named, id.as_str());
        keep_if(alloc, copies, id, val, &mut shapes)?;
    }
    Ok(shapes)
}

// The bindings of a document with both ends among some shapes.
pub(crate) fn bindings_within(alloc: Global, records: &Fields, shapes: &Fields) -> Mem<Fields>
    ensures { IfOk result (λ bindings. bindings ≡ bindings_within records.now shapes.now) }
{
    let mut bindings = Fields::new(alloc);
    'records: for (id, val) in records.as_slice() {
        let copies = is_bound_within(shapes, id.as_str(), val);
        keep_if(alloc, copies, id, val, &mut bindings)?;
    }
    Ok(bindings)
}

// Whether the record is a binding with both ends among some shapes.
fn is_bound_within(shapes: &Fields, id: &str, val: &Val) -> bool
    ensures { result ≡ (is_binding id.now && is_within shapes.now (data_of val.now)) }
{
    is_binding(id) && is_within(shapes, val)
}

// Whether both ends of a binding are among some shapes.
fn is_within(shapes: &Fields, val: &Val) -> bool
    ensures { result ≡ is_within shapes.now (data_of val.now) }
{
    has(shapes, text_or_empty(val, "fromId")) && has(shapes, text_or_empty(val, "toId"))
}

// Adds a record under its id, if it is to be kept.
fn keep_if(alloc: Global, keeps: bool, id: &Text, val: &Val, kept: &mut Fields) -> Mem<()>
    ensures { OnOk result (kept.new
        ≡ (if keeps then with_key kept.old id.now (data_of val.now) else kept.old)) }
{
    if keeps {
        kept.put(id.copy(alloc)?, val.copy(alloc)?)?;
    }
    Ok(())
}
