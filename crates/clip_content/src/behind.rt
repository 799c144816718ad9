//! Keys behind the children of a parent.
ghost use Rattle.std.specs.Prelude.{◌≡◌, Some, None, if◌then◌else◌, option_map};
ghost use Rattle.index_keys.specs.Answers.{texts};
ghost use Rattle.index_keys.specs.Several.{several};
ghost use Rattle.rooms_val.specs.Answers.{Gives};
ghost use Rattle.rooms_val.specs.View.{data_of};
ghost use Rattle.shape_tree.specs.Trees.{is_child};
ghost use Rattle.side_effects.specs.Placed.{greater, greatest_index};
ghost use Rattle.side_effects.specs.Records.{index_of};
ghost use Rattle.clip_content.specs.Pasted.{or_no_key};
ghost use Rattle.room_model.specs.declared.clip_fault.PasteFault.TheVariants as paste_fault;

use crate::records::{is_shape, text_or_empty};
use index_keys::{BetweenFault, several};
use room_model::clip_fault::PasteFault;
use rooms_val::{Fields, Val};
use std::alloc::Global;

// So many keys behind all children that a parent has. It looks at each record once.
pub(crate) fn keys_behind(
    alloc: Global,
    records: &Fields,
    parent: &str,
    count: usize,
) -> Result<Vec<String>, PasteFault>
    ensures { Gives paste_fault.OutOfMemory (λ keys. texts keys.items) result
        (or_no_key (several (greatest_index records.now parent.now) None count)) }
{
    let Ok(count) = u32::try_from(count) else {
        return Err(PasteFault::OutOfMemory);
    };
    match several(alloc, greatest_index(records, parent), None, count) {
        Ok(keys) => Ok(keys),
        Err(BetweenFault::OutOfMemory) => Err(PasteFault::OutOfMemory),
        Err(fault) => Err(PasteFault::NoKey(fault)),
    }
}

// The greatest index among the children of a parent, if it has any.
fn greatest_index<'a>(records: &'a Fields, parent: &str) -> Option<&'a str>
    ensures { option_map (λ t. t.now) result ≡ greatest_index records.now parent.now }
{
    let mut greatest = None;
    'records: for (id, val) in records.as_slice() {
        greatest = raised_by(greatest, parent, id.as_str(), val);
    }
    greatest
}

// The greater of an index, if there is one, and that of a record, if it is a child of a parent.
fn raised_by<'a>(held: Option<&'a str>, parent: &str, id: &str, val: &'a Val) -> Option<&'a str>
    ensures { option_map (λ t. t.now) result ≡ (if is_child parent.now (id.now, data_of val.now)
        then greater (option_map (λ t. t.now) held.entry) (index_of (data_of val.now))
        else option_map (λ t. t.now) held.entry) }
{
    if is_child(parent, id, val) {
        Some(greater(held, text_or_empty(val, "index")))
    } else {
        held
    }
}

// Whether the record is a shape with this parent.
fn is_child(parent: &str, id: &str, val: &Val) -> bool
    ensures { result ≡ is_child parent.now (id.now, data_of val.now) }
{
    is_shape(id) && text_or_empty(val, "parentId") == parent
}

// The greater of an index, if there is one, and another.
fn greater<'a>(held: Option<&'a str>, index: &'a str) -> &'a str
    ensures { Some result.now ≡ greater (option_map (λ t. t.now) held.entry) index.now }
{
    match held {
        Some(held) => { if held < index { index } else { held } }
        None => index,
    }
}
