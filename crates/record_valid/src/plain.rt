//! The faults of a value by itself.
ghost use Rattle.std.specs.Prelude.{◌≡◌, option_map};
ghost use Rattle.std.specs.Result.{result_err};
ghost use Rattle.rooms_val.specs.View.{data_of};
ghost use Rattle.rooms_val.specs.Kinds.{as_truth, as_whole, as_text, as_members};
ghost use Rattle.record_valid.specs.Parts.{is_listed};
ghost use Rattle.record_valid.specs.Faults.{part_fault, unless, bounds_fault, length_fault, list_fault, key_fault, id_fault, no_fault};

use crate::id::id_type;
use crate::reject::RejectKind;
use rooms_val::{Text, Val};

fn is_listed(texts: &[Text], wanted: &str) -> bool
    ensures { result ≡ is_listed texts.now wanted.now }
{
    texts.iter().any(|text| text.as_str() == wanted)
}

/// `Ok` where the test holds.
fn unless(holds: bool, kind: RejectKind) -> Result<(), RejectKind>
    ensures { result_err result ≡ unless holds kind }
{
    if holds { Ok(()) } else { Err(kind) }
}

pub(crate) fn check_whole(val: &Val, least: i64, most: i64) -> Result<(), RejectKind>
    ensures { result_err result
        ≡ part_fault RejectKind.WrongKind (as_whole (data_of val.now)) (bounds_fault least most) }
{
    match val {
        Val::Int(number) => unless(least <= *number && *number <= most, RejectKind::OutOfBounds),
        _ => Err(RejectKind::WrongKind),
    }
}

pub(crate) fn check_truth(val: &Val) -> Result<(), RejectKind>
    ensures { result_err result
        ≡ part_fault RejectKind.WrongKind (as_truth (data_of val.now)) no_fault }
{
    match val {
        Val::Bool(_) => Ok(()),
        _ => Err(RejectKind::WrongKind),
    }
}

pub(crate) fn check_dict(val: &Val) -> Result<(), RejectKind>
    ensures { result_err result
        ≡ part_fault RejectKind.WrongKind (as_members (data_of val.now)) no_fault }
{
    match val {
        Val::Map(_) => Ok(()),
        _ => Err(RejectKind::WrongKind),
    }
}

pub(crate) fn check_length(val: &Val, most: u64) -> Result<(), RejectKind>
    ensures { result_err result
        ≡ part_fault RejectKind.WrongKind (as_text (data_of val.now)) (length_fault most) }
{
    let Some(text) = val.as_text() else {
        return Err(RejectKind::WrongKind);
    };
    unless(text.len() as u64 <= most, RejectKind::OutOfBounds)
}

pub(crate) fn check_listed(val: &Val, texts: &[Text]) -> Result<(), RejectKind>
    ensures { result_err result
        ≡ part_fault RejectKind.WrongKind (as_text (data_of val.now)) (list_fault texts.now) }
{
    let Some(text) = val.as_text() else {
        return Err(RejectKind::WrongKind);
    };
    unless(is_listed(texts, text), RejectKind::NotListed)
}

pub(crate) fn check_key(val: &Val) -> Result<(), RejectKind>
    ensures { result_err result
        ≡ part_fault RejectKind.WrongKind (as_text (data_of val.now)) key_fault }
{
    let Some(text) = val.as_text() else {
        return Err(RejectKind::WrongKind);
    };
    match index_keys::check(text) {
        Ok(()) => unless(text.len() <= 256, RejectKind::BadKey),
        Err(_) => Err(RejectKind::BadKey),
    }
}

pub(crate) fn check_id(val: &Val, types: &[Text]) -> Result<(), RejectKind>
    ensures { result_err result
        ≡ part_fault RejectKind.WrongKind (as_text (data_of val.now)) (id_fault types.now) }
{
    let Some(text) = val.as_text() else {
        return Err(RejectKind::WrongKind);
    };
    match id_type(text) {
        Some(name) => unless(is_listed(types, name), RejectKind::BadId),
        None => Err(RejectKind::BadId),
    }
}
