//! What a step makes of the map that its path leads to, and the way there.
ghost use Rattle.std.specs.Prelude.{◌≡◌, ◌≤◌, IfOk, OnOk, IsTrue};
ghost use Rattle.std.specs.Option.{option_map_or};
ghost use Rattle.rooms_val.specs.View.{data_of};
ghost use Rattle.std.specs.Prelude.{pos, ◌*ℤ◌};
ghost use Rattle.migrate_steps.specs.Steps.{clamped, at_path, row, added, changed_at, renamed, moved, moved_one, nested, unnested, replacement, toward, replaced, scaled, divided, can_scale};

use crate::step::{MigStep, Way};
use rooms_val::limits::GREATEST_WHOLE;
use rooms_val::{Fields, Mem, Text, Val};
use std::alloc::Global;

// A value after a step on the map that a path leads to.
pub(crate) fn walk(alloc: Global, val: Val, path: &[Text], step: &MigStep, way: Way) -> Mem<Val>
    requires { IsTrue (can_scale step.now) }
    ensures { IfOk result (λ v. data_of v ≡ at_path path.now (row way step.now) (data_of val)) }
{
    match val {
        Val::Map(mut fields) => match path {
            [] => {
                change(alloc, &mut fields, step, way)?;
                Ok(Val::Map(fields))
            }
            [key, rest @ ..] => {
                // That the keys rise is told by the length.
                let _ = fields.len();
                match fields.take(key.as_str())? {
                    Some(inner) => {
                        let after = walk(alloc, inner, rest, step, way)?;
                        fields.put(key.copy(alloc)?, after)?;
                        Ok(Val::Map(fields))
                    }
                    None => Ok(Val::Map(fields)),
                }
            }
        },
        other => Ok(other),
    }
}

// A step on a map.
fn change(alloc: Global, fields: &mut Fields, step: &MigStep, way: Way) -> Mem<()>
    requires { IsTrue (can_scale step.now) }
    ensures { OnOk result (fields.new ≡ row way step.now fields.old) }
{
    match way {
        Way::Up => change_up(alloc, fields, step),
        Way::Down => change_down(alloc, fields, step),
    }
}

fn change_up(alloc: Global, fields: &mut Fields, step: &MigStep) -> Mem<()>
    ensures { OnOk result (fields.new ≡ row Way.Up step.now fields.old) }
{
    match step {
        MigStep::Add { key, val, .. } => add(alloc, fields, key, val),
        MigStep::Remove { key, .. } => {
            let _ = fields.take(key.as_str())?;
            Ok(())
        }
        MigStep::Rename { old, new, .. } => rename(alloc, fields, old, new),
        MigStep::MapEnum { key, pairs, .. } => replace(alloc, fields, key, pairs, Way::Up),
        MigStep::Scale { key, factor, .. } => scale_up(alloc, fields, key, *factor),
        MigStep::Nest { keys, into, .. } => nest(alloc, fields, keys, into),
        MigStep::Unnest { keys, into, .. } => unnest(alloc, fields, keys, into),
    }
}

fn change_down(alloc: Global, fields: &mut Fields, step: &MigStep) -> Mem<()>
    requires { IsTrue (can_scale step.now) }
    ensures { OnOk result (fields.new ≡ row Way.Down step.now fields.old) }
{
    match step {
        MigStep::Add { key, .. } => {
            let _ = fields.take(key.as_str())?;
            Ok(())
        }
        MigStep::Remove { key, val, .. } => add(alloc, fields, key, val),
        MigStep::Rename { old, new, .. } => rename(alloc, fields, new, old),
        MigStep::MapEnum { key, pairs, .. } => replace(alloc, fields, key, pairs, Way::Down),
        MigStep::Scale { key, factor, .. } => scale_down(alloc, fields, key, *factor),
        MigStep::Nest { keys, into, .. } => unnest(alloc, fields, keys, into),
        MigStep::Unnest { keys, into, .. } => nest(alloc, fields, keys, into),
    }
}

fn add(alloc: Global, fields: &mut Fields, key: &Text, val: &Val) -> Mem<()>
    ensures { OnOk result (fields.new ≡ added key.now (data_of val.now) fields.old) }
{
    if fields.get(key.as_str()).is_none() {
        fields.put(key.copy(alloc)?, val.copy(alloc)?)?;
    }
    Ok(())
}

fn rename(alloc: Global, fields: &mut Fields, old: &Text, new: &Text) -> Mem<()>
    ensures { OnOk result (fields.new ≡ renamed old.now new.now fields.old) }
{
    if let Some(val) = fields.take(old.as_str())? {
        fields.put(new.copy(alloc)?, val)?;
    }
    Ok(())
}

fn replace(
    alloc: Global,
    fields: &mut Fields,
    key: &Text,
    pairs: &[(Text, Text)],
    way: Way,
) -> Mem<()>
    ensures { OnOk result (fields.new
        ≡ changed_at key.now (replaced (toward way pairs.now)) fields.old) }
{
    let _ = fields.len();
    if let Some(val) = fields.take(key.as_str())? {
        let after = replaced_val(alloc, val, pairs, way)?;
        fields.put(key.copy(alloc)?, after)?;
    }
    Ok(())
}

fn replaced_val(alloc: Global, val: Val, pairs: &[(Text, Text)], way: Way) -> Mem<Val>
    ensures { IfOk result (λ v. data_of v ≡ replaced (toward way pairs.now) (data_of val)) }
{
    match val {
        Val::Text(text) => match replacement(pairs, way, &text) {
            Some(other) => Ok(Val::Text(other.copy(alloc)?)),
            None => Ok(Val::Text(text)),
        },
        other => Ok(other),
    }
}

// What stands for a text by the first pair that has it.
fn replacement<'a>(pairs: &'a [(Text, Text)], way: Way, text: &Text) -> Option<&'a Text>
    ensures { option_map_or (λ t. t.now) result text.now
        ≡ replacement (toward way pairs.now) text.now }
{
    for (first, second) in pairs {
        let (from, to) = match way {
            Way::Up => (first, second),
            Way::Down => (second, first),
        };
        if from.as_str() == text.as_str() {
            return Some(to);
        }
    }
    None
}

fn scale_up(alloc: Global, fields: &mut Fields, key: &Text, factor: u32) -> Mem<()>
    ensures { OnOk result (fields.new ≡ changed_at key.now (scaled factor) fields.old) }
{
    let _ = fields.len();
    if let Some(val) = fields.take(key.as_str())? {
        fields.put(key.copy(alloc)?, scaled_val(val, factor))?;
    }
    Ok(())
}

fn scaled_val(val: Val, factor: u32) -> Val
    ensures { data_of result ≡ scaled factor (data_of val) }
{
    match val {
        Val::Int(number) => Val::Int(product(number, factor)),
        other => other,
    }
}

fn scale_down(alloc: Global, fields: &mut Fields, key: &Text, factor: u32) -> Mem<()>
    requires { 2 ≤ factor }
    ensures { OnOk result (fields.new ≡ changed_at key.now (divided factor) fields.old) }
{
    let _ = fields.len();
    if let Some(val) = fields.take(key.as_str())? {
        fields.put(key.copy(alloc)?, divided_val(val, factor))?;
    }
    Ok(())
}

fn divided_val(val: Val, factor: u32) -> Val
    requires { 2 ≤ factor }
    ensures { data_of result ≡ divided factor (data_of val) }
{
    match val {
        Val::Int(number) => Val::Int(number.div_euclid(i64::from(factor))),
        other => other,
    }
}

// A number times a factor, clamped within the whole numbers that every reader of JSON takes exactly.
fn product(number: i64, factor: u32) -> i64
    ensures { result ≡ clamped (number *ℤ pos factor) }
{
    number
        .saturating_mul(i64::from(factor))
        .clamp(-GREATEST_WHOLE, GREATEST_WHOLE)
}

fn nest(alloc: Global, fields: &mut Fields, keys: &[Text], into: &Text) -> Mem<()>
    ensures { OnOk result (fields.new ≡ nested keys.now into.now fields.old) }
{
    let mut inner = Fields::new(alloc);
    move_values(alloc, keys, fields, &mut inner)?;
    if !inner.is_empty() {
        fields.put(into.copy(alloc)?, Val::Map(inner))?;
    }
    Ok(())
}

fn unnest(alloc: Global, fields: &mut Fields, keys: &[Text], into: &Text) -> Mem<()>
    ensures { OnOk result (fields.new ≡ unnested keys.now into.now fields.old) }
{
    let _ = fields.len();
    if let Some(val) = fields.take(into.as_str())? {
        match val {
            Val::Map(mut inner) => {
                move_values(alloc, keys, &mut inner, fields)?;
                return Ok(());
            }
            other => {
                fields.put(into.copy(alloc)?, other)?;
                return Ok(());
            }
        }
    }
    Ok(())
}

// Moves the values that a map has under some keys to another map.
fn move_values(alloc: Global, keys: &[Text], from: &mut Fields, to: &mut Fields) -> Mem<()>
    ensures { OnOk result (moved keys.now (from.old, to.old) ≡ (from.new, to.new)) }
{
    for key in keys {
        move_value(alloc, key, from, to)?;
    }
    Ok(())
}

fn move_value(alloc: Global, key: &Text, from: &mut Fields, to: &mut Fields) -> Mem<()>
    ensures { OnOk result (moved_one key.now (from.old, to.old) ≡ (from.new, to.new)) }
{
    if let Some(val) = from.take(key.as_str())? {
        to.put(key.copy(alloc)?, val)?;
    }
    Ok(())
}
