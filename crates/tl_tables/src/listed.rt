//! Lists of texts, and the steps of migrations over them.
ghost use Rattle.std.specs.Prelude.{◌≡◌, IfOk, map, [], ◌∷◌};
ghost use Rattle.rooms_val.specs.View.{data_of};
ghost use Rattle.tl_tables.specs.Trees as trees;

use migrate_steps::MigStep;
use rooms_val::{Mem, Text, Val};
use std::alloc::Global;

/// Copies of some texts.
pub(crate) fn texts(alloc: Global, all: &[&str]) -> Mem<Vec<Text>>
    ensures { IfOk result (λ copies. copies.items ≡ map (λ t. t.now) all.now) }
{
    let mut copies = Vec::with_capacity(alloc, all.len())?;
    for text in all {
        copies.push(Text::of(alloc, text)?)?;
    }
    Ok(copies)
}

/// The step that adds a value where its key is missing.
pub(crate) fn add(alloc: Global, path: &[&str], key: &str, val: Val) -> Mem<MigStep>
    ensures { IfOk result (λ s. trees.step_tree s
        ≡ trees.add (map (λ t. t.now) path.now) key.now (data_of val)) }
{
    Ok(MigStep::Add {
        path: texts(alloc, path)?,
        key: Text::of(alloc, key)?,
        val,
    })
}

pub(crate) fn rename(alloc: Global, path: &[&str], old: &str, new: &str) -> Mem<MigStep>
    ensures { IfOk result (λ s. trees.step_tree s
        ≡ trees.rename (map (λ t. t.now) path.now) old.now new.now) }
{
    Ok(MigStep::Rename {
        path: texts(alloc, path)?,
        old: Text::of(alloc, old)?,
        new: Text::of(alloc, new)?,
    })
}

/// The step that writes one text in place of another.
pub(crate) fn map_enum(
    alloc: Global,
    path: &[&str],
    key: &str,
    old: &str,
    new: &str,
) -> Mem<MigStep>
    ensures { IfOk result (λ s. trees.step_tree s
        ≡ trees.map_enum (map (λ t. t.now) path.now) key.now ((old.now, new.now) ∷ [])) }
{
    Ok(MigStep::MapEnum {
        path: texts(alloc, path)?,
        key: Text::of(alloc, key)?,
        pairs: vec![in alloc; (Text::of(alloc, old)?, Text::of(alloc, new)?)]?,
    })
}

pub(crate) fn scale(alloc: Global, path: &[&str], key: &str, factor: u32) -> Mem<MigStep>
    ensures { IfOk result (λ s. trees.step_tree s
        ≡ trees.scale (map (λ t. t.now) path.now) key.now factor) }
{
    Ok(MigStep::Scale {
        path: texts(alloc, path)?,
        key: Text::of(alloc, key)?,
        factor,
    })
}

pub(crate) fn nest(alloc: Global, path: &[&str], keys: &[&str], into: &str) -> Mem<MigStep>
    ensures { IfOk result (λ s. trees.step_tree s
        ≡ trees.nest (map (λ t. t.now) path.now) (map (λ t. t.now) keys.now) into.now) }
{
    Ok(MigStep::Nest {
        path: texts(alloc, path)?,
        keys: texts(alloc, keys)?,
        into: Text::of(alloc, into)?,
    })
}
