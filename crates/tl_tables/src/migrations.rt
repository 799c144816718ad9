//! The migrations, in sequences.
ghost use Rattle.std.specs.Prelude.{◌≡◌, ◌↔◌, IsTrue, IfOk, map, filter, false, true, [], ◌∷◌, codes};
ghost use Rattle.migrate_seq.specs.SequencesOf.{sequences_of};
ghost use Rattle.migrate_seq.specs.declared.fault.SeqFault.TheVariants as seq_fault;
ghost use Rattle.migrate_steps.specs.declared.migration.MigScope.TheVariants as mig_scope;
ghost use Rattle.rooms_val.specs.Data.{boolean, text};
ghost use Rattle.tl_tables.specs.Trees as trees;
ghost use Rattle.tl_tables.specs.Trees.{step_tree, migration_tree, sequence_tree};
ghost use Rattle.tl_tables.specs.Migrations as rows;

use crate::listed::{add, map_enum, nest, rename, scale, texts};
use migrate_seq::{SeqFault, Sequences};
use migrate_steps::{Filter, MigScope, MigStep, Migration, Sequence};
use rooms_val::{Mem, OutOfMemory, Text, Val};
use std::alloc::Global;

/// The sequences of which a migration is there at a version.
#[tactic(auto, unfolding(crate::specs::Migrations::sequences))]
pub(crate) fn sequences(alloc: Global, version: u32) -> Mem<Sequences>
    ensures { IfOk result (λ s. map sequence_tree (sequences_of s) ≡ rows.sequences version) }
{
    let mut list = vec![in alloc;
        asset(alloc, version)?,
        base(alloc, version)?,
        binding(alloc, version)?,
        page(alloc, version)?,
        shape(alloc, version)?,
    ]?;
    drop_empty(&mut list);
    match Sequences::build(alloc, list) {
        Ok(sequences) => Ok(sequences),
        Err(fault) => {
            // The tables fit together, so that nothing else is refused.
            let out_of_memory = is_out_of_memory(&fault);
            prove!(out_of_memory);
            Err(OutOfMemory)
        }
    }
}

/// Drops the sequences that have no migration.
fn drop_empty(list: &mut Vec<Sequence>)
    ensures { map sequence_tree list.new.items
        ≡ filter rows.has_migrations (map sequence_tree list.old.items) }
{
    list.retain(|sequence| !sequence.migrations.is_empty());
}

fn is_out_of_memory(fault: &SeqFault) -> bool
    ensures { IsTrue result ↔ (fault.now ≡ seq_fault.OutOfMemory) }
{
    matches!(fault, SeqFault::OutOfMemory)
}

/// A retroactive sequence with those of some migrations that are there at a version, each given with the first version
/// that has it.
#[tactic(auto, unfolding(crate::specs::Migrations::sequence_at))]
fn sequence_at(
    alloc: Global,
    version: u32,
    id: &str,
    migrations: Vec<(u32, Migration)>,
) -> Mem<Sequence>
    ensures { IfOk result (λ s. sequence_tree s
        ≡ rows.sequence_at version id.now (map (λ m. (m.0, migration_tree m.1)) migrations.items)) }
{
    let mut kept = Vec::new(alloc);
    'rows: for (first, migration) in migrations {
        if first <= version {
            kept.push(migration)?;
        }
    }
    Ok(Sequence {
        id: Text::of(alloc, id)?,
        retroactive: true,
        migrations: kept,
    })
}

#[tactic(auto, unfolding(crate::specs::Migrations::asset))]
fn asset(alloc: Global, version: u32) -> Mem<Sequence>
    ensures { IfOk result (λ s. sequence_tree s ≡ rows.asset version) }
{
    sequence_at(
        alloc,
        version,
        "rooms.asset",
        vec![in alloc; (4, asset_1(alloc)?)]?,
    )
}

#[tactic(auto, unfolding(crate::specs::Migrations::base))]
fn base(alloc: Global, version: u32) -> Mem<Sequence>
    ensures { IfOk result (λ s. sequence_tree s ≡ rows.base version) }
{
    sequence_at(
        alloc,
        version,
        "rooms.base",
        vec![in alloc; (1, base_1(alloc)?)]?,
    )
}

#[tactic(auto, unfolding(crate::specs::Migrations::binding))]
fn binding(alloc: Global, version: u32) -> Mem<Sequence>
    ensures { IfOk result (λ s. sequence_tree s ≡ rows.binding version) }
{
    sequence_at(
        alloc,
        version,
        "rooms.binding",
        vec![in alloc; (3, binding_1(alloc)?)]?,
    )
}

#[tactic(auto, unfolding(crate::specs::Migrations::page))]
fn page(alloc: Global, version: u32) -> Mem<Sequence>
    ensures { IfOk result (λ s. sequence_tree s ≡ rows.page version) }
{
    sequence_at(
        alloc,
        version,
        "rooms.page",
        vec![in alloc; (5, page_1(alloc)?)]?,
    )
}

#[tactic(auto, unfolding(crate::specs::Migrations::shape))]
fn shape(alloc: Global, version: u32) -> Mem<Sequence>
    ensures { IfOk result (λ s. sequence_tree s ≡ rows.shape version) }
{
    sequence_at(
        alloc,
        version,
        "rooms.shape",
        vec![in alloc; (2, shape_1(alloc)?), (3, shape_2(alloc)?)]?,
    )
}

/// The sides of an asset stood beside the other properties.
#[tactic(auto, unfolding(crate::specs::Migrations::asset_1))]
fn asset_1(alloc: Global) -> Mem<Migration>
    ensures { IfOk result (λ m. migration_tree m ≡ rows.asset_1) }
{
    let filter = Filter::Type_(Text::of(alloc, "asset")?);
    let steps = vec![in alloc; dims_nested(alloc)?]?;
    both_ways(alloc, "rooms.asset/1", filter, steps, Vec::new(alloc))
}

fn dims_nested(alloc: Global) -> Mem<MigStep>
    ensures { IfOk result (λ s. step_tree s
        ≡ trees.nest (codes "props" ∷ []) (codes "h" ∷ codes "w" ∷ []) (codes "dims")) }
{
    nest(alloc, &["props"], &["h", "w"], "dims")
}

#[tactic(auto, unfolding(crate::specs::Migrations::base_1))]
fn base_1(alloc: Global) -> Mem<Migration>
    ensures { IfOk result (λ m. migration_tree m ≡ rows.base_1) }
{
    let steps = Vec::new(alloc);
    up_alone(alloc, "rooms.base/1", MigScope::Record, Filter::All, steps)
}

/// No page was hidden.
#[tactic(auto, unfolding(crate::specs::Migrations::page_1))]
fn page_1(alloc: Global) -> Mem<Migration>
    ensures { IfOk result (λ m. migration_tree m ≡ rows.page_1) }
{
    let filter = Filter::Type_(Text::of(alloc, "page")?);
    let steps = vec![in alloc; hidden_added(alloc)?]?;
    up_alone(alloc, "rooms.page/1", MigScope::Store, filter, steps)
}

fn hidden_added(alloc: Global) -> Mem<MigStep>
    ensures { IfOk result (λ s. step_tree s ≡ trees.add [] (codes "hidden") (boolean false)) }
{
    add(alloc, &[], "hidden", Val::Bool(false))
}

/// Opacity was in tenths.
#[tactic(auto, unfolding(crate::specs::Migrations::shape_1))]
fn shape_1(alloc: Global) -> Mem<Migration>
    ensures { IfOk result (λ m. migration_tree m ≡ rows.shape_1) }
{
    let filter = Filter::Type_(Text::of(alloc, "shape")?);
    let steps = opacity_steps(alloc)?;
    both_ways(alloc, "rooms.shape/1", filter, steps, Vec::new(alloc))
}

#[tactic(auto, unfolding(crate::specs::Migrations::shape_1))]
fn opacity_steps(alloc: Global) -> Mem<Vec<MigStep>>
    ensures { IfOk result (λ s. map step_tree s.items ≡ (rows.shape_1).steps) }
{
    Ok(vec![in alloc; alpha_renamed(alloc)?, opacity_scaled(alloc)?]?)
}

fn alpha_renamed(alloc: Global) -> Mem<MigStep>
    ensures { IfOk result (λ s. step_tree s ≡ trees.rename [] (codes "alpha") (codes "opacity")) }
{
    rename(alloc, &[], "alpha", "opacity")
}

fn opacity_scaled(alloc: Global) -> Mem<MigStep>
    ensures { IfOk result (λ s. step_tree s ≡ trees.scale [] (codes "opacity") 10) }
{
    scale(alloc, &[], "opacity", 10)
}

/// Outlines had no dashes, and an ellipse had another name.
#[tactic(auto, unfolding(crate::specs::Migrations::shape_2))]
fn shape_2(alloc: Global) -> Mem<Migration>
    ensures { IfOk result (λ m. migration_tree m ≡ rows.shape_2) }
{
    let filter = Filter::Kind(Text::of(alloc, "shape")?, Text::of(alloc, "geo")?);
    let steps = outline_steps(alloc)?;
    both_ways(alloc, "rooms.shape/2", filter, steps, Vec::new(alloc))
}

#[tactic(auto, unfolding(crate::specs::Migrations::shape_2))]
fn outline_steps(alloc: Global) -> Mem<Vec<MigStep>>
    ensures { IfOk result (λ s. map step_tree s.items ≡ (rows.shape_2).steps) }
{
    Ok(vec![in alloc; dash_added(alloc)?, oval_renamed(alloc)?]?)
}

fn dash_added(alloc: Global) -> Mem<MigStep>
    ensures { IfOk result (λ s. step_tree s
        ≡ trees.add (codes "props" ∷ []) (codes "dash") (text (codes "draw"))) }
{
    let draw = Val::Text(Text::of(alloc, "draw")?);
    add(alloc, &["props"], "dash", draw)
}

fn oval_renamed(alloc: Global) -> Mem<MigStep>
    ensures { IfOk result (λ s. step_tree s
        ≡ trees.map_enum (codes "props" ∷ []) (codes "geo")
        ((codes "oval", codes "ellipse") ∷ [])) }
{
    map_enum(alloc, &["props"], "geo", "oval", "ellipse")
}

/// The place where an arrow ends stood beside the other properties.
#[tactic(auto, unfolding(crate::specs::Migrations::binding_1))]
fn binding_1(alloc: Global) -> Mem<Migration>
    ensures { IfOk result (λ m. migration_tree m ≡ rows.binding_1) }
{
    let filter = Filter::Type_(Text::of(alloc, "binding")?);
    let steps = anchor_steps(alloc)?;
    let depends = texts(alloc, &["rooms.shape/2"])?;
    both_ways(alloc, "rooms.binding/1", filter, steps, depends)
}

#[tactic(auto, unfolding(crate::specs::Migrations::binding_1))]
fn anchor_steps(alloc: Global) -> Mem<Vec<MigStep>>
    ensures { IfOk result (λ s. map step_tree s.items ≡ (rows.binding_1).steps) }
{
    Ok(vec![in alloc;
        anchor_nested(alloc)?,
        coordinate_renamed(alloc, "anchorX", "x")?,
        coordinate_renamed(alloc, "anchorY", "y")?,
    ]?)
}

fn anchor_nested(alloc: Global) -> Mem<MigStep>
    ensures { IfOk result (λ s. step_tree s
        ≡ trees.nest (codes "props" ∷ []) (codes "anchorX" ∷ codes "anchorY" ∷ [])
        (codes "anchor")) }
{
    nest(alloc, &["props"], &["anchorX", "anchorY"], "anchor")
}

fn coordinate_renamed(alloc: Global, old: &str, new: &str) -> Mem<MigStep>
    ensures { IfOk result (λ s. step_tree s
        ≡ trees.rename (codes "props" ∷ codes "anchor" ∷ []) old.now new.now) }
{
    rename(alloc, &["props", "anchor"], old, new)
}

// A migration of records that goes both ways.
fn both_ways(
    alloc: Global,
    id: &str,
    filter: Filter,
    steps: Vec<MigStep>,
    depends: Vec<Text>,
) -> Mem<Migration>
    ensures { IfOk result (λ m. migration_tree m
        ≡ record {
          id = id.now;
          scope = mig_scope.Record;
          filter = filter;
          steps = map step_tree steps.items;
          has_down = true;
          depends = depends.items;
        }) }
{
    Ok(Migration {
        id: Text::of(alloc, id)?,
        scope: MigScope::Record,
        filter,
        steps,
        has_down: true,
        depends,
    })
}

// A migration that can't be run down, and depends on no other.
fn up_alone(
    alloc: Global,
    id: &str,
    scope: MigScope,
    filter: Filter,
    steps: Vec<MigStep>,
) -> Mem<Migration>
    ensures { IfOk result (λ m. migration_tree m
        ≡ record {
          id = id.now;
          scope = scope;
          filter = filter;
          steps = map step_tree steps.items;
          has_down = false;
          depends = [];
        }) }
{
    Ok(Migration {
        id: Text::of(alloc, id)?,
        scope,
        filter,
        steps,
        has_down: false,
        depends: Vec::new(alloc),
    })
}
