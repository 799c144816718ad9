//! The types of records.
ghost use Rattle.std.specs.Prelude.{◌≡◌, IfOk, map, [], ◌∷◌, codes};
ghost use Rattle.record_valid.specs.Tree.{object, rows_of, nullable, id_of, list_of};
ghost use Rattle.record_valid.specs.View.{tree_of};
ghost use Rattle.schema_core.specs.View.{row_tree, rows_view};
ghost use Rattle.tl_tables.specs.Parts as parts;
ghost use Rattle.tl_tables.specs.Types as types;
ghost use Rattle.tl_tables.specs.View.{type_at};

use crate::fields::{Field, Fields};
use crate::parts::{long_text, point, short_text};
use crate::rules::Rule;
use crate::shapes::{shape_props, shape_types};
use record_valid::Check;
use rooms_val::{Mem, Text};
use schema_core::{Scope, TypeRow};
use std::alloc::Global;

/// A type of records.
pub(crate) enum RecordType {
    Document,
    Page,
    Shape,
    Asset,
    Binding,
    Camera,
    Instance,
    InstancePresence,
}

impl RecordType {
    // The type at a version.
    fn row(&self, alloc: Global, version: u32) -> Mem<TypeRow>
        ensures { IfOk result (λ r. row_tree r ≡ type_at version self.now) }
    {
        match self {
            RecordType::Document => document(alloc, version),
            RecordType::Page => page(alloc, version),
            RecordType::Shape => shape(alloc, version),
            RecordType::Asset => asset(alloc, version),
            RecordType::Binding => binding(alloc, version),
            RecordType::Camera => camera(alloc, version),
            RecordType::Instance => instance(alloc, version),
            RecordType::InstancePresence => instance_presence(alloc, version),
        }
    }
}

/// The types of records at a version.
#[tactic(auto, unfolding(crate::specs::Types::type_rows))]
pub(crate) fn type_rows(alloc: Global, version: u32) -> Mem<Vec<TypeRow>>
    ensures { IfOk result (λ rows. rows_view rows.items ≡ types.type_rows version) }
{
    types_at(
        alloc,
        version,
        &[
            RecordType::Document,
            RecordType::Page,
            RecordType::Shape,
            RecordType::Asset,
            RecordType::Binding,
            RecordType::Camera,
            RecordType::Instance,
            RecordType::InstancePresence,
        ],
    )
}

// Some types at a version.
fn types_at(alloc: Global, version: u32, all: &[RecordType]) -> Mem<Vec<TypeRow>>
    ensures { IfOk result (λ rows. rows_view rows.items ≡ map (type_at version) all.now) }
{
    let mut rows = Vec::with_capacity(alloc, all.len())?;
    'types: for kind in all {
        rows.push(kind.row(alloc, version)?)?;
    }
    Ok(rows)
}

#[tactic(auto, unfolding(crate::specs::Types::document))]
fn document(alloc: Global, version: u32) -> Mem<TypeRow>
    ensures { IfOk result (λ r. row_tree r ≡ types.document version) }
{
    let fields = Fields::of_record(alloc, version, "document")?.with_each(&[
        Field::Always("name", Rule::ShortText),
        Field::Always("gridSize", Rule::Whole(1, 1000)),
    ])?;
    type_row(alloc, "document", Scope::Document, fields)
}

#[tactic(auto, unfolding(crate::specs::Types::page))]
fn page(alloc: Global, version: u32) -> Mem<TypeRow>
    ensures { IfOk result (λ r. row_tree r ≡ types.page version) }
{
    let fields = Fields::of_record(alloc, version, "page")?.with_each(&[
        Field::Always("name", Rule::ShortText),
        Field::Always("index", Rule::Key),
        Field::Since(5, "hidden", Rule::Bool),
    ])?;
    type_row(alloc, "page", Scope::Document, fields)
}

#[tactic(auto, unfolding(crate::specs::Types::shape))]
fn shape(alloc: Global, version: u32) -> Mem<TypeRow>
    ensures { IfOk result (λ r. row_tree r ≡ types.shape version) }
{
    let fields = Fields::of_record(alloc, version, "shape")?
        .always("type", shape_types(alloc)?)?
        .with_each(&[
            Field::Always("x", Rule::Coordinate),
            Field::Always("y", Rule::Coordinate),
            Field::Always("rotation", Rule::Coordinate),
            Field::Always("index", Rule::Key),
        ])?
        .id_of("parentId", &["page", "shape"])?
        .with_each(&[
            Field::Always("isLocked", Rule::Bool),
            Field::Until(1, "alpha", Rule::Whole(0, 10)),
            Field::Since(2, "opacity", Rule::Whole(0, 100)),
        ])?
        .always("props", shape_props(alloc, version)?)?;
    type_row(alloc, "shape", Scope::Document, fields)
}

#[tactic(auto, unfolding(crate::specs::Types::asset))]
fn asset(alloc: Global, version: u32) -> Mem<TypeRow>
    ensures { IfOk result (λ r. row_tree r ≡ types.asset version) }
{
    let fields = Fields::of_record(alloc, version, "asset")?
        .one_of("type", &["image"])?
        .always("props", asset_props(alloc, version)?)?;
    type_row(alloc, "asset", Scope::Document, fields)
}

#[tactic(auto, unfolding(crate::specs::Types::asset_props))]
fn asset_props(alloc: Global, version: u32) -> Mem<Check>
    ensures { IfOk result (λ c. tree_of c ≡ types.asset_props version) }
{
    let fields = Fields::none(alloc, version)
        .with_each(&[
            Field::Until(3, "w", Rule::Extent),
            Field::Until(3, "h", Rule::Extent),
        ])?
        .since(4, "dims", dims(alloc, version)?)?
        .always("name", short_text())?
        .always("src", Check::nullable(alloc, long_text())?)?
        .always("mimeType", Check::nullable(alloc, short_text())?)?;
    Ok(fields.object())
}

#[tactic(auto, unfolding(crate::specs::Types::dims))]
fn dims(alloc: Global, version: u32) -> Mem<Check>
    ensures { IfOk result (λ c. tree_of c ≡ types.dims version) }
{
    let fields = Fields::none(alloc, version).with_each(&[
        Field::Always("w", Rule::Extent),
        Field::Always("h", Rule::Extent),
    ])?;
    Ok(fields.object())
}

#[tactic(auto, unfolding(crate::specs::Types::binding))]
fn binding(alloc: Global, version: u32) -> Mem<TypeRow>
    ensures { IfOk result (λ r. row_tree r ≡ types.binding version) }
{
    let fields = Fields::of_record(alloc, version, "binding")?
        .one_of("type", &["arrow"])?
        .id_of("fromId", &["shape"])?
        .id_of("toId", &["shape"])?
        .always("props", binding_props(alloc, version)?)?;
    type_row(alloc, "binding", Scope::Document, fields)
}

#[tactic(auto, unfolding(crate::specs::Types::binding_props))]
fn binding_props(alloc: Global, version: u32) -> Mem<Check>
    ensures { IfOk result (λ c. tree_of c ≡ types.binding_props version) }
{
    let fields = Fields::none(alloc, version)
        .one_of("terminal", &["start", "end"])?
        .with_each(&[
            Field::Until(2, "anchorX", Rule::Whole(0, 1000)),
            Field::Until(2, "anchorY", Rule::Whole(0, 1000)),
        ])?
        .since(3, "anchor", anchor(alloc, version)?)?
        .always("isExact", Check::Bool)?;
    Ok(fields.object())
}

#[tactic(auto, unfolding(crate::specs::Types::anchor))]
fn anchor(alloc: Global, version: u32) -> Mem<Check>
    ensures { IfOk result (λ c. tree_of c ≡ types.anchor version) }
{
    let fields = Fields::none(alloc, version).with_each(&[
        Field::Always("x", Rule::Whole(0, 1000)),
        Field::Always("y", Rule::Whole(0, 1000)),
    ])?;
    Ok(fields.object())
}

#[tactic(auto, unfolding(crate::specs::Types::camera))]
fn camera(alloc: Global, version: u32) -> Mem<TypeRow>
    ensures { IfOk result (λ r. row_tree r ≡ types.camera version) }
{
    let fields = Fields::of_record(alloc, version, "camera")?.with_each(&[
        Field::Always("x", Rule::Coordinate),
        Field::Always("y", Rule::Coordinate),
        Field::Always("z", Rule::Whole(1, 100_000)),
    ])?;
    type_row(alloc, "camera", Scope::Session, fields)
}

#[tactic(auto, unfolding(crate::specs::Types::instance))]
fn instance(alloc: Global, version: u32) -> Mem<TypeRow>
    ensures { IfOk result (λ r. row_tree r ≡ types.instance version) }
{
    let fields = Fields::of_record(alloc, version, "instance")?.id_of("currentPageId", &["page"])?;
    type_row(alloc, "instance", Scope::Session, fields)
}

#[tactic(auto, unfolding(crate::specs::Types::instance_presence))]
fn instance_presence(alloc: Global, version: u32) -> Mem<TypeRow>
    ensures { IfOk result (λ r. row_tree r ≡ types.instance_presence version) }
{
    let fields = Fields::of_record(alloc, version, "instance_presence")?
        .with_each(&[
            Field::Always("userName", Rule::ShortText),
            Field::Always("color", Rule::ShortText),
        ])?
        .id_of("currentPageId", &["page"])?
        .always("cursor", cursor(alloc, version)?)?
        .always("selectedShapeIds", shape_ids(alloc)?)?;
    type_row(alloc, "instance_presence", Scope::Presence, fields)
}

// Where a pointer is, or that there is none.
fn cursor(alloc: Global, version: u32) -> Mem<Check>
    ensures { IfOk result (λ c. tree_of c ≡ nullable (parts.point version)) }
{
    let point = point(alloc, version)?;
    Check::nullable(alloc, point)
}

// A list of ids of shapes.
fn shape_ids(alloc: Global) -> Mem<Check>
    ensures { IfOk result (λ c. tree_of c ≡ list_of (id_of (codes "shape" ∷ []))) }
{
    let shape = Check::id_of(alloc, &["shape"])?;
    Check::list_of(alloc, shape)
}

// A type whose records have these fields.
fn type_row(alloc: Global, name: &str, scope: Scope, fields: Fields) -> Mem<TypeRow>
    ensures { IfOk result (λ r. row_tree r
        ≡ (name.now, record { scope = scope; check = object (rows_of fields.table) })) }
{
    Ok(TypeRow {
        name: Text::of(alloc, name)?,
        scope,
        check: fields.object(),
    })
}
