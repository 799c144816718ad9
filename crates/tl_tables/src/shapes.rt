//! The types of shapes, each with the properties of its shapes.
ghost use Rattle.std.specs.Prelude.{◌≡◌, IfOk, [], ◌∷◌, codes};
ghost use Rattle.record_valid.specs.Tree.{nullable, id_of, list_of};
ghost use Rattle.record_valid.specs.View.{tree_of};
ghost use Rattle.tl_tables.specs.Parts as parts;
ghost use Rattle.tl_tables.specs.Shapes as shapes;

use crate::fields::{Field, Fields};
use crate::parts::point;
use crate::rules::Rule;
use record_valid::Check;
use rooms_val::Mem;
use std::alloc::Global;

/// The names of the types of shapes.
#[tactic(auto, unfolding(crate::specs::Shapes::shape_types))]
pub(crate) fn shape_types(alloc: Global) -> Mem<Check>
    ensures { IfOk result (λ c. tree_of c ≡ shapes.shape_types) }
{
    Check::one_of(
        alloc,
        &[
            "geo", "draw", "arrow", "text", "frame", "group", "note", "image",
        ],
    )
}

/// The properties of a shape, by its type.
#[tactic(auto, unfolding(crate::specs::Shapes::shape_props))]
pub(crate) fn shape_props(alloc: Global, version: u32) -> Mem<Check>
    ensures { IfOk result (λ c. tree_of c ≡ shapes.shape_props version) }
{
    let fields = Fields::none(alloc, version)
        .always("geo", geo(alloc, version)?)?
        .always("draw", draw(alloc, version)?)?
        .always("arrow", arrow(alloc, version)?)?
        .always("text", text(alloc, version)?)?
        .always("frame", frame(alloc, version)?)?
        .always("group", group(alloc, version)?)?
        .always("note", note(alloc, version)?)?
        .always("image", image(alloc, version)?)?;
    Ok(fields.by_type())
}

/// The name of the form without corners, which was another up to version 2.
#[tactic(auto, unfolding(crate::specs::Shapes::round_form))]
fn round_form(version: u32) -> &'static str
    ensures { result.now ≡ shapes.round_form version }
{
    if version <= 2 { "oval" } else { "ellipse" }
}

#[tactic(auto, unfolding(crate::specs::Shapes::forms))]
fn forms(alloc: Global, version: u32) -> Mem<Check>
    ensures { IfOk result (λ c. tree_of c ≡ shapes.forms version) }
{
    Check::one_of(
        alloc,
        &["rectangle", round_form(version), "triangle", "diamond"],
    )
}

#[tactic(auto, unfolding(crate::specs::Shapes::geo))]
fn geo(alloc: Global, version: u32) -> Mem<Check>
    ensures { IfOk result (λ c. tree_of c ≡ shapes.geo version) }
{
    let fields = Fields::none(alloc, version)
        .always("geo", forms(alloc, version)?)?
        .with_each(&[
            Field::Always("w", Rule::Extent),
            Field::Always("h", Rule::Extent),
            Field::Always("color", Rule::Color),
            Field::Always("fill", Rule::Fill),
            Field::Since(3, "dash", Rule::Dash),
            Field::Always("size", Rule::Size),
            Field::Always("text", Rule::LongText),
        ])?;
    Ok(fields.object())
}

#[tactic(auto, unfolding(crate::specs::Shapes::draw))]
fn draw(alloc: Global, version: u32) -> Mem<Check>
    ensures { IfOk result (λ c. tree_of c ≡ shapes.draw version) }
{
    let fields = Fields::none(alloc, version)
        .always("points", points(alloc, version)?)?
        .with_each(&[
            Field::Always("isClosed", Rule::Bool),
            Field::Always("color", Rule::Color),
            Field::Always("size", Rule::Size),
        ])?;
    Ok(fields.object())
}

#[tactic(auto, unfolding(crate::specs::Shapes::arrow))]
fn arrow(alloc: Global, version: u32) -> Mem<Check>
    ensures { IfOk result (λ c. tree_of c ≡ shapes.arrow version) }
{
    let fields = Fields::none(alloc, version)
        .always("start", point(alloc, version)?)?
        .always("end", point(alloc, version)?)?
        .with_each(&[
            Field::Always("bend", Rule::Coordinate),
            Field::Always("color", Rule::Color),
            Field::Always("size", Rule::Size),
            Field::Always("text", Rule::LongText),
        ])?;
    Ok(fields.object())
}

#[tactic(auto, unfolding(crate::specs::Shapes::text))]
fn text(alloc: Global, version: u32) -> Mem<Check>
    ensures { IfOk result (λ c. tree_of c ≡ shapes.text version) }
{
    let fields = Fields::none(alloc, version).with_each(&[
        Field::Always("text", Rule::LongText),
        Field::Always("w", Rule::Extent),
        Field::Always("h", Rule::Extent),
        Field::Always("autoSize", Rule::Bool),
        Field::Always("color", Rule::Color),
        Field::Always("size", Rule::Size),
    ])?;
    Ok(fields.object())
}

#[tactic(auto, unfolding(crate::specs::Shapes::frame))]
fn frame(alloc: Global, version: u32) -> Mem<Check>
    ensures { IfOk result (λ c. tree_of c ≡ shapes.frame version) }
{
    let fields = Fields::none(alloc, version).with_each(&[
        Field::Always("w", Rule::Extent),
        Field::Always("h", Rule::Extent),
        Field::Always("name", Rule::ShortText),
    ])?;
    Ok(fields.object())
}

#[tactic(auto, unfolding(crate::specs::Shapes::group))]
fn group(alloc: Global, version: u32) -> Mem<Check>
    ensures { IfOk result (λ c. tree_of c ≡ shapes.group version) }
{
    let fields = Fields::none(alloc, version);
    Ok(fields.object())
}

#[tactic(auto, unfolding(crate::specs::Shapes::note))]
fn note(alloc: Global, version: u32) -> Mem<Check>
    ensures { IfOk result (λ c. tree_of c ≡ shapes.note version) }
{
    let fields = Fields::none(alloc, version).with_each(&[
        Field::Always("text", Rule::LongText),
        Field::Always("color", Rule::Color),
        Field::Always("size", Rule::Size),
    ])?;
    Ok(fields.object())
}

#[tactic(auto, unfolding(crate::specs::Shapes::image))]
fn image(alloc: Global, version: u32) -> Mem<Check>
    ensures { IfOk result (λ c. tree_of c ≡ shapes.image version) }
{
    let fields = Fields::none(alloc, version)
        .with_each(&[
            Field::Always("w", Rule::Extent),
            Field::Always("h", Rule::Extent),
        ])?
        .always("assetId", asset_id(alloc)?)?;
    Ok(fields.object())
}

// The id of an image's source, or none.
fn asset_id(alloc: Global) -> Mem<Check>
    ensures { IfOk result (λ c. tree_of c ≡ nullable (id_of (codes "asset" ∷ []))) }
{
    let asset = Check::id_of(alloc, &["asset"])?;
    Check::nullable(alloc, asset)
}

// A list of points.
fn points(alloc: Global, version: u32) -> Mem<Check>
    ensures { IfOk result (λ c. tree_of c ≡ list_of (parts.point version)) }
{
    let point = point(alloc, version)?;
    Check::list_of(alloc, point)
}
