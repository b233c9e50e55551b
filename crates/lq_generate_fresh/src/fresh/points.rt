// The templates of points.
ghost use Rattle.std.specs.Prelude.{◌≡◌, ◌<◌, All, IfOk, OnOk, length, map};
ghost use Rattle.lq_generate_fresh.specs.Fresh.Patterns.{ArePatterns};
ghost use Rattle.lq_generate_fresh.specs.Fresh.Views.{scope_at, scopes_of, unknowns_of, Describes, IsGrown, IsMade};
ghost use Rattle.lq_generate_fresh.specs.Fresh.Walking.{AreTemplates};
ghost use Rattle.lq_generate_fresh.specs.Fresh.There.{IsThere};
ghost use Rattle.lq_generate_fresh.specs.Fresh.Wanted.{point_wanted, rows_types, AreRows};
ghost use Rattle.lq_refined_types.specs.Parts.Part.{Scopes as ScopeLists};
ghost use Rattle.lq_refined_templates.specs.Programs.PointView.{name_view, point_view, points_view};
ghost use Rattle.lq_refined_templates.specs.Points.Point.{whole, inner, constant, empty};
ghost use Rattle.lq_refined_templates.specs.Points.Templates.{Datatypes as Defined, templates_from, unknowns_from};
ghost use Rattle.lq_types_table.specs.Nodes.{at as type_at};
ghost use Rattle.lq_types_table.specs.Whole.{types_of};

use crate::fresh::empty::{constant, emptied, inside};
use crate::fresh::patterns::{Patterns, all_shared, shared};
use crate::fresh::plain::each_plain;
use crate::fresh::simple::Given;
use crate::fresh::templates::Templates;
use lq_base_names::Binder;
use lq_refined_templates::programs::Point;
use std::alloc::{AllocError, Global};

// The fresh template of a type, with these names of its arguments.
fn whole(
    alloc: Global,
    templates: &mut Templates,
    patterns: &mut Patterns,
    given: &Given<'_>,
    names: &[Option<Binder>],
    scope: u64,
    at: u32,
) -> Result<Vec<usize>, AllocError>
    requires type_there { at < length (types_of given.now.types.now) }
    requires scope { scope < length (scopes_of templates.old) }
    requires patterns { ArePatterns given.now.datatypes.now (types_of given.now.types.now) templates.old patterns.old }
    ensures templates { IfOk result (λ rows. AreTemplates given.now.datatypes.now templates.old templates.new rows.items
        (point_wanted (length (unknowns_of templates.old)) (whole (scope_at templates.old scope) (map name_view names.now)
        (type_at (types_of given.now.types.now) at)))) }
    ensures patterns { OnOk result (ArePatterns given.now.datatypes.now (types_of given.now.types.now) templates.new patterns.new) }
{
    if names.is_empty() {
        let row = shared(alloc, templates, patterns, given, at, scope)?;
        let rows = vec![in alloc; row]?;
        return Ok(rows);
    }
    let row = templates.fresh(alloc, given, at, names, scope)?;
    let rows = vec![in alloc; row]?;
    Ok(rows)
}

// The template of a type without an unknown at its top.
fn inner(
    alloc: Global,
    templates: &mut Templates,
    given: &Given<'_>,
    scope: u64,
    at: u32,
) -> Result<Vec<usize>, AllocError>
    requires type_there { at < length (types_of given.now.types.now) }
    requires scope { scope < length (scopes_of templates.old) }
    ensures { IfOk result (λ rows. AreTemplates given.now.datatypes.now templates.old templates.new rows.items
        (point_wanted (length (unknowns_of templates.old)) (inner (scope_at templates.old scope)
        (type_at (types_of given.now.types.now) at)))) }
{
    let row = inside(alloc, templates, given, at, scope)?;
    let rows = vec![in alloc; row]?;
    Ok(rows)
}

// That of a constructor without a field.
fn fieldless(
    alloc: Global,
    templates: &mut Templates,
    given: &Given<'_>,
    scope: u64,
    at: u32,
) -> Result<Vec<usize>, AllocError>
    requires type_there { at < length (types_of given.now.types.now) }
    requires scope { scope < length (scopes_of templates.old) }
    ensures { IfOk result (λ rows. AreTemplates given.now.datatypes.now templates.old templates.new rows.items
        (point_wanted (length (unknowns_of templates.old)) (constant (scope_at templates.old scope)
        (type_at (types_of given.now.types.now) at)))) }
{
    let row = constant(alloc, templates, given, at, scope)?;
    let rows = vec![in alloc; row]?;
    Ok(rows)
}

// That of elements of which there are none.
fn absent(
    alloc: Global,
    templates: &mut Templates,
    given: &Given<'_>,
    scope: u64,
    at: u32,
) -> Result<Vec<usize>, AllocError>
    requires type_there { at < length (types_of given.now.types.now) }
    requires scope { scope < length (scopes_of templates.old) }
    ensures { IfOk result (λ rows. AreTemplates given.now.datatypes.now templates.old templates.new rows.items
        (point_wanted (length (unknowns_of templates.old)) (empty (scope_at templates.old scope)
        (type_at (types_of given.now.types.now) at)))) }
{
    let row = emptied(alloc, templates, given, at, scope)?;
    let rows = vec![in alloc; row]?;
    Ok(rows)
}

// The templates of one point.
fn rows_of(
    alloc: Global,
    templates: &mut Templates,
    patterns: &mut Patterns,
    given: &Given<'_>,
    point: &Point,
) -> Result<Vec<usize>, AllocError>
    requires there { IsThere (length (scopes_of templates.old)) (length (types_of given.now.types.now)) point.now }
    requires patterns { ArePatterns given.now.datatypes.now (types_of given.now.types.now) templates.old patterns.old }
    ensures templates { IfOk result (λ rows. AreTemplates given.now.datatypes.now templates.old templates.new rows.items
        (point_wanted (length (unknowns_of templates.old))
        (point_view (scopes_of templates.old) (types_of given.now.types.now) point.now))) }
    ensures patterns { OnOk result (ArePatterns given.now.datatypes.now (types_of given.now.types.now) templates.new patterns.new) }
{
    match point {
        Point::Whole(scope, names, at) => {
            let names = names.as_slice();
            let rows = whole(alloc, templates, patterns, given, names, *scope, *at)?;
            Ok(rows)
        }
        Point::Inner(scope, at) => {
            let rows = inner(alloc, templates, given, *scope, *at)?;
            Ok(rows)
        }
        Point::Constant(scope, at) => {
            let rows = fieldless(alloc, templates, given, *scope, *at)?;
            Ok(rows)
        }
        Point::Empty(scope, at) => {
            let rows = absent(alloc, templates, given, *scope, *at)?;
            Ok(rows)
        }
        Point::Each(scope, parts) => {
            let parts = parts.as_slice();
            let rows = all_shared(alloc, templates, patterns, given, parts, *scope)?;
            Ok(rows)
        }
        Point::Idle(parts) => {
            let rows = each_plain(alloc, templates, given, parts.as_slice())?;
            Ok(rows)
        }
    }
}

// The templates of points in their order, by the numbers of their types, and their unknowns, each point's behind those of the points before it.
fn all_rows(
    alloc: Global,
    templates: &mut Templates,
    given: &Given<'_>,
    points: &[Point],
) -> Result<Vec<Vec<usize>>, AllocError>
    requires points_there { All (IsThere (length (scopes_of templates.old)) (length (types_of given.now.types.now))) points.now }
    ensures refined { IfOk result (λ rows. (D : Defined) → Describes given.now.datatypes.now D.constructors D.ordered
        → (scopes : ScopeLists) → rows_types scopes templates.new rows.items
        ≡ templates_from D (length (unknowns_of templates.old))
        (points_view (scopes_of templates.old) (types_of given.now.types.now) points.now)) }
    ensures made { OnOk result ((D : Defined) → Describes given.now.datatypes.now D.constructors D.ordered
        → IsMade templates.old templates.new (unknowns_from D (length (unknowns_of templates.old))
        (points_view (scopes_of templates.old) (types_of given.now.types.now) points.now))) }
    ensures there { IfOk result (λ rows. AreRows templates.new rows.items) }
    ensures grown { OnOk result (IsGrown templates.old templates.new) }
{
    let mut patterns = Patterns::new(alloc, given.types)?;
    let mut made = Vec::new(alloc);
    for point in points {
        let rows = rows_of(alloc, templates, &mut patterns, given, point)?;
        made.push(rows)?;
    }
    Ok(made)
}

/// The templates of points: a table, and for each point the numbers of its types.
#[derive(Drop)]
pub struct PointTemplates {
    pub templates: Templates,
    pub rows: Vec<Vec<usize>>,
}

/// The templates of points in their order, in a table that begins with this one, and their unknowns, each point's behind those of the points
/// before it.
pub fn make(
    alloc: Global,
    mut templates: Templates,
    given: &Given<'_>,
    points: &[Point],
) -> Result<PointTemplates, AllocError>
    requires points_there { All (IsThere (length (scopes_of templates)) (length (types_of given.now.types.now))) points.now }
    ensures refined { IfOk result (λ m. (D : Defined) → Describes given.now.datatypes.now D.constructors D.ordered
        → (scopes : ScopeLists) → rows_types scopes m.templates m.rows.items ≡ templates_from D (length (unknowns_of templates))
        (points_view (scopes_of templates) (types_of given.now.types.now) points.now)) }
    ensures made { IfOk result (λ m. (D : Defined) → Describes given.now.datatypes.now D.constructors D.ordered
        → IsMade templates m.templates (unknowns_from D (length (unknowns_of templates))
        (points_view (scopes_of templates) (types_of given.now.types.now) points.now))) }
    ensures there { IfOk result (λ m. AreRows m.templates m.rows.items) }
    ensures grown { IfOk result (λ m. IsGrown templates m.templates) }
{
    let rows = all_rows(alloc, &mut templates, given, points)?;
    Ok(PointTemplates { templates, rows })
}
