// Points of arms that no rule checks.
ghost use Rattle.std.specs.Prelude.{◌≡◌, ℕ, ◌≤◌, ◌++◌, ◌∷◌, List, [], All, IfOk, OnOk, MatchOption, length, reverse, take, drop};
ghost use Rattle.lq_refined_instances.specs.Scopes.{Scope};
ghost use Rattle.lq_refined_templates.specs.Programs.PointView.{point_view, points_view};
ghost use Rattle.lq_refined_templates.specs.Points.Point.{idled};
ghost use Rattle.lq_refined_templates.specs.Points.Reading.{all_idled};
ghost use Rattle.lq_text_tree.specs.MlType.{MlType};
ghost use Rattle.lq_generate_reading.specs.Reading.There.{IsThere};

use lq_refined_templates::programs::Point;
use std::alloc::{AllocError, Global};

/// The types of a point with one.
pub(crate) fn single(alloc: Global, number: u32) -> Result<Vec<u32>, AllocError>
    ensures { IfOk result (λ v. v.items ≡ number ∷ []) }
{
    let mut numbers = Vec::new(alloc);
    numbers.push(number)?;
    Ok(numbers)
}

// The point where no rule takes what it stands for.
fn idled(alloc: Global, point: Point) -> Result<Point, AllocError>
    ensures idled { IfOk result (λ q. (scopes : List Scope) (types : List MlType) → point_view scopes types q ≡ idled (point_view scopes types point)) }
    ensures there { IfOk result (λ q. (a b : ℕ) → IsThere a b point → IsThere a b q) }
{
    match point {
        Point::Whole(_, _, number) => {
            let numbers = single(alloc, number)?;
            Ok(Point::Idle(numbers))
        }
        Point::Inner(_, number) => {
            let numbers = single(alloc, number)?;
            Ok(Point::Idle(numbers))
        }
        Point::Constant(_, number) => {
            let numbers = single(alloc, number)?;
            Ok(Point::Idle(numbers))
        }
        Point::Empty(_, number) => {
            let numbers = single(alloc, number)?;
            Ok(Point::Idle(numbers))
        }
        Point::Each(_, numbers) => Ok(Point::Idle(numbers)),
        Point::Idle(numbers) => Ok(Point::Idle(numbers)),
    }
}

// Takes the last point away, where there are more than so many.
fn pop_behind(points: &mut Vec<Point>, mark: usize) -> Option<Point>
    ensures { MatchOption result ((points.new.items ≡ points.old.items) × (length points.old.items ≤ mark))
        (λ q. (points.old.items ≡ points.new.items ++ q ∷ []) × (mark ≤ length points.new.items)) }
{
    if points.len() <= mark {
        return None;
    }
    points.pop()
}

// Takes the points from a mark on away, the last one first.
fn taken(alloc: Global, points: &mut Vec<Point>, mark: usize) -> Result<Vec<Point>, AllocError>
    requires { mark ≤ length points.old.items }
    ensures points { OnOk result (points.new.items ≡ take mark points.old.items) }
    ensures taken { IfOk result (λ rest. reverse rest.items ≡ drop mark points.old.items) }
{
    let mut rest = Vec::new(alloc);
    while let Some(point) = pop_behind(points, mark) {
        rest.push(point)?;
    }
    Ok(rest)
}

/// Turns the points from a mark on into idle ones.
pub(crate) fn idle_from(
    alloc: Global,
    points: &mut Vec<Point>,
    mark: usize,
) -> Result<(), AllocError>
    requires { mark ≤ length points.old.items }
    ensures idled { OnOk result ((scopes : List Scope) (types : List MlType) → points_view scopes types points.new.items
        ≡ take mark (points_view scopes types points.old.items) ++ all_idled (drop mark (points_view scopes types points.old.items))) }
    ensures there { OnOk result ((a b : ℕ) → All (IsThere a b) points.old.items → All (IsThere a b) points.new.items) }
{
    let mut rest = taken(alloc, points, mark)?;
    while let Some(point) = rest.pop() {
        let idle = idled(alloc, point)?;
        points.push(idle)?;
    }
    Ok(())
}
