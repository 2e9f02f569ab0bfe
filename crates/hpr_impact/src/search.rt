//! A search that keeps from where each point was come to.
ghost use Rattle.std.specs.Prelude.{◌≡◌, ℕ, ◌<◌, false, length, replicate, All, Contains, IfOk, OnOk};
ghost use Rattle.hpr_search.specs.Marks.{IsRowOf, Visited};
ghost use Rattle.hpr_search.specs.Rows.{numbers_at};
ghost use Rattle.hpr_search.specs.Walks.{IsReached};
ghost use Rattle.hpr_graph.specs.Graphs.{IsOnce};
ghost use Rattle.hpr_impact.specs.Private.Search.{AreCome, IsTrail, come_to, points_of};

use hpr_graph::NoMemory;
use hpr_search::{Digraph, Rows};
use std::alloc::Global;

/// A point that a search came to.
#[derive(Clone, Copy)]
pub(crate) struct Visit {
    pub(crate) point: usize,
    /// The point whose step it is, or none where it is a start.
    pub(crate) from: Option<usize>,
    /// The start from which it was come to.
    pub(crate) root: usize,
}

/// The point as a start, or as a step of the point before it.
fn come_to(from: Option<Visit>, point: usize) -> Visit
    ensures { result ≡ come_to from point }
{
    match from {
        Some(before) => Visit {
            point,
            from: Some(before.point),
            root: before.root,
        },
        None => Visit {
            point,
            from: None,
            root: point,
        },
    }
}

/// So many points, none of which is marked.
fn unmarked(alloc: Global, count: usize) -> Result<Vec<bool>, NoMemory>
    ensures { IfOk result (λ marks. marks.items ≡ replicate count false) }
{
    Ok(vec![in alloc; false; count]?)
}

/// Marks each of the points that isn't marked, and lists it as it is come to.
fn visit_each(
    marks: &mut Vec<bool>,
    visits: &mut Vec<Visit>,
    points: &[usize],
    from: Option<Visit>,
) -> Result<(), NoMemory>
    requires row { IsRowOf marks.old.items (points_of visits.old.items) }
    requires within { All (λ p. p < length marks.old.items) points.now }
    ensures visited { OnOk result (Visited (points_of visits.old.items) points.now
        (length marks.old.items) marks.new.items (points_of visits.new.items)) }
    ensures come { OnOk result (AreCome from points.now visits.old.items visits.new.items) }
{
    for point in points {
        if !marks[*point] {
            marks[*point] = true;
            visits.push(come_to(from, *point))?;
        }
    }
    Ok(())
}

/// The points to which steps lead from the starts, each once and as it is come to first: from the starts in their
/// order, and then from the points in the order in which they are come to. The starts are points of the rows. Looks
/// once at each step from a listed point.
pub(crate) fn search(alloc: Global, rows: &Rows, starts: &[usize]) -> Result<Vec<Visit>, NoMemory>
    requires { All (λ s. s < length rows.now) starts.now }
    ensures trail { IfOk result (λ visits. IsTrail (numbers_at rows.now) starts.now visits.items) }
    ensures once { IfOk result (λ visits. IsOnce (points_of visits.items)) }
    ensures complete { IfOk result (λ visits. (p : ℕ) → IsReached (numbers_at rows.now) starts.now p
        → Contains (points_of visits.items) p) }
{
    let mut marks = unmarked(alloc, rows.point_count())?;
    let mut visits = Vec::new(alloc);
    visit_each(&mut marks, &mut visits, starts, None)?;
    let mut steps = Vec::new(alloc);
    let mut at = 0;
    while at < visits.len() {
        let before = visits[at];
        steps.clear();
        rows.push_steps(before.point, &mut steps)?;
        visit_each(&mut marks, &mut visits, &steps, Some(before))?;
        at += 1;
    }
    Ok(visits)
}
