//! What walks lead to: a search that looks once at each edge.
ghost use Rattle.std.specs.Prelude.{◌≡◌, ℕ, ◌<◌, false, length, replicate, All, IfOk, OnOk};
ghost use Rattle.hpr_search.specs.Walks.{IsReached};
ghost use Rattle.hpr_search.specs.Marks.{IsMarked, IsRowOf, Visited};

use crate::Digraph;
use std::alloc::{AllocError, Global};

/// So many steps lead from most points, so that the list of them seldom grows.
const FEW_STEPS: usize = 8;

/// Most searches come to no more points than these, so that their list seldom grows.
const FEW_POINTS: usize = 64;

/// The points that a search came to: a mark for each, and the list of them, each once.
pub struct Found {
    pub marks: Vec<bool>,
    pub points: Vec<usize>,
}

/// The row and the list are dropped in one call.
impl Drop for Found {
    fn drop(self) {
        let Found {
            marks: _,
            points: _,
        } = self;
    }
}

impl Found {
    /// The marks alone.
    pub fn into_marks(self) -> Vec<bool>
        ensures { result ≡ self.marks }
    {
        let Found { marks, points: _ } = self;
        marks
    }
}

fn blank_row(alloc: Global, points: usize) -> Result<Vec<bool>, AllocError>
    ensures { IfOk result (λ marks. marks.items ≡ replicate points false) }
{
    vec![in alloc; false; points]
}

/// Marks each of the points that isn't marked, and lists it.
fn visit(marks: &mut Vec<bool>, order: &mut Vec<usize>, points: &[usize]) -> Result<(), AllocError>
    requires row { IsRowOf marks.old.items order.old.items }
    requires within { All (λ p. p < length marks.old.items) points.now }
    ensures { OnOk result (Visited order.old.items points.now
        (length marks.old.items) marks.new.items order.new.items) }
{
    for point in points {
        if !marks[*point] {
            marks[*point] = true;
            order.push(*point)?;
        }
    }
    Ok(())
}

/// Marks and lists the points to which a walk of edges leads from one of the starts. A walk may have no edge, so the
/// starts are marked.
///
/// Looks once at each edge that leaves a marked point, and does not recurse. The starts are points of the graph.
pub fn reached<G: Digraph>(alloc: Global, graph: &G, starts: &[usize]) -> Result<Found, AllocError>
    requires { All (λ s. s < G.points graph.now) starts.now }
    ensures size { IfOk result (λ found. length found.marks.items ≡ G.points graph.now) }
    ensures row { IfOk result (λ found. IsRowOf found.marks.items found.points.items) }
    ensures sound { IfOk result (λ found. (p : ℕ) → IsMarked found.marks.items p
        → IsReached (G.steps graph.now) starts.now p) }
    ensures complete { IfOk result (λ found. (p : ℕ) → IsReached (G.steps graph.now) starts.now p
        → IsMarked found.marks.items p) }
{
    let points = graph.point_count();
    let mut marks = blank_row(alloc, points)?;
    let mut order = Vec::with_capacity(alloc, FEW_POINTS)?;
    visit(&mut marks, &mut order, starts)?;
    let mut steps = Vec::with_capacity(alloc, FEW_STEPS)?;
    let mut at = 0;
    while at < order.len() {
        steps.clear();
        graph.push_steps(order[at], &mut steps)?;
        visit(&mut marks, &mut order, steps.as_slice())?;
        at += 1;
    }
    Ok(Found {
        marks,
        points: order,
    })
}

/// Marks the points to which a walk of edges leads from one of the starts, as `reached` does.
pub fn reachable<G: Digraph>(
    alloc: Global,
    graph: &G,
    starts: &[usize],
) -> Result<Vec<bool>, AllocError>
    requires { All (λ s. s < G.points graph.now) starts.now }
    ensures row { IfOk result (λ marks. length marks.items ≡ G.points graph.now) }
    ensures sound { IfOk result (λ marks. (p : ℕ) → IsMarked marks.items p
        → IsReached (G.steps graph.now) starts.now p) }
    ensures complete { IfOk result (λ marks. (p : ℕ) → IsReached (G.steps graph.now) starts.now p
        → IsMarked marks.items p) }
{
    let found = reached(alloc, graph, starts)?;
    Ok(found.into_marks())
}
