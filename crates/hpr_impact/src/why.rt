//! Why the points of a variant are affected.
ghost use Rattle.std.specs.Prelude.{◌≡◌, ◌<◌, Some, length, replicate, slice_get, slice_index_or, None, Contains, IfOk, ℕ};
ghost use Rattle.std.specs.Ordering.{nat_cmp};
ghost use Rattle.hpr_graph.specs.InOrder.{Ascends};
ghost use Rattle.hpr_graph.specs.Numbered.{graph_in};
ghost use Rattle.hpr_graph.specs.Order.{vertex_cmp};
ghost use Rattle.hpr_graph.specs.Whole.{IsWhole};
ghost use Rattle.hpr_impact.specs.declared.search.Visit.{Visit};
ghost use Rattle.hpr_impact.specs.Reasons.{AreReasons};
ghost use Rattle.hpr_impact.specs.Private.Ways.{AreBeside, AreKnown, AreMade, IsMade, IsStep, IsTableOf};

use crate::edges::edge_by;
use crate::search::Visit;
use crate::targets::ways;
use hpr_affected::Comparison;
use hpr_graph::{Edge, Graph, NoMemory, Vertex};
use std::alloc::Global;

/// Why a point of a variant is affected.
#[derive(Drop)]
pub struct Reason {
    /// The affected point.
    pub point: Vertex,
    /// The place among the affected points, from 0, of a directly affected one from which edges lead to this one.
    pub root: usize,
    /// The last of these edges, or none where the point itself is directly affected.
    pub by: Option<Edge>,
}

/// The affected points of a variant in their order, each with its reason: the directly affected point from which it is
/// reached, and the edge by which it is reached from another affected point. So the edges lead back, point by point,
/// to the directly affected one. Both graphs are whole, as those of programs are. It fails only for want of memory.
///
/// The affected points are those of Horwitz, Prins and Reps (1989), who give no reasons. Sorts the vertices, and looks
/// at each edge a fixed number of times.
pub fn reasons(alloc: Global, variant: &Graph, base: &Graph) -> Result<Vec<Reason>, NoMemory>
    requires variant { IsWhole (graph_in variant.now) }
    requires base { IsWhole (graph_in base.now) }
    ensures { IfOk result (λ rs. AreReasons (graph_in variant.now) (graph_in base.now) rs.items) }
{
    let _vertices = variant.vertices();
    let graph = variant.in_order()?;
    ordered_reasons(alloc, &graph, base)
}

/// The same of a graph whose vertices are numbered in their order.
fn ordered_reasons(alloc: Global, graph: &Graph, base: &Graph) -> Result<Vec<Reason>, NoMemory>
    requires ascend { Ascends vertex_cmp graph.now.vertices }
    requires graph { IsWhole (graph_in graph.now) }
    requires base { IsWhole (graph_in base.now) }
    ensures { IfOk result (λ rs. AreReasons (graph_in graph.now) (graph_in base.now) rs.items) }
{
    let found = points_beside(alloc, graph, base)?;
    let visits = ways(alloc, graph, &found.direct)?;
    let table = table_of(alloc, graph.vertex_count(), &visits)?;
    let reasons = reasons_at(alloc, graph, &found.points, &table)?;
    Ok(reasons)
}

/// The directly affected and the affected points of a graph, by their numbers.
#[derive(Drop)]
struct Points {
    direct: Vec<usize>,
    points: Vec<usize>,
}

/// Those of a graph beside that of its base.
fn points_beside(alloc: Global, graph: &Graph, base: &Graph) -> Result<Points, NoMemory>
    requires graph { IsWhole (graph_in graph.now) }
    requires base { IsWhole (graph_in base.now) }
    ensures { IfOk result (λ p. AreBeside graph.now base.now p.direct.items p.points.items) }
{
    let _vertices = graph.vertices();
    let _others = base.vertices();
    let comparison = Comparison::of(alloc, graph, base)?;
    let direct = comparison.direct()?;
    let points = comparison.affected()?;
    Ok(Points { direct, points })
}

/// The visits by the numbers of their points, which are below the count.
fn table_of(alloc: Global, count: usize, visits: &[Visit]) -> Result<Vec<Option<Visit>>, NoMemory>
    requires { (v : Visit) → Contains visits.now v → v.point < count }
    ensures { IfOk result (λ table. IsTableOf visits.now table.items) }
{
    let mut table = blank_table(alloc, count)?;
    for visit in visits {
        table[visit.point] = Some(*visit);
    }
    Ok(table)
}

/// So many points, none of which has a visit.
fn blank_table(alloc: Global, count: usize) -> Result<Vec<Option<Visit>>, NoMemory>
    ensures { IfOk result (λ table. table.items ≡ replicate count None) }
{
    Ok(vec![in alloc; None; count]?)
}

/// The reason of each of the points, which ascend.
fn reasons_at(
    alloc: Global,
    graph: &Graph,
    points: &[usize],
    table: &[Option<Visit>],
) -> Result<Vec<Reason>, NoMemory>
    requires ascend { Ascends nat_cmp points.now }
    requires known { AreKnown graph.now points.now table.now }
    ensures { IfOk result (λ rs. AreMade graph.now points.now table.now rs.items) }
{
    let mut reasons = Vec::with_capacity(alloc, points.len())?;
    for point in points {
        let visit = visit_at(table, *point);
        reasons.push(reason_of(alloc, graph, points, visit)?)?;
    }
    Ok(reasons)
}

/// The visit of a point that has one.
fn visit_at(table: &[Option<Visit>], point: usize) -> Visit
    requires { (v : Visit) × (slice_index_or table.now point None ≡ Some v) }
    ensures { slice_index_or table.now point None ≡ Some result }
{
    match table.get(point) {
        Some(Some(visit)) => *visit,
        _ => unreachable!(),
    }
}

/// The reason of a point that was come to in this way.
fn reason_of(
    alloc: Global,
    graph: &Graph,
    points: &[usize],
    visit: Visit,
) -> Result<Reason, NoMemory>
    requires ascend { Ascends nat_cmp points.now }
    requires point { visit.point < length graph.now.vertices }
    requires root { Contains points.now visit.root }
    requires from { IsStep graph.now visit.point visit.from }
    ensures { IfOk result (λ r. IsMade graph.now points.now visit r) }
{
    Ok(Reason {
        point: graph.vertex(visit.point).copy(alloc)?,
        root: place_among(points, visit.root),
        by: edge_by(alloc, graph, visit.point, visit.from)?,
    })
}

/// The place of the number in a list that ascends and has it.
fn place_among(numbers: &[usize], number: usize) -> usize
    requires ascend { Ascends nat_cmp numbers.now }
    requires listed { Contains numbers.now number }
    ensures { slice_get numbers.now result ≡ Some number }
{
    match numbers.binary_search(&number) {
        Ok(place) => place,
        Err(_) => unreachable!(),
    }
}
