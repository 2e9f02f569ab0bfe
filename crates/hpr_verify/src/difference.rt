//! How the graph of an offered program differs from the merged graph.
ghost use Rattle.std.specs.Prelude.{◌≡◌, Contains, IfOk};
ghost use Rattle.hpr_graph.specs.declared.link.Link.{Link};
ghost use Rattle.hpr_graph.specs.InOrder.{Ascends};
ghost use Rattle.hpr_graph.specs.Numbered.{HasEdge, graph_in};
ghost use Rattle.hpr_graph.specs.Order.{vertex_cmp, edge_cmp};
ghost use Rattle.hpr_verify.specs.Difference.{IsDifference, IsLeastApart};
ghost use Rattle.hpr_verify.specs.First.{IsFirstLinkApart};

use crate::first::{first_apart, row_by};
use crate::{Edge, Holder, Verdict, Vertex};
use hpr_graph::{Graph, Link, NoMemory};
use std::alloc::Global;

/// How a graph that is offered differs from the merged one: the least vertex that one of them alone has, or
/// where they have the same vertices the least edge. Puts both in order, and then looks at each vertex and
/// each edge at most once.
pub(crate) fn difference(
    alloc: Global,
    offered: &Graph,
    merged: &Graph,
) -> Result<Verdict, NoMemory>
    ensures { IfOk result (λ v. IsDifference (graph_in offered.now) (graph_in merged.now) v) }
{
    let offered = offered.in_order()?;
    let merged = merged.in_order()?;
    difference_in_order(alloc, &offered, &merged)
}

/// The same of graphs that are in order.
fn difference_in_order(alloc: Global, offered: &Graph, merged: &Graph) -> Result<Verdict, NoMemory>
    requires offered { Ascends vertex_cmp offered.now.vertices }
    requires merged { Ascends vertex_cmp merged.now.vertices }
    ensures { IfOk result (λ v. IsDifference (graph_in offered.now) (graph_in merged.now) v) }
{
    match vertex_apart(alloc, offered.vertices(), merged.vertices())? {
        Some((vertex, holder)) => Ok(Verdict::Vertex(vertex, holder)),
        None => edge_difference(offered, merged),
    }
}

/// The same of graphs that have the same vertices, in order.
fn edge_difference(offered: &Graph, merged: &Graph) -> Result<Verdict, NoMemory>
    requires order { Ascends vertex_cmp offered.now.vertices }
    requires vertices { merged.now.vertices ≡ offered.now.vertices }
    ensures { IfOk result (λ v. IsDifference (graph_in offered.now) (graph_in merged.now) v) }
{
    match edge_apart(offered, merged)? {
        Some((edge, holder)) => Ok(Verdict::Edge(edge, holder)),
        None => Ok(Verdict::Same),
    }
}

/// The least vertex that one of two rows alone has, with its holder. Both ascend.
fn vertex_apart(
    alloc: Global,
    offered: &[Vertex],
    merged: &[Vertex],
) -> Result<Option<(Vertex, Holder)>, NoMemory>
    requires offered { Ascends vertex_cmp offered.now }
    requires merged { Ascends vertex_cmp merged.now }
    ensures { IfOk result (λ o. IsLeastApart vertex_cmp (Contains offered.now) (Contains merged.now) o) }
{
    let Some((at, holder)) = first_apart(offered, merged) else {
        return Ok(None);
    };
    let row = row_by(holder, offered, merged);
    Ok(Some((row[at].copy(alloc)?, holder)))
}

/// The least edge that one of two graphs alone has, with its holder. Both have the same vertices, in order.
fn edge_apart(offered: &Graph, merged: &Graph) -> Result<Option<(Edge, Holder)>, NoMemory>
    requires order { Ascends vertex_cmp offered.now.vertices }
    requires vertices { merged.now.vertices ≡ offered.now.vertices }
    ensures { IfOk result (λ o. IsLeastApart edge_cmp (HasEdge offered.now) (HasEdge merged.now) o) }
{
    // each link is an edge
    let _offered = offered.vertices();
    let _merged = merged.vertices();
    match link_apart(offered, merged) {
        Some((to, link, holder)) => Ok(Some((offered.edge(to, link)?, holder))),
        None => Ok(None),
    }
}

/// The first link that one of two graphs alone has, with the number of its target and its holder. Both have
/// the same vertices by the same numbers.
fn link_apart(offered: &Graph, merged: &Graph) -> Option<(usize, Link, Holder)>
    requires { merged.now.vertices ≡ offered.now.vertices }
    ensures { IsFirstLinkApart ⟦<Link as Ord>⟧.cmp offered.now merged.now result }
{
    // the links into each vertex ascend
    let _merged = merged.vertices();
    for to in 0..offered.vertices().len() {
        if let Some((link, holder)) = row_apart(offered.edges_into(to), merged.edges_into(to)) {
            return Some((to, link, holder));
        }
    }
    None
}

/// The first link that one of two rows alone has, with its holder. Both ascend.
fn row_apart(offered: &[Link], merged: &[Link]) -> Option<(Link, Holder)>
    requires offered { Ascends ⟦<Link as Ord>⟧.cmp offered.now }
    requires merged { Ascends ⟦<Link as Ord>⟧.cmp merged.now }
    ensures { IsLeastApart ⟦<Link as Ord>⟧.cmp (Contains offered.now) (Contains merged.now) result }
{
    let (at, holder) = first_apart(offered, merged)?;
    let row = row_by(holder, offered, merged);
    Some((row[at], holder))
}
