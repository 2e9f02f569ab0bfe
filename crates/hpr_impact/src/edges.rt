//! The edge from one vertex into another.
ghost use Rattle.std.specs.Prelude.{◌≡◌, ◌↔◌, ◌<◌, length, Contains, IfOk, IsTrue};
ghost use Rattle.hpr_slice.specs.Neighbours.{Follows, HasSource, follows};
ghost use Rattle.hpr_impact.specs.Private.Ways.{IsMadeBy, IsStep};

use hpr_graph::{Edge, Graph, Link, LinkKind, NoMemory};
use std::alloc::Global;

/// The first control or flow edge into the vertex `to` that is from this vertex; none where there is no such vertex.
pub(crate) fn edge_by(
    alloc: Global,
    graph: &Graph,
    to: usize,
    from: Option<usize>,
) -> Result<Option<Edge>, NoMemory>
    requires to { to < length graph.now.vertices }
    requires from { IsStep graph.now to from }
    ensures { IfOk result (λ by. IsMadeBy graph.now to from by) }
{
    match from {
        Some(from) => {
            let link = link_from(graph.edges_into(to), from);
            Ok(Some(graph.edge(to, link)?))
        }
        None => Ok(None),
    }
}

/// The first of the links from this vertex that a slice follows.
fn link_from(links: &[Link], from: usize) -> Link
    requires { HasSource links.now from }
    ensures listed { Contains links.now result }
    ensures follows { Follows result.kind }
    ensures from { result.from ≡ from }
{
    for link in links {
        if is_from(*link, from) {
            return *link;
        }
    }
    unreachable!()
}

/// Whether the link is from this vertex, and a slice follows it.
fn is_from(link: Link, from: usize) -> bool
    ensures { IsTrue result ↔ ((link.from ≡ from) × Follows link.kind) }
{
    link.from == from && is_followed(link.kind)
}

/// Whether a slice follows links of this kind.
fn is_followed(kind: LinkKind) -> bool
    ensures { result ≡ follows kind }
{
    match kind {
        LinkKind::Control(_) | LinkKind::Independent | LinkKind::Carried(_) => true,
        LinkKind::Order(_) => false,
    }
}
