//! Where an edge counts.
ghost use Rattle.std.specs.Prelude.{◌≡◌};
ghost use Rattle.hpr_closure.specs.Counts.{counts_at};

use hpr_graph::LinkKind;

/// The vertex at which a link of this kind into the vertex `to` counts: where a graph has the edge and
/// another lacks it, this vertex is directly affected. It is the shared use of an order edge, and the target of
/// a control or flow edge. The 1989 paper compares slices.
pub fn counts_at(kind: LinkKind, to: usize) -> usize
    ensures { result ≡ counts_at kind to }
{
    match kind {
        LinkKind::Order(u) => u,
        _ => to,
    }
}
