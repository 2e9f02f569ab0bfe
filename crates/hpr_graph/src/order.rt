//! The order of vertices, in which reports and conflicts name them.
ghost use Rattle.std.specs.Prelude.{◌≡◌};
ghost use Rattle.hpr_graph.specs.Order.{vertex_cmp};

use crate::Vertex;
use std::cmp::Ordering;

/// How two vertices compare: Entry, then Init by name, then Part by author, serial and content, then
/// Final by name. This is their `Ord`.
#[tactic(auto, using(crate::proofs::Orders::vertex_order))]
pub fn compare_vertices(a: &Vertex, b: &Vertex) -> Ordering
    ensures { result ≡ vertex_cmp a.now b.now }
{
    a.cmp(b)
}
