//! Lists of vertices, each once, in which a vertex is found by hash.
ghost use Rattle.std.specs.Prelude.{◌≡◌, ◌↔◌, Some, IsNone, IfSome, IfOk, Contains, slice_get};
ghost use Rattle.hpr_graph.specs.Graphs.{IsOnce};

use hpr_graph::{NoMemory, Vertex};
use indexmap::IndexSet;
use std::alloc::Global;

/// These vertices, each of which stands once.
pub(crate) fn listed(alloc: Global, vertices: Vec<Vertex>) -> Result<IndexSet<Vertex>, NoMemory>
    requires { IsOnce vertices.items }
    ensures { IfOk result (λ list. list.keys ≡ vertices.items) }
{
    let list = IndexSet::from_iter(alloc, vertices)?;
    Ok(list)
}

/// The place of the vertex in the list, if it is there. Takes one look-up by hash.
pub(crate) fn place_in(list: &IndexSet<Vertex>, vertex: &Vertex) -> Option<usize>
    ensures found { IfSome result (λ n. slice_get list.now.keys n ≡ Some vertex.now) }
    ensures stranger { IsNone result ↔ (¬ Contains list.now.keys vertex.now) }
{
    list.get_index_of(vertex)
}
