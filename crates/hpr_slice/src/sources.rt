//! Which vertices lead to which.
ghost use Rattle.std.specs.Prelude.{◌≡◌, ◌<◌, ◌++◌, length, All, IfOk, OnOk};
ghost use Rattle.hpr_graph.specs.Numbered.{graph_in};
ghost use Rattle.hpr_graph.specs.Slices.{ReachesOne};
ghost use Rattle.hpr_slice.specs.Vertices.{IsOneOf, MarksExactly};
ghost use Rattle.hpr_slice.specs.Neighbours.{follows, sources_of};

use hpr_graph::{Graph, Link, LinkKind, NoMemory};
use hpr_search::{Digraph, reachable};
use std::alloc::{AllocError, Global};
use std::marker::Model;

/// A graph whose steps lead from each vertex to those from which a control or flow edge leads to it, for any
/// number of searches.
///
/// A contract sees the graph.
#[derive(Drop)]
pub struct Sources<'a> {
    graph: &'a Graph,
    alloc: Global,
}

impl<'a> Model for Sources<'a> {
    ghost use Rattle.hpr_graph.specs.contracts.graph.Graph as graphs;
    ghost use Rattle.hpr_graph.specs.Numbered.{Numbered, IsNumbered};

    ghost Value = { Numbered };

    ghost coded = { graphs.the_row.coded };

    ghost view = { λ s. s.graph.now };

    ghost invariant = { λ s. IsNumbered s.graph.now };
}

impl Digraph for Sources<'_> {
    ghost use Rattle.std.specs.Prelude.{length};
    ghost use Rattle.hpr_slice.specs.Neighbours.{sources_at};

    ghost points = { λ g. length g.vertices };

    ghost steps = { λ g. sources_at g };

    fn point_count(&self) -> usize {
        self.graph.vertex_count()
    }

    fn push_steps(&self, point: usize, into: &mut Vec<usize>) -> Result<(), AllocError> {
        push_sources(self.graph.edges_into(point), into)
    }
}

impl Sources<'_> {
    /// Those of a graph. Takes constant time.
    pub fn of(alloc: Global, graph: &Graph) -> Sources<'_>
        ensures { result ≡ graph.now }
    {
        let _vertices = graph.vertices();
        Sources { graph, alloc }
    }

    /// Marks the vertices from which control and flow edges lead to one of these, these included: the
    /// vertices of their slice (Reps and Yang 1988). The numbers are those of vertices. Looks once at each
    /// edge into a marked vertex.
    pub fn reaching(&self, numbers: &[usize]) -> Result<Vec<bool>, NoMemory>
        requires { All (λ n. n < length self.now.vertices) numbers.now }
        ensures { IfOk result (λ marks. MarksExactly self.now
            (ReachesOne (graph_in self.now) (IsOneOf self.now numbers.now)) marks.items) }
    {
        Ok(reachable(self.alloc, self, numbers)?)
    }
}

/// Whether a slice follows links of this kind.
pub(crate) fn is_followed(kind: LinkKind) -> bool
    ensures { result ≡ follows kind }
{
    match kind {
        LinkKind::Order(_) => false,
        _ => true,
    }
}

/// Puts the sources of those of the links that a slice follows behind the others.
fn push_sources(links: &[Link], into: &mut Vec<usize>) -> Result<(), AllocError>
    ensures { OnOk result (into.new.items ≡ into.old.items ++ sources_of links.now) }
{
    for link in links {
        if is_followed(link.kind) {
            into.push(link.from)?;
        }
    }
    Ok(())
}
