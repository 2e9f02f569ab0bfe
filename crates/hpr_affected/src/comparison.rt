//! Two graphs side by side.
ghost use Rattle.std.specs.Prelude.{◌≡◌, ◌<◌, Some, IfOk, IfSome, IsNone, length, slice_get};
ghost use Rattle.hpr_graph.specs.declared.vertex.Vertex.{Vertex};
ghost use Rattle.hpr_graph.specs.Direct.{IsDirectlyAffected};
ghost use Rattle.hpr_graph.specs.Numbered.{HasVertex, graph_in};
ghost use Rattle.hpr_graph.specs.Points.{IsAffected};
ghost use Rattle.hpr_graph.specs.Whole.{IsWhole};
ghost use Rattle.hpr_affected.specs.Comparison.{MarksAffected};
ghost use Rattle.hpr_affected.specs.Numbers.{AreNumbersOf};

use crate::differing::{Differences, differing, direct_points};
use crate::lists::push_if;
use hpr_graph::links::number_at;
use hpr_graph::{Graph, NoMemory};
use hpr_search::is_marked;
use hpr_slice::forward;
use std::alloc::Global;
use std::marker::Model;

/// A graph beside another: what each of the two lacks of the other, looked up once for any number of
/// questions.
///
/// A contract sees the two graphs.
pub struct Comparison<'a> {
    graph: &'a Graph,
    other: &'a Graph,
    there: Differences,
    back: Differences,
    alloc: Global,
}

/// What was looked up is dropped in one call.
impl Drop for Comparison<'_> {
    fn drop(self) {
        let Comparison {
            graph: _,
            other: _,
            there: _,
            back: _,
            alloc: _,
        } = self;
    }
}

impl<'a> Model for Comparison<'a> {
    ghost use Rattle.std.specs.Coded.{codes};
    ghost use Rattle.hpr_graph.specs.contracts.graph.Graph as graphs;
    ghost use Rattle.hpr_affected.specs.Comparison.{Sides, IsComparison};

    ghost Value = { Sides };

    ghost coded = { Prim.hlevel (codes, graphs.the_row.coded) };

    ghost view = { λ c. record { graph = c.graph.now; other = c.other.now } };

    ghost invariant = { λ c. IsComparison c.graph.now c.other.now c.there c.back };
}

impl<'a> Comparison<'a> {
    /// The graph beside the other. Looks each vertex of one up once in the other, and each edge once among
    /// those into its target there. Refuses for want of memory alone, as all that follows does.
    pub fn of(alloc: Global, graph: &'a Graph, other: &'a Graph) -> Result<Comparison<'a>, NoMemory>
        ensures graph { IfOk result (λ c. c.graph ≡ graph.now) }
        ensures other { IfOk result (λ c. c.other ≡ other.now) }
    {
        let _vertices = graph.vertices();
        let _others = other.vertices();
        Ok(Comparison {
            graph,
            other,
            there: differing(alloc, graph, other)?,
            back: differing(alloc, other, graph)?,
            alloc,
        })
    }

    /// The other graph beside this one.
    pub fn turned(self) -> Comparison<'a>
        ensures graph { result.graph ≡ self.entry.other }
        ensures other { result.other ≡ self.entry.graph }
    {
        let Comparison {
            graph,
            other,
            there,
            back,
            alloc,
        } = self;
        Comparison {
            graph: other,
            other: graph,
            there: back,
            back: there,
            alloc,
        }
    }

    /// The number in this graph of the vertex with the number `at` in the other, or none where this graph
    /// lacks it. Takes constant time.
    pub fn number_here(&self, at: usize) -> Option<usize>
        requires { at < length self.now.other.vertices }
        ensures found { IfSome result (λ n.
            slice_get self.now.graph.vertices n ≡ slice_get self.now.other.vertices at) }
        ensures stranger { IsNone result → (v : Vertex) → slice_get self.now.other.vertices at ≡ Some v
            → ¬ HasVertex self.now.graph v }
    {
        number_at(&self.back.numbers, at)
    }

    /// The directly affected points of the graph beside the other, by their numbers in it, ascending: the
    /// vertices that the other lacks, or into which it has other control or flow edges, or for which, as
    /// their shared use, it has other order edges. Looks once at each vertex.
    pub fn direct(&self) -> Result<Vec<usize>, NoMemory>
        ensures { IfOk result (λ points. AreNumbersOf self.now.graph
            (IsDirectlyAffected (graph_in self.now.graph) (graph_in self.now.other)) points.items) }
    {
        direct_points(self.alloc, self.graph, self.other, &self.there, &self.back)
    }

    /// Marks the affected points of the graph beside the other: the vertices that the other lacks or has
    /// with another slice (Horwitz, Prins and Reps 1989). Both graphs are whole, as those of programs and
    /// merged graphs are; then these are the vertices that are reached from the directly affected ones.
    /// Looks at each edge of the graph a fixed number of times.
    pub fn affected_marks(&self) -> Result<Vec<bool>, NoMemory>
        requires graph { IsWhole (graph_in self.now.graph) }
        requires other { IsWhole (graph_in self.now.other) }
        ensures { IfOk result (λ marks. MarksAffected self.now.graph self.now.other marks.items) }
    {
        let points = self.direct()?;
        reached_marks(self.alloc, self.graph, self.other, &points)
    }

    /// The affected points, as [`Comparison::affected_marks`] marks them, by their numbers in the graph,
    /// ascending.
    pub fn affected(&self) -> Result<Vec<usize>, NoMemory>
        requires graph { IsWhole (graph_in self.now.graph) }
        requires other { IsWhole (graph_in self.now.other) }
        ensures { IfOk result (λ points. AreNumbersOf self.now.graph
            (IsAffected (graph_in self.now.graph) (graph_in self.now.other)) points.items) }
    {
        let marks = self.affected_marks()?;
        let mut points = Vec::new(self.alloc);
        for at in 0..marks.len() {
            push_if(is_marked(&marks, at), at, &mut points)?;
        }
        Ok(points)
    }
}

/// Marks what is reached in the graph from the directly affected points.
fn reached_marks(
    alloc: Global,
    graph: &Graph,
    other: &Graph,
    points: &[usize],
) -> Result<Vec<bool>, NoMemory>
    requires graph { IsWhole (graph_in graph.now) }
    requires other { IsWhole (graph_in other.now) }
    requires points { AreNumbersOf graph.now
        (IsDirectlyAffected (graph_in graph.now) (graph_in other.now)) points.now }
    ensures { IfOk result (λ marks. MarksAffected graph.now other.now marks.items) }
{
    let _vertices = graph.vertices();
    let _others = other.vertices();
    forward(alloc, graph, points)
}
