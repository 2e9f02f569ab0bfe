//! What is searched for a program: the merged graph, with new tags for the parts that are split off.
ghost use Rattle.std.specs.Prelude.{◌≡◌, ◌≤◌, true, [], length, Contains, IsTrue, IfOk};
ghost use Rattle.std.specs.List.{AllByRecursion};
ghost use Rattle.hpr_syntax.specs.Shape.{IsProgram};
ghost use Rattle.hpr_graph.specs.Answer.{merged_of, merged_of_all};
ghost use Rattle.hpr_graph.specs.Fits.{IsPart};
ghost use Rattle.hpr_graph.specs.Graphs.{Same};
ghost use Rattle.hpr_graph.specs.Numbered.{graph_in};
ghost use Rattle.hpr_graph.specs.Split.{AreIssuedAmong};
ghost use Rattle.hpr_split.specs.Marks.{IsUnmarked};
ghost use Rattle.hpr_order.specs.Arranging.{AreIssued, IsRanking};
ghost use Rattle.hpr_engine.specs.Kept.{AreKeptBelow};
ghost use Rattle.hpr_engine.specs.Searched.{IsSearched, IsSearchedOf, IsSplitFrom};

use crate::issued::{issued_numbers, issued_numbers_of_all};
use crate::kept::{kept, kept_of_all};
use hpr_graph::{Graph, NoMemory, Tag, Vertex};
use hpr_order::{rank, rank_of_all};
use hpr_split::{SplitTags, split};
use hpr_syntax::proper::read_issued;
use hpr_syntax::{Issued, Program};
use std::alloc::Global;

/// What the search for a program is given. Horwitz, Prins and Reps 1989, who search for a program that has
/// the merged graph, give their search no order and no tags.
#[derive(Drop)]
pub struct Searched {
    /// The graph that the program shall have.
    pub graph: Graph,
    /// The rank of its parts: each once, in the order in which arrangements are tried.
    pub rank: Vec<Vertex>,
    /// The issued numbers that the program gets.
    pub issued: Issued,
    /// The parts that got new tags, as they were, in the order of vertices, each with its new tag.
    pub renamed: Vec<(Vertex, Tag)>,
}

/// What is searched for two variants and their base, of which this is the merged graph: of two parts of it
/// with one tag the one that A lacks gets a new tag of author 0, in the graph and in the rank, and author
/// 0's issued number is raised. No part gets one where the serials don't suffice. An error is want of memory.
/// Horwitz, Prins and Reps 1989 have no tags.
pub fn searched_for(
    alloc: Global,
    graph: Graph,
    base: &Program,
    a: &Program,
    b: &Program,
) -> Result<Searched, NoMemory>
    requires { Same (graph_in graph) (merged_of base.now a.now b.now) }
    ensures searched { IfOk result (λ s. IsSearched base.now a.now b.now s) }
    ensures ranking { IfOk result (λ s. IsRanking (graph_in s.graph) s.rank.items) }
    ensures issued { IfOk result (λ s. AreIssued (graph_in s.graph) s.issued) }
    ensures base { IfOk result (λ _. IsProgram base.now) }
    ensures a { IfOk result (λ _. IsProgram a.now) }
    ensures b { IfOk result (λ _. IsProgram b.now) }
{
    let rank = rank(alloc, a, b, base)?;
    let issued = issued_numbers(alloc, base, a, b)?;
    let keep = kept(alloc, &graph, a, b)?;
    let merged = Searched {
        graph,
        rank,
        issued,
        renamed: Vec::new(alloc),
    };
    split_off(alloc, merged, &keep)
}

/// What is searched for any number of variants and their base, of which this is the merged graph: of the
/// parts of it with one tag that of the first variant that has one of them keeps it, and each other one
/// gets a new tag of author 0, in the graph and in the rank, and author 0's issued number is raised. No
/// part gets one where the serials don't suffice. An error is want of memory. Looks each part of each
/// variant up by hash a fixed number of times. Horwitz, Prins and Reps 1989 have two variants, and no tags.
pub fn searched_for_all(
    alloc: Global,
    graph: Graph,
    base: &Program,
    variants: &[Program],
) -> Result<Searched, NoMemory>
    requires least { 1 ≤ length variants.now }
    requires graph { Same (graph_in graph) (merged_of_all base.now variants.now) }
    ensures searched { IfOk result (λ s. IsSearchedOf base.now variants.now s) }
    ensures ranking { IfOk result (λ s. IsRanking (graph_in s.graph) s.rank.items) }
    ensures issued { IfOk result (λ s. AreIssued (graph_in s.graph) s.issued) }
    ensures base { IfOk result (λ _. IsProgram base.now) }
    ensures variants { IfOk result (λ _. AllByRecursion IsProgram variants.now) }
{
    let rank = rank_of_all(alloc, base, variants)?;
    let issued = issued_numbers_of_all(alloc, base, variants)?;
    let keep = kept_of_all(alloc, &graph, variants)?;
    let merged = Searched {
        graph,
        rank,
        issued,
        renamed: Vec::new(alloc),
    };
    split_off(alloc, merged, &keep)
}

/// The same with new tags for the parts that aren't marked, where the serials suffice. Where each part is
/// marked nothing is copied.
fn split_off(alloc: Global, merged: Searched, keep: &[bool]) -> Result<Searched, NoMemory>
    requires keep { length keep.now ≡ length merged.graph.vertices }
    requires none_yet { merged.renamed.items ≡ [] }
    requires ranking { IsRanking (graph_in merged.graph) merged.rank.items }
    requires serials { AreIssuedAmong (Contains merged.rank.items) merged.issued }
    ensures split { IfOk result (λ s. IsSplitFrom merged (IsUnmarked merged.graph keep.now) s) }
    ensures ranking { IfOk result (λ s. IsRanking (graph_in s.graph) s.rank.items) }
    ensures issued { IfOk result (λ s. AreIssued (graph_in s.graph) s.issued) }
{
    read_issued(&merged.issued);
    if are_kept(merged.graph.vertices(), keep) {
        return Ok(merged);
    }
    match split(alloc, &merged.graph, keep, &merged.rank, &merged.issued)? {
        Some(
            SplitTags {
                graph,
                rank,
                issued,
                renamed,
            },
        ) => Ok(Searched {
            graph,
            rank,
            issued,
            renamed,
        }),
        None => Ok(merged),
    }
}

/// Whether each part among the vertices is marked.
fn are_kept(vertices: &[Vertex], keep: &[bool]) -> bool
    requires { length keep.now ≡ length vertices.now }
    ensures { IsTrue result → AreKeptBelow vertices.now keep.now (length vertices.now) }
{
    for (at, vertex) in vertices.iter().enumerate() {
        if !is_kept(vertex, keep[at]) {
            return false;
        }
    }
    true
}

/// Whether the vertex is marked, or no part.
fn is_kept(vertex: &Vertex, mark: bool) -> bool
    ensures { IsTrue result → IsPart vertex.now → mark ≡ true }
{
    match vertex {
        Vertex::Part(_, _) => mark,
        _ => true,
    }
}
