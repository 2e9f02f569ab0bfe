//! A graph of which some parts get new tags, with all that goes with it.
ghost use Rattle.std.specs.Prelude.{◌≡◌, ◌≢◌, ◌↔◌, ℕ, ◌+◌, ◌≤◌, length, Contains, IsNone, IfOk, IfSome};
ghost use Rattle.hpr_terms.specs.declared.tag.Tag.{Tag};
ghost use Rattle.hpr_syntax.specs.declared.rows.Content.{Content};
ghost use Rattle.hpr_syntax.specs.Issued.{issued_to};
ghost use Rattle.hpr_graph.specs.declared.vertex.Vertex.{Vertex};
ghost use Rattle.hpr_graph.specs.declared.vertex.Vertex.TheVariants.{Part};
ghost use Rattle.hpr_graph.specs.Fits.{IsPart};
ghost use Rattle.hpr_graph.specs.Graphs.{IsOnce, Same};
ghost use Rattle.hpr_graph.specs.InOrder.{Ascends};
ghost use Rattle.hpr_graph.specs.Order.{vertex_cmp};
ghost use Rattle.hpr_graph.specs.Numbered.{HasVertex, IsMarkedVertex, graph_in};
ghost use Rattle.hpr_graph.specs.Split.{AreIssuedAmong, AreRenamed, AreSplitParts, HasOneContent, PassSerials, max_serial, split_graph, split_issued, split_numbered, split_rank, with_new_tags};
ghost use Rattle.hpr_split.specs.Marks.{IsUnmarked};

use crate::numbers::{has_serials, with_more};
use crate::parts::unmarked_parts;
use crate::renaming::{all_renamed, with_new_tags};
use hpr_graph::{Graph, NoMemory, Tag, Vertex};
use hpr_syntax::Issued;
use std::alloc::Global;

/// A graph of which some parts got new tags of author 0, with its rank and its issued numbers.
#[derive(Drop)]
pub struct SplitTags {
    /// The graph. Its vertices and its edges have the numbers that they had.
    pub graph: Graph,
    /// The rank, in which the parts stand where they stood.
    pub rank: Vec<Vertex>,
    /// The issued numbers, with as many more of author 0.
    pub issued: Issued,
    /// These parts as they were, in the order of vertices, each with its new tag.
    pub renamed: Vec<(Vertex, Tag)>,
}

/// The graph in which each part that isn't marked has a new tag of author 0, wherever it stands in the graph
/// and in the rank: the k-th of them in the order of vertices, k from 1, the serial k behind the number that
/// is issued to author 0. None where these serials would pass the greatest, 4,294,967,295. An error is want
/// of memory.
///
/// There are as many marks as vertices. The rank has every part of the graph and nothing twice; each part in
/// it has a serial that is at least 1 and at most its author's issued number. Where no two marked parts have one
/// tag, no tag of the new graph has two contents.
///
/// Sorts the parts that aren't marked, looks each vertex up among them by halving, once in the graph and
/// once in the rank, and copies the edges. Horwitz, Prins and Reps 1989 have no tags.
pub fn split(
    alloc: Global,
    graph: &Graph,
    keep: &[bool],
    rank: &[Vertex],
    issued: &Issued,
) -> Result<Option<SplitTags>, NoMemory>
    requires keep { length keep.now ≡ length graph.now.vertices }
    requires ranked { (t : Tag) (c : Content) → HasVertex graph.now (Part t c) → Contains rank.now (Part t c) }
    requires once { IsOnce rank.now }
    requires serials { AreIssuedAmong (Contains rank.now) issued.now }
    ensures renamed { IfOk result (λ o. IfSome o (λ s. AreRenamed (graph_in graph.now)
        (IsUnmarked graph.now keep.now) (issued_to 0 issued.now) s.renamed.items)) }
    ensures graph { IfOk result (λ o. IfSome o (λ s. Same (graph_in s.graph)
        (split_graph s.renamed.items (graph_in graph.now)))) }
    ensures numbers { IfOk result (λ o. IfSome o (λ s. s.graph ≡ split_numbered s.renamed.items graph.now)) }
    ensures rank { IfOk result (λ o. IfSome o (λ s. s.rank.items ≡ split_rank s.renamed.items rank.now)) }
    ensures issued { IfOk result (λ o. IfSome o (λ s. s.issued ≡ split_issued (length s.renamed.items) issued.now)) }
    ensures author { IfOk result (λ o. IfSome o (λ s. issued_to 0 s.issued
        ≡ issued_to 0 issued.now + length s.renamed.items)) }
    ensures others { IfOk result (λ o. IfSome o (λ s. (a : ℕ) → a ≢ 0
        → issued_to a s.issued ≡ issued_to a issued.now)) }
    ensures ranked { IfOk result (λ o. IfSome o (λ s. (t : Tag) (c : Content) → HasVertex s.graph (Part t c)
        → Contains s.rank.items (Part t c))) }
    ensures once { IfOk result (λ o. IfSome o (λ s. IsOnce s.rank.items)) }
    ensures serials { IfOk result (λ o. IfSome o (λ s. AreIssuedAmong (Contains s.rank.items) s.issued)) }
    ensures one_content { IfOk result (λ o. IfSome o (λ s. HasOneContent (IsMarkedVertex graph.now keep.now)
        → HasOneContent (HasVertex s.graph))) }
    ensures none { IfOk result (λ o. IsNone o ↔ PassSerials (graph_in graph.now)
        (IsUnmarked graph.now keep.now) (issued_to 0 issued.now)) }
{
    let _vertices = graph.vertices();
    let parts = unmarked_parts(alloc, graph, keep)?;
    if !has_serials(issued.get(0), parts.len()) {
        return Ok(None);
    }
    Ok(Some(split_by(alloc, graph, rank, issued, parts)?))
}

/// The same where these parts get new tags, in the order of vertices.
fn split_by(
    alloc: Global,
    graph: &Graph,
    rank: &[Vertex],
    issued: &Issued,
    parts: Vec<Vertex>,
) -> Result<SplitTags, NoMemory>
    requires ascend { Ascends vertex_cmp parts.items }
    requires parts { (v : Vertex) → Contains parts.items v → IsPart v }
    requires fits { issued_to 0 issued.now + length parts.items ≤ max_serial }
    requires ranked { (t : Tag) (c : Content) → HasVertex graph.now (Part t c) → Contains rank.now (Part t c) }
    requires serials { AreIssuedAmong (Contains rank.now) issued.now }
    ensures renamed { IfOk result (λ s. s.renamed.items ≡ with_new_tags (issued_to 0 issued.now) parts.items) }
    ensures numbers { IfOk result (λ s. s.graph ≡ split_numbered s.renamed.items graph.now) }
    ensures rank { IfOk result (λ s. s.rank.items ≡ split_rank s.renamed.items rank.now) }
    ensures issued { IfOk result (λ s. s.issued ≡ split_issued (length s.renamed.items) issued.now) }
    ensures author { IfOk result (λ s. issued_to 0 s.issued ≡ issued_to 0 issued.now + length s.renamed.items) }
    ensures others { IfOk result (λ s. (a : ℕ) → a ≢ 0 → issued_to a s.issued ≡ issued_to a issued.now) }
{
    let serial = issued.get(0);
    let vertices = all_renamed(alloc, graph.vertices(), &parts, serial)?;
    let graph = graph.with_vertices(vertices)?;
    let rank = all_renamed(alloc, rank, &parts, serial)?;
    let issued = with_more(alloc, issued, parts.len())?;
    let renamed = with_new_tags(alloc, parts, serial)?;
    Ok(SplitTags {
        graph,
        rank,
        issued,
        renamed,
    })
}
