//! What control edges lead to from Entry.
ghost use Rattle.std.specs.Prelude.{◌≡◌, ◌<◌, [], ◌∷◌, Some, length, slice_get, Contains, IfOk, OnOk, IfSome, IfNone};
ghost use Rattle.hpr_graph.specs.declared.link.Link.{Link};
ghost use Rattle.hpr_graph.specs.declared.vertex.Vertex.{Vertex};
ghost use Rattle.hpr_graph.specs.Numbered.{HasVertex, IsNumbered};
ghost use Rattle.hpr_order.specs.Controls.{AreControlled, AreReached, IsPushedBy};

use crate::control::label_of;
use hpr_graph::{Graph, Link, NoMemory, Vertex};
use hpr_search::{Rows, reachable};
use std::alloc::Global;

/// For each vertex of a graph, by its number, the vertices into which a control edge goes from it. Looks
/// once at each edge.
fn controlled_rows(alloc: Global, graph: &Graph) -> Result<Rows, NoMemory>
    ensures rows { IfOk result (λ rows. AreControlled graph.now rows) }
    ensures numbered { IsNumbered graph.now }
{
    let count = graph.vertices().len();
    let mut rows = Rows::blank(alloc, count)?;
    for at in 0..count {
        push_controlled(&mut rows, graph.edges_into(at), at)?;
    }
    Ok(rows)
}

/// Marks the vertices to which control edges lead from Entry, Entry included. Looks at each edge at most
/// twice.
pub(crate) fn reached_from_entry(alloc: Global, graph: &Graph) -> Result<Vec<bool>, NoMemory>
    ensures { IfOk result (λ marks. AreReached graph.now marks.items) }
{
    let controlled = controlled_rows(alloc, graph)?;
    reached_in(alloc, graph, &controlled)
}

/// The same, by what control edges lead to.
fn reached_in(alloc: Global, graph: &Graph, controlled: &Rows) -> Result<Vec<bool>, NoMemory>
    requires rows { AreControlled graph.now controlled.now }
    requires numbered { IsNumbered graph.now }
    ensures { IfOk result (λ marks. AreReached graph.now marks.items) }
{
    match entry_of(graph) {
        Some(entry) => Ok(reachable(alloc, controlled, &[entry])?),
        None => Ok(reachable(alloc, controlled, &[])?),
    }
}

/// The number of Entry, if it is a vertex.
fn entry_of(graph: &Graph) -> Option<usize>
    ensures found { IfSome result (λ n. slice_get graph.now.vertices n ≡ Some Vertex.Entry) }
    ensures none { IfNone result (¬ HasVertex graph.now Vertex.Entry) }
{
    graph.number_of(&Vertex::Entry)
}

/// Puts the number at the end of the row of each vertex from which one of the links, a control edge, goes.
fn push_controlled(rows: &mut Rows, links: &[Link], number: usize) -> Result<(), NoMemory>
    requires links { (l : Link) → Contains links.now l → l.from < length rows.old }
    requires number { number < length rows.old }
    ensures count { length rows.new ≡ length rows.old }
    ensures rows { OnOk result (IsPushedBy rows.old links.now number rows.new) }
{
    for link in links {
        push_link(rows, *link, number)?;
    }
    Ok(())
}

/// Puts the number at the end of the row of the vertex from which the link goes, if it is a control edge.
fn push_link(rows: &mut Rows, link: Link, number: usize) -> Result<(), NoMemory>
    requires from { link.from < length rows.old }
    requires number { number < length rows.old }
    ensures count { length rows.new ≡ length rows.old }
    ensures rows { OnOk result (IsPushedBy rows.old (link ∷ []) number rows.new) }
{
    match label_of(link.kind) {
        Some(_) => {
            rows.push(link.from, number)?;
            Ok(())
        }
        None => Ok(()),
    }
}
