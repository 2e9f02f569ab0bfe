//! Which vertices are led to from which.
ghost use Rattle.std.specs.Prelude.{◌≡◌, ◌<◌, ◌∷◌, [], length, Contains, IfOk, OnOk};
ghost use Rattle.hpr_graph.specs.declared.link.Link.{Link};
ghost use Rattle.hpr_graph.specs.Numbered.{IsNumbered};
ghost use Rattle.hpr_slice.specs.Neighbours.{AreTargets, IsPushedFrom};

use crate::sources::is_followed;
use hpr_graph::{Graph, Link, NoMemory};
use hpr_search::Rows;
use std::alloc::Global;

/// For each vertex of a graph the vertices to which a control or flow edge leads from it. Looks once at
/// each edge.
pub(crate) fn targets_of(alloc: Global, graph: &Graph) -> Result<Rows, NoMemory>
    ensures rows { IfOk result (λ rows. AreTargets graph.now rows) }
    ensures numbered { IsNumbered graph.now }
{
    let count = graph.vertices().len();
    let mut rows = Rows::blank(alloc, count)?;
    for to in 0..count {
        push_target(&mut rows, graph.edges_into(to), to)?;
    }
    Ok(rows)
}

/// Puts the number at the end of the row of each vertex from which one of the links is that a slice follows.
fn push_target(rows: &mut Rows, links: &[Link], number: usize) -> Result<(), NoMemory>
    requires links { (l : Link) → Contains links.now l → l.from < length rows.old }
    requires number { number < length rows.old }
    ensures count { length rows.new ≡ length rows.old }
    ensures rows { OnOk result (IsPushedFrom rows.old links.now number rows.new) }
{
    for link in links {
        push_by(rows, *link, number)?;
    }
    Ok(())
}

/// Puts the number at the end of the row of the vertex from which the link is, if a slice follows it.
fn push_by(rows: &mut Rows, link: Link, number: usize) -> Result<(), NoMemory>
    requires from { link.from < length rows.old }
    requires number { number < length rows.old }
    ensures count { length rows.new ≡ length rows.old }
    ensures rows { OnOk result (IsPushedFrom rows.old (link ∷ []) number rows.new) }
{
    if !is_followed(link.kind) {
        return Ok(());
    }
    rows.push(link.from, number)?;
    Ok(())
}
