//! The control edges of a graph: one from the part around it into each vertex but Entry.
ghost use Rattle.std.specs.Prelude.{◌≡◌, ◌↔◌, ◌≤◌, ◌<◌, ℕ, Contains, IfOk, OnOk, IsErrOf};
ghost use Rattle.hpr_graph.specs.declared.link.Link.{Link};
ghost use Rattle.hpr_graph.specs.Numbered.{HasLink};
ghost use Rattle.hpr_build.specs.declared.pushes.NewLink.{NewLink};
ghost use Rattle.hpr_build.specs.Links.{IsControlLink, HasMoreLinks};
ghost use Rattle.hpr_build.specs.NewLinks.{parent_of, link_under};
ghost use Rattle.hpr_graph.specs.Graphs.{IsOnce};
ghost use Rattle.hpr_build.specs.Places.{place_at};
ghost use Rattle.hpr_build.specs.Stages.{AreTables, IsBegun};

use crate::error::BuildError;
use crate::places::{Parent, Place};
use crate::pushes::{NewLink, push_links};
use crate::tables::Tables;
use hpr_graph::{Draft, Link, LinkKind};
use hpr_paths::NoMemory;
use std::alloc::Global;

/// The control parent of the vertex with this number, which isn't 0: none where it isn't a part in
/// another.
fn parent_of(places: &[Place], number: usize) -> Option<Parent>
    requires { 1 ≤ number }
    ensures { result ≡ parent_of (place_at places.now number) }
{
    match places.get(number - 1) {
        Some(place) => place.parent,
        None => None,
    }
}

/// The control edge from the parent, or from Entry.
fn link_under(parent: Option<Parent>) -> Link
    ensures { result ≡ link_under parent }
{
    match parent {
        None => Link {
            from: 0,
            kind: LinkKind::Control(true),
        },
        Some(parent) => Link {
            from: parent.point,
            kind: LinkKind::Control(parent.label),
        },
    }
}

/// The control edges into so many vertices: one into each but Entry.
fn control_links(alloc: Global, places: &[Place], count: usize) -> Result<Vec<NewLink>, NoMemory>
    requires { 1 ≤ count }
    ensures exact { IfOk result (λ links. (n : NewLink) → Contains links.items n
        ↔ ((1 ≤ n.to) × (n.to < count) × (n.link ≡ link_under (parent_of (place_at places.now n.to))))) }
    ensures once { IfOk result (λ links. IsOnce links.items) }
{
    let mut links = Vec::with_capacity(alloc, count)?;
    for to in 1..count {
        links.push(NewLink {
            to,
            link: link_under(parent_of(places, to)),
        })?;
    }
    Ok(links)
}

/// Puts the control edges into a graph that has no edge.
pub(crate) fn push_controls(
    alloc: Global,
    tables: &Tables,
    graph: &mut Draft,
) -> Result<(), BuildError>
    requires tables { AreTables tables.now }
    requires begun { IsBegun tables.now.program.now tables.now.inits.items tables.now.most graph.old }
    requires none { (to : ℕ) (l : Link) → ¬ HasLink graph.old to l }
    ensures begun { OnOk result (IsBegun tables.now.program.now tables.now.inits.items tables.now.most graph.new) }
    ensures exact { OnOk result ((to : ℕ) (l : Link) → HasLink graph.new to l
        ↔ IsControlLink tables.now.program.now tables.now.inits.items to l) }
    ensures too_many { IsErrOf result BuildError.TooManyEdges
        → HasMoreLinks tables.now.program.now tables.now.inits.items tables.now.most }
{
    let links = control_links(alloc, &tables.places, tables.vertex_count)?;
    push_links(tables, &links, graph)
}
