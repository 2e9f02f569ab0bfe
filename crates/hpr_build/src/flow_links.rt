//! The flow edges of a graph.
ghost use Rattle.std.specs.Prelude.{◌≡◌, ◌↔◌, ◌⊎◌, ℕ, [], Contains, IfOk, OnOk, IfSome, IfNone, IsErrOf, map};
ghost use Rattle.hpr_search.specs.Marks.{IsMarked};
ghost use Rattle.hpr_paths.specs.Successors.{spots};
ghost use Rattle.hpr_graph.specs.declared.link.Link.{Link};
ghost use Rattle.hpr_graph.specs.Numbered.{HasLink};
ghost use Rattle.hpr_build.specs.declared.flow_links.Source.{Source};
ghost use Rattle.hpr_build.specs.declared.pushes.NewLink.{NewLink};
ghost use Rattle.hpr_build.specs.Links.{IsFlowLink, IsSourceAt, HasMoreLinks};
ghost use Rattle.hpr_build.specs.NewLinks.{link_kind, target_of, flow_link, IsInitialAt, FlowsFrom, FlowsOf};
ghost use Rattle.hpr_graph.specs.Graphs.{IsOnce};
ghost use Rattle.hpr_build.specs.Stages.{AreTables, IsVariable, IsBegun};
ghost use Rattle.hpr_build.specs.Variables.{IsFreeRow};

use crate::error::BuildError;
use crate::flows::{Flow, FlowKind, enter_flows, flows_from, marked};
use crate::pushes::{NewLink, push_links};
use crate::tables::{Tables, Variable, variable_at};
use crate::variables::place_near;
use hpr_graph::{Draft, Link, LinkKind};
use hpr_paths::{Name, NoMemory};
use hpr_reach::BitRow;
use std::alloc::Global;

/// A vertex that defines a name, by its number, with the point where it does: a part at its own, an
/// initial definition at Enter.
#[derive(Clone, Copy)]
struct Source {
    number: usize,
    point: usize,
}

/// The parts that are definitions.
fn part_sources(alloc: Global, definitions: &[usize]) -> Result<Vec<Source>, NoMemory>
    ensures { IfOk result (λ v. v.items ≡ map (λ p. record { number = p; point = p }) definitions.now) }
{
    let mut sources = Vec::new(alloc);
    for point in definitions {
        sources.push(Source {
            number: *point,
            point: *point,
        })?;
    }
    Ok(sources)
}

/// The number of the vertex of the initial definition of the name, if the program takes it from before. It is looked for
/// first at the place `near` among these names.
fn initial_number(tables: &Tables, name: &Name, near: usize) -> Option<usize>
    requires { AreTables tables.now }
    ensures some { IfSome result (λ v. IsInitialAt tables.now.program.now tables.now.inits.items name.now 0 v) }
    ensures none { IfNone result (¬ Contains tables.now.inits.items name.now) }
{
    match place_near(&tables.inits, name, near) {
        Some(place) => Some(tables.vertex_count - tables.inits.len() + place),
        None => None,
    }
}

/// Puts the initial definition of the name behind the others, if the program takes it from before.
fn push_initial(
    tables: &Tables,
    variable: &Variable,
    into: &mut Vec<Source>,
) -> Result<(), NoMemory>
    requires { AreTables tables.now }
    ensures exact { OnOk result ((s : Source) → Contains into.new.items s
        ↔ (Contains into.old.items s
        ⊎ IsInitialAt tables.now.program.now tables.now.inits.items variable.now.name.now s.point s.number)) }
    ensures once { OnOk result (IsOnce into.old.items → ((s : Source) → Contains into.old.items s → ¬ (s.point ≡ 0))
        → IsOnce into.new.items) }
{
    match initial_number(tables, variable.name, variable.place) {
        Some(number) => {
            into.push(Source { number, point: 0 })?;
            Ok(())
        }
        None => Ok(()),
    }
}

/// The vertices that define the name.
fn sources_of(alloc: Global, tables: &Tables, variable: &Variable) -> Result<Vec<Source>, NoMemory>
    requires tables { AreTables tables.now }
    requires variable { IsVariable tables.now.program.now variable.now }
    ensures exact { IfOk result (λ v. (s : Source) → Contains v.items s
        ↔ IsSourceAt tables.now.program.now tables.now.inits.items variable.now.name.now s.point s.number) }
    ensures once { IfOk result (λ v. IsOnce v.items) }
{
    let mut sources = part_sources(alloc, variable.definitions)?;
    push_initial(tables, variable, &mut sources)?;
    Ok(sources)
}

fn link_kind(kind: FlowKind) -> LinkKind
    ensures { result ≡ link_kind kind }
{
    match kind {
        FlowKind::Independent => LinkKind::Independent,
        FlowKind::Carried(w) => LinkKind::Carried(w),
    }
}

/// The number of the vertex that uses a name at the point: that of the part, and at Exit that of the
/// name's vertex of `end`.
pub(crate) fn target_of(exit: usize, final_number: usize, point: usize) -> usize
    ensures { result ≡ target_of exit final_number point }
{
    if point < exit { point } else { final_number }
}

/// The flow edges from this source as links.
fn flow_links(
    alloc: Global,
    exit: usize,
    final_number: usize,
    source: usize,
    flows: &[Flow],
) -> Result<Vec<NewLink>, NoMemory>
    ensures { IfOk result (λ links. links.items ≡ map (flow_link exit final_number source) flows.now) }
{
    let mut links = Vec::with_capacity(alloc, flows.len())?;
    for flow in flows {
        links.push(NewLink {
            to: target_of(exit, final_number, flow.to),
            link: Link {
                from: source,
                kind: link_kind(flow.kind),
            },
        })?;
    }
    Ok(links)
}

/// The flow edges from one source as links.
fn links_from(
    alloc: Global,
    tables: &Tables,
    variable: &Variable,
    users: &[bool],
    source: Source,
) -> Result<Vec<NewLink>, NoMemory>
    requires tables { AreTables tables.now }
    requires variable { IsVariable tables.now.program.now variable.now }
    requires users { (p : ℕ) → IsMarked users.now p ↔ Contains variable.now.users.now p }
    requires source { IsSourceAt tables.now.program.now tables.now.inits.items variable.now.name.now
        source.point source.number }
    ensures exact { IfOk result (λ links. (n : NewLink) → Contains links.items n
        ↔ FlowsFrom tables.now.program.now variable.now.name.now source.point source.number n.to n.link) }
    ensures once { IfOk result (λ links. IsOnce links.items) }
{
    let name = variable.name;
    let flows = flows_from(alloc, &tables.succ, source.point, name, users)?;
    let number = variable.final_number;
    let links = flow_links(alloc, tables.exit, number, source.number, &flows)?;
    Ok(links)
}

/// Puts the flow edges from one source into the graph.
fn push_flows_from(
    alloc: Global,
    tables: &Tables,
    variable: &Variable,
    users: &[bool],
    source: Source,
    graph: &mut Draft,
) -> Result<(), BuildError>
    requires tables { AreTables tables.now }
    requires variable { IsVariable tables.now.program.now variable.now }
    requires users { (p : ℕ) → IsMarked users.now p ↔ Contains variable.now.users.now p }
    requires source { IsSourceAt tables.now.program.now tables.now.inits.items variable.now.name.now
        source.point source.number }
    requires begun { IsBegun tables.now.program.now tables.now.inits.items tables.now.most graph.old }
    requires fresh { (to : ℕ) (l : Link) → HasLink graph.old to l
        → ¬ FlowsFrom tables.now.program.now variable.now.name.now source.point source.number to l }
    ensures begun { OnOk result (IsBegun tables.now.program.now tables.now.inits.items tables.now.most graph.new) }
    ensures added { OnOk result ((to : ℕ) (l : Link) → HasLink graph.new to l
        ↔ (HasLink graph.old to l
        ⊎ FlowsFrom tables.now.program.now variable.now.name.now source.point source.number to l)) }
    ensures too_many { IsErrOf result BuildError.TooManyEdges
        → HasMoreLinks tables.now.program.now tables.now.inits.items tables.now.most }
{
    let links = links_from(alloc, tables, variable, users, source)?;
    push_links(tables, &links, graph)
}

/// The flow edges for a name that no part defines as links, where the row marks what it reaches, and the number is
/// that of its initial definition.
fn free_links(
    alloc: Global,
    tables: &Tables,
    variable: &Variable,
    row: &BitRow,
    number: usize,
) -> Result<Vec<NewLink>, NoMemory>
    requires tables { AreTables tables.now }
    requires variable { IsVariable tables.now.program.now variable.now }
    requires none { variable.now.definitions.now ≡ [] }
    requires row { IsFreeRow (spots tables.now.program.now) row.now }
    requires number { IsInitialAt tables.now.program.now tables.now.inits.items variable.now.name.now 0 number }
    ensures exact { IfOk result (λ links. (n : NewLink) → Contains links.items n
        ↔ FlowsOf tables.now.program.now tables.now.inits.items variable.now.name.now n.to n.link) }
    ensures once { IfOk result (λ links. IsOnce links.items) }
{
    let flows = enter_flows(alloc, row, variable.users)?;
    flow_links(alloc, tables.exit, variable.final_number, number, &flows)
}

/// Puts the flow edges for a name that no part defines into the graph, where the row marks what it reaches. Looks at
/// its users alone.
fn push_free_flows(
    alloc: Global,
    tables: &Tables,
    variable: &Variable,
    row: &BitRow,
    graph: &mut Draft,
) -> Result<(), BuildError>
    requires tables { AreTables tables.now }
    requires variable { IsVariable tables.now.program.now variable.now }
    requires none { variable.now.definitions.now ≡ [] }
    requires row { IsFreeRow (spots tables.now.program.now) row.now }
    requires begun { IsBegun tables.now.program.now tables.now.inits.items tables.now.most graph.old }
    requires fresh { (to : ℕ) (l : Link) → HasLink graph.old to l
        → ¬ FlowsOf tables.now.program.now tables.now.inits.items variable.now.name.now to l }
    ensures begun { OnOk result (IsBegun tables.now.program.now tables.now.inits.items tables.now.most graph.new) }
    ensures added { OnOk result ((to : ℕ) (l : Link) → HasLink graph.new to l
        ↔ (HasLink graph.old to l ⊎ FlowsOf tables.now.program.now tables.now.inits.items variable.now.name.now to l)) }
    ensures too_many { IsErrOf result BuildError.TooManyEdges
        → HasMoreLinks tables.now.program.now tables.now.inits.items tables.now.most }
{
    match initial_number(tables, variable.name, variable.place) {
        Some(number) => {
            let links = free_links(alloc, tables, variable, row, number)?;
            push_links(tables, &links, graph)
        }
        None => Ok(()),
    }
}

/// Puts the flow edges for a name from each of its sources into the graph.
fn push_flows_of_sources(
    alloc: Global,
    tables: &Tables,
    variable: &Variable,
    graph: &mut Draft,
) -> Result<(), BuildError>
    requires tables { AreTables tables.now }
    requires variable { IsVariable tables.now.program.now variable.now }
    requires begun { IsBegun tables.now.program.now tables.now.inits.items tables.now.most graph.old }
    requires fresh { (to : ℕ) (l : Link) → HasLink graph.old to l
        → ¬ FlowsOf tables.now.program.now tables.now.inits.items variable.now.name.now to l }
    ensures begun { OnOk result (IsBegun tables.now.program.now tables.now.inits.items tables.now.most graph.new) }
    ensures added { OnOk result ((to : ℕ) (l : Link) → HasLink graph.new to l
        ↔ (HasLink graph.old to l ⊎ FlowsOf tables.now.program.now tables.now.inits.items variable.now.name.now to l)) }
    ensures too_many { IsErrOf result BuildError.TooManyEdges
        → HasMoreLinks tables.now.program.now tables.now.inits.items tables.now.most }
{
    let sources = sources_of(alloc, tables, variable)?;
    let users = marked(alloc, tables.succ.points(), variable.users)?;
    for source in &sources {
        push_flows_from(alloc, tables, variable, &users, *source, graph)?;
    }
    Ok(())
}

/// Puts the flow edges for one name into the graph. A name that no part defines takes no search of its own, where
/// there is a row for all of them.
fn push_flows_of(
    alloc: Global,
    tables: &Tables,
    variable: &Variable,
    graph: &mut Draft,
) -> Result<(), BuildError>
    requires tables { AreTables tables.now }
    requires variable { IsVariable tables.now.program.now variable.now }
    requires begun { IsBegun tables.now.program.now tables.now.inits.items tables.now.most graph.old }
    requires fresh { (to : ℕ) (l : Link) → HasLink graph.old to l
        → ¬ FlowsOf tables.now.program.now tables.now.inits.items variable.now.name.now to l }
    ensures begun { OnOk result (IsBegun tables.now.program.now tables.now.inits.items tables.now.most graph.new) }
    ensures added { OnOk result ((to : ℕ) (l : Link) → HasLink graph.new to l
        ↔ (HasLink graph.old to l ⊎ FlowsOf tables.now.program.now tables.now.inits.items variable.now.name.now to l)) }
    ensures too_many { IsErrOf result BuildError.TooManyEdges
        → HasMoreLinks tables.now.program.now tables.now.inits.items tables.now.most }
{
    if variable.definitions.is_empty() {
        if let Some(row) = &tables.free {
            return push_free_flows(alloc, tables, variable, row, graph);
        }
    }
    push_flows_of_sources(alloc, tables, variable, graph)
}

/// Puts the flow edges into the graph.
pub(crate) fn push_flows(
    alloc: Global,
    tables: &Tables,
    graph: &mut Draft,
) -> Result<(), BuildError>
    requires tables { AreTables tables.now }
    requires begun { IsBegun tables.now.program.now tables.now.inits.items tables.now.most graph.old }
    requires fresh { (to : ℕ) (l : Link) → HasLink graph.old to l
        → ¬ IsFlowLink tables.now.program.now tables.now.inits.items to l }
    ensures begun { OnOk result (IsBegun tables.now.program.now tables.now.inits.items tables.now.most graph.new) }
    ensures added { OnOk result ((to : ℕ) (l : Link) → HasLink graph.new to l
        ↔ (HasLink graph.old to l ⊎ IsFlowLink tables.now.program.now tables.now.inits.items to l)) }
    ensures too_many { IsErrOf result BuildError.TooManyEdges
        → HasMoreLinks tables.now.program.now tables.now.inits.items tables.now.most }
{
    for at in 0..tables.variables.names.len() {
        push_flows_of(alloc, tables, &variable_at(tables, at), graph)?;
    }
    Ok(())
}
