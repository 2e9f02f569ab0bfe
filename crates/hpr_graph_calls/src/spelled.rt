//! Graphs that texts spell.
ghost use Rattle.std.specs.Prelude.{IfOk, IfSome};
ghost use Rattle.hpr_graph.specs.Numbered.{graph_in, graphs_in};
ghost use Rattle.hpr_graph.specs.Whole.{AreAll, IsWhole};

use hpr_build::{BuildError, graph_of};
use hpr_graph::{Draft, Graph, Link, LinkKind, Vertex};
use hpr_rows::{Row, name_of, tag_of};
use hpr_syntax::Program;
use hpr_text::read_content;
use std::alloc::Global;

// `1.1 x := 1;`
fn part(alloc: Global, text: &str) -> Option<Vertex> {
    let (tag, content) = text.split_once(' ')?;
    let tag = tag_of(tag)?;
    let (content, _) = read_content(alloc, content.as_bytes(), 0).ok()?;
    Some(Vertex::Part(tag, content))
}

/// The vertex of a line `entry`, `init x`, `part 1.1 x := 1;` or `final x`.
pub(crate) fn vertex(alloc: Global, line: &str) -> Option<Vertex> {
    if line == "entry" {
        return Some(Vertex::Entry);
    }
    let (kind, rest) = line.split_once(' ')?;
    match kind {
        "init" => Some(Vertex::Init(name_of(alloc, rest)?)),
        "part" => part(alloc, rest),
        "final" => Some(Vertex::Final(name_of(alloc, rest)?)),
        _ => None,
    }
}

// `carried LOOP` or `order USE`
fn numbered_kind(text: &str) -> Option<LinkKind> {
    let (kind, number) = text.split_once(' ')?;
    let number = number.parse().ok()?;
    match kind {
        "carried" => Some(LinkKind::Carried(number)),
        "order" => Some(LinkKind::Order(number)),
        _ => None,
    }
}

fn kind(text: &str) -> Option<LinkKind> {
    match text {
        "control true" => Some(LinkKind::Control(true)),
        "control false" => Some(LinkKind::Control(false)),
        "independent" => Some(LinkKind::Independent),
        _ => numbered_kind(text),
    }
}

/// The target and the link of a line `TO FROM KIND`.
pub(crate) fn link(line: &str) -> Option<(usize, Link)> {
    let (to, rest) = line.split_once(' ')?;
    let (from, text) = rest.split_once(' ')?;
    let to = to.parse().ok()?;
    let from = from.parse().ok()?;
    let kind = kind(text)?;
    Some((to, Link { from, kind }))
}

fn add_link(draft: &mut Draft, line: &str) -> Option<()> {
    let (to, link) = link(line)?;
    if draft.is_link(to, link) {
        return draft.add_link(to, link).ok();
    }
    None
}

fn add_vertex(draft: &mut Draft, vertex: Vertex) -> Option<()> {
    draft.add_vertex(vertex).ok()?;
    Some(())
}

fn add_line(alloc: Global, draft: &mut Draft, line: &str) -> Option<()> {
    match vertex(alloc, line) {
        Some(vertex) => add_vertex(draft, vertex),
        None => add_link(draft, line),
    }
}

/// The draft that the lines of a text spell, a vertex or a link a line.
pub(crate) fn draft(alloc: Global, text: &str) -> Option<Draft> {
    let mut draft = Draft::empty(alloc);
    for line in text.lines() {
        add_line(alloc, &mut draft, line)?;
    }
    Some(draft)
}

// The graph of a program. That it is whole is learnt by looking at the program.
fn whole_graph(alloc: Global, program: &Program) -> Result<Graph, BuildError>
    ensures { IfOk result (λ g. IsWhole (graph_in g)) }
{
    let _body = program.body();
    graph_of(alloc, program, 1000)
}

/// The graph of the program that the text spells whose name stands at this place.
pub(crate) fn program_graph(row: Row<'_>, at: usize) -> Option<Graph>
    ensures { IfSome result (λ g. IsWhole (graph_in g)) }
{
    let program = row.program(at)?;
    match whole_graph(row.alloc, &program) {
        Ok(graph) => Some(graph),
        Err(_) => None,
    }
}

/// The graphs of the programs that the texts spell whose names stand from this place on.
#[tactic(auto, using(crate::proofs::ManyGraphs::whole_push))]
pub(crate) fn program_graphs(row: Row<'_>, from: usize) -> Option<Vec<Graph>>
    ensures { IfSome result (λ gs. AreAll IsWhole (graphs_in gs.items)) }
{
    let mut graphs = Vec::new(row.alloc);
    for at in from..row.words.len() {
        graphs.push(program_graph(row, at)?).ok()?;
    }
    Some(graphs)
}

/// The graph of the text that the word at this place names: that of the program that it spells, or else
/// the one that its lines spell.
pub(crate) fn graph(row: Row<'_>, at: usize) -> Option<Graph> {
    let text = row.text(at)?;
    if text.starts_with("program") {
        return program_graph(row, at);
    }
    Some(draft(row.alloc, text)?.finish())
}

fn push_graph(row: Row<'_>, graphs: &mut Vec<Graph>, at: usize) -> Option<()> {
    graphs.push(graph(row, at)?).ok()
}

/// The graphs of the words from one place up to another.
pub(crate) fn graphs(row: Row<'_>, from: usize, to: usize) -> Option<Vec<Graph>> {
    let mut graphs = Vec::new(row.alloc);
    for at in from..to {
        push_graph(row, &mut graphs, at)?;
    }
    Some(graphs)
}
