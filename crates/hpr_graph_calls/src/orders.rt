//! Calls of hpr_order, hpr_rebuild and hpr_split.
ghost use Rattle.std.specs.Prelude.{◌≤◌, IsTrue, Contains, IfOk};
ghost use Rattle.hpr_graph.specs.declared.vertex.Vertex.{Vertex};
ghost use Rattle.hpr_graph.specs.Arrangements.{AreArrangements};
ghost use Rattle.hpr_graph.specs.Numbered.{graph_in};
ghost use Rattle.hpr_graph.specs.Whole.{IsWhole};
ghost use Rattle.hpr_order.specs.Arranging.{IsPreorderOf};
ghost use Rattle.hpr_order.specs.Regions.{AreRegionsOf};
ghost use Rattle.hpr_rebuild.specs.Parts.{IsIssuedPart};

use crate::graph::{put_vertex, put_vertices};
use crate::spelled::{graph, program_graph};
use crate::split;
use crate::tries::{clash, tries_made};
use hpr_graph::{Graph, Vertex};
use hpr_merge::merge;
use hpr_order::{Arrangements, OrderError, RegionTree, arrange, parts, rank, regions};
use hpr_rebuild::{RebuildError, rebuild};
use hpr_rows::{Out, Row, put, put_counted, put_program, put_tag, truth};
use hpr_syntax::{Issued, Program};
use hpr_terms::NoMemory;
use std::alloc::Global;

/// Answers the call.
pub(crate) fn call(row: Row<'_>, out: &mut Out) -> Option<()> {
    match row.word(1)? {
        "rank" => ranked(row, out),
        "parts" => in_preorder(row, out),
        "merged" => merged(row, out),
        "split" => split::call(row, out),
        _ => of_graph(row, out),
    }
}

// The calls of one graph.
fn of_graph(row: Row<'_>, out: &mut Out) -> Option<()> {
    let graph = graph(row, 2)?;
    match row.word(1)? {
        "regions" => put_regions(row.alloc, out, &graph),
        "rebuild" => found(row, out, &graph)?,
        "tries" => tries_made(row, out, &graph)?,
        "clash" => clash(row, out, &graph)?,
        _ => in_regions(row, out, &graph)?,
    }
    Some(())
}

fn rank_of(alloc: Global, out: &mut Out, programs: &[Program]) -> Option<()> {
    let [a, b, base] = programs else {
        return None;
    };
    let vertices = rank(alloc, a, b, base).ok()?;
    put_vertices(alloc, out, &vertices);
    Some(())
}

// `rank A B BASE`: the parts by their rank.
fn ranked(row: Row<'_>, out: &mut Out) -> Option<()> {
    let programs = row.programs(2, 5)?;
    rank_of(row.alloc, out, &programs)
}

// `parts P`: the parts of a program in preorder.
fn in_preorder(row: Row<'_>, out: &mut Out) -> Option<()> {
    let program = row.program(2)?;
    let vertices = parts(row.alloc, &program).ok()?;
    put_vertices(row.alloc, out, &vertices);
    Some(())
}

fn put_parent(out: &mut Out, parent: Option<(usize, bool)>) {
    match parent {
        Some((source, label)) => {
            put_counted(out, " ", source);
            put(out, &[" ", truth(label), ","]);
        }
        None => out.put_piece(" none,"),
    }
}

fn put_parents(out: &mut Out, graph: &Graph, tree: &RegionTree)
    requires { AreRegionsOf graph.now tree.now }
{
    out.put_piece("parents");
    for at in 0..graph.vertex_count() {
        put_parent(out, tree.parent(at));
    }
    out.put_piece("\n");
}

fn put_refusal(alloc: Global, out: &mut Out, error: &OrderError) {
    match error {
        OrderError::TwoContents(tag) => {
            out.put_piece("two contents of ");
            put_tag(out, *tag);
            out.put_piece("\n");
        }
        OrderError::Impossible(vertex) => {
            out.put_piece("impossible: ");
            put_vertex(alloc, out, vertex);
            out.put_piece("\n");
        }
        OrderError::Memory => out.cut(),
    }
}

// `regions GRAPH`: what each vertex stands under, or why there is no tree.
fn put_regions(alloc: Global, out: &mut Out, graph: &Graph) {
    match regions(alloc, graph) {
        Ok(tree) => put_parents(out, graph, &tree),
        Err(error) => put_refusal(alloc, out, &error),
    }
}

fn merged_of(alloc: Global, out: &mut Out, base: &Graph, a: &Graph, b: &Graph) -> Option<()>
    requires base { IsWhole (graph_in base.now) }
    requires a { IsWhole (graph_in a.now) }
    requires b { IsWhole (graph_in b.now) }
{
    let merged = merge(alloc, base, a, b).ok()?;
    put_regions(alloc, out, &merged.graph);
    Some(())
}

// `merged BASE A B`: the same of the merged graph of three programs.
fn merged(row: Row<'_>, out: &mut Out) -> Option<()> {
    let base = program_graph(row, 2)?;
    let a = program_graph(row, 3)?;
    let b = program_graph(row, 4)?;
    merged_of(row.alloc, out, &base, &a, &b)
}

fn raise(issued: &mut Issued, vertex: &Vertex) -> Option<()> {
    match vertex {
        Vertex::Part(tag, _) if tag.serial >= 1 => issued.raise(tag.author, tag.serial).ok(),
        _ => Some(()),
    }
}

/// The numbers that the parts of a graph need.
pub(crate) fn issued_of(alloc: Global, graph: &Graph) -> Option<Issued> {
    let mut issued = Issued::new(alloc);
    for vertex in graph.vertices() {
        raise(&mut issued, vertex)?;
    }
    Some(issued)
}

// Whether the vertex is no part, or one whose serial was issued.
fn is_issued(vertex: &Vertex, issued: &Issued) -> bool
    ensures { IsTrue result → IsIssuedPart issued.now vertex.now }
{
    match vertex {
        Vertex::Part(tag, _) => tag.serial >= 1 && tag.serial <= issued.get(tag.author),
        _ => true,
    }
}

/// Whether each part of the graph has a serial that was issued.
pub(crate) fn are_issued(vertices: &[Vertex], issued: &Issued) -> bool
    ensures { IsTrue result → (v : Vertex) → Contains vertices.now v → IsIssuedPart issued.now v }
{
    for vertex in vertices {
        if !is_issued(vertex, issued) {
            return false;
        }
    }
    true
}

// All arrangements, by the order of the graph's own vertices.
fn begin(
    alloc: Global,
    graph: &Graph,
    tree: &RegionTree,
    issued: &Issued,
) -> Result<Arrangements, NoMemory>
    requires { AreRegionsOf graph.now tree.now }
    ensures { IfOk result (λ all. AreArrangements (graph_in graph.now) graph.now.vertices issued.now all) }
{
    let rank = graph.vertices();
    if !are_issued(rank, issued) {
        return Err(NoMemory);
    }
    let all = Arrangements::start(alloc, graph, tree, rank, issued)?;
    Ok(all)
}

fn next_one(alloc: Global, out: &mut Out, all: &mut Arrangements) -> Option<()> {
    match all.next_one().ok()? {
        Some(program) => put_program(alloc, out, &program),
        None => out.put_piece("no more\n"),
    }
    Some(())
}

fn first(alloc: Global, out: &mut Out, all: &mut Arrangements, most: usize) -> Option<()> {
    for _ in 0..most {
        next_one(alloc, out, all)?;
    }
    Some(())
}

// `arrangements GRAPH MOST`: the first arrangements, where the vertices stand by their rank.
fn arrangements(
    row: Row<'_>,
    out: &mut Out,
    graph: &Graph,
    tree: &RegionTree,
    issued: &Issued,
) -> Option<()>
    requires { AreRegionsOf graph.now tree.now }
{
    let most = row.number(3)?;
    let mut all = begin(row.alloc, graph, tree, issued).ok()?;
    first(row.alloc, out, &mut all, most)
}

fn next(all: &mut Arrangements) -> Result<Program, NoMemory>
    ensures { IfOk result (λ p. Contains all.old p) }
{
    match all.next_one()? {
        Some(program) => Ok(program),
        None => Err(NoMemory),
    }
}

// The numbers of the program's parts in preorder.
fn numbers_of(alloc: Global, graph: &Graph, program: &Program) -> Result<Vec<usize>, NoMemory>
    ensures { IfOk result (λ ns. IsPreorderOf graph.now ns.items program.now) }
{
    let rows = program.preorder(alloc)?;
    let mut numbers = Vec::new(alloc);
    for row in &rows {
        let part = Vertex::Part(row.tag, row.content.copy(alloc)?);
        let Some(number) = graph.number_of(&part) else {
            return Err(NoMemory);
        };
        numbers.push(number)?;
    }
    Ok(numbers)
}

// The first arrangement, made again from the numbers of its parts.
fn made_again(
    alloc: Global,
    graph: &Graph,
    tree: &RegionTree,
    issued: &Issued,
) -> Result<Program, NoMemory>
    requires { AreRegionsOf graph.now tree.now }
{
    let mut all = begin(alloc, graph, tree, issued)?;
    let first = next(&mut all)?;
    let order = numbers_of(alloc, graph, &first)?;
    arrange(alloc, graph, tree, &order, issued)
}

// `arrange GRAPH`: the first arrangement, made again from the numbers of its parts.
fn arranged(
    alloc: Global,
    out: &mut Out,
    graph: &Graph,
    tree: &RegionTree,
    issued: &Issued,
) -> Option<()>
    requires { AreRegionsOf graph.now tree.now }
{
    let again = made_again(alloc, graph, tree, issued).ok()?;
    put_program(alloc, out, &again);
    Some(())
}

fn in_tree(row: Row<'_>, out: &mut Out, graph: &Graph, tree: &RegionTree) -> Option<()>
    requires { AreRegionsOf graph.now tree.now }
{
    let issued = issued_of(row.alloc, graph)?;
    match row.word(1)? {
        "arrangements" => arrangements(row, out, graph, tree, &issued),
        _ => arranged(row.alloc, out, graph, tree, &issued),
    }
}

fn in_regions(row: Row<'_>, out: &mut Out, graph: &Graph) -> Option<()> {
    let tree = regions(row.alloc, graph).ok()?;
    in_tree(row, out, graph, &tree)
}

fn rebuilt(
    alloc: Global,
    graph: &Graph,
    issued: &Issued,
    tries: u64,
) -> Result<Program, RebuildError>
    requires { 1 ≤ tries }
{
    if are_issued(graph.vertices(), issued) {
        return rebuild(alloc, graph, graph.vertices(), issued, tries);
    }
    Err(RebuildError::Memory)
}

fn put_rebuilt(alloc: Global, out: &mut Out, graph: &Graph, issued: &Issued, tries: u64) {
    if tries == 0 {
        return;
    }
    match rebuilt(alloc, graph, issued, tries) {
        Ok(program) => put_program(alloc, out, &program),
        Err(RebuildError::NoProgram) => out.put_piece("no program\n"),
        Err(RebuildError::Spent) => out.put_piece("spent\n"),
        Err(RebuildError::Memory) => out.cut(),
    }
}

// `rebuild GRAPH TRIES`: the program that is found, where the vertices stand by their rank.
fn found(row: Row<'_>, out: &mut Out, graph: &Graph) -> Option<()> {
    let tries = row.count(3)?;
    let issued = issued_of(row.alloc, graph)?;
    put_rebuilt(row.alloc, out, graph, &issued, tries);
    Some(())
}
