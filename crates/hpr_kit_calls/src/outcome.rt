//! Calls of hpr_outcome on programs, and of hpr_told.
ghost use Rattle.std.specs.Prelude.{◌≡◌, ◌≤◌, [], ◌∷◌, IfOk, IfSome, length};
ghost use Rattle.hpr_engine.specs.Made.{IsGraphOf};

use crate::graphs::program_graph;
use crate::put::put_value;
use crate::sources::sources;
use hpr_build::graph_of;
use hpr_graph::{Graph, Tag, Vertex};
use hpr_outcome::{FirstClash, Outcome, Sought, merge_outcome};
use hpr_rows::{Out, Row, put_count, put_program, put_tag};
use hpr_syntax::Program;
use hpr_terms::NoMemory;
use hpr_told::outcome_value;
use std::alloc::Global;

/// Answers the call.
pub(crate) fn call(row: Row<'_>, out: &mut Out) -> Option<()> {
    match row.word(1)? {
        "told" => told(row, out),
        _ => made(row, out),
    }
}

// The graph of a program. That it is a program, and its vertices stand once, is learnt by looking at them.
fn made_graph(alloc: Global, program: &Program) -> Option<Graph>
    ensures { IfSome result (IsGraphOf program.now) }
{
    let _body = program.body();
    match graph_of(alloc, program, 1000) {
        Ok(graph) => {
            let _vertices = graph.vertices();
            Some(graph)
        }
        Err(_) => None,
    }
}

fn two_graphs(alloc: Global, first: Graph, second: Graph) -> Result<Vec<Graph>, NoMemory>
    ensures { IfOk result (λ graphs. graphs.items ≡ first ∷ second ∷ []) }
{
    Ok(vec![in alloc; first, second]?)
}

// What two variants of a base come to.
fn outcome_of(alloc: Global, base: &Program, variants: &[Program], tries: u64) -> Option<Outcome>
    requires two { length variants.now ≡ 2 }
    requires tries { 1 ≤ tries }
{
    let base_graph = made_graph(alloc, base)?;
    let first = made_graph(alloc, &variants[0])?;
    let second = made_graph(alloc, &variants[1])?;
    match two_graphs(alloc, first, second) {
        Ok(graphs) => merge_outcome(alloc, base, variants, &base_graph, &graphs, tries).ok(),
        Err(_) => None,
    }
}

fn put_sought(out: &mut Out, sought: &Sought) {
    put_count(out, "tries ", sought.tries);
    for (_, tag) in &sought.renamed {
        out.put_piece("new tag ");
        put_tag(out, *tag);
        out.put_piece("\n");
    }
}

fn put_part(out: &mut Out, vertices: &[Vertex], number: usize) {
    out.put_piece(" ");
    if let Some(Vertex::Part(tag, _)) = vertices.get(number) {
        put_tag(out, *tag);
    }
}

fn put_clash(out: &mut Out, vertices: &[Vertex], clash: &Option<FirstClash>) {
    match clash {
        Some(clash) => {
            out.put_piece("behind");
            for number in &clash.front {
                put_part(out, vertices, *number);
            }
            out.put_piece(" clash");
            put_part(out, vertices, clash.part);
            out.put_piece("\n");
        }
        None => out.put_piece("no clash\n"),
    }
}

fn put_outcome(alloc: Global, out: &mut Out, outcome: &Outcome) {
    match outcome {
        Outcome::Interference(conflicts) => put_count(out, "interference ", conflicts.len() as u64),
        Outcome::Merged(program, sought) => {
            put_program(alloc, out, program);
            put_sought(out, sought);
        }
        Outcome::NoProgram(sought, clash) => {
            out.put_piece("no program\n");
            put_sought(out, sought);
            put_clash(out, sought.graph.vertices(), clash);
        }
        Outcome::Spent(sought, clash) => {
            out.put_piece("spent\n");
            put_sought(out, sought);
            put_clash(out, sought.graph.vertices(), clash);
        }
    }
}

// `made TRIES BASE A B`: what their integration comes to, in lines.
fn made(row: Row<'_>, out: &mut Out) -> Option<()> {
    let tries = row.count(2)?;
    let base = row.program(3)?;
    let variants = row.programs(4, 6)?;
    if tries == 0 || variants.len() != 2 {
        return None;
    }
    let outcome = outcome_of(row.alloc, &base, &variants, tries)?;
    put_outcome(row.alloc, out, &outcome);
    Some(())
}

// A search with so many tries, in which the first vertex behind the entry got a new tag.
fn sought(alloc: Global, graph: Graph, tries: u64) -> Option<Sought> {
    let part = graph.vertices().get(1)?.copy(alloc).ok()?;
    let tag = Tag {
        author: 0,
        serial: 1,
    };
    let renamed = vec![in alloc; (part, tag)].ok()?;
    Some(Sought {
        graph,
        renamed,
        tries,
    })
}

// `told TRIES PROGRAM FILE..`: the answer where the tries for the graph of this program are spent, and the first vertex behind
// the entry clashes with it.
fn told(row: Row<'_>, out: &mut Out) -> Option<()> {
    let graph = program_graph(row, 3)?;
    let sought = sought(row.alloc, graph, row.count(2)?)?;
    let sources = sources(row, 4)?;
    if sought.graph.vertex_count() < 2 {
        return None;
    }
    let front = vec![in row.alloc; 0].ok()?;
    let outcome = Outcome::Spent(sought, Some(FirstClash { front, part: 1 }));
    put_value(row.alloc, out, outcome_value(row.alloc, &outcome, &sources));
    Some(())
}
