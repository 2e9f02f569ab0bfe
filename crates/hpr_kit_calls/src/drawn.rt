//! Calls of hpr_drawn on programs.
use crate::graphs::program_graph;
use crate::put::put_value;
use crate::sources::sources;
use hpr_drawn::{LeftOut, dot_text, graph_json};
use hpr_graph::Graph;
use hpr_rows::{Out, Row, put_made};

/// Answers the call.
pub(crate) fn call(row: Row<'_>, out: &mut Out) -> Option<()> {
    let graph = program_graph(row, 2)?;
    match row.word(1)? {
        "json" => json(row, out, &graph),
        "dot" => dot(row, out, &graph),
        _ => None,
    }
}

// `json PROGRAM FILE..`: the graph, with the places of its vertices in these files.
fn json(row: Row<'_>, out: &mut Out, graph: &Graph) -> Option<()> {
    let sources = sources(row, 3)?;
    put_value(row.alloc, out, graph_json(row.alloc, graph, &sources));
    Some(())
}

fn is_named(words: &[String], kind: &str) -> bool {
    words.iter().any(|word| word.as_str() == kind)
}

// `dot PROGRAM KIND..`: the picture of the graph, without the edges of these kinds.
fn dot(row: Row<'_>, out: &mut Out, graph: &Graph) -> Option<()> {
    let words = row.rest(3);
    let left_out = LeftOut {
        control: is_named(words, "control"),
        flow: is_named(words, "flow"),
        order: is_named(words, "order"),
    };
    let program = row.program(2)?;
    put_made(out, dot_text(row.alloc, &program, graph, left_out));
    Some(())
}
