//! Graphs of programs.
ghost use Rattle.std.specs.Prelude.{IfOk, IfSome};
ghost use Rattle.hpr_graph.specs.Numbered.{graph_in, graphs_in};
ghost use Rattle.hpr_graph.specs.Whole.{AreAll, IsWhole};

use hpr_build::{BuildError, graph_of};
use hpr_graph::Graph;
use hpr_rows::Row;
use hpr_syntax::Program;
use std::alloc::Global;

// The graph of a program. That it is whole is learnt by looking at the program.
fn whole_graph(alloc: Global, program: &Program) -> Result<Graph, BuildError>
    ensures { IfOk result (λ g. IsWhole (graph_in g)) }
{
    let _body = program.body();
    graph_of(alloc, program, 1000)
}

/// The graph of the program that the text spells whose name stands at this place.
pub(crate) fn program_graph(row: Row<'_>, at: usize) -> Option<Graph>
    ensures { IfSome result (λ g. IsWhole (graph_in g)) }
{
    let program = row.program(at)?;
    match whole_graph(row.alloc, &program) {
        Ok(graph) => Some(graph),
        Err(_) => None,
    }
}

/// The graphs of the programs that the texts spell whose names stand from this place on.
#[tactic(auto, using(crate::proofs::ManyGraphs::whole_push))]
pub(crate) fn program_graphs(row: Row<'_>, from: usize) -> Option<Vec<Graph>>
    ensures { IfSome result (λ gs. AreAll IsWhole (graphs_in gs.items)) }
{
    let mut graphs = Vec::new(row.alloc);
    for at in from..row.words.len() {
        graphs.push(program_graph(row, at)?).ok()?;
    }
    Some(graphs)
}
