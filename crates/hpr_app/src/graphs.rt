//! The graphs of files.
ghost use Rattle.std.specs.Prelude.{◌≡◌, ◌++◌, IfOk, codes, string_bytes};
ghost use Rattle.std.specs.Fmt.{decimal};
ghost use Rattle.hpr_decisions.specs.Graphs.{too_many_edges};
ghost use Rattle.hpr_app.specs.Private.MakesGraph.{MakesGraph, RefusesGraph};

use hpr_build::{BuildError, graph_of};
use hpr_graph::Graph;
use hpr_inputs::Stop;
use hpr_refusals::about;
use hpr_syntax::Program;
use hpr_terms::limits::MAX_EDGES;
use std::alloc::{AllocError, Global};

/// The graph of the program that the file with this name spells. The file is refused where the graph
/// has more than [`MAX_EDGES`] edges.
pub fn make_graph(alloc: Global, file: &str, program: &Program) -> Result<Graph, Stop>
    ensures { MakesGraph file.now program.now result }
{
    match graph_of(alloc, program, MAX_EDGES) {
        Ok(graph) => Ok(graph),
        Err(BuildError::TooManyEdges) => Err(refuse_graph(alloc, file)),
        Err(BuildError::Memory) => Err(Stop::Memory),
    }
}

/// The refusal of the file with this name, whose program has a graph with too many edges.
pub fn refuse_graph(alloc: Global, file: &str) -> Stop
    ensures { RefusesGraph file.now result }
{
    match edges_message(alloc, file) {
        Ok(message) => Stop::Refused(message),
        Err(_) => Stop::Memory,
    }
}

fn edges_message(alloc: Global, file: &str) -> Result<String, AllocError>
    ensures { IfOk result (λ message. string_bytes message ≡ too_many_edges file.now) }
{
    let reason = edges_reason(alloc, MAX_EDGES)?;
    about(alloc, file, reason.as_str())
}

fn edges_reason(alloc: Global, most: usize) -> Result<String, AllocError>
    ensures { IfOk result (λ text. string_bytes text ≡ codes "graph has more than " ++ decimal most ++ codes " edges") }
{
    format!(in alloc; "graph has more than {most} edges")
}
