//! The command `graph`.
ghost use Rattle.hpr_io.specs.Files.{files_in};
ghost use Rattle.hpr_data.specs.Findings.{Graphs, IsGraphed, OnEdges};
ghost use Rattle.hpr_data.specs.Private.Comes.{Comes, ComesToGraph};

use crate::found::{Found, Stop};
use crate::texts::program_named;
use hpr_build::{BuildError, graph_of};
use hpr_graph::Graph;
use hpr_syntax::Program;
use hpr_terms::limits::MAX_EDGES;
use std::alloc::Global;

/// The graph of the program of a text.
pub(crate) fn graph_shown<'a>(
    alloc: Global,
    files: &[(String, Vec<u8>)],
    file: &'a str,
) -> Result<Found, Stop<'a>>
    ensures { Comes (Graphs (files_in files.now) file.now) result }
{
    let program = program_named(alloc, files, file)?;
    program_graph(alloc, file, &program)
}

fn program_graph<'a>(alloc: Global, file: &'a str, program: &Program) -> Result<Found, Stop<'a>>
    ensures { Comes (λ f. OnEdges file.now program.now (IsGraphed program.now f) f) result }
{
    let graph = graph_named(alloc, file, program)?;
    Ok(Found::Graph(graph))
}

/// The graph of the program of the text with this name.
pub(crate) fn graph_named<'a>(
    alloc: Global,
    file: &'a str,
    program: &Program,
) -> Result<Graph, Stop<'a>>
    ensures { ComesToGraph file.now program.now result }
{
    match graph_of(alloc, program, MAX_EDGES) {
        Ok(graph) => Ok(graph),
        Err(BuildError::TooManyEdges) => Err(Stop::TooManyEdges(file)),
        Err(BuildError::Memory) => Err(Stop::Memory),
    }
}
