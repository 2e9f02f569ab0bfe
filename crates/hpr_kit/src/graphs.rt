//! What is told of the graphs of programs.
ghost use Rattle.std.specs.Prelude.{◌≡◌, ◌++◌, false, IfOk, codes, string_bytes};
ghost use Rattle.std.specs.Fmt.{decimal};
ghost use Rattle.serde_json.specs.View.{view};
ghost use Rattle.serde_json.specs.Written.{has_float};
ghost use Rattle.hpr_json.specs.Answers.{json_line};
ghost use Rattle.hpr_json.specs.Refusals.{edges_text};
ghost use Rattle.hpr_located.specs.Sources.{standing_of};
ghost use Rattle.hpr_kit.specs.Answer.{prints, refuses};
ghost use Rattle.hpr_kit.specs.Graphs.{IsGraphTold, OnGraph, left_out};
ghost use Rattle.hpr_kit.specs.Private.Graphs.{MakesGraph, Says};
ghost use Rattle.hpr_kit.specs.Private.Replies.{seen};

use crate::load::Halt;
use crate::refused::says;
use crate::reply::{Reply, Stop, prints};
use crate::status::Status;
use hpr_build::{BuildError, graph_of};
use hpr_drawn as drawn;
use hpr_graph::Graph;
use hpr_json::json_line;
use hpr_located::Source;
use hpr_refusals::about;
use hpr_syntax::{NoMemory, Program};
use hpr_terms::limits::MAX_EDGES;
use hprkit_words::{GraphForm, LeftOut};
use serde_json::Value;
use std::alloc::{AllocError, Global};

/// The graph of the program of this file.
pub(crate) fn graph_for(alloc: Global, file: &str, program: &Program) -> Result<Graph, Halt>
    ensures { MakesGraph file.now program.now result }
{
    match graph_of(alloc, program, MAX_EDGES) {
        Ok(graph) => Ok(graph),
        Err(BuildError::TooManyEdges) => Err(Halt::Refused(too_many(alloc, file)?)),
        Err(BuildError::Memory) => Err(Halt::Stop(Stop::Memory)),
    }
}

/// The reply that the graph of a file's program has too many edges.
fn too_many(alloc: Global, file: &str) -> Result<Reply, NoMemory>
    ensures { IfOk result (λ reply. seen reply ≡ refuses (edges_text file.now)) }
{
    let why = edges_reason(alloc, MAX_EDGES)?;
    let text = about(alloc, file, why.as_str())?;
    Ok(says(alloc, Status::Refused, text.into_bytes()))
}

/// What is said of a graph that has more edges than these.
fn edges_reason(alloc: Global, most: usize) -> Result<String, AllocError>
    ensures { IfOk result (λ text. string_bytes text
        ≡ codes "graph has more than " ++ decimal most ++ codes " edges") }
{
    format!(in alloc; "graph has more than {most} edges")
}

/// The graph of the program of a file, in this form.
pub(crate) fn graph_reply(
    alloc: Global,
    file: &str,
    program: &Program,
    source: Source,
    form: GraphForm,
) -> Result<Reply, Halt>
    ensures { Says (λ a. OnGraph file.now program.now (λ g. IsGraphTold form program.now (standing_of source) g a) a)
        result }
{
    let graph = graph_for(alloc, file, program)?;
    Ok(graph_told(alloc, program, &graph, source, form)?)
}

fn graph_told(
    alloc: Global,
    program: &Program,
    graph: &Graph,
    source: Source,
    form: GraphForm,
) -> Result<Reply, NoMemory>
    ensures { IfOk result (λ reply.
        IsGraphTold form program.now (standing_of source) graph.now (seen reply)) }
{
    match form {
        GraphForm::Json => {
            let value = drawn::graph_json(alloc, graph, &[source])?;
            print_line(alloc, &value)
        }
        GraphForm::Dot(without) => {
            let text = drawn::dot_text(alloc, program, graph, left_out(without))?;
            Ok(prints(alloc, text))
        }
    }
}

/// The kinds of edges that a picture leaves out.
fn left_out(without: LeftOut) -> drawn::LeftOut
    ensures { result ≡ left_out without }
{
    drawn::LeftOut {
        control: without.control,
        flow: without.flow,
        order: without.order,
    }
}

/// The reply that prints the line of a value.
pub(crate) fn print_line(alloc: Global, value: &Value) -> Result<Reply, NoMemory>
    requires { has_float (view value.now) ≡ false }
    ensures { IfOk result (λ reply. seen reply ≡ prints (json_line (view value.now))) }
{
    Ok(prints(alloc, json_line(alloc, value)?))
}
