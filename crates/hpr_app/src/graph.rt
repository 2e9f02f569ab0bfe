//! The command `graph`.
ghost use Rattle.std.specs.Prelude.{◌≡◌, ℕ, List, IsTrue, IfOk};
ghost use Rattle.hpr_graph.specs.Numbered.{graph_in};
ghost use Rattle.hpr_words.specs.Request.{graph};
ghost use Rattle.hpr_decisions.specs.Answered.{Answers, AnswersInKind};
ghost use Rattle.hpr_decisions.specs.GraphFile.{Graphed, IsShown};
ghost use Rattle.hpr_inputs.specs.Answer.{Merges};

use crate::graphs::make_graph;
use hpr_graph::Graph;
use hpr_inputs::{Kind, Report, Stop, read_program};
use hpr_io::Shelf;
use hpr_report::{graph_json, graph_text};
use hpr_syntax::{NoMemory, Program};
use std::alloc::Global;

/// Shows the graph of the program of a file, as a JSON value where that is asked for.
pub fn graph_file<S: Shelf>(
    alloc: Global,
    file: &str,
    json: bool,
    shelf: &mut S,
) -> Result<Report, Stop>
    requires { IsTrue (S.serves shelf.old file.now) }
    ensures answers { Answers (graph file.now json)
        (S.files shelf.old) (S.faults shelf.old) (S.faults shelf.new) result }
    ensures kind { AnswersInKind (graph file.now json) result }
    ensures same_files { S.files shelf.new ≡ S.files shelf.old }
    ensures same_names { (n : List ℕ) → S.serves shelf.new n ≡ S.serves shelf.old n }
{
    let program = read_program(alloc, file, shelf)?;
    show_graph(alloc, file, &program, json)
}

/// The answer for the program of a file.
fn show_graph(alloc: Global, file: &str, program: &Program, json: bool) -> Result<Report, Stop>
    ensures { Merges (Graphed file.now program.now json) result }
{
    let graph = make_graph(alloc, file, program)?;
    let text = shown(alloc, &graph, json)?;
    Ok(Report {
        kind: Kind::Done,
        text,
    })
}

/// The text of a graph, or its JSON value.
fn shown(alloc: Global, graph: &Graph, json: bool) -> Result<Vec<u8>, NoMemory>
    ensures { IfOk result (λ v. IsShown json (graph_in graph.now) v.items) }
{
    if json {
        graph_json(alloc, graph)
    } else {
        graph_text(alloc, graph)
    }
}
