//! The command `slice`.
ghost use Rattle.std.specs.Prelude.{◌≡◌, ◌<◌, ℕ, List, All, IfOk, IsTrue, length, map};
ghost use Rattle.hpr_graph.specs.Numbered.{graph_in};
ghost use Rattle.hpr_graph.specs.Slices.{slice_of};
ghost use Rattle.hpr_slice.specs.Vertices.{IsOneOf};
ghost use Rattle.hpr_words.specs.Request.{slice};
ghost use Rattle.hpr_decisions.specs.Answered.{Answers, AnswersInKind};
ghost use Rattle.hpr_decisions.specs.SliceFile.{IsLeftText, IsSliceShown, Sliced};
ghost use Rattle.hpr_inputs.specs.Answer.{Merges};
ghost use Rattle.hpr_app.specs.Private.SlicedIn.{SlicedIn};

use crate::graphs::make_graph;
use hpr_graph::Graph;
use hpr_inputs::{Kind, Report, Stop, read_points, read_program};
use hpr_io::Shelf;
use hpr_print::text_of;
use hpr_prune::prune;
use hpr_report::graph_text;
use hpr_slice::slice;
use hpr_syntax::{NoMemory, Program};
use std::alloc::Global;

/// Shows the slice of the graph of the program of a file at the points that the words name, as the
/// program that is left of it where that is asked for.
pub fn slice_file<S: Shelf>(
    alloc: Global,
    file: &str,
    points: &[&str],
    as_program: bool,
    shelf: &mut S,
) -> Result<Report, Stop>
    requires { IsTrue (S.serves shelf.old file.now) }
    ensures answers { Answers (slice file.now (map (λ w. w.now) points.now) as_program)
        (S.files shelf.old) (S.faults shelf.old) (S.faults shelf.new) result }
    ensures kind { AnswersInKind (slice file.now (map (λ w. w.now) points.now) as_program) result }
    ensures same_files { S.files shelf.new ≡ S.files shelf.old }
    ensures same_names { (n : List ℕ) → S.serves shelf.new n ≡ S.serves shelf.old n }
{
    let program = read_program(alloc, file, shelf)?;
    show_slice(alloc, file, &program, points, as_program)
}

/// The answer for the program of a file.
fn show_slice(
    alloc: Global,
    file: &str,
    program: &Program,
    points: &[&str],
    as_program: bool,
) -> Result<Report, Stop>
    ensures { Merges (Sliced file.now program.now (map (λ w. w.now) points.now) as_program) result }
{
    let graph = make_graph(alloc, file, program)?;
    show_points(alloc, program, &graph, points, as_program)
}

/// The answer for a program and its graph.
fn show_points(
    alloc: Global,
    program: &Program,
    graph: &Graph,
    points: &[&str],
    as_program: bool,
) -> Result<Report, Stop>
    ensures { Merges (SlicedIn program.now graph.now (map (λ w. w.now) points.now) as_program) result }
{
    let numbers = read_points(alloc, graph, points)?;
    let text = slice_text(alloc, program, graph, &numbers, as_program)?;
    Ok(Report {
        kind: Kind::Done,
        text,
    })
}

/// The text of the slice at the vertices with these numbers, or of what it leaves of the program.
fn slice_text(
    alloc: Global,
    program: &Program,
    graph: &Graph,
    numbers: &[usize],
    as_program: bool,
) -> Result<Vec<u8>, NoMemory>
    requires { All (λ n. n < length graph.now.vertices) numbers.now }
    ensures { IfOk result (λ text. IsSliceShown as_program program.now (slice_of (graph_in graph.now)
        (IsOneOf graph.now numbers.now)) text.items) }
{
    let part = slice(alloc, graph, numbers)?;
    shown(alloc, program, &part, as_program)
}

/// The text of a slice, or of what it leaves of the program.
fn shown(
    alloc: Global,
    program: &Program,
    part: &Graph,
    as_program: bool,
) -> Result<Vec<u8>, NoMemory>
    ensures { IfOk result (λ text. IsSliceShown as_program program.now (graph_in part.now) text.items) }
{
    if as_program {
        left_text(alloc, program, part)
    } else {
        graph_text(alloc, part)
    }
}

/// The text of what a slice leaves of the program.
fn left_text(alloc: Global, program: &Program, part: &Graph) -> Result<Vec<u8>, NoMemory>
    ensures { IfOk result (λ text. IsLeftText program.now (graph_in part.now) text.items) }
{
    let left = prune(alloc, program, part)?;
    text_of(alloc, &left)
}
