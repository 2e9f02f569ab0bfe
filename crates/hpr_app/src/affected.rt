//! The command `affected`.
ghost use Rattle.std.specs.Prelude.{◌≡◌, ℕ, List, IfOk, IsTrue};
ghost use Rattle.hpr_graph.specs.Numbered.{graph_in};
ghost use Rattle.hpr_graph.specs.Points.{IsAffected};
ghost use Rattle.hpr_graph.specs.Whole.{IsWhole};
ghost use Rattle.hpr_report.specs.AffectedText.{IsAffectedText};
ghost use Rattle.hpr_words.specs.Request.{affected};
ghost use Rattle.hpr_decisions.specs.Answered.{Answers, AnswersInKind};
ghost use Rattle.hpr_decisions.specs.AffectedFiles.{AffectedPoints};
ghost use Rattle.hpr_inputs.specs.Answer.{Merges};

use crate::graphs::make_graph;
use hpr_affected::affected;
use hpr_graph::Graph;
use hpr_inputs::{Kind, Report, Stop, read_program};
use hpr_io::Shelf;
use hpr_report::affected_text;
use hpr_syntax::{NoMemory, Program};
use std::alloc::Global;

/// Shows the affected points of a variant.
pub fn affected_files<S: Shelf>(
    alloc: Global,
    base: &str,
    a: &str,
    shelf: &mut S,
) -> Result<Report, Stop>
    requires base { IsTrue (S.serves shelf.old base.now) }
    requires a { IsTrue (S.serves shelf.old a.now) }
    ensures answers { Answers (affected base.now a.now)
        (S.files shelf.old) (S.faults shelf.old) (S.faults shelf.new) result }
    ensures kind { AnswersInKind (affected base.now a.now) result }
    ensures same_files { S.files shelf.new ≡ S.files shelf.old }
    ensures same_names { (n : List ℕ) → S.serves shelf.new n ≡ S.serves shelf.old n }
{
    let base_program = read_program(alloc, base, shelf)?;
    let a_program = read_program(alloc, a, shelf)?;
    show_affected(alloc, base, &base_program, a, &a_program)
}

/// The answer for the programs of two files.
fn show_affected(
    alloc: Global,
    base: &str,
    base_program: &Program,
    a: &str,
    a_program: &Program,
) -> Result<Report, Stop>
    ensures { Merges (AffectedPoints base.now base_program.now a.now a_program.now) result }
{
    let _base_body = base_program.body();
    let _a_body = a_program.body();
    let base_graph = make_graph(alloc, base, base_program)?;
    let a_graph = make_graph(alloc, a, a_program)?;
    let text = points_text(alloc, &base_graph, &a_graph)?;
    Ok(Report {
        kind: Kind::Done,
        text,
    })
}

/// The text of the affected points of a graph. Both graphs are whole.
fn points_text(alloc: Global, base: &Graph, a: &Graph) -> Result<Vec<u8>, NoMemory>
    requires base { IsWhole (graph_in base.now) }
    requires a { IsWhole (graph_in a.now) }
    ensures { IfOk result (λ text. IsAffectedText (IsAffected (graph_in a.now) (graph_in base.now)) text.items) }
{
    let points = affected(alloc, a, base)?;
    affected_text(alloc, a, &points)
}
