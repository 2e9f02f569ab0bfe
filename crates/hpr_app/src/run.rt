//! The command `run`.
ghost use Rattle.std.specs.Prelude.{◌≡◌, ℕ, List, true, IsTrue, map};
ghost use Rattle.hpr_words.specs.Request.{run};
ghost use Rattle.hpr_report.specs.Texts.{outcome_text};
ghost use Rattle.hpr_run.specs.Outcomes.{outcome_of};
ghost use Rattle.hpr_decisions.specs.Answered.{Answers, AnswersInKind, AnswersUnread};
ghost use Rattle.hpr_decisions.specs.RunFile.{Ran, kind_of};
ghost use Rattle.hpr_inputs.specs.Answer.{Merges};

use crate::trace_text::trace_text;
use hpr_inputs::{Kind, Report, Stop, read_program, read_state};
use hpr_io::Shelf;
use hpr_meaning::trace;
use hpr_report::outcome_text;
use hpr_run::{Outcome, State, run};
use hpr_syntax::Program;
use std::alloc::Global;

/// Runs the program of a file from the state that the words tell, for at most so many steps, and shows
/// each step if its trace is asked for. The words are judged before the file is read.
pub fn run_file<S: Shelf>(
    alloc: Global,
    file: &str,
    words: &[&str],
    steps: u64,
    trace: bool,
    shelf: &mut S,
) -> Result<Report, Stop>
    requires { IsTrue (S.serves shelf.old file.now) }
    ensures answers { Answers (run file.now (map (λ w. w.now) words.now) steps trace)
        (S.files shelf.old) (S.faults shelf.old) (S.faults shelf.new) result }
    ensures kind { AnswersInKind (run file.now (map (λ w. w.now) words.now) steps trace) result }
    ensures unread { AnswersUnread (run file.now (map (λ w. w.now) words.now) steps trace)
        (S.faults shelf.old) (S.faults shelf.new) result }
    ensures same_files { S.files shelf.new ≡ S.files shelf.old }
    ensures same_names { (n : List ℕ) → S.serves shelf.new n ≡ S.serves shelf.old n }
{
    let state = read_state(alloc, words)?;
    let program = read_program(alloc, file, shelf)?;
    run_program(alloc, &program, &state, steps, trace)
}

/// The answer for a program and a state.
fn run_program(
    alloc: Global,
    program: &Program,
    state: &State,
    steps: u64,
    trace: bool,
) -> Result<Report, Stop>
    ensures { Merges (Ran program.now state.now steps trace) result }
{
    if trace {
        return traced_run(alloc, program, state, steps);
    }
    let outcome = run(alloc, program, state, steps)?;
    let text = outcome_text(alloc, &outcome)?;
    Ok(Report {
        kind: kind_of(&outcome),
        text,
    })
}

/// The same with a line for each finished step.
fn traced_run(alloc: Global, program: &Program, state: &State, steps: u64) -> Result<Report, Stop>
    ensures { Merges (Ran program.now state.now steps true) result }
{
    let traced = trace(alloc, program, state, steps)?;
    let mut text = trace_text(alloc, &traced.items)?;
    let outcome = outcome_text(alloc, &traced.outcome)?;
    text.extend_from_slice(&outcome)?;
    Ok(Report {
        kind: kind_of(&traced.outcome),
        text,
    })
}

fn kind_of(outcome: &Outcome) -> Kind
    ensures { result ≡ kind_of (outcome_of outcome.now) }
{
    match outcome {
        Outcome::Ends { .. } => Kind::Done,
        Outcome::Faults { .. } | Outcome::More { .. } => Kind::NotEnded,
    }
}
