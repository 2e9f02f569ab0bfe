//! The command `trial`.
ghost use Rattle.std.specs.Prelude.{◌≡◌, ◌≤◌, ◌*◌, [], ◌∷◌, ℕ, List, IsTrue, IsOk, IfOk, map};
ghost use Rattle.hpr_terms.specs.declared.limits.TheConstants.{MAX_STEPS};
ghost use Rattle.hpr_syntax.specs.Run.{run};
ghost use Rattle.hpr_run.specs.Outcomes.{outcome_of};
ghost use Rattle.hpr_report.specs.TableText.{IsSingleValued};
ghost use Rattle.hpr_inputs.specs.Answer.{Decides, Merges};
ghost use Rattle.hpr_inputs.specs.Reads.{IfTold, IsReached};
ghost use Rattle.hpr_inputs.specs.States.{states_of};
ghost use Rattle.hpr_words.specs.Request.{trial};
ghost use Rattle.hpr_decisions.specs.Answered.{AnswersInKind, AnswersUnread};
ghost use Rattle.hpr_decisions.specs.TrialFiles.{has_ended, finals_of, steps_of, trial_line, three_lines, IsTrialText, IsTrialOf, ShowsTrial, Tried, TrialOutcome, steps_together};

use crate::integrate::stopped;
use hpr_engine::integrate;
use hpr_inputs::{Kind, Report, Stop, Versions, read_state, read_versions};
use hpr_io::Shelf;
use hpr_report::{outcome_line, table_text};
use hpr_run::{Outcome, State, Value, run};
use hpr_syntax::{Name, NoMemory, Program};
use hpr_terms::limits::DEFAULT_TRIES;
use std::alloc::Global;

/// Integrates two variants with their base, and where that gives a program runs the three from the state
/// that the words tell, each for at most so many steps, and the merged program for as many as the three
/// took together: prints how the runs went, and the table of the final values where the three end. Where
/// there is no merged program, it is said why. The words are judged before a file is read.
pub fn trial_files<S: Shelf>(
    alloc: Global,
    base: &str,
    a: &str,
    b: &str,
    words: &[&str],
    steps: u64,
    shelf: &mut S,
) -> Result<Report, Stop>
    requires base { IsTrue (S.serves shelf.old base.now) }
    requires a { IsTrue (S.serves shelf.old a.now) }
    requires b { IsTrue (S.serves shelf.old b.now) }
    requires steps { steps ≤ MAX_STEPS }
    ensures answers { Decides (λ r. IfTold (S.files shelf.old) (λ fs.
        TrialOutcome fs base.now a.now b.now (map (λ w. w.now) words.now) steps r)) (λ file.
        IsReached (S.files shelf.old) (base.now ∷ a.now ∷ b.now ∷ []) file
        × IsOk (states_of (map (λ w. w.now) words.now))) (S.faults shelf.old) (S.faults shelf.new) result }
    ensures kind { AnswersInKind (trial base.now a.now b.now (map (λ w. w.now) words.now) steps) result }
    ensures unread { AnswersUnread (trial base.now a.now b.now (map (λ w. w.now) words.now) steps)
        (S.faults shelf.old) (S.faults shelf.new) result }
    ensures same_files { S.files shelf.new ≡ S.files shelf.old }
    ensures same_names { (n : List ℕ) → S.serves shelf.new n ≡ S.serves shelf.old n }
{
    let state = read_state(alloc, words)?;
    let versions = read_versions(alloc, base, a, b, shelf)?;
    try_versions(alloc, base, a, b, &versions, &state, steps)
}

/// The answer for the programs of three files and a state.
fn try_versions(
    alloc: Global,
    base: &str,
    a: &str,
    b: &str,
    versions: &Versions,
    state: &State,
    steps: u64,
) -> Result<Report, Stop>
    requires { steps ≤ MAX_STEPS }
    ensures { Merges
        (Tried base.now versions.now.base a.now versions.now.a b.now versions.now.b state.now steps) result }
{
    match integrate(
        alloc,
        &versions.base,
        &versions.a,
        &versions.b,
        DEFAULT_TRIES,
    ) {
        Ok(merged) => try_merged(alloc, versions, &merged, state, steps),
        Err(stop) => stopped(alloc, base, a, b, DEFAULT_TRIES, &stop),
    }
}

/// The report where there is a merged program.
fn try_merged(
    alloc: Global,
    versions: &Versions,
    merged: &Program,
    state: &State,
    steps: u64,
) -> Result<Report, Stop>
    requires { steps ≤ MAX_STEPS }
    ensures { Merges (IsTrialOf versions.now.base versions.now.a versions.now.b merged.now state.now steps) result }
{
    let base = run(alloc, &versions.base, state, steps)?;
    let a = run(alloc, &versions.a, state, steps)?;
    let b = run(alloc, &versions.b, state, steps)?;
    show_runs(alloc, &base, &a, &b, merged, state)
}

/// The report on the runs of base, A and B.
fn show_runs(
    alloc: Global,
    base: &Outcome,
    a: &Outcome,
    b: &Outcome,
    merged: &Program,
    state: &State,
) -> Result<Report, Stop>
    requires base { IsSingleValued (finals_of (outcome_of base.now)) }
    requires a { IsSingleValued (finals_of (outcome_of a.now)) }
    requires b { IsSingleValued (finals_of (outcome_of b.now)) }
    requires steps { steps_together (outcome_of base.now) (outcome_of a.now) (outcome_of b.now) ≤ 3 * MAX_STEPS }
    ensures { Merges (ShowsTrial (outcome_of base.now) (outcome_of a.now) (outcome_of b.now)
        (run merged.now state.now (steps_together (outcome_of base.now) (outcome_of a.now)
        (outcome_of b.now)))) result }
{
    if has_ended(base) && has_ended(a) && has_ended(b) {
        let text = ended_text(alloc, base, a, b, merged, state)?;
        return Ok(Report {
            kind: Kind::Done,
            text,
        });
    }
    let text = three_lines(alloc, base, a, b)?;
    Ok(Report {
        kind: Kind::NotEnded,
        text,
    })
}

/// The text where the three end: the merged program runs for as many steps as they took together.
fn ended_text(
    alloc: Global,
    base: &Outcome,
    a: &Outcome,
    b: &Outcome,
    merged: &Program,
    state: &State,
) -> Result<Vec<u8>, NoMemory>
    requires base { IsSingleValued (finals_of (outcome_of base.now)) }
    requires a { IsSingleValued (finals_of (outcome_of a.now)) }
    requires b { IsSingleValued (finals_of (outcome_of b.now)) }
    requires steps { steps_together (outcome_of base.now) (outcome_of a.now) (outcome_of b.now) ≤ 3 * MAX_STEPS }
    ensures { IfOk result (λ text. IsTrialText (outcome_of base.now) (outcome_of a.now) (outcome_of b.now)
        (run merged.now state.now (steps_together (outcome_of base.now) (outcome_of a.now)
        (outcome_of b.now))) text.items) }
{
    let together = steps_of(base) + steps_of(a) + steps_of(b);
    let all = run(alloc, merged, state, together)?;
    trial_text(alloc, base, a, b, &all)
}

fn has_ended(outcome: &Outcome) -> bool
    ensures { result ≡ has_ended (outcome_of outcome.now) }
{
    match outcome {
        Outcome::Ends { .. } => true,
        Outcome::Faults { .. } | Outcome::More { .. } => false,
    }
}

fn steps_of(outcome: &Outcome) -> u64
    ensures { result ≡ steps_of (outcome_of outcome.now) }
{
    match outcome {
        Outcome::Ends { steps, .. } | Outcome::Faults { steps, .. } | Outcome::More { steps } => {
            *steps
        }
    }
}

/// The final values; none where the run didn't end.
fn finals_of(outcome: &Outcome) -> &[(Name, Value)]
    ensures { result.now ≡ finals_of (outcome_of outcome.now) }
{
    match outcome {
        Outcome::Ends { finals, .. } => finals.list(),
        Outcome::Faults { .. } | Outcome::More { .. } => &[],
    }
}

/// The lines of the three, that of the merged program, and the table of the final values.
fn trial_text(
    alloc: Global,
    base: &Outcome,
    a: &Outcome,
    b: &Outcome,
    merged: &Outcome,
) -> Result<Vec<u8>, NoMemory>
    requires base { IsSingleValued (finals_of (outcome_of base.now)) }
    requires a { IsSingleValued (finals_of (outcome_of a.now)) }
    requires b { IsSingleValued (finals_of (outcome_of b.now)) }
    requires merged { IsSingleValued (finals_of (outcome_of merged.now)) }
    ensures { IfOk result (λ text. IsTrialText (outcome_of base.now) (outcome_of a.now) (outcome_of b.now)
        (outcome_of merged.now) text.items) }
{
    let mut text = three_lines(alloc, base, a, b)?;
    let line = trial_line(alloc, "merged ", merged)?;
    text.extend_from_slice(&line)?;
    let table = table_text(
        alloc,
        finals_of(base),
        finals_of(a),
        finals_of(b),
        finals_of(merged),
    )?;
    text.extend_from_slice(&table)?;
    Ok(text)
}

fn three_lines(alloc: Global, base: &Outcome, a: &Outcome, b: &Outcome) -> Result<Vec<u8>, NoMemory>
    ensures { IfOk result (λ text. text.items ≡ three_lines (outcome_of base.now) (outcome_of a.now)
        (outcome_of b.now)) }
{
    let mut text = trial_line(alloc, "base ", base)?;
    let a = trial_line(alloc, "A ", a)?;
    text.extend_from_slice(&a)?;
    let b = trial_line(alloc, "B ", b)?;
    text.extend_from_slice(&b)?;
    Ok(text)
}

/// How a run went, without its values, behind the word for its program.
fn trial_line(alloc: Global, word: &str, outcome: &Outcome) -> Result<Vec<u8>, NoMemory>
    ensures { IfOk result (λ text. text.items ≡ trial_line word.now (outcome_of outcome.now)) }
{
    let mut text = Vec::new(alloc);
    text.extend_from_slice(word.as_bytes())?;
    let line = outcome_line(alloc, outcome)?;
    text.extend_from_slice(&line)?;
    Ok(text)
}
