//! The command `integrate`.
ghost use Rattle.std.specs.Prelude.{◌≡◌, ◌≤◌, [], ◌∷◌, ◌++◌, ℕ, List, IfOk, IsTrue, codes, string_bytes};
ghost use Rattle.std.specs.Fmt.{decimal};
ghost use Rattle.hpr_report.specs.ConflictsText.{conflicts_text};
ghost use Rattle.hpr_inputs.specs.Reads.{IfTold, IsReached};
ghost use Rattle.hpr_inputs.specs.Decision.{prints};
ghost use Rattle.hpr_words.specs.Request.{integrate};
ghost use Rattle.hpr_decisions.specs.Answered.{AnswersInKind};
ghost use Rattle.hpr_decisions.specs.Integrate.{no_program_text, spent_text, Integrated, IntegrateOutcome};
ghost use Rattle.hpr_app.specs.Private.Stopped.{file_of, IsStopped};
ghost use Rattle.hpr_inputs.specs.Answer.{Decides, Merges};

use crate::graphs::refuse_graph;
use crate::programs::print_program;
use hpr_engine::{Which, integrate};
use hpr_graph::Conflict;
use hpr_inputs::{Kind, Report, Stop, Versions, read_versions};
use hpr_io::Shelf;
use hpr_report::conflicts_text;
use hpr_terms::limits::MAX_PARTS;
use std::alloc::{AllocError, Global};

/// Integrates two variants with their base, trying as many arrangements as `tries` allows: prints the
/// merged program; or the conflicts, where the variants interfere; or that no program has the merged
/// graph; or that the budget is spent.
pub fn integrate_files<S: Shelf>(
    alloc: Global,
    base: &str,
    a: &str,
    b: &str,
    tries: u64,
    shelf: &mut S,
) -> Result<Report, Stop>
    requires base { IsTrue (S.serves shelf.old base.now) }
    requires a { IsTrue (S.serves shelf.old a.now) }
    requires b { IsTrue (S.serves shelf.old b.now) }
    requires tries { 1 ≤ tries }
    ensures answers { Decides (λ r. IfTold (S.files shelf.old) (λ fs. IntegrateOutcome fs base.now a.now b.now tries r))
        (IsReached (S.files shelf.old) (base.now ∷ a.now ∷ b.now ∷ [])) (S.faults shelf.old)
        (S.faults shelf.new) result }
    ensures kind { AnswersInKind (integrate base.now a.now b.now tries) result }
    ensures same_files { S.files shelf.new ≡ S.files shelf.old }
    ensures same_names { (n : List ℕ) → S.serves shelf.new n ≡ S.serves shelf.old n }
{
    let versions = read_versions(alloc, base, a, b, shelf)?;
    integrate_versions(alloc, base, a, b, &versions, tries)
}

/// The answer for the programs of three files.
fn integrate_versions(
    alloc: Global,
    base: &str,
    a: &str,
    b: &str,
    versions: &Versions,
    tries: u64,
) -> Result<Report, Stop>
    requires { 1 ≤ tries }
    ensures { Merges (Integrated base.now versions.now.base a.now versions.now.a b.now versions.now.b tries) result }
{
    match integrate(alloc, &versions.base, &versions.a, &versions.b, tries) {
        Ok(merged) => print_program(alloc, &merged),
        Err(stop) => stopped(alloc, base, a, b, tries, &stop),
    }
}

/// The answer where an integration stops without a program.
pub fn stopped(
    alloc: Global,
    base: &str,
    a: &str,
    b: &str,
    tries: u64,
    stop: &hpr_engine::Stop,
) -> Result<Report, Stop>
    ensures { Merges (IsStopped base.now a.now b.now tries stop.now) result }
{
    match stop {
        hpr_engine::Stop::TooManyEdges(which) => {
            let file = named(*which, base, a, b);
            Err(refuse_graph(alloc, file))
        }
        hpr_engine::Stop::Interference(conflicts) => interference(alloc, conflicts),
        hpr_engine::Stop::NoProgram(parts) => no_program(alloc, *parts),
        hpr_engine::Stop::Spent => spent(alloc, tries),
        hpr_engine::Stop::Memory => Err(Stop::Memory),
    }
}

/// The name of the file of this program.
fn named<'a>(which: Which, base: &'a str, a: &'a str, b: &'a str) -> &'a str
    ensures { result.now ≡ file_of which base.now a.now b.now }
{
    match which {
        Which::Base => base,
        Which::A => a,
        Which::B => b,
    }
}

/// The report where the variants interfere.
fn interference(alloc: Global, conflicts: &[Conflict]) -> Result<Report, Stop>
    ensures { Merges (λ r. r ≡ prints Kind.Interference (conflicts_text conflicts.now)) result }
{
    let text = conflicts_text(alloc, conflicts)?;
    Ok(Report {
        kind: Kind::Interference,
        text,
    })
}

/// The report where no program has the merged graph, which has so many parts.
pub(crate) fn no_program(alloc: Global, parts: usize) -> Result<Report, Stop>
    ensures { Merges (λ r. r ≡ prints Kind.NoProgram (no_program_text parts)) result }
{
    let line = no_program_line(alloc, MAX_PARTS, parts)?;
    Ok(Report {
        kind: Kind::NoProgram,
        text: line.into_bytes(),
    })
}

fn no_program_line(alloc: Global, most: usize, parts: usize) -> Result<String, AllocError>
    ensures { IfOk result (λ line. string_bytes line ≡ codes "no program with at most " ++ decimal most
        ++ codes " parts has the merged graph, which has " ++ decimal parts ++ codes " parts\n") }
{
    format!(in alloc;
        "no program with at most {most} parts has the merged graph, which has {parts} parts\n"
    )
}

/// The report where the budget of tries is spent.
pub(crate) fn spent(alloc: Global, tries: u64) -> Result<Report, Stop>
    ensures { Merges (λ r. r ≡ prints Kind.Spent (spent_text tries)) result }
{
    let line = format!(in alloc;
        "spent: none of the first {tries} arrangements has the merged graph\n"
    )?;
    Ok(Report {
        kind: Kind::Spent,
        text: line.into_bytes(),
    })
}
