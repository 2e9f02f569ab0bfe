//! The command `integrate` of three variants or more.
ghost use Rattle.std.specs.Prelude.{◌≡◌, ◌≤◌, ◌∷◌, ℕ, List, All, IsTrue, get_or, length, map};
ghost use Rattle.hpr_terms.specs.declared.limits.TheConstants.{MAX_VARIANTS};
ghost use Rattle.hpr_report.specs.ConflictsText.{many_conflicts_text};
ghost use Rattle.hpr_inputs.specs.Answer.{Decides, Merges};
ghost use Rattle.hpr_inputs.specs.Decision.{prints};
ghost use Rattle.hpr_inputs.specs.Reads.{IfTold, IsReached};
ghost use Rattle.hpr_words.specs.Request.{integrate_many};
ghost use Rattle.hpr_decisions.specs.Answered.{AnswersInKind};
ghost use Rattle.hpr_decisions.specs.IntegrateMany.{IntegrateManyOutcome, IntegratedMany};
ghost use Rattle.hpr_app.specs.Private.ManyStopped.{IsManyStopped};

use crate::graphs::refuse_graph;
use crate::integrate::{no_program, spent};
use crate::programs::print_program;
use hpr_graph::ManyConflict;
use hpr_inputs::{Kind, Report, Stop, read_program, read_programs};
use hpr_io::Shelf;
use hpr_many::{ManyStop, integrate_many};
use hpr_report::many_conflicts_text;
use hpr_syntax::Program;
use std::alloc::Global;

/// Integrates variants with their base, trying as many arrangements as `tries` allows: prints the merged
/// program; or the conflicts, where the variants interfere; or that no program has the merged graph; or
/// that the budget is spent.
pub fn integrate_many_files<S: Shelf>(
    alloc: Global,
    base: &str,
    variants: &[&str],
    tries: u64,
    shelf: &mut S,
) -> Result<Report, Stop>
    requires base { IsTrue (S.serves shelf.old base.now) }
    requires variants { All (λ name. IsTrue (S.serves shelf.old name)) (map (λ s. s.now) variants.now) }
    requires least { 2 ≤ length variants.now }
    requires most { length variants.now ≤ MAX_VARIANTS }
    requires tries { 1 ≤ tries }
    ensures answers { Decides (λ r. IfTold (S.files shelf.old)
        (λ fs. IntegrateManyOutcome fs base.now (map (λ s. s.now) variants.now) tries r))
        (IsReached (S.files shelf.old) (base.now ∷ map (λ s. s.now) variants.now)) (S.faults shelf.old)
        (S.faults shelf.new) result }
    ensures kind { AnswersInKind (integrate_many base.now (map (λ s. s.now) variants.now) tries) result }
    ensures same_files { S.files shelf.new ≡ S.files shelf.old }
    ensures same_names { (n : List ℕ) → S.serves shelf.new n ≡ S.serves shelf.old n }
{
    let base_program = read_program(alloc, base, shelf)?;
    let programs = read_programs(alloc, variants, shelf)?;
    integrate_programs(alloc, base, &base_program, variants, &programs, tries)
}

/// The answer for the programs of base's file and the variants'.
fn integrate_programs(
    alloc: Global,
    base: &str,
    base_program: &Program,
    names: &[&str],
    programs: &[Program],
    tries: u64,
) -> Result<Report, Stop>
    requires least { 2 ≤ length programs.now }
    requires most { length programs.now ≤ MAX_VARIANTS }
    requires count { length programs.now ≡ length names.now }
    requires tries { 1 ≤ tries }
    ensures { Merges (IntegratedMany base.now base_program.now (map (λ s. s.now) names.now) programs.now tries) result }
{
    match integrate_many(alloc, base_program, programs, tries) {
        Ok(merged) => print_program(alloc, &merged),
        Err(stop) => stopped(alloc, base, names, tries, &stop),
    }
}

/// The answer where an integration stops without a program.
fn stopped(
    alloc: Global,
    base: &str,
    names: &[&str],
    tries: u64,
    stop: &ManyStop,
) -> Result<Report, Stop>
    ensures { Merges (IsManyStopped base.now (map (λ s. s.now) names.now) tries stop.now) result }
{
    match stop {
        ManyStop::TooManyEdges(number) => {
            let file = file_of(*number, base, names);
            Err(refuse_graph(alloc, file))
        }
        ManyStop::Interference(conflicts) => interference(alloc, conflicts),
        ManyStop::NoProgram(parts) => no_program(alloc, *parts),
        ManyStop::Spent => spent(alloc, tries),
        ManyStop::Memory => Err(Stop::Memory),
    }
}

/// The name of the file of the program with this number: 0 for base, then the variants.
fn file_of<'a>(number: usize, base: &'a str, names: &[&'a str]) -> &'a str
    ensures { result.now ≡ get_or (base.now ∷ map (λ s. s.now) names.now) number base.now }
{
    if number == 0 {
        return base;
    }
    match names.get(number - 1) {
        Some(name) => *name,
        None => base,
    }
}

/// The report where the variants interfere.
fn interference(alloc: Global, conflicts: &[ManyConflict]) -> Result<Report, Stop>
    ensures { Merges (λ r. r ≡ prints Kind.Interference (many_conflicts_text conflicts.now)) result }
{
    let text = many_conflicts_text(alloc, conflicts)?;
    Ok(Report {
        kind: Kind::Interference,
        text,
    })
}
