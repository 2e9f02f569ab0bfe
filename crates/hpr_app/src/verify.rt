//! The command `verify`.
ghost use Rattle.std.specs.Prelude.{◌≡◌, ◌<◌, [], ◌∷◌, ℕ, List, IsTrue, get_or, length, map};
ghost use Rattle.hpr_inputs.specs.Answer.{Decides, Merges};
ghost use Rattle.hpr_inputs.specs.Reads.{IfTold, IsReached};
ghost use Rattle.hpr_words.specs.Request.{verify};
ghost use Rattle.hpr_decisions.specs.Answered.{AnswersInKind};
ghost use Rattle.hpr_decisions.specs.VerifyFiles.{VerifyOutcome, report_verdict};
ghost use Rattle.hpr_app.specs.Private.VerifiedOf.{IsVerifiedOf};

use crate::certificate::certificate_json;
use crate::graphs::refuse_graph;
use hpr_inputs::{Kind, Report, Stop, read_programs};
use hpr_io::Shelf;
use hpr_syntax::Program;
use hpr_verify::{Verdict, VerifyError, verify};
use std::alloc::Global;

/// Judges a merged program that was made elsewhere, by base and two variants: says that it has the merged
/// graph, or prints what shows that it hasn't.
pub fn verify_files<S: Shelf>(
    alloc: Global,
    base: &str,
    a: &str,
    b: &str,
    offered: &str,
    shelf: &mut S,
) -> Result<Report, Stop>
    requires base { IsTrue (S.serves shelf.old base.now) }
    requires a { IsTrue (S.serves shelf.old a.now) }
    requires b { IsTrue (S.serves shelf.old b.now) }
    requires offered { IsTrue (S.serves shelf.old offered.now) }
    ensures answers { Decides (λ r. IfTold (S.files shelf.old) (λ fs. VerifyOutcome fs base.now a.now b.now offered.now r))
        (IsReached (S.files shelf.old) (base.now ∷ a.now ∷ b.now ∷ offered.now ∷ [])) (S.faults shelf.old)
        (S.faults shelf.new) result }
    ensures kind { AnswersInKind (verify base.now a.now b.now offered.now) result }
    ensures same_files { S.files shelf.new ≡ S.files shelf.old }
    ensures same_names { (n : List ℕ) → S.serves shelf.new n ≡ S.serves shelf.old n }
{
    let names = [base, a, b, offered];
    let programs = read_programs(alloc, &names, shelf)?;
    verify_programs(alloc, &names, &programs)
}

/// The answer for the programs of four files.
fn verify_programs(alloc: Global, names: &[&str], programs: &[Program]) -> Result<Report, Stop>
    requires names { length names.now ≡ 4 }
    requires programs { length programs.now ≡ 4 }
    ensures { Merges (IsVerifiedOf (map (λ s. s.now) names.now) programs.now) result }
{
    let [base, a, b, offered] = programs else {
        unreachable!();
    };
    match verify(alloc, base, a, b, offered) {
        Ok(verdict) => verdict_report(alloc, &verdict),
        Err(VerifyError::TooManyEdges(number)) => Err(refuse_graph(alloc, names[number])),
        Err(VerifyError::Memory) => Err(Stop::Memory),
    }
}

/// The report of a verdict.
fn verdict_report(alloc: Global, verdict: &Verdict) -> Result<Report, Stop>
    ensures { Merges (λ r. r ≡ report_verdict verdict.now) result }
{
    match verdict {
        Verdict::Same => Ok(Report {
            kind: Kind::Done,
            text: Vec::from_slice(alloc, b"verified\n")?,
        }),
        _ => Ok(Report {
            kind: Kind::Rejected,
            text: certificate_json(alloc, verdict)?,
        }),
    }
}
