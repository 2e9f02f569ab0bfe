//! The commands: each has its own decision.
ghost use Rattle.std.specs.Prelude.{◌≡◌, ℕ, List, All, IsTrue};
ghost use Rattle.hpr_words.specs.Asked.{request};
ghost use Rattle.hpr_words.specs.Request.{IsInRange};
ghost use Rattle.hpr_decisions.specs.Answered.{Answers, AnswersInKind, AnswersUnread};
ghost use Rattle.hpr_decisions.specs.Reads.{files_of};

use crate::affected::affected_files;
use crate::edit::edit_file;
use crate::graph::graph_file;
use crate::integrate::integrate_files;
use crate::integrate_many::integrate_many_files;
use crate::run::run_file;
use crate::sample::sample_seed;
use crate::slice::slice_file;
use crate::tag::tag_file;
use crate::trial::trial_files;
use crate::verify::verify_files;
use hpr_inputs::{Report, Stop};
use hpr_io::Shelf;
use hpr_words::Asked;
use std::alloc::Global;

/// What a request comes to.
pub fn decide<S: Shelf>(alloc: Global, asked: Asked<'_>, shelf: &mut S) -> Result<Report, Stop>
    requires serves { All (λ name. IsTrue (S.serves shelf.old name)) (files_of (request asked)) }
    requires in_range { IsInRange (request asked) }
    ensures answers { Answers (request asked.entry)
        (S.files shelf.old) (S.faults shelf.old) (S.faults shelf.new) result }
    ensures kind { AnswersInKind (request asked.entry) result }
    ensures unread { AnswersUnread (request asked.entry) (S.faults shelf.old) (S.faults shelf.new) result }
    ensures same_files { S.files shelf.new ≡ S.files shelf.old }
    ensures same_names { (n : List ℕ) → S.serves shelf.new n ≡ S.serves shelf.old n }
{
    match asked {
        Asked::Integrate { base, a, b, tries } => {
            integrate_files(alloc, base, a, b, tries, shelf)
        }
        Asked::IntegrateMany {
            base,
            variants,
            tries,
        } => integrate_many_files(alloc, base, variants.as_slice(), tries, shelf),
        Asked::Run {
            file,
            states,
            steps,
            trace,
        } => run_file(alloc, file, states.as_slice(), steps, trace, shelf),
        Asked::Graph { file, json } => graph_file(alloc, file, json, shelf),
        Asked::Slice {
            file,
            points,
            program,
        } => slice_file(alloc, file, points.as_slice(), program, shelf),
        Asked::Affected { base, a } => affected_files(alloc, base, a, shelf),
        Asked::Trial {
            base,
            a,
            b,
            states,
            steps,
        } => trial_files(alloc, base, a, b, states.as_slice(), steps, shelf),
        Asked::Edit {
            file,
            script,
            author,
        } => edit_file(alloc, file, script, author, shelf),
        Asked::Tag { file, author } => tag_file(alloc, file, author, shelf),
        Asked::Sample { seed, parts } => sample_seed(alloc, seed, parts),
        Asked::Verify {
            base,
            a,
            b,
            offered,
        } => verify_files(alloc, base, a, b, offered, shelf),
    }
}
