//! The command `tag`.
ghost use Rattle.std.specs.Prelude.{◌≡◌, ◌≤◌, ℕ, List, IsTrue};
ghost use Rattle.hpr_words.specs.Request.{tag};
ghost use Rattle.hpr_decisions.specs.Answered.{Answers, AnswersInKind};

use crate::programs::print_program;
use hpr_inputs::{Report, Stop, read_text};
use hpr_io::Shelf;
use hpr_text::Mode;
use std::alloc::Global;

/// Prints the program that an untagged file spells, in which this author's tags stand.
pub fn tag_file<S: Shelf>(
    alloc: Global,
    file: &str,
    author: u32,
    shelf: &mut S,
) -> Result<Report, Stop>
    requires serves { IsTrue (S.serves shelf.old file.now) }
    requires author { 1 ≤ author }
    ensures answers { Answers (tag file.now author)
        (S.files shelf.old) (S.faults shelf.old) (S.faults shelf.new) result }
    ensures kind { AnswersInKind (tag file.now author) result }
    ensures same_files { S.files shelf.new ≡ S.files shelf.old }
    ensures same_names { (n : List ℕ) → S.serves shelf.new n ≡ S.serves shelf.old n }
{
    let program = read_text(alloc, file, Mode::Untagged(author), shelf)?;
    print_program(alloc, &program)
}
