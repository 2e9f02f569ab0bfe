//! The command `edit`.
ghost use Rattle.std.specs.Prelude.{◌≡◌, ◌≤◌, ℕ, List, IsTrue};
ghost use Rattle.hpr_words.specs.Request.{edit};
ghost use Rattle.hpr_edit.specs.Applied.{applied};
ghost use Rattle.hpr_decisions.specs.Answered.{Answers, AnswersInKind};
ghost use Rattle.hpr_decisions.specs.EditFiles.{edit_decision};
ghost use Rattle.hpr_inputs.specs.Answer.{Merges};

use crate::programs::print_program;
use hpr_edit::{Command, apply_script};
use hpr_inputs::{Report, Stop, read_commands, read_program};
use hpr_io::Shelf;
use hpr_refusals::command_message;
use hpr_syntax::Program;
use std::alloc::Global;

/// Prints the program that the commands of a script make of the program of a file; new parts are this
/// author's. The program is read and judged before the script, and all of the script before its first
/// command is carried out.
pub fn edit_file<S: Shelf>(
    alloc: Global,
    file: &str,
    script: &str,
    author: u32,
    shelf: &mut S,
) -> Result<Report, Stop>
    requires file { IsTrue (S.serves shelf.old file.now) }
    requires script { IsTrue (S.serves shelf.old script.now) }
    requires author { 1 ≤ author }
    ensures answers { Answers (edit file.now script.now author)
        (S.files shelf.old) (S.faults shelf.old) (S.faults shelf.new) result }
    ensures kind { AnswersInKind (edit file.now script.now author) result }
    ensures same_files { S.files shelf.new ≡ S.files shelf.old }
    ensures same_names { (n : List ℕ) → S.serves shelf.new n ≡ S.serves shelf.old n }
{
    let program = read_program(alloc, file, shelf)?;
    let commands = read_commands(alloc, script, shelf)?;
    show_edited(alloc, script, program, &commands, author)
}

/// The answer for a program and the commands of a script with this name.
fn show_edited(
    alloc: Global,
    script: &str,
    program: Program,
    commands: &[Command],
    author: u32,
) -> Result<Report, Stop>
    requires { 1 ≤ author }
    ensures { Merges (λ r. r ≡ edit_decision script.now (applied program commands.now author)) result }
{
    match apply_script(alloc, program, commands, author) {
        Ok(edited) => print_program(alloc, &edited),
        Err(refusal) => {
            let message = command_message(alloc, script, &refusal)?;
            Err(Stop::Refused(message))
        }
    }
}
