//! The commands of a script, carried out in their order.
ghost use Rattle.std.specs.Prelude.{◌≡◌, ◌≢◌, ◌≤◌, IfOk, IfErr, OnOk};
ghost use Rattle.hpr_edit.specs.declared.command.Inverse.{Inverse};
ghost use Rattle.hpr_edit.specs.Applied.{applied, becomes, refused};
ghost use Rattle.hpr_edit.specs.Edited as one;
ghost use Rattle.hpr_edit.specs.Edited.{edited};

use crate::command::{Command, EditError};
use crate::editor::Editor;
use hpr_syntax::Program;
use std::alloc::Global;

/// The first command of a script that is refused.
#[derive(Drop)]
pub struct CommandRefusal {
    /// Its number: the first command of a script has number 1.
    pub number: usize,
    /// Why it is refused; it may be for want of memory.
    pub why: EditError,
}

/// The program that the commands of a script make of a program, one after the other; new parts are
/// this author's, which is at least 1.
///
/// The first command that is refused ends it, by the causes of [`EditError`] in their order or for
/// want of memory.
pub fn apply_script(
    alloc: Global,
    program: Program,
    commands: &[Command],
    author: u32,
) -> Result<Program, CommandRefusal>
    requires { 1 ≤ author }
    ensures edited { IfOk result (λ q. applied program commands.now author ≡ becomes q) }
    ensures refused { IfErr result (λ r. r.why ≢ EditError.Memory
        → applied program commands.now author ≡ refused r.number r.why) }
{
    let mut editor = Editor::start(program, author);
    apply_all(alloc, &mut editor, commands)?;
    Ok(editor.close())
}

/// Carries out commands one after the other, until one is refused.
fn apply_all(alloc: Global, editor: &mut Editor, commands: &[Command]) -> Result<(), CommandRefusal>
    ensures edited { OnOk result (applied editor.old.program commands.now editor.old.author
        ≡ becomes editor.new.program) }
    ensures refused { IfErr result (λ r. r.why ≢ EditError.Memory
        → applied editor.old.program commands.now editor.old.author ≡ refused r.number r.why) }
{
    for (at, command) in commands.iter().enumerate() {
        apply_command(alloc, editor, command, at + 1)?;
    }
    Ok(())
}

/// Carries out the command with this number.
fn apply_command(
    alloc: Global,
    editor: &mut Editor,
    command: &Command,
    number: usize,
) -> Result<(), CommandRefusal>
    ensures edited { OnOk result ((i : Inverse) × (edited editor.old.program command.now editor.old.author
        ≡ one.becomes editor.new.program i)) }
    ensures refused { IfErr result (λ r. r.why ≢ EditError.Memory
        → edited editor.old.program command.now editor.old.author ≡ one.refused r.why) }
    ensures number { IfErr result (λ r. r.number ≡ number) }
    ensures author { editor.new.author ≡ editor.old.author }
{
    match editor.apply(alloc, command) {
        Ok(_) => Ok(()),
        Err(why) => Err(CommandRefusal { number, why }),
    }
}
