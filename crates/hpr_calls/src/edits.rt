//! Calls of hpr_edit, hpr_script and hpr_refusals on a program and a script.
ghost use Rattle.std.specs.Prelude.{◌≡◌, ◌≤◌, ℕ, OnOk};
ghost use Rattle.hpr_syntax.specs.Issued.{issued_to};

use hpr_edit::{Command, EditError, Editor, apply_script};
use hpr_refusals::{Refusal, command_message};
use hpr_rows::{Out, Row, put_count, put_message, put_program};
use hpr_script::{ScriptError, read_script};
use std::alloc::Global;

/// Answers the call.
pub(crate) fn call(row: Row<'_>, out: &mut Out) -> Option<()> {
    match row.word(1)? {
        "script" => script(row, out),
        _ => edit(row, out),
    }
}

// `script TEXT`: how many commands it has.
fn script(row: Row<'_>, out: &mut Out) -> Option<()> {
    let name = row.word(2)?;
    let bytes = row.bytes(2)?;
    match read_script(row.alloc, bytes) {
        Ok(commands) => put_count(out, "commands ", commands.len() as u64),
        Err(ScriptError::Syntax { place }) => {
            put_message(out, Refusal::Syntax { place }.message(row.alloc, name))
        }
        Err(ScriptError::Memory) => out.cut(),
    }
    Some(())
}

// The calls of a program, a script and an author.
fn edit(row: Row<'_>, out: &mut Out) -> Option<()> {
    let bytes = row.bytes(3)?;
    let commands = read_script(row.alloc, bytes).ok()?;
    match row.word(1)? {
        "apply" => applied(row, out, &commands),
        _ => taken_back(row, out, &commands),
    }
}

// `apply PROGRAM SCRIPT AUTHOR`: the program that the commands make of it.
fn applied(row: Row<'_>, out: &mut Out, commands: &[Command]) -> Option<()> {
    let name = row.word(3)?;
    let author = row.author(4)?;
    if author == 0 {
        return None;
    }
    match apply_script(row.alloc, row.program(2)?, commands, author) {
        Ok(edited) => put_program(row.alloc, out, &edited),
        Err(refusal) => put_message(out, command_message(row.alloc, name, &refusal)),
    }
    Some(())
}

// Carries out the commands in their order, puts the text of what they make, and takes them back from the
// last to the first.
fn there_and_back(
    alloc: Global,
    editor: &mut Editor,
    commands: &[Command],
    out: &mut Out,
) -> Result<(), EditError>
    ensures body { OnOk result (editor.new.program.body ≡ editor.old.program.body) }
    ensures finals { OnOk result (editor.new.program.finals ≡ editor.old.program.finals) }
    ensures issued { OnOk result ((a : ℕ)
        → issued_to a editor.old.program.issued ≤ issued_to a editor.new.program.issued) }
{
    match commands.split_first() {
        Some((first, rest)) => {
            let inverse = editor.apply(alloc, first)?;
            there_and_back(alloc, editor, rest, out)?;
            match editor.revert(alloc, inverse) {
                Ok(()) => return Ok(()),
                Err(_) => return Err(EditError::Memory),
            }
        }
        None => {
            put_program(alloc, out, editor.program());
            Ok(())
        }
    }
}

fn back(alloc: Global, out: &mut Out, editor: &mut Editor, commands: &[Command]) -> Option<()> {
    there_and_back(alloc, editor, commands, out).ok()?;
    put_program(alloc, out, editor.program());
    Some(())
}

// `back PROGRAM SCRIPT AUTHOR`: the program that the commands make of it, and what is left where they are
// taken back.
fn taken_back(row: Row<'_>, out: &mut Out, commands: &[Command]) -> Option<()> {
    let author = row.author(4)?;
    if author == 0 {
        return None;
    }
    let mut editor = Editor::start(row.program(2)?, author);
    back(row.alloc, out, &mut editor, commands)
}
