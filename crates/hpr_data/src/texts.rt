//! The programs that texts in memory spell.
ghost use Rattle.std.specs.Prelude.{◌≡◌, ◌++◌, ◌∷◌, [], IfOk, OnOk, length, map};
ghost use Rattle.std.specs.Option.{option_copied};
ghost use Rattle.hpr_io.specs.Files.{files_in, lookup};
ghost use Rattle.hpr_data.specs.Private.Comes.{ComesToProgram, ComesToPrograms, Spelled};

use crate::found::Stop;
use hpr_refusals::Refusal;
use hpr_syntax::{NoMemory, Program};
use hpr_terms::limits::MAX_FILE;
use hpr_text::{Mode, TextError, parse};
use std::alloc::Global;

/// The bytes of the first text with this name.
fn bytes_named<'a>(files: &'a [(String, Vec<u8>)], name: &str) -> Option<&'a [u8]>
    ensures { option_copied result ≡ lookup (files_in files.entry.now) name.now }
{
    for (known, bytes) in files {
        if known.as_str() == name {
            return Some(bytes.as_slice());
        }
    }
    None
}

/// The program that the first text with this name spells. A text that is too long is not read.
pub(crate) fn program_named<'a>(
    alloc: Global,
    files: &[(String, Vec<u8>)],
    file: &'a str,
) -> Result<Program, Stop<'a>>
    ensures { ComesToProgram (files_in files.now) file.now result }
{
    match bytes_named(files, file) {
        Some(bytes) => program_of(alloc, file, bytes),
        None => Err(Stop::Absent(file)),
    }
}

/// The program that the bytes of a text spell.
fn program_of<'a>(alloc: Global, file: &'a str, bytes: &[u8]) -> Result<Program, Stop<'a>>
    ensures { Spelled bytes.now file.now result }
{
    if bytes.len() > MAX_FILE {
        return Err(Stop::Refused(file, Refusal::Longer));
    }
    match parse(alloc, bytes, Mode::Tagged) {
        Ok(program) => Ok(program),
        Err(TextError::Syntax { place }) => Err(Stop::Refused(file, Refusal::Syntax { place })),
        Err(TextError::Shape(error)) => Err(Stop::Refused(file, Refusal::Shape(error))),
        Err(TextError::Memory) => Err(Stop::Memory),
    }
}

/// The programs that the first texts with these names spell, in their order. Each text is judged before the next.
pub(crate) fn programs_named<'a>(
    alloc: Global,
    files: &[(String, Vec<u8>)],
    names: &[&'a str],
) -> Result<Vec<Program>, Stop<'a>>
    ensures programs { ComesToPrograms (files_in files.now) (map (λ s. s.now) names.now) result }
    ensures count { IfOk result (λ programs. length programs.items ≡ length names.now) }
{
    let mut programs = Vec::new(alloc);
    for name in names {
        let program = program_named(alloc, files, *name)?;
        push_program(&mut programs, program)?;
    }
    Ok(programs)
}

/// Puts a program behind others.
fn push_program(programs: &mut Vec<Program>, program: Program) -> Result<(), NoMemory>
    ensures { OnOk result (programs.new.items ≡ programs.old.items ++ program ∷ []) }
{
    programs.push(program)?;
    Ok(())
}
