//! The files of a call, and the programs and scripts that they spell.
ghost use Rattle.std.specs.Prelude.{◌≡◌, ◌≤◌, ℕ, List, IfOk, IsTrue, length};
ghost use Rattle.hpr_terms.specs.declared.limits.TheConstants.{MAX_FILE};
ghost use Rattle.hpr_text.specs.Forms.{form_of, HasAuthor};
ghost use Rattle.hpr_refusals.specs.Refusals.{IsFileIn, IsRefusedIn, IsRefusedScript, IsScriptOf};
ghost use Rattle.hpr_inputs.specs.ReadsFile.{Fetches, Judges, ReadsIn, ReadsProgram, ReadsScript, Refuses};

use crate::answer::Stop;
use hpr_io::{FetchError, Shelf};
use hpr_refusals::{Command, Refusal};
use hpr_script::{ScriptError, read_script};
use hpr_syntax::Program;
use hpr_terms::limits::MAX_FILE;
use hpr_text::{Mode, TextError, parse};
use std::alloc::Global;

/// The bytes of a file of an accepted length.
fn fetch_file<S: Shelf>(alloc: Global, file: &str, shelf: &mut S) -> Result<Vec<u8>, Stop>
    requires { IsTrue (S.serves shelf.old file.now) }
    ensures fetches { Fetches (S.files shelf.old) file.now (S.faults shelf.old) (S.faults shelf.new) result }
    ensures short { IfOk result (λ bytes. length bytes.items ≤ MAX_FILE) }
    ensures same_files { S.files shelf.new ≡ S.files shelf.old }
    ensures same_names { (n : List ℕ) → S.serves shelf.new n ≡ S.serves shelf.old n }
{
    match shelf.fetch(alloc, file, MAX_FILE + 1) {
        Ok(bytes) => {
            if bytes.len() > MAX_FILE {
                return Err(refused(alloc, file, Refusal::Longer));
            }
            Ok(bytes)
        }
        Err(FetchError::Failed) => {
            let message = format!(in alloc; "hpr: cannot read {file}\n")?;
            Err(Stop::ReadFault(message))
        }
        Err(FetchError::Memory) => Err(Stop::Memory),
    }
}

/// The refusal of a file.
fn refused(alloc: Global, file: &str, why: Refusal) -> Stop
    ensures { Refuses file.now why result }
{
    match why.message(alloc, file) {
        Ok(message) => Stop::Refused(message),
        Err(_) => Stop::Memory,
    }
}

/// The program that a file spells.
pub fn read_program<S: Shelf>(alloc: Global, file: &str, shelf: &mut S) -> Result<Program, Stop>
    requires { IsTrue (S.serves shelf.old file.now) }
    ensures reads { ReadsProgram (S.files shelf.old) file.now (S.faults shelf.old) (S.faults shelf.new) result }
    ensures same_files { S.files shelf.new ≡ S.files shelf.old }
    ensures same_names { (n : List ℕ) → S.serves shelf.new n ≡ S.serves shelf.old n }
{
    read_text(alloc, file, Mode::Tagged, shelf)
}

/// The program that a file spells in a form of texts.
pub fn read_text<S: Shelf>(
    alloc: Global,
    file: &str,
    mode: Mode,
    shelf: &mut S,
) -> Result<Program, Stop>
    requires serves { IsTrue (S.serves shelf.old file.now) }
    requires author { HasAuthor mode }
    ensures reads { ReadsIn (form_of mode) (S.files shelf.old) file.now (S.faults shelf.old)
        (S.faults shelf.new) result }
    ensures same_files { S.files shelf.new ≡ S.files shelf.old }
    ensures same_names { (n : List ℕ) → S.serves shelf.new n ≡ S.serves shelf.old n }
{
    let bytes = fetch_file(alloc, file, shelf)?;
    spelled_program(alloc, file, bytes.as_slice(), mode)
}

/// The program that the bytes of a file spell.
fn spelled_program(alloc: Global, file: &str, bytes: &[u8], mode: Mode) -> Result<Program, Stop>
    requires short { length bytes.now ≤ MAX_FILE }
    requires author { HasAuthor mode }
    ensures { Judges (IsRefusedIn (form_of mode) file.now) (IsFileIn (form_of mode)) bytes.now result }
{
    match parse(alloc, bytes, mode) {
        Ok(program) => Ok(program),
        Err(TextError::Syntax { place }) => Err(refused(alloc, file, Refusal::Syntax { place })),
        Err(TextError::Shape(error)) => Err(refused(alloc, file, Refusal::Shape(error))),
        Err(TextError::Memory) => Err(Stop::Memory),
    }
}

/// The commands of the script that a file spells.
pub fn read_commands<S: Shelf>(
    alloc: Global,
    file: &str,
    shelf: &mut S,
) -> Result<Vec<Command>, Stop>
    requires { IsTrue (S.serves shelf.old file.now) }
    ensures reads { ReadsScript (S.files shelf.old) file.now (S.faults shelf.old) (S.faults shelf.new) result }
    ensures same_files { S.files shelf.new ≡ S.files shelf.old }
    ensures same_names { (n : List ℕ) → S.serves shelf.new n ≡ S.serves shelf.old n }
{
    let bytes = fetch_file(alloc, file, shelf)?;
    spelled_commands(alloc, file, bytes.as_slice())
}

/// The commands of the script that the bytes of a file spell.
fn spelled_commands(alloc: Global, file: &str, bytes: &[u8]) -> Result<Vec<Command>, Stop>
    requires { length bytes.now ≤ MAX_FILE }
    ensures { Judges (IsRefusedScript file.now) (λ read v. IsScriptOf read v.items) bytes.now result }
{
    match read_script(alloc, bytes) {
        Ok(commands) => Ok(commands),
        Err(ScriptError::Syntax { place }) => {
            Err(refused(alloc, file, Refusal::Syntax { place }))
        }
        Err(ScriptError::Memory) => Err(Stop::Memory),
    }
}
