//! The programs of any number of files.
ghost use Rattle.std.specs.Prelude.{◌≡◌, ◌++◌, ◌∷◌, [], ℕ, List, All, IsTrue, OnOk, map, length, IfOk};
ghost use Rattle.hpr_inputs.specs.ReadsAll.{ReadsAll};

use crate::answer::Stop;
use crate::files::read_program;
use hpr_io::Shelf;
use hpr_syntax::{NoMemory, Program};
use std::alloc::Global;

/// The programs that the files spell, in their order. Each file is judged before the next one is
/// fetched: the first that can't be read, is too long or spells no program is what the message is on.
/// Horwitz, Prins and Reps (1989) have no files.
pub fn read_programs<S: Shelf>(
    alloc: Global,
    files: &[&str],
    shelf: &mut S,
) -> Result<Vec<Program>, Stop>
    requires { All (λ name. IsTrue (S.serves shelf.old name)) (map (λ s. s.now) files.now) }
    ensures reads { ReadsAll (S.files shelf.old) (map (λ s. s.now) files.now) (S.faults shelf.old)
        (S.faults shelf.new) result }
    ensures count { IfOk result (λ programs. length programs.items ≡ length files.now) }
    ensures same_files { S.files shelf.new ≡ S.files shelf.old }
    ensures same_names { (n : List ℕ) → S.serves shelf.new n ≡ S.serves shelf.old n }
{
    let mut programs = Vec::new(alloc);
    for file in files {
        let program = read_program(alloc, file, shelf)?;
        push_program(&mut programs, program)?;
    }
    Ok(programs)
}

/// Puts a program behind others.
fn push_program(programs: &mut Vec<Program>, program: Program) -> Result<(), NoMemory>
    ensures { OnOk result (programs.new.items ≡ programs.old.items ++ program ∷ []) }
{
    programs.push(program)?;
    Ok(())
}
