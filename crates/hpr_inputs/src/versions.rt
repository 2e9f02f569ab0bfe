//! The programs of a base and its two variants.
ghost use Rattle.std.specs.Prelude.{◌≡◌, ℕ, List, IsTrue};
ghost use Rattle.hpr_inputs.specs.ReadsFiles.{ReadsFiles};

use crate::answer::Stop;
use crate::files::read_program;
use hpr_io::Shelf;
use hpr_syntax::Program;
use std::alloc::Global;

/// A base and its variants A and B.
#[derive(Drop)]
pub struct Versions {
    pub base: Program,
    pub a: Program,
    pub b: Program,
}

/// The programs that three files spell.
pub fn read_versions<S: Shelf>(
    alloc: Global,
    base: &str,
    a: &str,
    b: &str,
    shelf: &mut S,
) -> Result<Versions, Stop>
    requires base { IsTrue (S.serves shelf.old base.now) }
    requires a { IsTrue (S.serves shelf.old a.now) }
    requires b { IsTrue (S.serves shelf.old b.now) }
    ensures reads { ReadsFiles (S.files shelf.old) base.now a.now b.now (S.faults shelf.old)
        (S.faults shelf.new) result }
    ensures same_files { S.files shelf.new ≡ S.files shelf.old }
    ensures same_names { (n : List ℕ) → S.serves shelf.new n ≡ S.serves shelf.old n }
{
    let base_program = read_program(alloc, base, shelf)?;
    let a_program = read_program(alloc, a, shelf)?;
    let b_program = read_program(alloc, b, shelf)?;
    Ok(Versions {
        base: base_program,
        a: a_program,
        b: b_program,
    })
}
