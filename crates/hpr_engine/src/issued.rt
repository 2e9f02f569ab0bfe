//! The issued numbers of a base and its variants.
ghost use Rattle.std.specs.Prelude.{◌≡◌, IfOk, OnOk};
ghost use Rattle.std.specs.List.{AllByRecursion};
ghost use Rattle.hpr_syntax.specs.Issued.{raised_by};
ghost use Rattle.hpr_syntax.specs.Shape.{IsProgram};
ghost use Rattle.hpr_graph.specs.Answer.{issued_of, issued_of_all};

use hpr_syntax::{Issued, NoMemory, Program};
use std::alloc::Global;

/// Each author's greatest issued number of the three programs.
pub fn issued_numbers(
    alloc: Global,
    base: &Program,
    a: &Program,
    b: &Program,
) -> Result<Issued, NoMemory>
    ensures numbers { IfOk result (λ i. i ≡ issued_of base.now a.now b.now) }
    ensures base { IfOk result (λ _. IsProgram base.now) }
    ensures a { IfOk result (λ _. IsProgram a.now) }
    ensures b { IfOk result (λ _. IsProgram b.now) }
{
    let mut issued = base.issued().copy(alloc)?;
    raise_all(&mut issued, a.issued())?;
    raise_all(&mut issued, b.issued())?;
    Ok(issued)
}

/// Each author's greatest issued number of a base and its variants.
pub fn issued_numbers_of_all(
    alloc: Global,
    base: &Program,
    variants: &[Program],
) -> Result<Issued, NoMemory>
    ensures numbers { IfOk result (λ i. i ≡ issued_of_all base.now variants.now) }
    ensures base { IfOk result (λ _. IsProgram base.now) }
    ensures variants { IfOk result (λ _. AllByRecursion IsProgram variants.now) }
{
    let mut issued = base.issued().copy(alloc)?;
    for variant in variants {
        raise_by(&mut issued, variant)?;
    }
    Ok(issued)
}

/// Raises each author's number to that of a program.
fn raise_by(issued: &mut Issued, program: &Program) -> Result<(), NoMemory>
    ensures numbers { OnOk result (issued.new ≡ raised_by program.now.issued issued.old) }
    ensures program { OnOk result (IsProgram program.now) }
{
    raise_all(issued, program.issued())
}

/// Raises each author's number to that of other issued numbers.
fn raise_all(issued: &mut Issued, other: &Issued) -> Result<(), NoMemory>
    ensures { OnOk result (issued.new ≡ raised_by other.now issued.old) }
{
    for (author, serial) in other.rows() {
        issued.raise(*author, *serial)?;
    }
    Ok(())
}
