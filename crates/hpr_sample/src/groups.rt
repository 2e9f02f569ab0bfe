//! The groups of parts that a base is made of.
ghost use Rattle.std.specs.Prelude.{◌≡◌, ◌<◌, ◌+◌, ◌^◌, IfOk};
ghost use Rattle.hpr_terms.specs.declared.expr.Binary.TheVariants.{Add};
ghost use Rattle.hpr_terms.specs.declared.expr.Expr.TheVariants.{Infix, Num};
ghost use Rattle.hpr_terms.specs.Term.{num, var};
ghost use Rattle.hpr_syntax.specs.Body.{done};
ghost use Rattle.hpr_syntax.specs.BodyOf.{before};
ghost use Rattle.hpr_sample.specs.Draws.{variable_name};
ghost use Rattle.hpr_sample.specs.Sample as sample;

use crate::draws::draw;
use crate::parts::{infix, name, number, variable, with_number};
use hpr_syntax::{Block, Stmt};
use hpr_terms::{Binary, Expr, Name, NoMemory, Tag};
use rand_xoshiro::SplitMix64;
use std::alloc::Global;

/// The author of the base.
pub(crate) const AUTHOR: u32 = 1;

/// The tag of the base's part of this serial.
fn tag(serial: u32) -> Tag
    ensures { result ≡ sample.tag 1 serial }
{
    Tag {
        author: AUTHOR,
        serial,
    }
}

/// `V := V + K`.
pub(crate) fn assignment(
    alloc: Global,
    words: &mut SplitMix64,
    serial: u32,
) -> Result<Stmt, NoMemory>
    ensures { IfOk result (λ s. sample.assignment serial words.old
        ≡ record { made = before s done; words = words.new }) }
{
    let target = draw(words, 8);
    let operand = draw(words, 8);
    let added = draw(words, 100);
    let value = with_number(alloc, Binary::Add, variable(alloc, operand)?, added)?;
    Ok(Stmt::Assign(tag(serial), variable(alloc, target)?, value))
}

/// `if V < K then W := V + 1; else W := L; fi`.
pub(crate) fn conditional(
    alloc: Global,
    words: &mut SplitMix64,
    serial: u32,
) -> Result<Stmt, NoMemory>
    requires { serial + 2 < 2 ^ 32 }
    ensures { IfOk result (λ s. sample.conditional serial words.old
        ≡ record { made = before s done; words = words.new }) }
{
    let tested = draw(words, 8);
    let bound = draw(words, 100);
    let target = draw(words, 8);
    let other = draw(words, 100);
    let test = with_number(alloc, Binary::Less, variable(alloc, tested)?, bound)?;
    let yes = incremented(alloc, serial + 1, target, tested)?;
    let no = set_to(alloc, serial + 2, target, other)?;
    Ok(Stmt::If(tag(serial), test, yes, no))
}

/// A block of one part: the variable `target` becomes the variable `operand` and 1.
fn incremented(alloc: Global, serial: u32, target: u64, operand: u64) -> Result<Block, NoMemory>
    requires target { target < 8 }
    requires operand { operand < 8 }
    ensures { IfOk result (λ b. b ≡ sample.assign (sample.tag 1 serial) (variable_name target)
        (Infix Add (var (variable_name operand)) (num 1))) }
{
    let value = with_number(alloc, Binary::Add, variable(alloc, operand)?, 1)?;
    block_of(
        alloc,
        Stmt::Assign(tag(serial), variable(alloc, target)?, value),
    )
}

/// A block of one part: the variable becomes this number.
fn set_to(alloc: Global, serial: u32, target: u64, value: u64) -> Result<Block, NoMemory>
    requires target { target < 8 }
    requires value { value < 2 ^ 63 }
    ensures { IfOk result (λ b. b ≡ sample.assign (sample.tag 1 serial) (variable_name target) (Num value)) }
{
    let name = variable(alloc, target)?;
    block_of(alloc, Stmt::Assign(tag(serial), name, number(value)))
}

/// The block of one part.
fn block_of(alloc: Global, stmt: Stmt) -> Result<Block, NoMemory>
    ensures { IfOk result (λ b. b ≡ before stmt done) }
{
    let mut stmts = Vec::new(alloc);
    stmts.push(stmt)?;
    Ok(Block::new(stmts))
}

/// `c := 0` and `while c < K do W := W + V; c := c + 1; od`.
#[tactic(auto, using(crate::proofs::DrawnNames::c_is_name))]
pub(crate) fn repetition(
    alloc: Global,
    words: &mut SplitMix64,
    serial: u32,
) -> Result<(Stmt, Stmt), NoMemory>
    requires { serial + 3 < 2 ^ 32 }
    ensures { IfOk result (λ p. sample.repetition serial words.old
        ≡ record { made = before p.0 (before p.1 done); words = words.new }) }
{
    let bound = draw(words, 10);
    let target = draw(words, 8);
    let operand = draw(words, 8);
    let test = with_number(alloc, Binary::Less, name(alloc, "c")?, bound)?;
    let body = turn(alloc, serial + 2, target, operand)?;
    let start = Stmt::Assign(tag(serial), name(alloc, "c")?, number(0));
    Ok((start, Stmt::While(tag(serial + 1), test, body)))
}

/// `W := W + V; c := c + 1;`, the first with this serial.
#[tactic(auto, using(crate::proofs::DrawnNames::c_is_name))]
fn turn(alloc: Global, serial: u32, target: u64, operand: u64) -> Result<Block, NoMemory>
    requires serial { serial + 1 < 2 ^ 32 }
    requires target { target < 8 }
    requires operand { operand < 8 }
    ensures { IfOk result (λ b. b ≡ sample.turn serial (variable_name target) (variable_name operand)) }
{
    let counted = with_number(alloc, Binary::Add, name(alloc, "c")?, 1)?;
    let added = infix(
        alloc,
        Binary::Add,
        Expr::Var(variable(alloc, target)?),
        Expr::Var(variable(alloc, operand)?),
    )?;
    let mut stmts = Vec::new(alloc);
    stmts.push(Stmt::Assign(tag(serial), variable(alloc, target)?, added))?;
    stmts.push(Stmt::Assign(tag(serial + 1), name(alloc, "c")?, counted))?;
    Ok(Block::new(stmts))
}
