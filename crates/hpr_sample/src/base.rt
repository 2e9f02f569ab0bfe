//! The base of a sample.
ghost use Rattle.std.specs.Prelude.{◌≡◌, ℕ, ◌<◌, ◌≤◌, ◌+◌, ◌-◌, ◌^◌, IfOk};
ghost use Rattle.hpr_sample.specs.Draws.{Drawn};
ghost use Rattle.hpr_sample.specs.Private.Making.{after, step};
ghost use Rattle.hpr_sample.specs.Sample.{IsSampleSize, base_of, groups, variable_names};

use crate::draws::draw;
use crate::groups::{AUTHOR, assignment, conditional, repetition};
use crate::parts::variable;
use hpr_syntax::{Block, Issued, Program, Stmt};
use hpr_terms::{Name, NoMemory};
use rand_xoshiro::SplitMix64;
use std::alloc::Global;

/// The base of so many parts.
#[tactic(auto, using(crate::proofs::SamplePrograms::base_is_program))]
pub(crate) fn base(alloc: Global, words: &mut SplitMix64, parts: usize) -> Result<Program, NoMemory>
    requires { IsSampleSize parts }
    ensures { IfOk result (λ p. base_of parts (groups parts 1 words.old) ≡ record { made = p; words = words.new }) }
{
    let body = body(alloc, words, parts)?;
    let mut issued = Issued::new(alloc);
    issued.raise(AUTHOR, parts as u32)?;
    let finals = finals(alloc)?;
    Ok(Program::from_parts(issued, body, finals))
}

/// The names of `end`.
#[tactic(auto, using(crate::proofs::DrawnNames::names_more))]
fn finals(alloc: Global) -> Result<Vec<Name>, NoMemory>
    ensures { IfOk result (λ v. v.items ≡ variable_names) }
{
    let mut names = Vec::new(alloc);
    for digit in 0..8 {
        names.push(variable(alloc, digit)?)?;
    }
    Ok(names)
}

/// The top block of so many parts.
#[tactic(auto, using(crate::proofs::Pushed::all_pushed))]
fn body(alloc: Global, words: &mut SplitMix64, parts: usize) -> Result<Block, NoMemory>
    requires { parts < 2 ^ 31 }
    ensures { IfOk result (λ b. groups parts 1 words.old ≡ record { made = b; words = words.new }) }
{
    let mut stmts = Vec::new(alloc);
    let mut left = parts;
    let mut serial = 1;
    while left > 0 {
        let made = push_group(alloc, words, left, serial, &mut stmts)?;
        left -= made;
        serial += made as u32;
    }
    Ok(Block::new(stmts))
}

/// Draws and pushes the next group, where so many parts are left, and tells how many parts it has.
#[tactic(auto, using(crate::proofs::Pushed::pushed_repetition))]
fn push_group(
    alloc: Global,
    words: &mut SplitMix64,
    left: usize,
    serial: u32,
    stmts: &mut Vec<Stmt>,
) -> Result<usize, NoMemory>
    requires some { 1 ≤ left }
    requires serial { serial + left < 2 ^ 32 }
    ensures some { IfOk result (λ n. 1 ≤ n) }
    ensures few { IfOk result (λ n. n ≤ left) }
    ensures pushed { IfOk result (λ n. after stmts.old.items (groups left serial words.old)
        ≡ after stmts.new.items (groups (left - n) (serial + n) words.new)) }
{
    match next_kind(words, left) {
        0 => {
            stmts.push(assignment(alloc, words, serial)?)?;
            Ok(1)
        }
        1 => {
            stmts.push(conditional(alloc, words, serial)?)?;
            Ok(3)
        }
        _ => {
            let (start, repeated) = repetition(alloc, words, serial)?;
            stmts.push(start)?;
            stmts.push(repeated)?;
            Ok(4)
        }
    }
}

/// The kind of the next group, where so many parts are left: an assignment where they are too few for
/// the others, and else it is drawn.
#[tactic(auto, using(crate::proofs::Pushed::groups_few, crate::proofs::Pushed::groups_many))]
fn next_kind(words: &mut SplitMix64, left: usize) -> u64
    requires { 1 ≤ left }
    ensures few { left < 4 → result ≡ 0 }
    ensures step { (serial : ℕ) → groups left serial words.old ≡ step result left serial words.new }
{
    if left < 4 { 0 } else { draw(words, 3) }
}
