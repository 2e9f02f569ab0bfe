//! A variant of a base: one part more.
ghost use Rattle.std.specs.Prelude.{◌≡◌, ◌+◌, ◌<◌, ◌≤◌, ◌∷◌, IfOk};
ghost use Rattle.hpr_terms.specs.Names.{IsName};
ghost use Rattle.hpr_terms.specs.declared.expr.Expr.TheVariants.{Infix};
ghost use Rattle.hpr_terms.specs.Term.{var};
ghost use Rattle.hpr_syntax.specs.BodyOf.{before};
ghost use Rattle.hpr_syntax.specs.Issued.{raised};
ghost use Rattle.hpr_edit.specs.Changes.{from};
ghost use Rattle.hpr_edit.specs.Places.{width};
ghost use Rattle.hpr_sample.specs.Draws.{variable_name};
ghost use Rattle.hpr_sample.specs.Sample as sample;
ghost use Rattle.hpr_sample.specs.Private.Making.{CanHave};

use crate::draws::draw;
use crate::parts::{infix, name, variable};
use hpr_syntax::{Block, Issued, Program, Stmt};
use hpr_terms::{Binary, Expr, Name, NoMemory, Tag, copy_names};
use rand_xoshiro::SplitMix64;
use std::alloc::Global;

/// The base with the author's part `text := V sign V;` in its top block, at a place that is drawn;
/// `end` names it first.
pub(crate) fn with_part(
    alloc: Global,
    words: &mut SplitMix64,
    base: &Program,
    author: u32,
    text: &str,
    sign: Binary,
) -> Result<Program, NoMemory>
    requires { CanHave base.now author text.now }
    ensures { IfOk result (λ p. sample.with_part author text.now sign base.now words.old
        ≡ record { made = p; words = words.new }) }
{
    let place = draw(words, places(base));
    let left = draw(words, 8);
    let right = draw(words, 8);
    let part = part(alloc, author, text, sign, left, right)?;
    let body = with_inserted(alloc, base.body(), place as usize, part)?;
    let issued = with_author(alloc, base.issued(), author)?;
    let finals = with_name(alloc, text, base.finals())?;
    Ok(Program::from_parts(issued, body, finals))
}

/// `text := V sign V`.
fn part(
    alloc: Global,
    author: u32,
    text: &str,
    sign: Binary,
    left: u64,
    right: u64,
) -> Result<Stmt, NoMemory>
    requires name { IsName text.now }
    requires left { left < 8 }
    requires right { right < 8 }
    ensures { IfOk result (λ s. s ≡ Stmt.Assign (sample.tag author 1) text.now
        (Infix sign (var (variable_name left)) (var (variable_name right)))) }
{
    let value = infix(
        alloc,
        sign,
        Expr::Var(variable(alloc, left)?),
        Expr::Var(variable(alloc, right)?),
    )?;
    Ok(Stmt::Assign(Tag { author, serial: 1 }, name(alloc, text)?, value))
}

/// How many places a part may be put at in the top block.
#[tactic(auto, using(hpr_edit::proofs::Lists::width_body))]
fn places(base: &Program) -> u64
    ensures { result ≡ width base.now.body + 1 }
{
    base.body().stmts().len() as u64 + 1
}

/// A copy of the block with a part more at this place.
fn with_inserted(alloc: Global, block: &Block, place: usize, part: Stmt) -> Result<Block, NoMemory>
    requires { place ≤ width block.now }
    ensures { IfOk result (λ b. b ≡ from place (before part) block.now) }
{
    let mut stmts = block.copy(alloc)?.into_stmts();
    stmts.insert(place, part)?;
    Ok(Block::new(stmts))
}

/// A copy of the issued numbers, in which the author has 1 as well.
fn with_author(alloc: Global, issued: &Issued, author: u32) -> Result<Issued, NoMemory>
    ensures { IfOk result (λ i. i ≡ raised author 1 issued.now) }
{
    let mut issued = issued.copy(alloc)?;
    issued.raise(author, 1)?;
    Ok(issued)
}

/// The name, and copies of these behind it.
fn with_name(alloc: Global, text: &str, names: &[Name]) -> Result<Vec<Name>, NoMemory>
    requires { IsName text.now }
    ensures { IfOk result (λ v. v.items ≡ text.now ∷ names.now) }
{
    let mut all = copy_names(alloc, names)?;
    all.insert(0, name(alloc, text)?)?;
    Ok(all)
}
