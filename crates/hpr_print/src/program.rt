//! The text of a program.
ghost use Rattle.std.specs.Prelude.{◌≡◌, ◌++◌, OnOk, IfOk, map};
ghost use Rattle.hpr_syntax.specs.Print.{text, pair_text, issued_text, joined, after_commas};

use crate::blocks::put_block;
use crate::put::{put, put_number};
use hpr_syntax::{Issued, Name, NoMemory, Program};
use std::alloc::Global;

fn put_pair(alloc: Global, out: &mut Vec<u8>, pair: (u32, u32)) -> Result<(), NoMemory>
    ensures { OnOk result (out.new.items ≡ out.old.items ++ pair_text pair) }
{
    put_number(alloc, out, u64::from(pair.0))?;
    put(out, b":")?;
    put_number(alloc, out, u64::from(pair.1))
}

/// Puts each pair after a comma and a space.
fn put_more_pairs(alloc: Global, out: &mut Vec<u8>, pairs: &[(u32, u32)]) -> Result<(), NoMemory>
    ensures { OnOk result (out.new.items ≡ out.old.items ++ after_commas (map pair_text pairs.now)) }
{
    for pair in pairs {
        put(out, b", ")?;
        put_pair(alloc, out, *pair)?;
    }
    Ok(())
}

/// Puts the line of the issued numbers, where there are any.
fn put_issued(alloc: Global, out: &mut Vec<u8>, issued: &Issued) -> Result<(), NoMemory>
    ensures { OnOk result (out.new.items ≡ out.old.items ++ issued_text issued.now) }
{
    if let Some((first, more)) = issued.rows().split_first() {
        put(out, b"issued ")?;
        put_pair(alloc, out, *first)?;
        put_more_pairs(alloc, out, more)?;
        put(out, b"\n")?;
    }
    Ok(())
}

/// Puts each name after a comma and a space.
fn put_more_names(out: &mut Vec<u8>, names: &[Name]) -> Result<(), NoMemory>
    ensures { OnOk result (out.new.items ≡ out.old.items ++ after_commas names.now) }
{
    for name in names {
        put(out, b", ")?;
        put(out, name.text().as_bytes())?;
    }
    Ok(())
}

/// Puts the names, joined by a comma and a space.
fn put_names(out: &mut Vec<u8>, names: &[Name]) -> Result<(), NoMemory>
    ensures { OnOk result (out.new.items ≡ out.old.items ++ joined names.now) }
{
    if let Some((first, more)) = names.split_first() {
        put(out, first.text().as_bytes())?;
        put_more_names(out, more)?;
    }
    Ok(())
}

/// The canonical text of a program: its lines `program` and `issued`, a line for each part and for
/// each `else`, `fi` and `od`, indented by two spaces a level, and the line `end(..)`. It fails only
/// for want of memory.
pub fn text_of(alloc: Global, program: &Program) -> Result<Vec<u8>, NoMemory>
    ensures { IfOk result (λ v. v.items ≡ text program.now) }
{
    let mut out = Vec::new(alloc);
    put_program(alloc, &mut out, program)?;
    Ok(out)
}

/// Puts the lines of a program.
#[tactic(auto, using(hpr_syntax::proofs::DepthBound::shallow), unfolding(hpr_syntax::specs::Print::text))]
fn put_program(alloc: Global, out: &mut Vec<u8>, program: &Program) -> Result<(), NoMemory>
    ensures { OnOk result (out.new.items ≡ out.old.items ++ text program.now) }
{
    put(out, b"program\n")?;
    put_issued(alloc, out, program.issued())?;
    put_block(alloc, out, program.body(), 0)?;
    put(out, b"end(")?;
    put_names(out, program.finals())?;
    put(out, b")\n")
}
