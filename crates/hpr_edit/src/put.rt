//! Parts put into a body and round others. Room was got before, so nothing here fails for want of memory.
ghost use Rattle.std.specs.Prelude.{◌≡◌, ◌≤◌, ◌<◌, ◌+◌, true, [], vec_len, vec_capacity, IfOk};
ghost use Rattle.std.specs.List.{insert};
ghost use Rattle.hpr_terms.specs.declared.limits.TheConstants.{MAX_PARTS};
ghost use Rattle.hpr_terms.specs.declared.tag.Tag.{Tag};
ghost use Rattle.hpr_syntax.specs.Body.{done, part_count};
ghost use Rattle.hpr_syntax.specs.BodyOf.{before};
ghost use Rattle.hpr_syntax.specs.Parts.{tag_of, same_tag};
ghost use Rattle.hpr_edit.specs.Changes.{at_part, at_place, from, with_block, first_block, second_block, wrapped};
ghost use Rattle.hpr_edit.specs.InPlace.{times};
ghost use Rattle.hpr_edit.specs.Places.{width};

use crate::command::Place;
use crate::exchange::replace;
use hpr_syntax::{Block, Content, NoMemory, Stmt};
use hpr_terms::{Expr, Literal, Tag};
use std::alloc::Global;

/// Room for the parts of a block that has so many at most, and for one more.
pub(crate) fn room_for(alloc: Global, count: usize) -> Result<Vec<Stmt>, NoMemory>
    requires { count ≤ MAX_PARTS }
    ensures empty { IfOk result (λ v. v.items ≡ []) }
    ensures room { IfOk result (λ v. count < vec_capacity v) }
{
    Ok(Vec::with_capacity(alloc, count + 1)?)
}

/// Puts a part at a place of a body, if there is such a place.
#[tactic(auto, using(crate::proofs::Exchanged::width_parts))]
pub(crate) fn put_part(alloc: Global, body: &mut Block, place: Place, part: Stmt, room: Vec<Stmt>)
    requires once { (t : Tag) → times t body.old ≤ 1 }
    requires empty { room.items ≡ [] }
    requires room { part_count body.old < vec_capacity room }
    ensures { body.new ≡ at_place place (before part) body.old }
{
    match place.parent {
        None => put_into(body, place.at, part, room),
        Some((tag, branch)) => put_within(alloc, body, tag, branch, place.at, part, room),
    }
}

/// Puts a part into a block of the part with this tag, if there is one.
fn put_within(
    alloc: Global,
    body: &mut Block,
    tag: Tag,
    branch: bool,
    at: usize,
    part: Stmt,
    room: Vec<Stmt>,
)
    requires once { times tag body.old ≤ 1 }
    requires empty { room.items ≡ [] }
    requires room { part_count body.old < vec_capacity room }
    ensures { body.new ≡ at_part tag (λ s rest. before (with_block branch (from at (before part)) s) rest) body.old }
{
    let mut around = replace(body, tag, stand_in(alloc, tag));
    put_in(&mut around, branch, at, part, room);
    drop(replace(body, tag, around));
}

/// Puts a part into a block of this one.
fn put_in(stmt: &mut Stmt, branch: bool, at: usize, part: Stmt, room: Vec<Stmt>)
    requires empty { room.items ≡ [] }
    requires room { width (first_block stmt.old) + width (second_block stmt.old) < vec_capacity room }
    ensures { stmt.new ≡ with_block branch (from at (before part)) stmt.old }
{
    match stmt {
        Stmt::If(_, _, yes, no) => {
            if branch {
                put_into(yes, at, part, room);
            } else {
                put_into(no, at, part, room);
            }
        }
        Stmt::While(_, _, body) => {
            if branch {
                put_into(body, at, part, room);
            }
        }
        _ => {}
    }
}

/// Puts a part into a block, if there is such a place.
#[tactic(auto, using(crate::proofs::Lists::inserted, crate::proofs::Lists::from_past, crate::proofs::Lists::width_body))]
fn put_into(block: &mut Block, at: usize, part: Stmt, room: Vec<Stmt>)
    requires empty { room.items ≡ [] }
    requires room { width block.old < vec_capacity room }
    ensures { block.new ≡ from at (before part) block.old }
{
    if at <= block.stmts.len() {
        put_among(&mut block.stmts, at, part, room);
    }
}

/// Puts a part among others. Where memory for that is wanting, all of them go into the room.
fn put_among(stmts: &mut Vec<Stmt>, at: usize, part: Stmt, room: Vec<Stmt>)
    requires place { at ≤ vec_len stmts.old }
    requires empty { room.items ≡ [] }
    requires room { vec_len stmts.old < vec_capacity room }
    ensures { stmts.new.items ≡ insert stmts.old.items at part }
{
    if let Err(failed) = stmts.insert(at, part) {
        move_over(stmts, at, failed.value, room);
    }
}

/// Moves parts into a room, and puts one among them.
fn move_over(stmts: &mut Vec<Stmt>, at: usize, part: Stmt, mut room: Vec<Stmt>)
    requires place { at ≤ vec_len stmts.old }
    requires empty { room.items ≡ [] }
    requires room { vec_len stmts.old < vec_capacity room }
    ensures { stmts.new.items ≡ insert stmts.old.items at part }
{
    if room.append(stmts).is_err() {
        unreachable!();
    }
    if room.insert(at, part).is_err() {
        unreachable!();
    }
    *stmts = room;
}

/// Puts a new part with this tag and content round the part with a tag. There is room for one.
pub(crate) fn put_round(
    alloc: Global,
    body: &mut Block,
    tag: Tag,
    new: Tag,
    content: Content,
    room: Vec<Stmt>,
)
    requires once { times tag body.old ≤ 1 }
    requires empty { room.items ≡ [] }
    requires room { 0 < vec_capacity room }
    ensures { body.new ≡ at_part tag (wrapped new content) body.old }
{
    let part = replace(body, tag, stand_in(alloc, tag));
    let whole = content.into_stmt(new, alone(part, room), empty(alloc));
    drop(replace(body, tag, whole));
}

/// The block of this part alone. There is room for it.
fn alone(part: Stmt, mut room: Vec<Stmt>) -> Block
    requires empty { room.items ≡ [] }
    requires room { 0 < vec_capacity room }
    ensures { result ≡ before part done }
{
    match room.push(part) {
        Ok(()) => Block::new(room),
        Err(_) => unreachable!(),
    }
}

/// A part with this tag that stands in for another.
fn stand_in(alloc: Global, tag: Tag) -> Stmt
    ensures tag { same_tag (tag_of result) tag ≡ true }
    ensures once { times tag (before result done) ≤ 1 }
    ensures small { width (first_block result) + width (second_block result) ≡ 0 }
{
    Stmt::While(tag, Expr::Num(Literal::new(0).unwrap()), empty(alloc))
}

/// The block with no parts.
pub(crate) fn empty(alloc: Global) -> Block
    ensures { result ≡ done }
{
    Block::new(Vec::new(alloc))
}
