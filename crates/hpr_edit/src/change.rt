//! Changes of a block in its place.
//!
//! One walk goes down to the part with a tag, along a path of references, and does there what is
//! asked. It looks at each part of the block at most once. It ends on blocks of any depth, but the
//! stack that it takes is outside what is proved.
ghost use Rattle.std.specs.Prelude.{◌≡◌, ◌<◌, ◌≤◌, ◌+◌, ◌++◌, true, vec_len, vec_capacity, IfOk, OnOk, OnErr};
ghost use Rattle.hpr_syntax.specs.Body.{done};
ghost use Rattle.hpr_syntax.specs.BodyOf.{before, body_of};
ghost use Rattle.hpr_syntax.specs.Parts.{tag_of, same_tag};
ghost use Rattle.hpr_syntax.specs.Rows.{made};
ghost use Rattle.hpr_edit.specs.Changes.{at_part, at_place, from, with_block, first_block, second_block, saying, unwrapped, firsts, later};
ghost use Rattle.hpr_edit.specs.InPlace.{times, one_if, enclosing, done_by, is_whole, on_first, in_part, with_content};
ghost use Rattle.hpr_edit.specs.Places.{width};

use crate::command::Place;
use crate::put::empty;
use hpr_syntax::{Block, Content, NoMemory, Stmt};
use hpr_terms::Tag;
use std::alloc::Global;
use std::mem;

/// A part with this tag and content, put round others: so many parts from a place on go into its first block, and so
/// many of those behind them into its second.
#[derive(Clone, Copy)]
pub(crate) struct Round<'a> {
    pub tag: Tag,
    pub content: &'a Content,
    pub first: usize,
    pub second: usize,
}

/// What is done to a part.
#[derive(Clone, Copy)]
pub(crate) enum Change<'a> {
    /// It says this.
    Say(&'a Content),
    /// What stands in it takes its place.
    Unwrap,
    /// This is put round parts of one of its blocks, from this place on. The bool is true for a loop's
    /// body and for a conditional's first block.
    Enclose(bool, usize, Round<'a>),
}

/// Changes the part with this tag, and tells whether there is one.
#[cycle(change)]
fn change_part(
    alloc: Global,
    block: &mut Block,
    tag: Tag,
    change: Change<'_>,
) -> Result<bool, NoMemory>
    requires once { times tag block.old ≤ 1 }
    ensures changed { OnOk result (block.new ≡ at_part tag (done_by change.entry) block.old) }
    ensures found { IfOk result (λ found. one_if found ≡ times tag block.old) }
    ensures unchanged { is_whole change.entry ≡ true → OnErr result (block.new ≡ block.old) }
{
    for at in 0..block.stmts.len() {
        if block.stmts[at].tag() == tag {
            act(alloc, &mut block.stmts, at, change)?;
            return Ok(true);
        }
        if change_within(alloc, &mut block.stmts[at], tag, change)? {
            return Ok(true);
        }
    }
    Ok(false)
}

/// Changes the part with this tag, if there is one.
pub(crate) fn change_body(
    alloc: Global,
    body: &mut Block,
    tag: Tag,
    change: Change<'_>,
) -> Result<(), NoMemory>
    requires once { times tag body.old ≤ 1 }
    ensures changed { OnOk result (body.new ≡ at_part tag (done_by change.entry) body.old) }
    ensures unchanged { is_whole change.entry ≡ true → OnErr result (body.new ≡ body.old) }
{
    change_part(alloc, body, tag, change)?;
    Ok(())
}

/// Changes the part with this tag among those that stand in this one, and tells whether it is there.
#[cycle(change)]
fn change_within(
    alloc: Global,
    stmt: &mut Stmt,
    tag: Tag,
    change: Change<'_>,
) -> Result<bool, NoMemory>
    requires once { times tag (before stmt.old done) ≤ 1 }
    ensures changed { OnOk result (stmt.new ≡ in_part tag (done_by change.entry) stmt.old) }
    ensures found { IfOk result (λ found. one_if (same_tag (tag_of stmt.old) tag) + one_if found
        ≡ times tag (before stmt.old done)) }
    ensures unchanged { is_whole change.entry ≡ true → OnErr result (stmt.new ≡ stmt.old) }
{
    match stmt {
        Stmt::If(_, _, yes, no) => {
            if change_part(alloc, yes, tag, change)? {
                return Ok(true);
            }
            change_part(alloc, no, tag, change)
        }
        Stmt::While(_, _, body) => change_part(alloc, body, tag, change),
        _ => Ok(false),
    }
}

/// Does it to the part at this place.
fn act(alloc: Global, stmts: &mut Vec<Stmt>, at: usize, change: Change<'_>) -> Result<(), NoMemory>
    requires { at < vec_len stmts.old }
    ensures changed { OnOk result (body_of stmts.new.items ≡ from at (on_first (done_by change.entry))
        (body_of stmts.old.items)) }
    ensures unchanged { is_whole change.entry ≡ true → OnErr result (stmts.new.items ≡ stmts.old.items) }
{
    match change {
        Change::Say(content) => say_at(alloc, stmts, at, content),
        Change::Unwrap => unwrap_at(alloc, stmts, at),
        Change::Enclose(branch, place, round) => {
            enclose_within(alloc, stmts, at, branch, place, round)
        }
    }
}

/// Lets the part at this place say this.
fn say_at(
    alloc: Global,
    stmts: &mut Vec<Stmt>,
    at: usize,
    content: &Content,
) -> Result<(), NoMemory>
    requires { at < vec_len stmts.old }
    ensures changed { OnOk result (body_of stmts.new.items ≡ from at (on_first (saying content.now))
        (body_of stmts.old.items)) }
    ensures unchanged { OnErr result (stmts.new.items ≡ stmts.old.items) }
{
    say(alloc, &mut stmts[at], content)
}

/// Puts what stands in the part at this place there.
fn unwrap_at(alloc: Global, stmts: &mut Vec<Stmt>, at: usize) -> Result<(), NoMemory>
    requires { at < vec_len stmts.old }
    ensures changed { OnOk result (body_of stmts.new.items ≡ from at (on_first unwrapped) (body_of stmts.old.items)) }
    ensures unchanged { OnErr result (stmts.new.items ≡ stmts.old.items) }
{
    stmts.reserve(count_in(&stmts[at]))?;
    let mut rest = stmts.split_off(at)?;
    let mut part = rest.remove(0);
    let (first, second) = take_blocks(alloc, &mut part);
    // No more memory is asked for from here on.
    append_all(stmts, first.into_stmts(), second.into_stmts(), rest);
    Ok(())
}

/// Puts these parts behind others. There is room for them.
fn append_all(stmts: &mut Vec<Stmt>, first: Vec<Stmt>, second: Vec<Stmt>, third: Vec<Stmt>)
    requires { vec_len stmts.old + vec_len first + vec_len second + vec_len third ≤ vec_capacity stmts.old }
    ensures { stmts.new.items ≡ ((stmts.old.items ++ first.items) ++ second.items) ++ third.items }
{
    append(stmts, first);
    append(stmts, second);
    append(stmts, third);
}

/// Puts these parts behind others. There is room for them.
fn append(stmts: &mut Vec<Stmt>, mut more: Vec<Stmt>)
    requires { vec_len stmts.old + vec_len more ≤ vec_capacity stmts.old }
    ensures items { stmts.new.items ≡ stmts.old.items ++ more.items }
    ensures len { vec_len stmts.new ≡ vec_len stmts.old + vec_len more }
    ensures capacity { vec_capacity stmts.old ≤ vec_capacity stmts.new }
{
    if stmts.append(&mut more).is_err() {
        unreachable!();
    }
}

/// How many parts the blocks of a part have, without those that stand in them.
#[tactic(auto, using(crate::proofs::Lists::width_body))]
fn count_in(part: &Stmt) -> usize
    ensures { result ≡ width (first_block part.now) + width (second_block part.now) }
{
    match part {
        Stmt::If(_, _, yes, no) => yes.stmts.len() + no.stmts.len(),
        Stmt::While(_, _, body) => body.stmts.len(),
        _ => 0,
    }
}

/// Takes the blocks of a part, as far as it has blocks.
fn take_blocks(alloc: Global, part: &mut Stmt) -> (Block, Block)
    ensures first { result.0 ≡ first_block part.old }
    ensures second { result.1 ≡ second_block part.old }
{
    match part {
        Stmt::If(_, _, yes, no) => (take_block(alloc, yes), take_block(alloc, no)),
        Stmt::While(_, _, body) => (take_block(alloc, body), empty(alloc)),
        _ => (empty(alloc), empty(alloc)),
    }
}

/// Takes all parts of a block.
fn take_block(alloc: Global, block: &mut Block) -> Block
    ensures { result ≡ block.old }
{
    mem::replace(block, empty(alloc))
}

/// Puts a new part round parts of a block of the part at this place.
fn enclose_within(
    alloc: Global,
    stmts: &mut Vec<Stmt>,
    at: usize,
    branch: bool,
    place: usize,
    round: Round<'_>,
) -> Result<(), NoMemory>
    requires { at < vec_len stmts.old }
    ensures { OnOk result (body_of stmts.new.items ≡ from at
        (on_first (λ part rest. before (with_block branch (from place (enclosing round.entry)) part) rest))
        (body_of stmts.old.items)) }
{
    enclose_in(alloc, &mut stmts[at], branch, place, round)
}

/// Puts a new part round parts of a block of this part.
fn enclose_in(
    alloc: Global,
    stmt: &mut Stmt,
    branch: bool,
    place: usize,
    round: Round<'_>,
) -> Result<(), NoMemory>
    ensures { OnOk result (stmt.new ≡ with_block branch (from place (enclosing round.entry)) stmt.old) }
{
    match stmt {
        Stmt::If(_, _, yes, no) => {
            if branch {
                enclose(alloc, yes, place, round)
            } else {
                enclose(alloc, no, place, round)
            }
        }
        Stmt::While(_, _, body) => {
            if branch {
                enclose(alloc, body, place, round)
            } else {
                Ok(())
            }
        }
        _ => Ok(()),
    }
}

/// Puts a new part round parts of a block from this place on, if there is such a place.
#[tactic(auto, using(crate::proofs::Lists::from_past))]
fn enclose(alloc: Global, block: &mut Block, place: usize, round: Round<'_>) -> Result<(), NoMemory>
    ensures { OnOk result (block.new ≡ from place (enclosing round.entry) block.old) }
{
    if place <= block.stmts.len() {
        enclose_at(alloc, &mut block.stmts, place, round)?;
    }
    Ok(())
}

/// Puts a new part round parts from this place on.
fn enclose_at(
    alloc: Global,
    stmts: &mut Vec<Stmt>,
    at: usize,
    round: Round<'_>,
) -> Result<(), NoMemory>
    requires { at ≤ vec_len stmts.old }
    ensures { OnOk result (body_of stmts.new.items ≡ from at (enclosing round.entry) (body_of stmts.old.items)) }
{
    let mut rest = stmts.split_off(at)?;
    let part = take_enclosed(alloc, &mut rest, round)?;
    stmts.push(part)?;
    stmts.append(&mut rest)?;
    Ok(())
}

/// Takes so many of the parts, and so many behind them, as the blocks of a part that says this.
fn take_enclosed(alloc: Global, stmts: &mut Vec<Stmt>, round: Round<'_>) -> Result<Stmt, NoMemory>
    ensures part { IfOk result (λ part. part ≡ made round.entry.tag round.entry.content.now
        (firsts round.entry.first (body_of stmts.old.items))
        (firsts round.entry.second (later round.entry.first (body_of stmts.old.items)))) }
    ensures rest { OnOk result (body_of stmts.new.items
        ≡ later round.entry.second (later round.entry.first (body_of stmts.old.items))) }
{
    let content = round.content.copy(alloc)?;
    let yes = take_front(stmts, round.first)?;
    let no = take_front(stmts, round.second)?;
    Ok(content.into_stmt(round.tag, yes, no))
}

/// Takes so many of the parts, or all if there are no more, and leaves those behind them.
fn take_front(stmts: &mut Vec<Stmt>, count: usize) -> Result<Block, NoMemory>
    ensures front { IfOk result (λ front. front ≡ firsts count (body_of stmts.old.items)) }
    ensures rest { OnOk result (body_of stmts.new.items ≡ later count (body_of stmts.old.items)) }
{
    let most = count.min(stmts.len());
    let rest = stmts.split_off(most)?;
    Ok(Block::new(mem::replace(stmts, rest)))
}

/// Lets a part say this.
fn say(alloc: Global, part: &mut Stmt, content: &Content) -> Result<(), NoMemory>
    ensures changed { OnOk result (part.new ≡ with_content content.now part.old) }
    ensures unchanged { OnErr result (part.new ≡ part.old) }
{
    let content = content.copy(alloc)?;
    let tag = part.tag();
    let (first, second) = take_blocks(alloc, part);
    *part = content.into_stmt(tag, first, second);
    Ok(())
}

/// Puts a new part round parts from a place of a body on, if there is such a place.
pub(crate) fn enclose_at_place(
    alloc: Global,
    body: &mut Block,
    place: Place,
    round: Round<'_>,
) -> Result<(), NoMemory>
    requires once { (t : Tag) → times t body.old ≤ 1 }
    ensures { OnOk result (body.new ≡ at_place place (enclosing round.entry) body.old) }
{
    match place.parent {
        None => enclose(alloc, body, place.at, round),
        Some((tag, branch)) => change_body(
            alloc,
            body,
            tag,
            Change::Enclose(branch, place.at, round),
        ),
    }
}
