//! Parts taken out of a body, and exchanged for others. Nothing here asks for memory.
//!
//! One walk goes down to the part with a tag, and looks at each part of the body at most once.
ghost use Rattle.std.specs.Prelude.{◌≡◌, ◌≤◌, ◌<◌, ◌+◌, Some, vec_len, slice_index_or};
ghost use Rattle.std.specs.Option.{option_or, unwrap_or};
ghost use Rattle.hpr_terms.specs.declared.tag.Tag.{Tag};
ghost use Rattle.hpr_syntax.specs.Body.{done, part_count};
ghost use Rattle.hpr_syntax.specs.BodyOf.{before, body_of};
ghost use Rattle.hpr_syntax.specs.Parts.{tag_of, same_tag, find_stmt};
ghost use Rattle.hpr_edit.specs.Changes.{at_part, from, gone};
ghost use Rattle.hpr_edit.specs.InPlace.{times, one_if, on_first, in_part, placing, found_within};

use hpr_syntax::{Block, Stmt};
use hpr_terms::Tag;
use std::mem;

/// Exchanges the part with this tag for what is in the hand, and tells whether there is one. Where the hand is empty,
/// the part goes out of its block.
#[cycle(exchange)]
fn exchange(block: &mut Block, tag: Tag, hand: &mut Option<Stmt>) -> bool
    requires once { times tag block.old ≤ 1 }
    ensures changed { block.new ≡ at_part tag (placing hand.old) block.old }
    ensures found { one_if result ≡ times tag block.old }
    ensures hand { hand.new ≡ option_or (find_stmt tag block.old) hand.old }
{
    for at in 0..block.stmts.len() {
        if block.stmts[at].tag() == tag {
            exchange_at(&mut block.stmts, at, hand);
            return true;
        }
        if exchange_within(&mut block.stmts[at], tag, hand) {
            return true;
        }
    }
    false
}

/// The same among those that stand in this part.
#[cycle(exchange)]
fn exchange_within(stmt: &mut Stmt, tag: Tag, hand: &mut Option<Stmt>) -> bool
    requires once { times tag (before stmt.old done) ≤ 1 }
    ensures changed { stmt.new ≡ in_part tag (placing hand.old) stmt.old }
    ensures found { one_if (same_tag (tag_of stmt.old) tag) + one_if result ≡ times tag (before stmt.old done) }
    ensures hand { hand.new ≡ option_or (found_within tag stmt.old) hand.old }
{
    match stmt {
        Stmt::If(_, _, yes, no) => {
            if exchange(yes, tag, hand) {
                return true;
            }
            exchange(no, tag, hand)
        }
        Stmt::While(_, _, body) => exchange(body, tag, hand),
        _ => false,
    }
}

/// Exchanges the part at this place.
fn exchange_at(stmts: &mut Vec<Stmt>, at: usize, hand: &mut Option<Stmt>)
    requires { at < vec_len stmts.old }
    ensures changed { body_of stmts.new.items ≡ from at (on_first (placing hand.old)) (body_of stmts.old.items) }
    ensures hand { (d : Stmt) → hand.new ≡ Some (slice_index_or stmts.old.items at d) }
{
    match hand.take() {
        Some(part) => {
            *hand = Some(mem::replace(&mut stmts[at], part));
        }
        None => {
            *hand = Some(stmts.remove(at));
        }
    }
}

/// Takes the part with this tag out, if there is one.
pub(crate) fn take_out(body: &mut Block, tag: Tag) -> Option<Stmt>
    requires once { (t : Tag) → times t body.old ≤ 1 }
    ensures left { body.new ≡ at_part tag gone body.old }
    ensures once { (t : Tag) → times t body.new ≤ 1 }
    ensures fewer { part_count body.new ≤ part_count body.old }
    ensures part { result ≡ find_stmt tag body.old }
{
    let mut hand = None;
    exchange(body, tag, &mut hand);
    hand
}

/// Puts this part in place of the one with this tag, and answers that one. Where there is none, it answers this part.
pub(crate) fn replace(body: &mut Block, tag: Tag, part: Stmt) -> Stmt
    requires once { times tag body.old ≤ 1 }
    ensures changed { body.new ≡ at_part tag (placing (Some part)) body.old }
    ensures part { result ≡ unwrap_or (find_stmt tag body.old) part }
{
    let mut hand = Some(part);
    exchange(body, tag, &mut hand);
    hand.unwrap()
}
