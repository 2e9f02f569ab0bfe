//! The tests of a program that an edited one can fail, on what the command changes alone.
ghost use Rattle.std.specs.Prelude.{◌≡◌, Some, None};
ghost use Rattle.hpr_syntax.specs.Body.{done};
ghost use Rattle.hpr_syntax.specs.BodyOf.{before};
ghost use Rattle.hpr_syntax.specs.Shape.{first_deep, too_many};
ghost use Rattle.hpr_edit.specs.Tested.{left_at, below, room_at, none_left, said_refusal, deep_refusal, new_refusal, misplaced};

use crate::command::{EditError, Place};
use crate::places::{is_place, located};
use hpr_syntax::{Block, Content, ShapeError, Stmt, has_wrong_name, is_large_content};
use hpr_terms::Tag;
use hpr_terms::limits::{MAX_LEVELS, MAX_PARTS};

/// How many levels are left for what stands in the part with this tag of a program's body.
fn room_in(body: &Block, tag: Tag) -> usize
    ensures { result ≡ below (left_at tag MAX_LEVELS body.now) }
{
    match located(body, tag) {
        Some(found) => found.levels.saturating_sub(1),
        None => 0,
    }
}

/// How many levels are left for what stands in the block with this parent.
pub(crate) fn room_at(body: &Block, parent: Option<(Tag, bool)>) -> usize
    ensures { result ≡ room_at parent body.now }
{
    match parent {
        None => MAX_LEVELS,
        Some((tag, _)) => room_in(body, tag),
    }
}

/// The first part of a block that stands more than this many levels deep.
#[cycle(deep)]
fn deep_among(block: &Block, levels: usize) -> Option<Tag>
    ensures { result ≡ first_deep levels block.now }
{
    for stmt in &block.stmts {
        if let Some(tag) = first_deep(stmt, levels) {
            return Some(tag);
        }
    }
    None
}

/// The first part of a part, itself included, that stands more than this many levels deep.
#[cycle(deep)]
pub(crate) fn first_deep(stmt: &Stmt, levels: usize) -> Option<Tag>
    ensures { result ≡ first_deep levels (before stmt.now done) }
{
    if levels == 0 {
        return Some(stmt.tag());
    }
    match stmt {
        Stmt::If(_, _, yes, no) => match deep_among(yes, levels - 1) {
            Some(tag) => Some(tag),
            None => deep_among(no, levels - 1),
        },
        Stmt::While(_, _, body) => deep_among(body, levels - 1),
        _ => None,
    }
}

/// The tag of a new part for which no level is left.
pub(crate) fn none_left(levels: usize, tag: Tag) -> Option<Tag>
    ensures { result ≡ none_left levels tag }
{
    if levels == 0 { Some(tag) } else { None }
}

/// Why no part of a program with this tag says this, if none does.
pub(crate) fn said_refusal(tag: Tag, content: &Content) -> Option<ShapeError>
    ensures { result ≡ said_refusal tag content.now }
{
    if is_large_content(content) {
        return Some(ShapeError::ExprTooLarge(tag));
    }
    if has_wrong_name(content) {
        return Some(ShapeError::WrongName(tag));
    }
    None
}

/// Why a body is that of no program, if this part of it stands too deep.
pub(crate) fn deep_refusal(deep: Option<Tag>) -> Option<ShapeError>
    ensures { result ≡ deep_refusal deep }
{
    match deep {
        Some(tag) => Some(ShapeError::TooDeep(tag)),
        None => None,
    }
}

/// Why a new part makes no program, if it doesn't: one stands too deep, it can't say this, or there are too many.
pub(crate) fn new_refusal(
    deep: Option<Tag>,
    tag: Tag,
    content: &Content,
    count: usize,
) -> Option<ShapeError>
    ensures { result ≡ new_refusal deep tag content.now count }
{
    if let Some(deep) = deep {
        return Some(ShapeError::TooDeep(deep));
    }
    if let Some(why) = said_refusal(tag, content) {
        return Some(why);
    }
    if count > MAX_PARTS {
        return Some(ShapeError::TooManyParts(count));
    }
    None
}

/// Why this part isn't put at this place of what is left without it, if it isn't.
pub(crate) fn misplaced(left: &Block, part: &Stmt, place: Place) -> Option<EditError>
    ensures { result ≡ misplaced place part.now left.now }
{
    if !is_place(left, place) {
        return Some(EditError::NoPlace);
    }
    let deep = first_deep(part, room_at(left, place.parent));
    match deep_refusal(deep) {
        Some(why) => Some(EditError::Shape(why)),
        None => None,
    }
}
