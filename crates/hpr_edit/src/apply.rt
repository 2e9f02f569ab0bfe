//! Commands, each carried out in place, where none of its tests refuses it.
//!
//! What is edited is a program. So of the tests of a program only those are made that the command can make it fail, and
//! each of them on what the command changes. Memory is got before the change, so that want of it leaves everything as it
//! was; a part that may not be moved is put back.
ghost use Rattle.std.specs.Prelude.{◌≡◌, ℕ, ◌≤◌, ◌+◌, List, IfSome, IfOk, IfErr, OnErr};
ghost use Rattle.hpr_terms.specs.declared.limits.TheConstants.{MAX_PARTS};
ghost use Rattle.hpr_terms.specs.declared.tag.Tag.{Tag};
ghost use Rattle.hpr_syntax.specs.Body.{Body, done, part_count};
ghost use Rattle.hpr_syntax.specs.BodyOf.{before};
ghost use Rattle.hpr_syntax.specs.Issued.{Issued, raised};
ghost use Rattle.hpr_syntax.specs.Rows.{content_of, made};
ghost use Rattle.hpr_syntax.specs.Shape.{IsProgram};
ghost use Rattle.hpr_edit.specs.declared.command.Command.TheVariants.{Insert, Delete, Move, Set, Wrap, Unwrap, Finals};
ghost use Rattle.hpr_edit.specs.declared.command.Inverse.TheVariants.{Remove, Lift, Rewrap};
ghost use Rattle.hpr_edit.specs.Places.{width};
ghost use Rattle.hpr_edit.specs.Changes.{at_part, at_place, gone, saying, wrapped, unwrapped};
ghost use Rattle.hpr_edit.specs.Changes.{first_block, second_block};
ghost use Rattle.hpr_edit.specs.Edited.{edited, new_tag, is_action, same_kind};
ghost use Rattle.hpr_edit.specs.InPlace.{times, tree_of, Leaves, Refused, Settles, Makes, Allows, IsProperCommand};
ghost use Rattle.hpr_edit.specs.Tested.{names_alone};

use crate::change::{Change, change_body};
use crate::command::{Command, EditError, FinalNames, Inverse, Place};
use crate::exchange::take_out;
use crate::places::{is_place, located, stands_in, width};
use crate::put::{empty, put_part, put_round, room_for};
use crate::refusal::{first_deep, misplaced, new_refusal, none_left, room_at, said_refusal};
use hpr_syntax::proper::{read_content, read_names};
use hpr_syntax::{
    Block, Content, Issued, NoMemory, Program, ShapeError, Stmt, content_of, structure_of,
};
use hpr_terms::limits::MAX_TAG_NUMBER;
use hpr_terms::{Name, Tag, copy_names};
use std::alloc::Global;
use std::mem;

/// What a command makes of a program, with its inverse; or the program as it was, and why the command is refused. New
/// parts are this author's.
pub(crate) fn edited(
    alloc: Global,
    program: Program,
    command: &Command,
    author: u32,
) -> (Program, Result<Inverse, EditError>)
    ensures made { Makes (edited program command.now author) result.0 result.1 }
    ensures unchanged { OnErr result.1 (result.0 ≡ program) }
    ensures program { IsProgram program }
{
    let (mut issued, mut body, mut finals) = program.into_parts();
    let made = carry_out(alloc, &mut issued, &mut body, &mut finals, command, author);
    read_command(command);
    (Program::from_parts(issued, body, finals), made)
}

/// Reads a command.
fn read_command(command: &Command)
    ensures { IsProperCommand command.now }
{
    match command {
        Command::Insert(_, content) => read_content(content),
        Command::Delete(_) => {}
        Command::Move(_, _) => {}
        Command::Set(_, content) => read_content(content),
        Command::Wrap(_, content) => read_content(content),
        Command::Unwrap(_) => {}
        Command::Finals(names) => read_names(names.names()),
    }
}

/// Carries out a command on a program's issued numbers, its body and its names of `end`.
fn carry_out(
    alloc: Global,
    issued: &mut Issued,
    body: &mut Block,
    finals: &mut Vec<Name>,
    command: &Command,
    author: u32,
) -> Result<Inverse, EditError>
    requires { IsProgram (tree_of issued.old body.old finals.old.items) }
    ensures made { Makes (edited (tree_of issued.old body.old finals.old.items) command.now author)
        (tree_of issued.new body.new finals.new.items) result }
    ensures issued { OnErr result (issued.new ≡ issued.old) }
    ensures body { OnErr result (body.new ≡ body.old) }
    ensures finals { OnErr result (finals.new.items ≡ finals.old.items) }
{
    match command {
        Command::Insert(place, content) => insert(alloc, issued, body, *place, content, author),
        Command::Delete(tag) => delete(body, *tag),
        Command::Move(tag, place) => relocate(alloc, body, *tag, *place),
        Command::Set(tag, content) => set(alloc, body, *tag, content),
        Command::Wrap(tag, content) => wrap(alloc, issued, body, *tag, content, author),
        Command::Unwrap(tag) => unwrap(alloc, body, *tag),
        Command::Finals(names) => name_finals(alloc, finals, names),
    }
}

/// Inserts a new part.
fn insert(
    alloc: Global,
    issued: &mut Issued,
    body: &mut Block,
    place: Place,
    content: &Content,
    author: u32,
) -> Result<Inverse, EditError>
    requires once { (t : Tag) → times t body.old ≤ 1 }
    requires few { part_count body.old ≤ MAX_PARTS }
    ensures made { (finals : List (List ℕ)) → IsProgram (tree_of issued.old body.old finals)
        → Makes (edited (tree_of issued.old body.old finals) (Insert place content.now) author)
        (tree_of issued.new body.new finals) result }
    ensures issued { OnErr result (issued.new ≡ issued.old) }
    ensures body { OnErr result (body.new ≡ body.old) }
{
    let count = body.part_count();
    let tag = tag_to_insert(issued, body, place, content, author, count)?;
    let content = content.copy(alloc)?;
    let room = room_for(alloc, count)?;
    issued.raise(tag.author, tag.serial)?;
    // Nothing fails for want of memory from here on.
    let part = content.into_stmt(tag, empty(alloc), empty(alloc));
    put_part(alloc, body, place, part, room);
    Ok(Inverse::Remove(tag))
}

/// The tag of the author's new part with this content at this place, if it may stand there.
fn tag_to_insert(
    issued: &Issued,
    body: &Block,
    place: Place,
    content: &Content,
    author: u32,
    count: usize,
) -> Result<Tag, EditError>
    requires few { count ≤ MAX_PARTS }
    requires count { count ≡ part_count body.now }
    ensures allowed { (finals : List (List ℕ)) → IsProgram (tree_of issued.now body.now finals)
        → Allows (edited (tree_of issued.now body.now finals) (Insert place content.now) author)
        (λ t. tree_of (raised t.author t.serial issued.now)
        (at_place place (before (made t content.now done done)) body.now) finals) Remove result }
    ensures serial { IfOk result (λ t. 1 ≤ t.serial) }
{
    if !is_place(body, place) {
        return Err(EditError::NoPlace);
    }
    let Some(tag) = next_tag(issued, author) else {
        return Err(EditError::SerialsSpent);
    };
    let deep = none_left(room_at(body, place.parent), tag);
    match new_refusal(deep, tag, content, count + 1) {
        Some(why) => Err(EditError::Shape(why)),
        None => Ok(tag),
    }
}

/// Deletes a part and all that stands in it.
fn delete(body: &mut Block, tag: Tag) -> Result<Inverse, EditError>
    requires once { (t : Tag) → times t body.old ≤ 1 }
    ensures made { (issued : Issued) (finals : List (List ℕ)) (author : ℕ) → IsProgram (tree_of issued body.old finals)
        → Makes (edited (tree_of issued body.old finals) (Delete tag) author) (tree_of issued body.new finals) result }
    ensures body { OnErr result (body.new ≡ body.old) }
{
    let Some(found) = located(body, tag) else {
        return Err(EditError::NoTag(tag));
    };
    let old = found.place;
    let part = take_out(body, tag).unwrap();
    Ok(Inverse::PutBack(old, part))
}

/// Moves a part with all that stands in it.
fn relocate(alloc: Global, body: &mut Block, tag: Tag, place: Place) -> Result<Inverse, EditError>
    requires once { (t : Tag) → times t body.old ≤ 1 }
    requires few { part_count body.old ≤ MAX_PARTS }
    ensures made { (issued : Issued) (finals : List (List ℕ)) (author : ℕ) → IsProgram (tree_of issued body.old finals)
        → Makes (edited (tree_of issued body.old finals) (Move tag place) author)
        (tree_of issued body.new finals) result }
    ensures body { OnErr result (body.new ≡ body.old) }
{
    let old = place_to_leave(body, tag, place)?;
    let room = room_for(alloc, body.part_count())?;
    // Nothing fails for want of memory from here on.
    let part = take_out(body, tag).unwrap();
    match misplaced(body, &part, place) {
        None => {
            put_part(alloc, body, place, part, room);
            Ok(Inverse::MoveBack(tag, old))
        }
        Some(why) => {
            put_part(alloc, body, old, part, room);
            Err(why)
        }
    }
}

/// Where the part with this tag stands that is to be moved to a place, which isn't in it.
fn place_to_leave(body: &Block, tag: Tag, place: Place) -> Result<Place, EditError>
    ensures leaves { IfOk result (λ old. Leaves tag place.parent old body.now) }
    ensures refused { (issued : Issued) (finals : List (List ℕ)) (author : ℕ) → IsProgram (tree_of issued body.now finals)
        → IfErr result (Refused (edited (tree_of issued body.now finals) (Move tag place) author)) }
{
    let Some(found) = located(body, tag) else {
        return Err(EditError::NoTag(tag));
    };
    if stands_in(place.parent, found.part) {
        return Err(EditError::IntoItself(tag));
    }
    Ok(found.place)
}

/// Lets a part say something else.
fn set(alloc: Global, body: &mut Block, tag: Tag, content: &Content) -> Result<Inverse, EditError>
    requires once { (t : Tag) → times t body.old ≤ 1 }
    ensures made { (issued : Issued) (finals : List (List ℕ)) (author : ℕ) → IsProgram (tree_of issued body.old finals)
        → Makes (edited (tree_of issued body.old finals) (Set tag content.now) author)
        (tree_of issued body.new finals) result }
    ensures body { OnErr result (body.new ≡ body.old) }
{
    let inverse = inverse_of_set(alloc, body, tag, content)?;
    change_body(alloc, body, tag, Change::Say(content))?;
    Ok(inverse)
}

/// What takes back that a part says this, if it may say it.
fn inverse_of_set(
    alloc: Global,
    body: &Block,
    tag: Tag,
    content: &Content,
) -> Result<Inverse, EditError>
    ensures { (issued : Issued) (finals : List (List ℕ)) (author : ℕ) → IsProgram (tree_of issued body.now finals)
        → Makes (edited (tree_of issued body.now finals) (Set tag content.now) author)
        (tree_of issued (at_part tag (saying content.now) body.now) finals) result }
{
    let Some(part) = body.find(tag) else {
        return Err(EditError::NoTag(tag));
    };
    if !same_kind(content, part) {
        return Err(EditError::KindDiffers(tag));
    }
    if let Some(why) = said_refusal(tag, content) {
        return Err(EditError::Shape(why));
    }
    Ok(Inverse::SetBack(tag, content_of(alloc, part)?))
}

/// Puts a new part round a part.
fn wrap(
    alloc: Global,
    issued: &mut Issued,
    body: &mut Block,
    tag: Tag,
    content: &Content,
    author: u32,
) -> Result<Inverse, EditError>
    requires once { (t : Tag) → times t body.old ≤ 1 }
    requires few { part_count body.old ≤ MAX_PARTS }
    ensures made { (finals : List (List ℕ)) → IsProgram (tree_of issued.old body.old finals)
        → Makes (edited (tree_of issued.old body.old finals) (Wrap tag content.now) author)
        (tree_of issued.new body.new finals) result }
    ensures issued { OnErr result (issued.new ≡ issued.old) }
    ensures body { OnErr result (body.new ≡ body.old) }
{
    let new = tag_to_wrap(issued, body, tag, content, author)?;
    let content = content.copy(alloc)?;
    let room = room_for(alloc, 0)?;
    issued.raise(new.author, new.serial)?;
    // Nothing fails for want of memory from here on.
    put_round(alloc, body, tag, new, content, room);
    Ok(Inverse::Lift(new))
}

/// The tag of the author's new part with this content round a part, if it may stand there.
fn tag_to_wrap(
    issued: &Issued,
    body: &Block,
    tag: Tag,
    content: &Content,
    author: u32,
) -> Result<Tag, EditError>
    requires few { part_count body.now ≤ MAX_PARTS }
    ensures allowed { (finals : List (List ℕ)) → IsProgram (tree_of issued.now body.now finals)
        → Allows (edited (tree_of issued.now body.now finals) (Wrap tag content.now) author)
        (λ t. tree_of (raised t.author t.serial issued.now)
        (at_part tag (wrapped t content.now) body.now) finals) Lift result }
    ensures serial { IfOk result (λ t. 1 ≤ t.serial) }
{
    let Some(found) = located(body, tag) else {
        return Err(EditError::NoTag(tag));
    };
    if is_action(content) {
        return Err(EditError::KindDiffers(tag));
    }
    let Some(new) = next_tag(issued, author) else {
        return Err(EditError::SerialsSpent);
    };
    let deep = first_deep(found.part, found.levels.saturating_sub(1));
    match new_refusal(deep, new, content, body.part_count() + 1) {
        Some(why) => Err(EditError::Shape(why)),
        None => Ok(new),
    }
}

/// Puts what stands in a part in its place.
fn unwrap(alloc: Global, body: &mut Block, tag: Tag) -> Result<Inverse, EditError>
    requires once { (t : Tag) → times t body.old ≤ 1 }
    ensures made { (issued : Issued) (finals : List (List ℕ)) (author : ℕ) → IsProgram (tree_of issued body.old finals)
        → Makes (edited (tree_of issued body.old finals) (Unwrap tag) author) (tree_of issued body.new finals) result }
    ensures body { OnErr result (body.new ≡ body.old) }
{
    let inverse = inverse_of_unwrap(alloc, body, tag)?;
    change_body(alloc, body, tag, Change::Unwrap)?;
    Ok(inverse)
}

/// What takes back that what stands in a part takes its place, if it may.
fn inverse_of_unwrap(alloc: Global, body: &Block, tag: Tag) -> Result<Inverse, EditError>
    ensures { (issued : Issued) (finals : List (List ℕ)) (author : ℕ) → IsProgram (tree_of issued body.now finals)
        → Makes (edited (tree_of issued body.now finals) (Unwrap tag) author)
        (tree_of issued (at_part tag unwrapped body.now) finals) result }
{
    let Some(found) = located(body, tag) else {
        return Err(EditError::NoTag(tag));
    };
    if says_action(found.part) {
        return Err(EditError::KindDiffers(tag));
    }
    Ok(rewrapping(alloc, found.part, tag, found.place)?)
}

/// What puts a part with this tag, which says what this one says, round what stands in this one.
fn rewrapping(alloc: Global, part: &Stmt, tag: Tag, place: Place) -> Result<Inverse, NoMemory>
    ensures { IfOk result (λ i. i ≡ Rewrap place tag (content_of part.now) (width (first_block part.now))
        (width (second_block part.now))) }
{
    let (first, second) = widths(part);
    let content = content_of(alloc, part)?;
    Ok(Inverse::Rewrap(place, tag, content, first, second))
}

/// Lets `end` name these.
fn name_finals(
    alloc: Global,
    finals: &mut Vec<Name>,
    names: &FinalNames,
) -> Result<Inverse, EditError>
    ensures made { (issued : Issued) (body : Body) (author : ℕ) → IsProgram (tree_of issued body finals.old.items)
        → Makes (edited (tree_of issued body finals.old.items) (Finals names.now) author)
        (tree_of issued body finals.new.items) result }
    ensures finals { OnErr result (finals.new.items ≡ finals.old.items) }
{
    let copy = copy_names(alloc, names.names())?;
    let (_, _, new) = alone(alloc, copy)?.into_parts();
    let old = mem::replace(finals, new);
    Ok(Inverse::FinalsBack(FinalNames::new(old)))
}

/// The program of no parts with these names of `end`, if no name is repeated.
fn alone(alloc: Global, names: Vec<Name>) -> Result<Program, EditError>
    ensures { Settles (names_alone names.items) result }
{
    match Program::new(
        alloc,
        Issued::new(alloc),
        Block::new(Vec::new(alloc)),
        names,
    ) {
        Ok(program) => Ok(program),
        Err(ShapeError::Memory) => Err(EditError::Memory),
        Err(why) => Err(EditError::Shape(why)),
    }
}

/// The tag of the author's next part, or none where its serials are spent.
fn next_tag(issued: &Issued, author: u32) -> Option<Tag>
    ensures tag { result ≡ new_tag author issued.now }
    ensures serial { IfSome result (λ tag. 1 ≤ tag.serial) }
{
    let serial = issued.get(author);
    if serial == MAX_TAG_NUMBER {
        return None;
    }
    Some(Tag {
        author,
        serial: serial + 1,
    })
}

/// Whether the content is of the part's kind.
fn same_kind(content: &Content, part: &Stmt) -> bool
    ensures { result ≡ same_kind content.now (content_of part.now) }
{
    match (content, part) {
        (Content::Assign(_, _), Stmt::Assign(_, _, _)) => true,
        (Content::If(_), Stmt::If(_, _, _, _)) => true,
        (Content::While(_), Stmt::While(_, _, _)) => true,
        (Content::Write(_, _), Stmt::Write(_, _, _)) => true,
        (Content::Store(_, _, _), Stmt::Store(_, _, _, _)) => true,
        _ => false,
    }
}

/// Whether a part is neither a conditional nor a loop.
fn says_action(part: &Stmt) -> bool
    ensures { result ≡ is_action (content_of part.now) }
{
    structure_of(part).is_simple()
}

/// Whether a content is neither a conditional's nor a loop's.
fn is_action(content: &Content) -> bool
    ensures { result ≡ is_action content.now }
{
    content.structure().is_simple()
}

/// How many parts a part's two blocks have, without those that stand in them.
fn widths(part: &Stmt) -> (usize, usize)
    ensures first { result.0 ≡ width (first_block part.now) }
    ensures second { result.1 ≡ width (second_block part.now) }
{
    match part {
        Stmt::If(_, _, yes, no) => (width(yes), width(no)),
        Stmt::While(_, _, body) => (width(body), 0),
        _ => (0, 0),
    }
}
