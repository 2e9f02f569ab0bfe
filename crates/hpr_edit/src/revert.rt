//! Inverses, each carried out on a copy of the program that is edited.
ghost use Rattle.std.specs.Prelude.{◌≡◌, ◌≤◌, IfOk, OnOk};
ghost use Rattle.hpr_terms.specs.declared.limits.TheConstants.{MAX_PARTS};
ghost use Rattle.hpr_syntax.specs.Body.{part_count};
ghost use Rattle.hpr_syntax.specs.BodyOf.{before};
ghost use Rattle.hpr_syntax.specs.Parts.{find_stmt};
ghost use Rattle.hpr_syntax.specs.Tree.{Tree};
ghost use Rattle.hpr_edit.specs.Changes.{at_place};
ghost use Rattle.hpr_edit.specs.Reverted.{reverted, body_back, finals_back, moved, Undoes, IsPutBackIssued};
ghost use Rattle.hpr_edit.specs.InPlace.{times};

use crate::change::{Change, Round, change_body, enclose_at_place};
use crate::command::{Inverse, Place};
use crate::exchange::take_out;
use crate::put::{put_part, room_for};
use hpr_syntax::{Block, NoMemory, Program, Stmt};
use hpr_terms::{Name, Tag, copy_names};
use std::alloc::Global;

/// What an inverse makes of a program.
pub(crate) fn reverted(
    alloc: Global,
    program: &Program,
    inverse: &Inverse,
) -> Result<Program, NoMemory>
    requires undoes { (old : Tree) × Undoes old inverse.now program.now }
    requires issued { IsPutBackIssued inverse.now program.now }
    ensures { IfOk result (λ p. p ≡ reverted inverse.now program.now) }
{
    let issued = program.issued().copy(alloc)?;
    let finals = finals_back(alloc, program.finals(), inverse)?;
    let body = body_back(alloc, program, inverse)?;
    Ok(Program::from_parts(issued, body, finals))
}

/// The names of `end` from before a command.
fn finals_back(alloc: Global, finals: &[Name], inverse: &Inverse) -> Result<Vec<Name>, NoMemory>
    ensures { IfOk result (λ names. names.items ≡ finals_back inverse.now finals.now) }
{
    match inverse {
        Inverse::FinalsBack(names) => copy_names(alloc, names.names()),
        _ => copy_names(alloc, finals),
    }
}

/// The body from before a command.
#[tactic(auto, using(crate::proofs::Tags::once))]
fn body_back(alloc: Global, program: &Program, inverse: &Inverse) -> Result<Block, NoMemory>
    ensures { IfOk result (λ body. body ≡ body_back inverse.now program.now.body) }
{
    let mut body = program.body().copy(alloc)?;
    change_back(alloc, &mut body, inverse)?;
    Ok(body)
}

/// Makes the body that of before a command.
fn change_back(alloc: Global, body: &mut Block, inverse: &Inverse) -> Result<(), NoMemory>
    requires once { (t : Tag) → times t body.old ≤ 1 }
    requires few { part_count body.old ≤ MAX_PARTS }
    ensures { OnOk result (body.new ≡ body_back inverse.now body.old) }
{
    match inverse {
        Inverse::Remove(tag) => {
            drop(take_out(body, *tag));
            Ok(())
        }
        Inverse::PutBack(place, part) => put_copy(alloc, body, *place, part),
        Inverse::MoveBack(tag, place) => move_back(alloc, body, *tag, *place),
        Inverse::SetBack(tag, content) => change_body(alloc, body, *tag, Change::Say(content)),
        Inverse::Lift(tag) => change_body(alloc, body, *tag, Change::Unwrap),
        Inverse::Rewrap(place, tag, content, first, second) => enclose_at_place(
            alloc,
            body,
            *place,
            Round {
                tag: *tag,
                content,
                first: *first,
                second: *second,
            },
        ),
        Inverse::FinalsBack(_) => Ok(()),
    }
}

/// Puts a copy of a part at a place.
fn put_copy(alloc: Global, body: &mut Block, place: Place, part: &Stmt) -> Result<(), NoMemory>
    requires once { (t : Tag) → times t body.old ≤ 1 }
    requires few { part_count body.old ≤ MAX_PARTS }
    ensures { OnOk result (body.new ≡ at_place place (before part.now) body.old) }
{
    let part = part.copy(alloc)?;
    let room = room_for(alloc, body.part_count())?;
    put_part(alloc, body, place, part, room);
    Ok(())
}

/// Takes a part out, if there is one, and puts it at a place.
fn move_back(alloc: Global, body: &mut Block, tag: Tag, place: Place) -> Result<(), NoMemory>
    requires once { (t : Tag) → times t body.old ≤ 1 }
    requires few { part_count body.old ≤ MAX_PARTS }
    ensures { OnOk result (body.new ≡ moved (find_stmt tag body.old) tag place body.old) }
{
    let room = room_for(alloc, body.part_count())?;
    if let Some(part) = take_out(body, tag) {
        put_part(alloc, body, place, part, room);
    }
    Ok(())
}
