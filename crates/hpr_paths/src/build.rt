//! Builds the points of a program.
ghost use Rattle.std.specs.Prelude.{◌≡◌, ◌+◌, ◌<◌, ◌^◌, ◌++◌, ◌∷◌, [], vec_len, IfOk, OnOk, if◌then◌else◌};
ghost use Rattle.hpr_syntax.specs.Body.{done, part_count};
ghost use Rattle.hpr_syntax.specs.BodyOf.{before};
ghost use Rattle.hpr_syntax.specs.Parts.{tag_of};
ghost use Rattle.hpr_syntax.specs.Rows.{content_of};
ghost use Rattle.hpr_paths.specs.Spots.{enter, exit, part};
ghost use Rattle.hpr_paths.specs.Roles.{role_of};
ghost use Rattle.hpr_paths.specs.Successors.{first_step, step_to, spot_of, spots_of, spots};

use crate::spot::{Role, Spot, Step};
use crate::succ::Succ;
use hpr_syntax::{Block, Content, Program, Stmt, content_of};
use hpr_terms::{Name, NoMemory, copy_names};
use std::alloc::Global;

/// The points of a program with the pairs of points that may follow one another.
///
/// What follows a part is the next part of its block. After the last part of a loop's body its
/// predicate follows, by a back edge; after the last part of a branch, what follows the conditional;
/// after the last top part, Exit. Enter leads to the first top part. Takes at most parts times levels
/// of memory and time.
pub fn successors(alloc: Global, program: &Program) -> Result<Succ, NoMemory>
    ensures { IfOk result (λ succ. succ ≡ spots program.now) }
{
    Ok(Succ::new(all_spots(alloc, program)?))
}

/// Enter, the parts and Exit.
fn all_spots(alloc: Global, program: &Program) -> Result<Vec<Spot>, NoMemory>
    ensures { IfOk result (λ v. v.items ≡ spots program.now) }
{
    let mut spots = Vec::new(alloc);
    push_program(alloc, program, &mut spots)?;
    Ok(spots)
}

/// Puts Enter, the parts and Exit on the empty list.
fn push_program(alloc: Global, program: &Program, into: &mut Vec<Spot>) -> Result<(), NoMemory>
    requires { into.old.items ≡ [] }
    ensures { OnOk result (into.new.items ≡ spots program.now) }
{
    let end = step_to(program.part_count() + 1);
    let body = program.body();
    push_spot(alloc, into, &[first_step(body, 1, end)], &[], Role::Enter)?;
    push_block(alloc, body, end, &[], into)?;
    push_exit(alloc, program.finals(), into)
}

/// Puts Exit with the names of `end` behind the points.
fn push_exit(alloc: Global, finals: &[Name], spots: &mut Vec<Spot>) -> Result<(), NoMemory>
    ensures { OnOk result (spots.new.items ≡ spots.old.items ++ spot_of [] [] (exit finals.now) ∷ []) }
{
    let finals = copy_names(alloc, finals)?;
    push_spot(alloc, spots, &[], &[], Role::Exit(finals))
}

/// The step to this point, by no back edge.
fn step_to(to: usize) -> Step
    ensures { result ≡ step_to to }
{
    Step { to, back: false }
}

/// The step into a block whose first part has this number.
fn first_step(block: &Block, first: usize, follow: Step) -> Step
    ensures { result ≡ first_step block.now first follow }
{
    if block.stmts().is_empty() {
        return follow;
    }
    step_to(first)
}

/// The step to what follows a part: to the next part of its block if there are more, and else the
/// step that follows the block.
fn after(more: bool, next: usize, follow: Step) -> Step
    ensures { result ≡ (if more then step_to next else follow) }
{
    if more { step_to(next) } else { follow }
}

/// The loops, and one more inside them.
fn nest_with(alloc: Global, nest: &[usize], inner: usize) -> Result<Vec<usize>, NoMemory>
    ensures { IfOk result (λ v. v.items ≡ nest.now ++ inner ∷ []) }
{
    let mut inside = Vec::from_slice(alloc, nest)?;
    inside.push(inner)?;
    Ok(inside)
}

/// Puts a point behind the points.
fn push_spot(
    alloc: Global,
    spots: &mut Vec<Spot>,
    next: &[Step],
    nest: &[usize],
    role: Role,
) -> Result<(), NoMemory>
    ensures spot { OnOk result (spots.new.items ≡ spots.old.items ++ spot_of next.now nest.now (role_of role) ∷ []) }
    ensures len { OnOk result (vec_len spots.new ≡ vec_len spots.old + 1) }
{
    let next = Vec::from_slice(alloc, next)?;
    let nest = Vec::from_slice(alloc, nest)?;
    spots.push(Spot { next, nest, role })?;
    Ok(())
}

/// Puts a part by itself behind the points.
fn push_part(
    alloc: Global,
    spots: &mut Vec<Spot>,
    next: &[Step],
    nest: &[usize],
    stmt: &Stmt,
) -> Result<(), NoMemory>
    ensures spot { OnOk result (spots.new.items ≡ spots.old.items
        ++ spot_of next.now nest.now (part (tag_of stmt.now) (content_of stmt.now)) ∷ []) }
    ensures len { OnOk result (vec_len spots.new ≡ vec_len spots.old + 1) }
{
    let content = content_of(alloc, stmt)?;
    push_spot(alloc, spots, next, nest, Role::Part(stmt.tag(), content))
}

/// Puts the parts of a block behind the points.
#[cycle(push)]
fn push_block(
    alloc: Global,
    block: &Block,
    follow: Step,
    nest: &[usize],
    spots: &mut Vec<Spot>,
) -> Result<(), NoMemory>
    requires fits { vec_len spots.old + part_count block.now < 2 ^ 32 }
    ensures spots { OnOk result (spots.new.items ≡ spots.old.items
        ++ spots_of block.now (vec_len spots.old) follow nest.now) }
    ensures len { OnOk result (vec_len spots.new ≡ vec_len spots.old + part_count block.now) }
{
    for (i, stmt) in block.stmts.iter().enumerate() {
        let after = after(
            i + 1 < block.stmts.len(),
            spots.len() + stmt.part_count(),
            follow,
        );
        push_stmt(alloc, stmt, after, nest, spots)?;
    }
    Ok(())
}

/// Puts a statement and the parts in it behind the points; this step follows it.
#[cycle(push)]
fn push_stmt(
    alloc: Global,
    stmt: &Stmt,
    after: Step,
    nest: &[usize],
    spots: &mut Vec<Spot>,
) -> Result<(), NoMemory>
    requires fits { vec_len spots.old + part_count (before stmt.now done) < 2 ^ 32 }
    ensures spots { OnOk result (spots.new.items ≡ spots.old.items
        ++ spots_of (before stmt.now done) (vec_len spots.old) after nest.now) }
    ensures len { OnOk result (vec_len spots.new ≡ vec_len spots.old + part_count (before stmt.now done)) }
{
    let first = spots.len();
    match stmt {
        Stmt::If(_, _, yes, no) => {
            let into_yes = first_step(yes, first + 1, after);
            let into_no = first_step(no, first + 1 + yes.part_count(), after);
            push_part(alloc, spots, &[into_yes, into_no], nest, stmt)?;
            push_block(alloc, yes, after, nest, spots)?;
            push_block(alloc, no, after, nest, spots)
        }
        Stmt::While(_, _, body) => {
            let again = Step {
                to: first,
                back: true,
            };
            let inside = nest_with(alloc, nest, first)?;
            push_part(
                alloc,
                spots,
                &[first_step(body, first + 1, again), after],
                &inside,
                stmt,
            )?;
            push_block(alloc, body, again, &inside, spots)
        }
        _ => push_part(alloc, spots, &[after], nest, stmt),
    }
}
