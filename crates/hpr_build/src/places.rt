//! Where the parts of a program stand.
ghost use Rattle.std.specs.Prelude.{◌≡◌, ℕ, ◌+◌, ◌<◌, ◌≤◌, ◌^◌, ◌++◌, ◌∷◌, [], Some, vec_len, length, IfOk, OnOk};
ghost use Rattle.hpr_syntax.specs.Body.{done, part_count};
ghost use Rattle.hpr_syntax.specs.BodyOf.{before};
ghost use Rattle.hpr_syntax.specs.Parts.{tag_of};
ghost use Rattle.hpr_syntax.specs.Rows.{content_of};
ghost use Rattle.hpr_build.specs.Places.{place_of, places_of, places};

use hpr_syntax::{Block, Content, Program, Stmt, Tag, content_of};
use hpr_terms::NoMemory;
use std::alloc::Global;
use std::marker::Model;

/// The control parent of a part: the conditional or loop at the point, with the branch, which is
/// true for a loop's body.
#[derive(Clone, Copy)]
pub(crate) struct Parent {
    pub(crate) point: usize,
    pub(crate) label: bool,
}

/// The points from one up to, but not with, another.
#[derive(Clone, Copy)]
pub(crate) struct Span {
    pub(crate) from: usize,
    pub(crate) to: usize,
}

/// A part with its control parent, none for a top part, and with the second branch of each
/// conditional that has the part in its first.
pub(crate) struct Place {
    pub(crate) tag: Tag,
    pub(crate) content: Content,
    pub(crate) parent: Option<Parent>,
    pub(crate) others: Vec<Span>,
}

/// A place is dropped in one call.
impl Drop for Place {
    fn drop(self) {
        let Place {
            tag: _,
            content: _,
            parent: _,
            others: _,
        } = self;
    }
}

impl Model for Place {
    ghost use Rattle.hpr_build.specs.Places as plain;
    ghost use Rattle.hpr_build.specs.Private.PlaceCode.{place_coded};

    ghost Value = { plain.Place };

    ghost coded = { place_coded };

    ghost view = { λ p. record { tag = p.tag; content = p.content; parent = p.parent; others = p.others.items } };
}

/// The parts of a program in preorder. The first is the point 1.
pub(crate) fn places(alloc: Global, program: &Program) -> Result<Vec<Place>, NoMemory>
    ensures { IfOk result (λ v. v.items ≡ places program.now) }
{
    let _parts = program.part_count();
    let mut places = Vec::new(alloc);
    push_block(alloc, program.body(), None, &[], &mut places)?;
    Ok(places)
}

/// The second branches, and one more.
fn others_with(alloc: Global, others: &[Span], other: Span) -> Result<Vec<Span>, NoMemory>
    ensures { IfOk result (λ v. v.items ≡ others.now ++ other ∷ []) }
{
    let mut more = others.to_vec(alloc)?;
    more.push(other)?;
    Ok(more)
}

fn push_place(
    alloc: Global,
    stmt: &Stmt,
    parent: Option<Parent>,
    others: &[Span],
    places: &mut Vec<Place>,
) -> Result<(), NoMemory>
    ensures place { OnOk result (places.new.items ≡ places.old.items
        ++ place_of (tag_of stmt.now) (content_of stmt.now) parent others.now ∷ []) }
    ensures len { OnOk result (vec_len places.new ≡ vec_len places.old + 1) }
{
    let others = Vec::from_slice(alloc, others)?;
    let content = content_of(alloc, stmt)?;
    places.push(Place {
        tag: stmt.tag(),
        content,
        parent,
        others,
    })?;
    Ok(())
}

/// Puts the parts of a block behind the others.
#[cycle(push)]
fn push_block(
    alloc: Global,
    block: &Block,
    parent: Option<Parent>,
    others: &[Span],
    places: &mut Vec<Place>,
) -> Result<(), NoMemory>
    requires fits { vec_len places.old + part_count block.now < 2 ^ 32 }
    ensures places { OnOk result (places.new.items ≡ places.old.items
        ++ places_of block.now (vec_len places.old + 1) parent others.now) }
    ensures len { OnOk result (vec_len places.new ≡ vec_len places.old + part_count block.now) }
{
    for stmt in &block.stmts {
        push_stmt(alloc, stmt, parent, others, places)?;
    }
    Ok(())
}

/// Puts a statement and the parts in it behind the others.
#[cycle(push)]
fn push_stmt(
    alloc: Global,
    stmt: &Stmt,
    parent: Option<Parent>,
    others: &[Span],
    places: &mut Vec<Place>,
) -> Result<(), NoMemory>
    requires fits { vec_len places.old + part_count (before stmt.now done) < 2 ^ 32 }
    ensures places { OnOk result (places.new.items ≡ places.old.items
        ++ places_of (before stmt.now done) (vec_len places.old + 1) parent others.now) }
    ensures len { OnOk result (vec_len places.new ≡ vec_len places.old + part_count (before stmt.now done)) }
{
    let point = places.len() + 1;
    push_place(alloc, stmt, parent, others, places)?;
    match stmt {
        Stmt::If(_, _, yes, no) => {
            let from = point + 1 + yes.part_count();
            let to = from + no.part_count();
            let inside = others_with(alloc, others, Span { from, to })?;
            push_block(alloc, yes, under(point, true), &inside, places)?;
            push_block(alloc, no, under(point, false), others, places)
        }
        Stmt::While(_, _, body) => push_block(alloc, body, under(point, true), others, places),
        _ => Ok(()),
    }
}

fn under(point: usize, label: bool) -> Option<Parent>
    ensures { result ≡ Some (record { point = point; label = label }) }
{
    Some(Parent { point, label })
}
