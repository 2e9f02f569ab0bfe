//! Where parts stand in a body.
ghost use Rattle.std.specs.Prelude.{◌≡◌};
ghost use Rattle.std.specs.Option.{option_copied};
ghost use Rattle.hpr_syntax.specs.Body.{done};
ghost use Rattle.hpr_syntax.specs.BodyOf.{before};
ghost use Rattle.std.specs.Option.{option_map};
ghost use Rattle.hpr_terms.specs.declared.limits.TheConstants.{MAX_LEVELS};
ghost use Rattle.hpr_syntax.specs.Parts.{find_stmt};
ghost use Rattle.hpr_edit.specs.InPlace.{Located};
ghost use Rattle.hpr_edit.specs.Tested.{left_at};
ghost use Rattle.hpr_edit.specs.Places.{width, block_in, is_place, place_from};
ghost use Rattle.hpr_edit.specs.Edited.{stands_in};

use crate::command::Place;
use hpr_syntax::{Block, Stmt};
use hpr_terms::Tag;
use hpr_terms::limits::MAX_LEVELS;

/// How many parts a block has, without those that stand in them.
#[tactic(auto, using(crate::proofs::Lists::width_body))]
pub(crate) fn width(block: &Block) -> usize
    ensures { result ≡ width block.now }
{
    block.stmts.len()
}

/// A part's block: true is a loop's body or a conditional's first block.
fn block_in(stmt: &Stmt, branch: bool) -> Option<&Block>
    ensures { option_copied result ≡ block_in branch stmt.now }
{
    match stmt {
        Stmt::If(_, _, yes, no) => { if branch { Some(yes) } else { Some(no) } }
        Stmt::While(_, _, body) => { if branch { Some(body) } else { None } }
        _ => None,
    }
}

/// Whether a body has this place.
pub(crate) fn is_place(body: &Block, place: Place) -> bool
    ensures { result ≡ is_place place body.now }
{
    match place.parent {
        None => place.at <= width(body),
        Some((tag, branch)) => match body.find(tag) {
            None => false,
            Some(stmt) => match block_in(stmt, branch) {
                None => false,
                Some(block) => place.at <= width(block),
            },
        },
    }
}

/// Whether a place with this parent is in the part.
#[tactic(auto, using(crate::proofs::Lists::copied_some))]
pub(crate) fn stands_in(parent: Option<(Tag, bool)>, part: &Stmt) -> bool
    ensures { result ≡ stands_in parent part.now }
{
    match parent {
        None => false,
        Some((tag, _)) => part.find(tag).is_some(),
    }
}

/// A part that was found.
#[derive(Clone, Copy)]
pub(crate) struct Found<'a> {
    pub part: &'a Stmt,
    /// Where it stands.
    pub place: Place,
    /// How many levels are left there, itself included.
    pub levels: usize,
}

/// The part with this tag, and where it stands.
pub(crate) fn located(body: &Block, tag: Tag) -> Option<Found<'_>>
    ensures found { Located tag body.now result }
    ensures levels { option_map (λ f. f.levels) result ≡ left_at tag MAX_LEVELS body.now }
{
    find_from(body, tag, None, MAX_LEVELS)
}

/// The part with this tag in a block under this parent, of which the parts have so many levels.
#[cycle(find)]
fn find_from(
    block: &Block,
    tag: Tag,
    parent: Option<(Tag, bool)>,
    levels: usize,
) -> Option<Found<'_>>
    ensures part { option_map (λ f. f.part.now) result ≡ find_stmt tag block.now }
    ensures place { option_map (λ f. f.place) result ≡ place_from tag parent 0 block.now }
    ensures levels { option_map (λ f. f.levels) result ≡ left_at tag levels block.now }
{
    for (at, stmt) in block.stmts.iter().enumerate() {
        if let Some(found) = find_in(stmt, tag, parent, at, levels) {
            return Some(found);
        }
    }
    None
}

#[cycle(find)]
fn find_in(
    stmt: &Stmt,
    tag: Tag,
    parent: Option<(Tag, bool)>,
    at: usize,
    levels: usize,
) -> Option<Found<'_>>
    ensures part { option_map (λ f. f.part.now) result ≡ find_stmt tag (before stmt.now done) }
    ensures place { option_map (λ f. f.place) result ≡ place_from tag parent at (before stmt.now done) }
    ensures levels { option_map (λ f. f.levels) result ≡ left_at tag levels (before stmt.now done) }
{
    let own = stmt.tag();
    if own == tag {
        let place = Place { parent, at };
        return Some(Found {
            part: stmt,
            place,
            levels,
        });
    }
    let below = levels.saturating_sub(1);
    match stmt {
        Stmt::If(_, _, yes, no) => match find_from(yes, tag, Some((own, true)), below) {
            Some(found) => Some(found),
            None => find_from(no, tag, Some((own, false)), below),
        },
        Stmt::While(_, _, body) => find_from(body, tag, Some((own, true)), below),
        _ => None,
    }
}
