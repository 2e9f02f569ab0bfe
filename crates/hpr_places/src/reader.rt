//! Reads where the parts of a program stand.
ghost use Rattle.std.specs.Prelude.{◌≡◌, IfOk};
ghost use Rattle.hpr_syntax.specs.Grammar.{tagged};
ghost use Rattle.hpr_scan.specs.Place.{IsPlace};
ghost use Rattle.hpr_text.specs.Answers.{IsText, IsMisshapen, IfSyntax, IfShape, ComesFromText};
ghost use Rattle.hpr_places.specs.Places.{ArePlaces};

use crate::place::Placed;
use crate::walk::{header_end, walk_block};
use hpr_terms::NoMemory;
use hpr_text::{Mode, TextError, parse};
use std::alloc::Global;

/// Where the parts of the program stand that the bytes spell in the tagged form, in preorder: a part before what
/// stands in it.
///
/// A place goes from the first byte of the part's tag to the last byte of its last token, which is the semicolon of
/// an assignment, a write or a store, the `fi` of a conditional and the `od` of a loop. Blanks and comments before
/// and behind a part don't belong to it; those between its tokens do.
///
/// `Syntax` comes exactly where the bytes spell no tree, with the length of their longest front that some further
/// bytes complete; `Shape` where they spell a tree that is no program, with the first test that it fails; `Memory`
/// where memory ran out.
pub fn places(alloc: Global, bytes: &[u8]) -> Result<Vec<Placed>, TextError>
    ensures places { IfOk result (λ places. ArePlaces bytes.now places.items) }
    ensures syntax { IfSyntax result (λ n. IsPlace (IsText tagged) bytes.now n) }
    ensures shape { IfShape result (λ e. IsMisshapen tagged bytes.now e) }
    ensures never { IfShape result ComesFromText }
{
    let program = parse(alloc, bytes, Mode::Tagged)?;
    let mut found = Vec::new(alloc);
    match walk_block(bytes, header_end(bytes), program.body(), &mut found) {
        Ok(_) => Ok(found),
        Err(NoMemory) => Err(TextError::Memory),
    }
}
