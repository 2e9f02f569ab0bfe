//! Parts with their places, lines and columns.
ghost use Rattle.std.specs.Prelude.{◌≡◌, IfOk, map};
ghost use Rattle.hpr_syntax.specs.Grammar.{tagged};
ghost use Rattle.hpr_scan.specs.Place.{IsPlace};
ghost use Rattle.hpr_text.specs.Answers.{IsText, IsMisshapen, IfSyntax, IfShape, ComesFromText};
ghost use Rattle.hpr_located.specs.Located.{AreLocated, located_at};

use crate::marks::{first_mark, mark_at};
use hpr_places::{Place, Placed, places};
use hpr_terms::{NoMemory, Tag};
use hpr_text::TextError;
use std::alloc::Global;

/// A part and where it stands in a text.
#[derive(Clone, Copy, Debug, PartialEq, Eq)]
pub struct Located {
    pub tag: Tag,
    /// Its first byte, counted from 0, and how many bytes it has.
    pub place: Place,
    /// The line of its first byte, counted from 1.
    pub line: usize,
    /// The column of its first byte, counted from 1 in bytes.
    pub column: usize,
}

/// Where the parts of the program stand that the bytes spell in the tagged form, in preorder: a part before what
/// stands in it. The places are those of [`places`], which refuses the same bytes for the same cause.
///
/// Lines and columns are counted along the places, so each byte is passed once.
pub fn locate(alloc: Global, bytes: &[u8]) -> Result<Vec<Located>, TextError>
    ensures located { IfOk result (λ located. AreLocated bytes.now located.items) }
    ensures syntax { IfSyntax result (λ n. IsPlace (IsText tagged) bytes.now n) }
    ensures shape { IfShape result (λ e. IsMisshapen tagged bytes.now e) }
    ensures never { IfShape result ComesFromText }
{
    let places = places(alloc, bytes)?;
    match counted(alloc, bytes, &places) {
        Ok(located) => Ok(located),
        Err(NoMemory) => Err(TextError::Memory),
    }
}

/// The places with their lines and columns.
fn counted(alloc: Global, bytes: &[u8], places: &[Placed]) -> Result<Vec<Located>, NoMemory>
    ensures { IfOk result (λ located. located.items ≡ map (located_at bytes.now) places.now) }
{
    let mut located = Vec::new(alloc);
    let mut mark = first_mark(bytes);
    for placed in places {
        mark = mark_at(bytes, mark, placed.place.first);
        located.push(located_by(placed, mark.line, mark.column))?;
    }
    Ok(located)
}

/// A part and its place, with a line and a column.
fn located_by(placed: &Placed, line: usize, column: usize) -> Located
    ensures { result ≡ record { tag = placed.now.tag; place = placed.now.place; line = line; column = column } }
{
    Located {
        tag: placed.tag,
        place: placed.place,
        line,
        column,
    }
}
