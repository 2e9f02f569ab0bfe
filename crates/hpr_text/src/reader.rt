//! Reads the text of a program.
ghost use Rattle.std.specs.Prelude.{◌≡◌, ◌≤◌, Some, IfOk};
ghost use Rattle.hpr_terms.specs.declared.limits.TheConstants.{MAX_PARTS};
ghost use Rattle.hpr_syntax.specs.Shape.{IsProgram};
ghost use Rattle.hpr_syntax.specs.Spelling.{Spells};
ghost use Rattle.hpr_scan.specs.Place.{IsPlace};
ghost use Rattle.hpr_text.specs.Answers.{IsText, IsMisshapen, IfSyntax, IfShape, ComesFromText};
ghost use Rattle.hpr_text.specs.Forms.{form_of, HasAuthor};
ghost use Rattle.hpr_text.specs.Machine.{shape_of, tree_of};

use crate::form::Mode;
use crate::state::State;
use hpr_scan::{Refusal, read};
use hpr_syntax::{Program, ShapeError};
use hpr_terms::limits::MAX_PARTS;
use std::alloc::Global;

/// Why a text is not read.
#[derive(Drop)]
pub enum TextError {
    /// The bytes spell no tree. Their longest front that some further bytes complete to a text has
    /// this many bytes.
    Syntax {
        /// The length of that front, in bytes.
        place: usize,
    },
    /// The bytes spell a tree that is no program, and this is why. It is never `TooDeep`,
    /// `ExprTooLarge`, `WrongName` or `Memory`: a text has no part so deep, no expression so large
    /// and no name out of place, and want of memory is `TextError::Memory`.
    Shape(ShapeError),
    /// Memory ran out.
    Memory,
}

/// The program of what was read, if its tree is one.
fn built(alloc: Global, state: State) -> Result<Program, TextError>
    ensures tree { IfOk result (λ p. p ≡ tree_of state.found) }
    ensures few { IfOk result (λ p. state.found.count ≤ MAX_PARTS) }
    ensures program { IfOk result (λ p. IsProgram p) }
    ensures shape { IfShape result (λ e. shape_of state.found ≡ Some e) }
    ensures no_place { IfSyntax result (λ n. ⊥) }
{
    match state.into_found().into_program(alloc) {
        Ok(program) => Ok(program),
        Err(ShapeError::Memory) => Err(TextError::Memory),
        Err(error) => Err(TextError::Shape(error)),
    }
}

/// The program that the bytes spell in a form of texts.
///
/// In a tagged text authors are at most 4,294,967,295, and serials are 1 to 4,294,967,295. In an
/// untagged one the parts get the tags of the author from 1 on, in preorder, and the issued numbers
/// are the author with the number of parts, or none where there are no parts; the author is at
/// least 1, since author 0 is kept for the product. In either one literals are at most
/// 9,223,372,036,854,775,807, a name has 1 to 64 bytes, a part stands at most 64 levels deep, the
/// expressions of a part have together at most 256 operators, and an expression has at most 256
/// brackets in one another. The brackets around the index of a store stand outside of its expression.
///
/// `Syntax` comes exactly where the bytes spell no tree in this form, with the length of their
/// longest front that some further bytes complete; `Shape` exactly where they spell a tree that is
/// no program, with the first test that it fails; `Memory` where memory ran out. Of an untagged text
/// with more than 4,000 parts no part past these is kept, and the refusal has the number of them
/// all.
pub fn parse(alloc: Global, bytes: &[u8], mode: Mode) -> Result<Program, TextError>
    requires author { HasAuthor mode }
    ensures spelled { IfOk result (λ p. Spells (form_of mode) bytes.now p) }
    ensures program { IfOk result (λ p. IsProgram p) }
    ensures syntax { IfSyntax result (λ n. IsPlace (IsText (form_of mode)) bytes.now n) }
    ensures shape { IfShape result (λ e. IsMisshapen (form_of mode) bytes.now e) }
    ensures never { IfShape result ComesFromText }
{
    match read(alloc, State::new(alloc, mode), bytes) {
        Ok(state) => built(alloc, state),
        Err(Refusal::Stuck { place }) => Err(TextError::Syntax { place }),
        Err(Refusal::Memory) => Err(TextError::Memory),
    }
}
