//! Puts tags into a text.
ghost use Rattle.std.specs.Prelude.{◌≡◌, ◌<◌, ◌≤◌, IfOk, IfSome, IfNone};
ghost use Rattle.hpr_terms.specs.declared.limits.TheConstants.{TAG_NUMBERS};
ghost use Rattle.hpr_syntax.specs.Grammar.{tagged};
ghost use Rattle.hpr_syntax.specs.Shape.{IsProgram};
ghost use Rattle.hpr_syntax.specs.Spelling.{Spells};
ghost use Rattle.hpr_text.specs.Answers.{IsMisshapen, ComesFromText};
ghost use Rattle.hpr_tagging.specs.Tagging.{changed, changes_in, kept, last_in};
ghost use Rattle.hpr_tagging.specs.Answers.{IfSyntax, IfShape, Suffice, IsRefusedAt};

use crate::changes::{Change, changes_of};
use crate::counts::numbering_of;
use crate::lexemes::lexemes;
use crate::texts::{changed, place_back};
use hpr_syntax::{Program, ShapeError};
use hpr_terms::NoMemory;
use hpr_text::{Mode, TextError, parse};
use std::alloc::Global;

/// A program, and a text of it.
#[derive(Drop)]
pub struct Tagged {
    /// The text as it was written, but for the tags that were put in, and the author's number in the
    /// header.
    pub text: Vec<u8>,
    pub program: Program,
}

/// Why a text gets no tags.
#[derive(Drop)]
pub enum TaggingError {
    /// With the tags the bytes spell no tree. This byte of the text as it was written, counted from 0, is
    /// the first that can't stand where it stands; it is the text's length where that ends too early.
    Syntax { place: usize },
    /// With the tags the bytes spell a tree that is no program, and this is why. It is never `TooDeep`,
    /// `ExprTooLarge`, `WrongName` or `Memory`.
    Shape(ShapeError),
    /// The author's serials don't suffice: the greatest is 4,294,967,295.
    SerialsSpent,
    /// Memory ran out.
    Memory,
}

impl From<NoMemory> for TaggingError {
    ghost use Rattle.std.specs.Prelude.{◌≡◌};
    ghost use Rattle.hpr_tagging.specs.declared.reader.TaggingError.TheVariants.{Memory};

    ghost from_gives = { λ _ e. e ≡ Memory };

    fn from(_error: NoMemory) -> TaggingError {
        TaggingError::Memory
    }
}

/// What is put into the text, or none where the author's serials don't suffice.
fn changes_in(alloc: Global, author: u32, text: &[u8]) -> Result<Option<Vec<Change>>, NoMemory>
    ensures changes { IfOk result (λ found. IfSome found (λ cs. cs.items ≡ changes_in author text.now)) }
    ensures suffice { IfOk result (λ found. IfSome found (λ _. last_in author text.now < TAG_NUMBERS)) }
    ensures spent { IfOk result (λ found. IfNone found (TAG_NUMBERS ≤ last_in author text.now)) }
{
    let lexemes = lexemes(alloc, text)?;
    match numbering_of(author, &lexemes) {
        None => Ok(None),
        Some(numbering) => Ok(Some(changes_of(alloc, numbering, &lexemes)?)),
    }
}

/// Reads the text with the changes.
fn read_changed(
    alloc: Global,
    author: u32,
    text: &[u8],
    changes: &[Change],
) -> Result<Tagged, TaggingError>
    ensures text { IfOk result (λ t. t.text.items ≡ changed author text.now 0 changes.now) }
    ensures spelled { IfOk result (λ t. Spells tagged (changed author text.now 0 changes.now) t.program) }
    ensures program { IfOk result (λ t. IsProgram t.program) }
    ensures syntax { IfSyntax result (λ n. IsRefusedAt author text.now changes.now n) }
    ensures shape { IfShape result (λ e. IsMisshapen tagged (changed author text.now 0 changes.now) e) }
    ensures never { IfShape result ComesFromText }
    ensures suffice { Suffice result 0 }
{
    let kept = changed(alloc, author, text, changes)?;
    match parse(alloc, &kept, Mode::Tagged) {
        Ok(program) => Ok(Tagged {
            text: kept,
            program,
        }),
        Err(TextError::Syntax { place }) => {
            let place = place_back(alloc, author, changes, place, text.len())?;
            Err(TaggingError::Syntax { place })
        }
        Err(TextError::Shape(error)) => Err(TaggingError::Shape(error)),
        Err(TextError::Memory) => Err(TaggingError::Memory),
    }
}

/// The program that the text spells once each part that has no tag has one, and the text with these tags.
///
/// The text is in the tagged form, but for parts that begin without `AUTHOR.SERIAL:`. These get the serials
/// of the author from the next one on, in preorder: the first is above each serial that a tag or the header
/// gives the author. Where there is a header, it gives the author the last of them: in place of the number
/// that it gave it, or by a pair in front of its first. The rest of the text stays as it was written, byte
/// for byte; a text whose parts all have tags stays as it is. The text that comes out is held to no limit
/// of bytes.
///
/// `Syntax` comes exactly where the text with the tags spells no tree; `Shape` exactly where it spells a
/// tree that is no program, with the first test that it fails; `SerialsSpent` exactly where the last serial
/// would be above 4,294,967,295, whatever else is wrong; `Memory` where memory ran out.
pub fn tag_parts(alloc: Global, text: &[u8], author: u32) -> Result<Tagged, TaggingError>
    ensures text { IfOk result (λ t. t.text.items ≡ kept author text.now) }
    ensures spelled { IfOk result (λ t. Spells tagged (kept author text.now) t.program) }
    ensures program { IfOk result (λ t. IsProgram t.program) }
    ensures syntax { IfSyntax result (λ n. IsRefusedAt author text.now (changes_in author text.now) n) }
    ensures shape { IfShape result (λ e. IsMisshapen tagged (kept author text.now) e) }
    ensures never { IfShape result ComesFromText }
    ensures suffice { Suffice result (last_in author text.now) }
{
    match changes_in(alloc, author, text)? {
        None => Err(TaggingError::SerialsSpent),
        Some(changes) => read_changed(alloc, author, text, &changes),
    }
}
