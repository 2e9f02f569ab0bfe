//! Reads edit scripts.
ghost use Rattle.std.specs.Prelude.{◌≡◌, ◌<◌, ◌≤◌, true, length, slice_range, Option, Some, IfOk, IsTrue};
ghost use Rattle.hpr_scan.specs.Place.{IsPlace, BeginsWith};
ghost use Rattle.hpr_scan.specs.Scanner.{feeds};
ghost use Rattle.hpr_scan.specs.Steps.{Steps};
ghost use Rattle.hpr_scan.specs.declared.scanner.Lex.TheVariants.{Gap};
ghost use Rattle.hpr_text.specs.Contents.{HasContent, IsPlaceFrom};
ghost use Rattle.hpr_text.specs.declared.content.ContentState.TheVariants.{Start};
ghost use Rattle.hpr_script.specs.Answers.{IfSyntax, StepsAt, Ends, Leads, WholeAt, is_whole};
ghost use Rattle.hpr_script.specs.Machine as machine;
ghost use Rattle.hpr_script.specs.Reading as reading;
ghost use Rattle.hpr_script.specs.ScriptGrammar.{IsScript, HasScript};

use crate::found::Found;
use crate::scanner::{Begun, Reader, feed_gap, feed_inner, finish};
use crate::stage::{Holder, Stage, Turn};
use hpr_edit::Command;
use hpr_scan::Fault;
use hpr_scan::word::Letters;
use hpr_terms::{NoMemory, is_name_byte};
use hpr_text::{TextError, read_content};
use std::alloc::Global;

/// Why bytes are not read as a script.
#[derive(Clone, Copy)]
pub enum ScriptError {
    /// The bytes spell no script. Their longest front that some further bytes complete to a script
    /// has this many bytes.
    Syntax {
        /// The length of that front, in bytes.
        place: usize,
    },
    /// Memory ran out.
    Memory,
}

impl From<NoMemory> for ScriptError {
    ghost use Rattle.std.specs.Prelude.{◌≡◌};
    ghost use Rattle.hpr_script.specs.declared.reader.ScriptError.TheVariants.{Memory};

    ghost from_gives = { λ _ e. e ≡ Memory };

    fn from(_error: NoMemory) -> ScriptError {
        ScriptError::Memory
    }
}

/// The answer of a step, with the place where it is refused.
fn step_at<A>(step: Result<A, Fault>, place: usize) -> Result<A, ScriptError>
    ensures { (next : Option A) → Steps next step → StepsAt next place result }
{
    match step {
        Ok(next) => Ok(next),
        Err(Fault::Refused) => Err(ScriptError::Syntax { place }),
        Err(Fault::Memory) => Err(ScriptError::Memory),
    }
}

fn step(
    alloc: Global,
    begun: Begun,
    found: Found,
    stage: Stage,
    byte: u8,
    place: usize,
) -> Result<Reader, ScriptError>
    requires { reading.IsInner begun byte }
    ensures { StepsAt (reading.inner begun found stage byte) place result }
{
    step_at(feed_inner(alloc, begun, found, stage, byte), place)
}

fn step_gap(
    alloc: Global,
    found: Found,
    stage: Stage,
    byte: u8,
    place: usize,
) -> Result<Reader, ScriptError>
    ensures { StepsAt (reading.gap_next found stage byte) place result }
{
    step_at(feed_gap(alloc, found, stage, byte), place)
}

fn step_word(
    alloc: Global,
    found: Found,
    stage: Stage,
    letters: &Letters,
    place: usize,
) -> Result<(Found, Turn), ScriptError>
    ensures { StepsAt (reading.finished found stage letters.now) place result }
{
    step_at(finish(alloc, found, stage, letters), place)
}

/// Reads a content and its `;`, and answers the place behind them.
fn step_content(
    alloc: Global,
    found: Found,
    holder: Holder,
    bytes: &[u8],
    at: usize,
) -> Result<(Reader, usize), ScriptError>
    requires { at ≤ length bytes.now }
    ensures within { IfOk result (λ (_, end). (at < end) × (end ≤ length bytes.now)) }
    ensures feeds { let start = machine.inside found holder Start in
        IfOk result (λ (r, end). feeds machine.next Gap start (slice_range bytes.now at end)
        ≡ Some (reading.scanner_of r)) }
    ensures sound { IfOk result (λ (r, _). reading.IsSound r) }
    ensures syntax { IfSyntax result (λ n. IsPlaceFrom at (BeginsWith HasContent) bytes.now n) }
{
    match read_content(alloc, bytes, at) {
        Ok((content, place)) => {
            let found = found.with_content(holder, content)?;
            let reader = Reader {
                begun: Begun::Gap,
                found,
                stage: Stage::AtCommand,
            };
            Ok((reader, place + 1))
        }
        Err(TextError::Syntax { place }) => Err(ScriptError::Syntax { place }),
        Err(TextError::Memory) => Err(ScriptError::Memory),
        Err(TextError::Shape(_)) => unreachable!(),
    }
}

fn after_turn(
    alloc: Global,
    found: Found,
    turn: Turn,
    bytes: &[u8],
    at: usize,
) -> Result<(Reader, usize), ScriptError>
    requires { at < length bytes.now }
    ensures leads { IfOk result (λ (r, end). Leads Gap (machine.turned found turn) bytes.now at r end) }
    ensures syntax { IfSyntax result (λ n. IsPlaceFrom at (Ends Gap (machine.turned found turn)) bytes.now n) }
{
    match turn {
        Turn::Head(stage) => {
            let reader = step_gap(alloc, found, stage, bytes[at], at)?;
            Ok((reader, at + 1))
        }
        Turn::Content(holder) => step_content(alloc, found, holder, bytes, at),
    }
}

fn end_word(
    alloc: Global,
    letters: &Letters,
    found: Found,
    stage: Stage,
    bytes: &[u8],
    at: usize,
) -> Result<(Reader, usize), ScriptError>
    requires inside { at < length bytes.now }
    requires ends { reading.IsOutside bytes.now at }
    requires begun { reading.begins stage letters.now ≡ true }
    ensures leads { IfOk result (λ (r, end). Leads (reading.in_word letters.now)
        (machine.head found stage) bytes.now at r end) }
    ensures syntax { IfSyntax result (λ n. IsPlaceFrom at (Ends (reading.in_word letters.now)
        (machine.head found stage)) bytes.now n) }
{
    let (found, turn) = step_word(alloc, found, stage, letters, at)?;
    after_turn(alloc, found, turn, bytes, at)
}

/// The place behind the next byte, or behind the content and the `;` that begin with it.
fn advance(
    alloc: Global,
    reader: Reader,
    bytes: &[u8],
    at: usize,
) -> Result<(Reader, usize), ScriptError>
    requires inside { at < length bytes.now }
    requires sound { reading.IsSound reader }
    ensures leads { IfOk result (λ (r, end). Leads (reading.lex_of reader.begun)
        (reading.state_of reader) bytes.now at r end) }
    ensures syntax { IfSyntax result (λ n. IsPlaceFrom at (Ends (reading.lex_of reader.begun)
        (reading.state_of reader)) bytes.now n) }
{
    let byte = bytes[at];
    let Reader {
        begun,
        found,
        stage,
    } = reader;
    match begun {
        Begun::InWord(letters) => {
            if is_name_byte(byte) {
                let reader = step(alloc, Begun::InWord(letters), found, stage, byte, at)?;
                Ok((reader, at + 1))
            } else {
                end_word(alloc, &letters, found, stage, bytes, at)
            }
        }
        Begun::Gap => {
            let reader = step(alloc, Begun::Gap, found, stage, byte, at)?;
            Ok((reader, at + 1))
        }
        Begun::Comment => {
            let reader = step(alloc, Begun::Comment, found, stage, byte, at)?;
            Ok((reader, at + 1))
        }
    }
}

/// The commands, where the script may end here.
fn ended(reader: Reader, place: usize) -> Result<Vec<Command>, ScriptError>
    ensures commands { IfOk result (λ v. v.items ≡ reader.found.commands) }
    ensures ends { WholeAt (is_whole reader.begun reader.stage) place result }
{
    let Reader {
        begun,
        found,
        stage,
    } = reader;
    match begun {
        Begun::InWord(_) => Err(ScriptError::Syntax { place }),
        Begun::Gap | Begun::Comment => match stage {
            Stage::AtCommand => Ok(found.into_commands()),
            _ => Err(ScriptError::Syntax { place }),
        },
    }
}

/// The commands of the script that the bytes spell, in their order.
///
/// `Syntax` comes exactly where the bytes spell no script, with the length of their longest front
/// that some further bytes complete to one; `Memory` where memory ran out. Blanks, comments and
/// tokens are those of a program's text. Authors and places in a block are at most 4,294,967,295,
/// serials are 1 to 4,294,967,295, and each content keeps the limits of a program's expressions. The
/// words of scripts are not reserved: each is known by its place. The form of scripts is defined here
/// alone.
pub fn read_script(alloc: Global, bytes: &[u8]) -> Result<Vec<Command>, ScriptError>
    ensures spelled { IfOk result (λ commands. IsScript bytes.now commands.items) }
    ensures syntax { IfSyntax result (λ n. IsPlace HasScript bytes.now n) }
{
    let mut reader = Reader {
        begun: Begun::Gap,
        found: Found::new(alloc),
        stage: Stage::AtCommand,
    };
    let mut at = 0;
    while at < bytes.len() {
        let (next, end) = advance(alloc, reader, bytes, at)?;
        reader = next;
        at = end;
    }
    ended(reader, at)
}
