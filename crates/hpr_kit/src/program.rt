//! The program that bytes spell.
ghost use Rattle.hpr_kit.specs.Private.Replies.{Reads};

use hpr_refusals::Refusal;
use hpr_syntax::{NoMemory, Program};
use hpr_terms::limits::MAX_FILE;
use hpr_text::{Mode, TextError, parse};
use std::alloc::Global;

/// Why bytes are no program.
#[derive(Drop)]
pub(crate) enum Unread {
    Refused(Refusal),
    Memory,
}

impl From<NoMemory> for Unread {
    ghost use Rattle.std.specs.Prelude.{◌≡◌};
    ghost use Rattle.hpr_kit.specs.declared.program.Unread.TheVariants.{Memory};

    ghost from_gives = { λ _ unread. unread ≡ Memory };

    fn from(_error: NoMemory) -> Unread {
        Unread::Memory
    }
}

/// The program that the bytes of a file spell. Those of one that is too long are not read.
pub(crate) fn program_of(alloc: Global, bytes: &[u8]) -> Result<Program, Unread>
    ensures { Reads bytes.now result }
{
    if bytes.len() > MAX_FILE {
        return Err(Unread::Refused(Refusal::Longer));
    }
    match parse(alloc, bytes, Mode::Tagged) {
        Ok(program) => Ok(program),
        Err(TextError::Syntax { place }) => Err(Unread::Refused(Refusal::Syntax { place })),
        Err(TextError::Shape(error)) => Err(Unread::Refused(Refusal::Shape(error))),
        Err(TextError::Memory) => Err(Unread::Memory),
    }
}
