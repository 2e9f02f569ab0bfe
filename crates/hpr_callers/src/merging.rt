//! Three texts become the text of their merged program.
ghost use Rattle.std.specs.Prelude.{IfOk};
ghost use Rattle.hpr_callers.specs.Texts.{IsMerged};

use hpr_engine::{Stop, integrate};
use hpr_print::text_of;
use hpr_syntax::NoMemory;
use hpr_terms::limits::DEFAULT_TRIES;
use hpr_text::{Mode, TextError, parse};
use std::alloc::Global;

/// Why there is no merged text.
#[derive(Drop)]
pub(crate) enum MergeError {
    /// One of the texts spells no program.
    Text(TextError),
    /// The variants interfere, or no program has the merged graph, or none was found.
    Merge(Stop),
    /// Memory ran out.
    Memory,
}

impl From<TextError> for MergeError {
    fn from(error: TextError) -> MergeError {
        MergeError::Text(error)
    }
}

impl From<Stop> for MergeError {
    fn from(stop: Stop) -> MergeError {
        MergeError::Merge(stop)
    }
}

impl From<NoMemory> for MergeError {
    fn from(_error: NoMemory) -> MergeError {
        MergeError::Memory
    }
}

/// The text of a program that keeps the meaning of both variants.
pub(crate) fn merge_texts(
    alloc: Global,
    base: &[u8],
    a: &[u8],
    b: &[u8],
) -> Result<Vec<u8>, MergeError>
    ensures { IfOk result (λ text. IsMerged base.now a.now b.now text.items) }
{
    let base = parse(alloc, base, Mode::Tagged)?;
    let a = parse(alloc, a, Mode::Tagged)?;
    let b = parse(alloc, b, Mode::Tagged)?;
    let merged = integrate(alloc, &base, &a, &b, DEFAULT_TRIES)?;
    let text = text_of(alloc, &merged)?;
    Ok(text)
}
