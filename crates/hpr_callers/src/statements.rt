//! Three texts whose parts are statements of another language become the text of their merged program.
ghost use Rattle.std.specs.Prelude.{IfOk};
ghost use Rattle.hpr_callers.specs.Texts.{IsMergedForEvery};

use crate::merging::MergeError;
use hpr_any::integrate;
use hpr_print::text_of;
use hpr_terms::limits::DEFAULT_TRIES;
use hpr_text::{Mode, parse};
use std::alloc::Global;

/// The text of a program that keeps the meaning of both variants, whatever their parts mean: with any values of `V`
/// and any faults of `F`.
pub(crate) fn merge_statements<V, F>(
    alloc: Global,
    base: &[u8],
    a: &[u8],
    b: &[u8],
) -> Result<Vec<u8>, MergeError>
    ensures { IfOk result (λ text. IsMergedForEvery V F base.now a.now b.now text.items) }
{
    let base = parse(alloc, base, Mode::Tagged)?;
    let a = parse(alloc, a, Mode::Tagged)?;
    let b = parse(alloc, b, Mode::Tagged)?;
    let merged = integrate::<V, F>(alloc, &base, &a, &b, DEFAULT_TRIES)?;
    let text = text_of(alloc, &merged)?;
    Ok(text)
}
