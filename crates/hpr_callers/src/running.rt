//! A text is run.
ghost use Rattle.std.specs.Prelude.{IfOk};
ghost use Rattle.hpr_callers.specs.Texts.{MayEndWith};

use crate::merging::MergeError;
use hpr_run::{FinalValues, Outcome, State, run};
use hpr_text::{Mode, parse};
use std::alloc::Global;

/// The final values of the program that the text spells, from the state in which each name is 0; none
/// where it doesn't end within so many steps.
pub(crate) fn final_values(
    alloc: Global,
    text: &[u8],
    steps: u64,
) -> Result<Option<FinalValues>, MergeError>
    ensures { IfOk result (MayEndWith text.now steps) }
{
    let program = parse(alloc, text, Mode::Tagged)?;
    let state = State::new(alloc);
    match run(alloc, &program, &state, steps)? {
        Outcome::Ends { finals, .. } => Ok(Some(finals)),
        Outcome::Faults { .. } | Outcome::More { .. } => Ok(None),
    }
}
