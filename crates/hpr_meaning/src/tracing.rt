//! Traced runs.
ghost use Rattle.std.specs.Prelude.{◌≡◌, map, IfOk};
ghost use Rattle.hpr_syntax.specs.Run.{run};
ghost use Rattle.hpr_run.specs.Outcomes.{outcome_of};
ghost use Rattle.hpr_meaning.specs.Instances.{instances};
ghost use Rattle.hpr_meaning.specs.Items.{item_in, items_of};

use crate::memo::Memo;
use crate::traced::Traced;
use crate::turns::Turns;
use hpr_run::{State, run_observed};
use hpr_syntax::{NoMemory, Program};
use std::alloc::Global;

/// Runs a program from a state with at most this many steps, and keeps each finished step. The state
/// stays as it is, and the outcome is that of `hpr_run::run`.
///
/// The instances of a run are those of Reps and Yang (1988), with the program's steps bounded and its
/// faults ours. It takes time in the steps and the names that they read, and the recursion is as deep
/// as the program's blocks and expressions. It fails only for want of memory.
pub fn trace(alloc: Global, program: &Program, state: &State, most: u64) -> Result<Traced, NoMemory>
    ensures items { IfOk result (λ t. map item_in t.items.items ≡ items_of (instances program.now state.now most)) }
    ensures outcome { IfOk result (λ t. outcome_of t.outcome ≡ run program.now state.now most) }
{
    let around = Turns::new(alloc);
    let mut memo = Memo::new(alloc);
    let outcome = run_observed(alloc, program, state, most, &around, &mut memo)?;
    Ok(Traced {
        items: memo.into_items(),
        outcome,
    })
}
