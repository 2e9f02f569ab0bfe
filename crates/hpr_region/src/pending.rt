//! What is still to be placed, where there are tables by which items may stand.
ghost use Rattle.std.specs.Prelude.{◌≡◌, [], ◌∷◌, ◌++◌, true, IfOk};
ghost use Rattle.hpr_region.specs.Plans.{may_follow};
ghost use Rattle.hpr_region.specs.States.{IsPendingBy};

use crate::plan::Plan;
use hpr_forest::{Blocks, Pending};
use std::alloc::{AllocError, Global};

/// The counts where nothing is placed; none where there are no tables.
pub(crate) fn none_placed(
    alloc: Global,
    choices: &Option<Blocks>,
) -> Result<Option<Pending>, AllocError>
    ensures { IfOk result (λ pending. IsPendingBy choices.now [] pending) }
{
    match choices {
        None => Ok(None),
        Some(blocks) => Ok(Some(Pending::start(alloc, blocks)?)),
    }
}

/// Places the item, which may be placed next, behind the placed ones.
pub(crate) fn count_placed(
    pending: &mut Option<Pending>,
    plan: &Plan,
    placed: &[usize],
    item: usize,
)
    requires pending { IsPendingBy plan.now.choices placed.now pending.old }
    requires may { may_follow plan.now placed.now item ≡ true }
    ensures { IsPendingBy plan.now.choices (placed.now ++ item ∷ []) pending.new }
{
    let Some(blocks) = &plan.choices else {
        return;
    };
    let Some(pending) = pending else {
        return;
    };
    pending.place(blocks, placed, item);
}

/// Takes the item back, which was placed last, behind these.
pub(crate) fn count_taken_back(
    pending: &mut Option<Pending>,
    plan: &Plan,
    placed: &[usize],
    item: usize,
)
    requires pending { IsPendingBy plan.now.choices (placed.now ++ item ∷ []) pending.old }
    requires may { may_follow plan.now placed.now item ≡ true }
    ensures { IsPendingBy plan.now.choices placed.now pending.new }
{
    let Some(blocks) = &plan.choices else {
        return;
    };
    let Some(pending) = pending else {
        return;
    };
    pending.take_back(blocks, placed, item);
}
