//! What a search keeps of the items placed so far.
ghost use Rattle.std.specs.Prelude.{◌≡◌, ℕ, ◌<◌, None, List, [], ◌∷◌, ◌++◌, false, replicate, vec_len, IfOk};
ghost use Rattle.hpr_forest.specs.Marks.{is_in};
ghost use Rattle.hpr_region.specs.Private.Summaries.{IsSized, IsSummary};

use crate::flows::Flows;
use crate::plan::Plan;
use hpr_graph::NoMemory;
use std::alloc::{AllocError, Global};

/// What a search keeps of the items placed so far, so that it need not look at all of them: the last placed item
/// that defines each variable, and for each item that defines one the item that was the last before it.
pub struct Summary {
    pub last: Vec<Option<usize>>,
    pub earlier: Vec<Option<usize>>,
}

/// All are dropped in one call.
impl Drop for Summary {
    fn drop(self) {
        let Summary {
            last: _,
            earlier: _,
        } = self;
    }
}

impl Summary {
    /// With nothing placed.
    pub fn start(alloc: Global, flows: &Flows) -> Result<Summary, NoMemory>
        ensures { IfOk result (λ s. IsSummary flows.now [] s) }
    {
        let last = no_items(alloc, flows.names)?;
        let earlier = no_items(alloc, flows.size())?;
        Ok(Summary { last, earlier })
    }

    /// Places an item behind the placed ones.
    pub fn push(&mut self, plan: &Plan, item: usize)
        requires sized { IsSized plan.now.flows self.old }
        requires item { item < vec_len plan.now.flows.slots }
        ensures { (placed : List ℕ) → IsSummary plan.now.flows placed self.old → is_in placed item ≡ false
            → IsSummary plan.now.flows (placed ++ item ∷ []) self.new }
    {
        let Some(variable) = plan.flows.variable(item) else {
            return;
        };
        self.earlier[item] = self.last[variable];
        self.last[variable] = Some(item);
    }

    /// Takes back the item, which was placed last.
    pub fn pop(&mut self, plan: &Plan, item: usize)
        requires sized { IsSized plan.now.flows self.old }
        requires item { item < vec_len plan.now.flows.slots }
        ensures { (placed : List ℕ) → IsSummary plan.now.flows (placed ++ item ∷ []) self.old
            → IsSummary plan.now.flows placed self.new }
    {
        let Some(variable) = plan.flows.variable(item) else {
            return;
        };
        self.last[variable] = self.earlier[item];
    }
}

/// So many places with no item.
fn no_items(alloc: Global, count: usize) -> Result<Vec<Option<usize>>, AllocError>
    ensures none { IfOk result (λ places. places.items ≡ replicate count None) }
    ensures len { IfOk result (λ places. vec_len places ≡ count) }
{
    vec![in alloc; None; count]
}
