//! What a search knows from its start.
ghost use Rattle.std.specs.Prelude.{◌≡◌, IfSome, vec_len};
ghost use Rattle.std.proofs.Props.{props};
ghost use Rattle.hpr_graph.specs.Graphs.{IsOnce};

use crate::flows::Flows;
use hpr_forest::Blocks;

/// The parts of a graph in the order of a rank, as items: what may stand one behind the other, and what clashes.
pub(crate) struct Plan {
    /// The number of each part's vertex.
    pub(crate) numbers: Vec<usize>,
    /// By which tables the items may stand one behind the other; none where there is no arrangement.
    pub(crate) choices: Option<Blocks>,
    /// By which tables they clash.
    pub(crate) flows: Flows,
    ghost once: { IsOnce numbers.items },
    ghost choice_count: { IfSome choices (λ b. vec_len b.parents ≡ vec_len numbers) } by { Prim.hlevel props },
    ghost flow_count: { vec_len flows.slots ≡ vec_len numbers },
}

/// All are dropped in one call.
impl Drop for Plan {
    fn drop(self) {
        let Plan {
            numbers: _,
            choices: _,
            flows: _,
        } = self;
    }
}
