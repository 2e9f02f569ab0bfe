//! Why an integration of many variants stops without a program.
use hpr_graph::{ManyConflict, NoMemory};

/// Why an integration of many variants stops without a program. Horwitz, Prins and Reps (1989) have the second
/// and the third reason, of two variants; they have no limit on edges and no budget.
#[derive(Drop)]
pub enum ManyStop {
    /// The graph of the program with this number has more edges than are allowed: 0 is the base, and the
    /// variants count from 1.
    TooManyEdges(usize),
    /// The variants interfere: these are all conflicts.
    Interference(Vec<ManyConflict>),
    /// No program has the merged graph, which has so many parts.
    NoProgram(usize),
    /// There are more arrangements than tries, and none of those tried has the merged graph.
    Spent,
    /// Memory ran out.
    Memory,
}

impl From<NoMemory> for ManyStop {
    ghost use Rattle.std.specs.Prelude.{◌≡◌};
    ghost use Rattle.hpr_many.specs.declared.stop.ManyStop.TheVariants.{Memory};

    ghost from_gives = { λ _ stop. stop ≡ Memory };

    fn from(_error: NoMemory) -> ManyStop {
        ManyStop::Memory
    }
}
