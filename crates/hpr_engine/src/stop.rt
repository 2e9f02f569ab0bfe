//! Why an integration stops without a program.
use hpr_graph::Conflict;
use hpr_syntax::NoMemory;

/// One of the three programs.
#[derive(Clone, Copy, Debug)]
pub enum Which {
    Base,
    A,
    B,
}

/// Why an integration stops without a program.
#[derive(Drop)]
pub enum Stop {
    /// The graph of this program has more edges than are allowed.
    TooManyEdges(Which),
    /// The variants interfere: these are all conflicts.
    Interference(Vec<Conflict>),
    /// No program has the merged graph, which has so many parts.
    NoProgram(usize),
    /// There are more arrangements than tries, and none of those tried has the merged graph.
    Spent,
    /// Memory ran out.
    Memory,
}

impl From<NoMemory> for Stop {
    ghost use Rattle.std.specs.Prelude.{◌≡◌};
    ghost use Rattle.hpr_engine.specs.declared.stop.Stop.TheVariants.{Memory};

    ghost from_gives = { λ _ stop. stop ≡ Memory };

    fn from(_error: NoMemory) -> Stop {
        Stop::Memory
    }
}
