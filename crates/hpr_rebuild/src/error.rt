//! Why there is no program.
use hpr_terms::NoMemory;

/// Why there is no program with a graph.
#[derive(Clone, Copy)]
pub enum RebuildError {
    /// No program has the graph.
    NoProgram,
    /// There are more arrangements than tries, and none of those tried has the graph.
    Spent,
    /// Memory ran out.
    Memory,
}

impl From<NoMemory> for RebuildError {
    ghost use Rattle.std.specs.Prelude.{◌≡◌};
    ghost use Rattle.hpr_rebuild.specs.declared.error.RebuildError.TheVariants.{Memory};

    ghost from_gives = { λ _ e. e ≡ Memory };

    fn from(_error: NoMemory) -> RebuildError {
        RebuildError::Memory
    }
}
