//! Why there is no graph of a program.
use hpr_terms::NoMemory;

/// Why there is no graph of a program.
#[derive(Clone, Copy)]
pub enum BuildError {
    /// The graph has more edges than are allowed.
    TooManyEdges,
    /// Memory ran out.
    Memory,
}

impl From<NoMemory> for BuildError {
    ghost use Rattle.std.specs.Prelude.{◌≡◌};
    ghost use Rattle.hpr_build.specs.declared.error.BuildError.TheVariants.{Memory};

    ghost from_gives = { λ _ e. e ≡ Memory };

    fn from(_error: NoMemory) -> BuildError {
        BuildError::Memory
    }
}
