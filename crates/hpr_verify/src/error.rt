//! Why there is no verdict.
use hpr_syntax::NoMemory;

/// Why there is no verdict on an offered program (Horwitz, Prins and Reps 1989 know no limit on edges).
#[derive(Clone, Copy, Debug)]
pub enum VerifyError {
    /// The graph of the program with this number has more than 1,000,000 edges: 0 is base, 1 is A, 2 is B and
    /// 3 is the offered one.
    TooManyEdges(usize),
    /// Memory ran out.
    Memory,
}

impl From<NoMemory> for VerifyError {
    ghost use Rattle.std.specs.Prelude.{◌≡◌};
    ghost use Rattle.hpr_verify.specs.declared.error.VerifyError.TheVariants.{Memory};

    ghost from_gives = { λ _ e. e ≡ Memory };

    fn from(_error: NoMemory) -> VerifyError {
        VerifyError::Memory
    }
}
