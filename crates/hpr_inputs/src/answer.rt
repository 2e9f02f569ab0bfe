//! Decided answers, and why there is none.
use hpr_syntax::NoMemory;
use std::alloc::AllocError;

/// The kinds of answers that have a text for `out`.
#[derive(Clone, Copy)]
pub enum Kind {
    /// The command did what it is for.
    Done,
    /// The variants interfere.
    Interference,
    /// No program has the merged graph.
    NoProgram,
    /// The budget of tries is spent.
    Spent,
    /// A run did not end normally.
    NotEnded,
    /// A merged program that was made elsewhere hasn't the merged graph, or the variants interfere.
    Rejected,
}

/// A decided answer with a text for `out`.
#[derive(Drop)]
pub struct Report {
    pub kind: Kind,
    pub text: Vec<u8>,
}

/// Why there is no text for `out`, with the message for `err` where it isn't a fixed one.
#[derive(Drop)]
pub enum Stop {
    Refused(String),
    ReadFault(String),
    Memory,
}

impl From<AllocError> for Stop {
    ghost use Rattle.std.specs.Prelude.{◌≡◌};
    ghost use Rattle.hpr_inputs.specs.declared.answer.Stop.TheVariants.{Memory};

    ghost from_gives = { λ _ stop. stop ≡ Memory };

    fn from(_error: AllocError) -> Stop {
        Stop::Memory
    }
}

impl From<NoMemory> for Stop {
    ghost use Rattle.std.specs.Prelude.{◌≡◌};
    ghost use Rattle.hpr_inputs.specs.declared.answer.Stop.TheVariants.{Memory};

    ghost from_gives = { λ _ stop. stop ≡ Memory };

    fn from(_error: NoMemory) -> Stop {
        Stop::Memory
    }
}
