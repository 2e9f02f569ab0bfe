//! Machines that read tokens.
ghost use Rattle.std.specs.Prelude.{◌≡◌, ℕ, Bool, true, List, Option, Some, is_some};
ghost use Rattle.hpr_terms.specs.declared.token.Token.{Token};
ghost use Rattle.hpr_terms.specs.declared.token.Token.TheVariants.{Word, Name, Number, Mark};
ghost use Rattle.hpr_scan.specs.Machine.{IsTokenMachine, Live, EndsAtOnce};
ghost use Rattle.hpr_scan.specs.Steps.{Moves};

use hpr_terms::{Keyword, NoMemory, Sign, Token};
use std::alloc::{AllocError, AllocFailed, Global};

/// Why a machine did not go on.
#[derive(Clone, Copy, Debug, PartialEq, Eq)]
pub enum Fault {
    /// The token, or the byte, cannot stand here.
    Refused,
    /// Memory ran out.
    Memory,
}

impl From<AllocError> for Fault {
    ghost use Rattle.std.specs.Prelude.{◌≡◌};
    ghost use Rattle.hpr_scan.specs.declared.machine.Fault.TheVariants.{Memory};

    ghost from_gives = { λ _ e. e ≡ Memory };

    fn from(_error: AllocError) -> Fault {
        Fault::Memory
    }
}

impl<T: Drop> From<AllocFailed<T>> for Fault {
    ghost use Rattle.std.specs.Prelude.{◌≡◌};
    ghost use Rattle.hpr_scan.specs.declared.machine.Fault.TheVariants.{Memory};

    ghost from_gives = { λ _ e. e ≡ Memory };

    fn from(_error: AllocFailed<T>) -> Fault {
        Fault::Memory
    }
}

impl From<NoMemory> for Fault {
    ghost use Rattle.std.specs.Prelude.{◌≡◌};
    ghost use Rattle.hpr_scan.specs.declared.machine.Fault.TheVariants.{Memory};

    ghost from_gives = { λ _ e. e ≡ Memory };

    fn from(_error: NoMemory) -> Fault {
        Fault::Memory
    }
}

/// A machine that reads tokens from left to right.
pub trait TokenMachine: Sized {
    // where a token leads, if it can stand next
    ghost next: { Self → Token → Option Self };

    // whether a text may end here
    ghost may_end: { Self → Bool };

    /// Takes the token, in place. `Refused` comes exactly where the token cannot stand next. After an
    /// `Err` the machine is of no use: nothing is known of how far it went.
    fn step(&mut self, alloc: Global, token: Token) -> Result<(), Fault>
        ensures { Moves (next self.old token) self.new result };

    /// Whether the keyword can stand next.
    fn takes_keyword(&self, keyword: Keyword) -> bool
        ensures { result ≡ is_some (next self.now (Word keyword)) };

    /// Whether a name can stand next.
    fn takes_name(&self) -> bool
        ensures { (x : List ℕ) → result ≡ is_some (next self.now (Name x)) };

    /// Whether the number can stand next.
    fn takes_number(&self, number: u64) -> bool
        ensures { result ≡ is_some (next self.now (Number number)) };

    /// Whether the sign can stand next.
    fn takes_sign(&self, sign: Sign) -> bool
        ensures { result ≡ is_some (next self.now (Mark sign)) };

    /// Whether a text may end here.
    fn can_end(&self) -> bool
        ensures { result ≡ may_end self.now };

    // what the reader of bytes relies on
    ghost laws: { IsTokenMachine next };

    // every machine can still come to an end
    ghost live: { (s : Self) → Live next may_end s };
}

/// A machine at which a text ends only behind a sign that no byte makes a longer one, as `;`.
///
/// So its reader knows the end of a text by the last byte, whatever follows.
pub trait FrontMachine: TokenMachine {
    // only such a sign leads to an end
    ghost ends_at_once: { (s n : Self) (t : Token) →
        Self.next s t ≡ Some n → Self.may_end n ≡ true → EndsAtOnce t };
}
