//! The turns of the loops around a part.
ghost use Rattle.std.specs.Prelude.{◌≡◌, ◌++◌, ◌∷◌, [], IfOk};

use hpr_syntax::NoMemory;
use std::alloc::Global;
use std::marker::Model;

/// The turn of each loop around a part, the outermost loop first. A contract sees their list.
#[derive(Drop)]
pub(crate) struct Turns {
    list: Vec<u64>,
}

impl Model for Turns {
    ghost use Rattle.std.specs.Prelude.{List, ℕ};

    ghost Value = { List ℕ };

    ghost view = { λ t. t.list.items };
}

impl Turns {
    /// No loop is around.
    pub(crate) fn new(alloc: Global) -> Turns
        ensures { result ≡ [] }
    {
        Turns {
            list: Vec::new(alloc),
        }
    }

    /// These, and one more behind them.
    pub(crate) fn with_turn(&self, alloc: Global, turn: u64) -> Result<Turns, NoMemory>
        ensures { IfOk result (λ turns. turns ≡ self.now ++ turn ∷ []) }
    {
        let mut list = self.copied(alloc)?;
        list.push(turn)?;
        Ok(Turns { list })
    }

    /// A copy of their list.
    pub(crate) fn copied(&self, alloc: Global) -> Result<Vec<u64>, NoMemory>
        ensures { IfOk result (λ list. list.items ≡ self.now) }
    {
        Ok(Vec::from_slice(alloc, &self.list)?)
    }
}
