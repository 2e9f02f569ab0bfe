//! What watches a run.
ghost use Rattle.std.specs.Prelude.{◌≡◌, ℕ, ℤ, List, IfOk, OnOk};
ghost use Rattle.hpr_terms.specs.declared.tag.Tag.{Tag};
ghost use Rattle.hpr_syntax.specs.declared.rows.Content.{Content};
ghost use Rattle.hpr_syntax.specs.Parts.{tag_of};
ghost use Rattle.hpr_syntax.specs.Rows.{content_of};
ghost use Rattle.hpr_syntax.specs.Values.{Values};

use crate::state::State;
use hpr_syntax::{Name, NoMemory, Stmt};
use std::alloc::Global;

/// Watches a run: it is told each finished step, and knows of it what it likes to keep.
pub trait Observer {
    /// The turns of the loops around a part, as far as the observer counts them.
    type Turns: Drop;

    // the turns in a turn, which has this number, of a loop under these turns
    ghost in_turn: { Self.Turns → ℕ → Self.Turns };

    // what is known after a step of a part under these turns, in the state: the number is the one that it assigned, stored,
    // wrote or decided by
    ghost told: { Self.Turns → Tag → Content → ℤ → Values → Self → Self };

    // what is known after the last step defined the name
    ghost assigned: { List ℕ → Self → Self };

    /// The turns in the turn with this number, from 0, of a loop under these turns.
    fn enter(&self, alloc: Global, around: &Self::Turns, turn: u64) -> Result<Self::Turns, NoMemory>
        ensures { IfOk result (λ turns. turns ≡ in_turn around.now turn) };

    /// A step of the part is done, in the state: the number is the one that it assigned, stored, wrote or decided by.
    fn tell(
        &mut self,
        alloc: Global,
        around: &Self::Turns,
        stmt: &Stmt,
        number: i64,
        state: &State,
    ) -> Result<(), NoMemory>
        ensures { OnOk result (self.new
            ≡ told around.now (tag_of stmt.now) (content_of stmt.now) number state.now self.old) };

    /// The last step defined the name.
    fn assign(&mut self, alloc: Global, name: &Name) -> Result<(), NoMemory>
        ensures { OnOk result (self.new ≡ assigned name.now self.old) };
}

/// Knows nothing.
#[derive(Drop)]
pub(crate) struct Nobody;

impl Observer for Nobody {
    type Turns = ();

    ghost in_turn = { λ around _. around };

    ghost told = { λ _ _ _ _ _ known. known };

    ghost assigned = { λ _ known. known };

    fn enter(&self, _alloc: Global, _around: &(), _turn: u64) -> Result<(), NoMemory> {
        Ok(())
    }

    fn tell(
        &mut self,
        _alloc: Global,
        _around: &(),
        _stmt: &Stmt,
        _number: i64,
        _state: &State,
    ) -> Result<(), NoMemory> {
        Ok(())
    }

    fn assign(&mut self, _alloc: Global, _name: &Name) -> Result<(), NoMemory> {
        Ok(())
    }
}
