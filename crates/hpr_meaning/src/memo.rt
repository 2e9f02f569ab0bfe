//! What a traced run keeps.
ghost use Rattle.std.specs.Prelude.{◌≡◌, [], map, IfOk};
ghost use Rattle.hpr_meaning.specs.Instances.{names_of};
ghost use Rattle.hpr_syntax.specs.Rows.{content_of};
ghost use Rattle.hpr_syntax.specs.Values.{value_at};
ghost use Rattle.hpr_meaning.specs.Items.{item_in, reading_of};
ghost use Rattle.hpr_meaning.specs.Notes.{no_notes, read_at};

use crate::definers::Definers;
use crate::names::names_of;
use crate::traced::{Instance, Read, Reading};
use crate::turns::Turns;
use hpr_run::{Observer, State, Value};
use hpr_syntax::{Name, NoMemory, Stmt};
use std::alloc::Global;
use std::marker::Model;

/// The items that last defined names, and all items so far.
#[derive(Drop)]
pub(crate) struct Memo {
    definers: Definers,
    items: Vec<Instance>,
}

impl Model for Memo {
    ghost use Rattle.std.specs.Prelude.{map};
    ghost use Rattle.hpr_meaning.specs.Items.{item_in};
    ghost use Rattle.hpr_meaning.specs.Notes.{Notes};

    ghost Value = { Notes };

    ghost use Rattle.std.specs.Coded.{codes};
    ghost use Rattle.hpr_meaning.specs.Numbers.{numbers_coded};

    ghost coded = { Prim.hlevel (codes, numbers_coded) };

    ghost view = { λ m. record { definers = m.definers; items = map item_in m.items.items } };
}

impl Memo {
    /// Before the first step.
    pub(crate) fn new(alloc: Global) -> Memo
        ensures { result ≡ no_notes }
    {
        Memo {
            definers: Definers::new(alloc),
            items: Vec::new(alloc),
        }
    }

    /// The items.
    pub(crate) fn into_items(self) -> Vec<Instance>
        ensures { map item_in result.items ≡ self.items }
    {
        let Memo { items, .. } = self;
        items
    }

    /// What the part reads in the state.
    fn reads(&self, alloc: Global, stmt: &Stmt, state: &State) -> Result<Vec<Read>, NoMemory>
        ensures { IfOk result (λ reads. reads.items
            ≡ map (read_at state.now self.now) (names_of (content_of stmt.now))) }
    {
        let mut reads = Vec::new(alloc);
        for name in names_of(alloc, stmt)? {
            let value = reading(state, &name);
            let origin = self.definers.origin(&name);
            reads.push(Read {
                name,
                value,
                origin,
            })?;
        }
        Ok(reads)
    }
}

impl Observer for Memo {
    ghost use Rattle.std.specs.Prelude.{◌++◌, ◌∷◌, []};
    ghost use Rattle.hpr_meaning.specs.Notes.{noted, defined};

    type Turns = Turns;

    ghost in_turn = { λ around turn. around ++ turn ∷ [] };

    ghost told = { noted };

    ghost assigned = { defined };

    fn enter(&self, alloc: Global, around: &Turns, turn: u64) -> Result<Turns, NoMemory> {
        around.with_turn(alloc, turn)
    }

    fn tell(
        &mut self,
        alloc: Global,
        around: &Turns,
        stmt: &Stmt,
        number: i64,
        state: &State,
    ) -> Result<(), NoMemory> {
        let reads = self.reads(alloc, stmt, state)?;
        let turns = around.copied(alloc)?;
        self.items.push(Instance {
            tag: stmt.tag(),
            turns,
            reads,
            value: number,
        })?;
        Ok(())
    }

    fn assign(&mut self, alloc: Global, name: &Name) -> Result<(), NoMemory> {
        let last = self.items.len().saturating_sub(1);
        self.definers.set(alloc, name, last)
    }
}

/// What a read of the name in the state shows.
#[tactic(auto, using(hpr_arrays::proofs::NoElements::none_counted))]
fn reading(state: &State, name: &Name) -> Reading
    ensures { result ≡ reading_of (value_at state.now name.now) }
{
    match state.listed(name) {
        Some(value) => shown(value),
        None if name.is_stream() || name.is_array() => Reading::Size(0),
        None => Reading::Number(0),
    }
}

/// What a read of the value shows.
fn shown(value: &Value) -> Reading
    ensures { result ≡ reading_of value.now }
{
    match value {
        Value::Number(number) => Reading::Number(*number),
        Value::List(written) => Reading::Size(written.len()),
        Value::Array(cells) => Reading::Size(cells.count()),
    }
}
