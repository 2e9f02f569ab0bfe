//! States.
ghost use Rattle.std.specs.Prelude.{◌≡◌, length, [], ◌∷◌, ◌++◌, IfOk, OnOk, OnErr};
ghost use Rattle.std.specs.FinMap as map;
ghost use Rattle.std.specs.Option.{option_copied};
ghost use Rattle.hpr_arrays.specs.Elements.{element, with_element};
ghost use Rattle.hpr_syntax.specs.declared.value.Value.TheVariants.{Number, List, Array};
ghost use Rattle.hpr_syntax.specs.Values.{blank, number_in, written_in, elements_in, value_at, put};

use hpr_syntax::{Cells, Name, NoMemory, Value, Written};
use std::alloc::Global;
use std::collections::BTreeMap;
use std::marker::Model;

/// A state: variables with their values. A plain name that it doesn't list has the value 0, the stream the empty
/// list, and an array no element but 0.
///
/// A contract sees it as a finite map from names to values.
#[derive(Drop)]
pub struct State {
    values: BTreeMap<Name, Value>,
}

impl Model for State {
    ghost use Rattle.hpr_syntax.specs.Values.{Values};
    ghost use Rattle.hpr_run.specs.States.{values_coded};
    ghost use Rattle.std.specs.FinMap.{from_entries};

    ghost Value = { Values };

    ghost coded = { values_coded };

    ghost view = { λ s. from_entries s.values.entries };
}

impl State {
    /// The state that lists no name.
    pub fn new(alloc: Global) -> State
        ensures { result ≡ map.empty }
    {
        State {
            values: BTreeMap::new(alloc),
        }
    }

    /// What the state lists under the name, if it lists it.
    pub fn listed(&self, name: &Name) -> Option<&Value>
        ensures { option_copied result ≡ map.get self.now name.now }
    {
        self.values.get(name)
    }

    /// The name's number: 0 where the state doesn't list it, and of the stream and of an array.
    #[tactic(auto, using(hpr_syntax::proofs::StateLaws::blank_number))]
    pub fn get(&self, name: &Name) -> i64
        ensures { result ≡ number_in (value_at self.now name.now) }
    {
        match self.listed(name) {
            Some(value) => value.number(),
            None => 0,
        }
    }

    /// How many numbers were written under the name: none where the state doesn't list it.
    #[tactic(auto, using(hpr_syntax::proofs::StateLaws::blank_written))]
    pub(crate) fn written(&self, name: &Name) -> usize
        ensures { result ≡ length (written_in (value_at self.now name.now)) }
    {
        match self.listed(name) {
            Some(value) => value.count(),
            None => 0,
        }
    }

    /// The element of the array with this index: 0 where the state doesn't list the array.
    #[tactic(auto, using(hpr_syntax::proofs::StateLaws::blank_elements, hpr_arrays::proofs::NoElements::no_element))]
    pub(crate) fn element(&self, array: &Name, at: u16) -> i64
        ensures { result ≡ element (elements_in (value_at self.now array.now)) at }
    {
        match self.listed(array) {
            Some(value) => value.element(at),
            None => 0,
        }
    }

    /// How many elements of the array aren't 0: none where the state doesn't list it. It takes no memory.
    #[tactic(auto, using(hpr_syntax::proofs::StateLaws::blank_elements, hpr_arrays::proofs::NoElements::none_counted))]
    pub fn count(&self, array: &Name) -> usize
        ensures { result ≡ map.len (elements_in (value_at self.now array.now)) }
    {
        match self.listed(array) {
            Some(value) => value.element_count(),
            None => 0,
        }
    }

    /// What the name is worth.
    pub fn value(&self, alloc: Global, name: &Name) -> Result<Value, NoMemory>
        ensures { IfOk result (λ v. v ≡ value_at self.now name.now) }
    {
        match self.listed(name) {
            Some(value) => value.copy(alloc),
            None => Ok(blank(alloc, name)),
        }
    }

    /// Whether the state lists the name.
    pub fn lists(&self, name: &Name) -> bool
        ensures { result ≡ map.contains_key self.now name.now }
    {
        self.values.contains_key(name)
    }

    /// Gives the name this number, and leaves the others theirs. Want of memory leaves the state as
    /// it was.
    pub fn set(&mut self, name: Name, number: i64) -> Result<(), NoMemory>
        ensures ok { OnOk result (self.new ≡ map.insert self.old name (Number number)) }
        ensures err { OnErr result (self.new ≡ self.old) }
    {
        self.put(name, Value::Number(number))
    }

    /// The same of any value.
    fn put(&mut self, name: Name, value: Value) -> Result<(), NoMemory>
        ensures ok { OnOk result (self.new ≡ map.insert self.old name value) }
        ensures err { OnErr result (self.new ≡ self.old) }
    {
        self.values.insert(name, value)?;
        Ok(())
    }

    // The same as `set`. The name is copied only where the state doesn't list it yet; else nothing
    // is allocated.
    pub(crate) fn assign(&mut self, alloc: Global, name: &Name, number: i64) -> Result<(), NoMemory>
        ensures ok { OnOk result (self.new ≡ put self.old name.now (Number number)) }
        ensures err { OnErr result (self.new ≡ self.old) }
    {
        if let Some(place) = self.values.get_mut(name) {
            *place = Value::Number(number);
            return Ok(());
        }
        self.set(name.copy(alloc)?, number)
    }

    // Writes the number behind those that were written under the name. Want of memory leaves the state as it
    // was.
    pub(crate) fn write(&mut self, alloc: Global, name: &Name, number: i64) -> Result<(), NoMemory>
        ensures ok { OnOk result (self.new
            ≡ put self.old name.now (List (written_in (value_at self.old name.now) ++ number ∷ []))) }
        ensures err { OnErr result (self.new ≡ self.old) }
    {
        if let Some(place) = self.values.get_mut(name) {
            return place.write(alloc, number);
        }
        let mut written = Written::new(alloc);
        written.push(number)?;
        self.put(name.copy(alloc)?, Value::List(written))
    }

    /// Gives the element of the array with this index the number, and leaves the others theirs. The name is copied
    /// only where the state doesn't list it yet. Want of memory leaves the state as it was.
    pub fn store(
        &mut self,
        alloc: Global,
        array: &Name,
        at: u16,
        number: i64,
    ) -> Result<(), NoMemory>
        ensures ok { OnOk result (self.new
            ≡ put self.old array.now (Array (with_element (elements_in (value_at self.old array.now)) at number))) }
        ensures err { OnErr result (self.new ≡ self.old) }
    {
        if let Some(place) = self.values.get_mut(array) {
            return place.store(alloc, at, number);
        }
        let mut value = Value::Array(Cells::new(alloc));
        value.store(alloc, at, number)?;
        self.put(array.copy(alloc)?, value)
    }

    /// A copy.
    #[tactic(auto, using(crate::proofs::States::onto_empty, crate::proofs::States::onto_last))]
    pub fn copy(&self, alloc: Global) -> Result<State, NoMemory>
        ensures { IfOk result (λ s. s ≡ self.now) }
    {
        let mut copy = State::new(alloc);
        for (name, value) in self.values.iter().rev() {
            copy.put(name.copy(alloc)?, value.copy(alloc)?)?;
        }
        Ok(copy)
    }
}

/// What the name is worth where nothing was put under it.
fn blank(alloc: Global, name: &Name) -> Value
    ensures { result ≡ blank name.now }
{
    if name.is_stream() {
        Value::List(Written::new(alloc))
    } else if name.is_array() {
        Value::Array(Cells::new(alloc))
    } else {
        Value::Number(0)
    }
}
