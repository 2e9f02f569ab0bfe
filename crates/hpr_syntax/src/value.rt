//! What a variable is worth.
ghost use Rattle.std.specs.Prelude.{◌≡◌, length, [], ◌∷◌, ◌++◌, IfOk, OnOk, OnErr};
ghost use Rattle.std.specs.FinMap.{len as map_len};
ghost use Rattle.hpr_arrays.specs.Elements.{element, with_element};
ghost use Rattle.hpr_syntax.specs.Values.{number_in, written_in, elements_in};

use hpr_arrays::Cells;
use hpr_terms::NoMemory;
use std::alloc::Global;
use std::marker::Model;

/// The numbers that were written to the stream, the first one first.
///
/// A contract sees the list of the numbers.
#[derive(Drop)]
pub struct Written {
    numbers: Vec<i64>,
}

impl Model for Written {
    ghost use Rattle.std.specs.Prelude.{List, ℤ};

    ghost Value = { List ℤ };

    ghost view = { λ w. w.numbers.items };
}

impl Written {
    /// No number.
    pub fn new(alloc: Global) -> Written
        ensures { result ≡ [] }
    {
        Written {
            numbers: Vec::new(alloc),
        }
    }

    /// How many numbers were written.
    pub fn len(&self) -> usize
        ensures { result ≡ length self.now }
    {
        self.numbers.len()
    }

    /// The numbers in the order in which they were written.
    pub fn numbers(&self) -> &[i64]
        ensures { result.now ≡ self.now }
    {
        &self.numbers
    }

    /// Writes one number more. Want of memory leaves the numbers as they were.
    pub fn push(&mut self, number: i64) -> Result<(), NoMemory>
        ensures ok { OnOk result (self.new ≡ self.old ++ number ∷ []) }
        ensures err { OnErr result (self.new ≡ self.old) }
    {
        self.numbers.push(number)?;
        Ok(())
    }

    /// A copy.
    pub fn copy(&self, alloc: Global) -> Result<Written, NoMemory>
        ensures { IfOk result (λ w. w ≡ self.now) }
    {
        Ok(Written {
            numbers: Vec::from_slice(alloc, &self.numbers)?,
        })
    }
}

/// What a variable is worth: a plain name a number, the stream the numbers that were written, and an array its
/// elements.
#[derive(Drop)]
pub enum Value {
    /// A number.
    Number(i64),
    /// The numbers that were written.
    List(Written),
    /// The elements of an array.
    Array(Cells),
}

impl Value {
    /// The number; 0 where it is another value.
    pub fn number(&self) -> i64
        ensures { result ≡ number_in self.now }
    {
        match self {
            Value::Number(number) => *number,
            Value::List(_) => 0,
            Value::Array(_) => 0,
        }
    }

    /// How many numbers were written; none where it is another value.
    pub fn count(&self) -> usize
        ensures { result ≡ length (written_in self.now) }
    {
        match self {
            Value::Number(_) => 0,
            Value::List(written) => written.len(),
            Value::Array(_) => 0,
        }
    }

    /// The element of an array with this index; 0 where it is another value.
    #[tactic(auto, using(hpr_arrays::proofs::NoElements::no_element))]
    pub fn element(&self, at: u16) -> i64
        ensures { result ≡ element (elements_in self.now) at }
    {
        match self {
            Value::Number(_) => 0,
            Value::List(_) => 0,
            Value::Array(cells) => cells.get(at),
        }
    }

    /// How many elements of an array aren't 0; none where it is another value.
    #[tactic(auto, using(hpr_arrays::proofs::NoElements::none_counted))]
    pub fn element_count(&self) -> usize
        ensures { result ≡ map_len (elements_in self.now) }
    {
        match self {
            Value::Number(_) => 0,
            Value::List(_) => 0,
            Value::Array(cells) => cells.count(),
        }
    }

    /// Writes the number behind those that were written, where it is a list, and else makes it a list of this
    /// number. Want of memory leaves the value as it was.
    pub fn write(&mut self, alloc: Global, number: i64) -> Result<(), NoMemory>
        ensures ok { OnOk result (self.new ≡ Value.List (written_in self.old ++ number ∷ [])) }
        ensures err { OnErr result (self.new ≡ self.old) }
    {
        if let Value::List(written) = self {
            return written.push(number);
        }
        let mut written = Written::new(alloc);
        written.push(number)?;
        *self = Value::List(written);
        Ok(())
    }

    /// Gives the element with this index the number, where it is an array, and else makes it an array with no other
    /// element but 0. Want of memory leaves the value as it was.
    pub fn store(&mut self, alloc: Global, at: u16, number: i64) -> Result<(), NoMemory>
        ensures ok { OnOk result (self.new ≡ Value.Array (with_element (elements_in self.old) at number)) }
        ensures err { OnErr result (self.new ≡ self.old) }
    {
        if let Value::Array(cells) = self {
            return set_cell(cells, at, number);
        }
        let mut cells = Cells::new(alloc);
        set_cell(&mut cells, at, number)?;
        *self = Value::Array(cells);
        Ok(())
    }

    /// A copy.
    pub fn copy(&self, alloc: Global) -> Result<Value, NoMemory>
        ensures { IfOk result (λ v. v ≡ self.now) }
    {
        match self {
            Value::Number(number) => Ok(Value::Number(*number)),
            Value::List(written) => Ok(Value::List(written.copy(alloc)?)),
            Value::Array(cells) => match cells.copy() {
                Ok(copy) => Ok(Value::Array(copy)),
                Err(_) => Err(NoMemory),
            },
        }
    }
}

/// Gives the element with this index the number. Want of memory leaves the elements as they were.
fn set_cell(cells: &mut Cells, at: u16, number: i64) -> Result<(), NoMemory>
    ensures ok { OnOk result (cells.new ≡ with_element cells.old at number) }
    ensures err { OnErr result (cells.new ≡ cells.old) }
{
    match cells.set(at, number) {
        Ok(()) => Ok(()),
        Err(_) => Err(NoMemory),
    }
}
