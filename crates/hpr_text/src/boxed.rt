//! The reader of an expression, behind a pointer.
ghost use Rattle.std.specs.Prelude.{◌≡◌, IfOk};
ghost use Rattle.hpr_scan.specs.Steps.{Moves, Steps};
ghost use Rattle.hpr_expressions.specs.Expression as expression;

use hpr_expressions::Reader;
use hpr_scan::{Fault, TokenMachine};
use hpr_terms::{Expr, NoMemory, Token};
use std::alloc::Global;
use std::marker::Model;

/// A reader of an expression that stands behind a pointer, so that what has one is small and is moved
/// at little cost. A contract sees what was read.
#[derive(Drop)]
pub struct BoxedReader {
    reader: Box<Reader>,
}

impl Model for BoxedReader {
    ghost use Rattle.std.specs.Coded.{codes};
    ghost use Rattle.hpr_terms.specs.Private.TermCode.{term_coded};
    ghost use Rattle.hpr_expressions.specs.declared.expression.Reading.{Reading};

    ghost Value = { Reading };

    ghost coded = { Prim.hlevel (codes, term_coded) };

    ghost view = { λ b. b.reader.value };
}

impl BoxedReader {
    /// Nothing of the expression was read.
    pub fn start(alloc: Global) -> Result<BoxedReader, NoMemory>
        ensures { IfOk result (λ r. r ≡ expression.start) }
    {
        BoxedReader::start_after(alloc, 0)
    }

    /// Nothing of the expression was read, and so many operators stand before it that count together with its own.
    pub fn start_after(alloc: Global, operators: usize) -> Result<BoxedReader, NoMemory>
        ensures { IfOk result (λ r. r ≡ expression.start_after operators) }
    {
        Ok(BoxedReader {
            reader: Box::new(alloc, Reader::start_after(alloc, operators))?,
        })
    }

    /// The reader.
    pub fn reader(&self) -> &Reader
        ensures { result.now ≡ self.now }
    {
        &self.reader
    }

    /// Takes the token, in place. `Refused` comes exactly where the token cannot stand next. After an
    /// `Err` the reader is of no use.
    pub fn step(&mut self, alloc: Global, token: Token) -> Result<(), Fault>
        ensures { Moves (expression.read self.old token) self.new result }
    {
        self.reader.step(alloc, token)
    }

    /// The expression whose tokens were read. `Refused` comes exactly where it cannot end.
    pub fn ended(self, alloc: Global) -> Result<Expr, Fault>
        ensures { Steps (expression.ended self) result }
    {
        let BoxedReader { reader } = self;
        Box::into_inner(reader).ended(alloc)
    }
}
