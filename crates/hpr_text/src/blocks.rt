//! Blocks that have begun and have not ended.
ghost use Rattle.std.specs.Prelude.{◌≡◌, ◌∷◌, [], length, MatchOption, OnOk};
ghost use Rattle.hpr_text.specs.Blocks as blocks;

use hpr_syntax::Block;
use hpr_terms::{Expr, NoMemory, Tag};
use std::alloc::Global;
use std::marker::Model;

/// A part with blocks that is being read: the parts before it, its tag and what it tests.
pub struct Around {
    pub before: Block,
    pub tag: Tag,
    pub test: Expr,
}

/// All of it is dropped in one call.
impl Drop for Around {
    fn drop(self) {
        let Around {
            before: _,
            tag: _,
            test: _,
        } = self;
    }
}

impl Around {
    /// The parts before the part, its tag and what it tests.
    pub fn into_parts(self) -> (Block, Tag, Expr)
        ensures before { result.0 ≡ self.before }
        ensures tag { result.1 ≡ self.tag }
        ensures test { result.2 ≡ self.test }
    {
        let Around { before, tag, test } = self;
        (before, tag, test)
    }
}

/// A block that has begun.
#[derive(Drop)]
pub enum Begun {
    /// The first block of a conditional.
    Then(Around),
    /// The second block of a conditional. With the first one.
    Else(Around, Block),
    /// The block of a loop.
    Loop(Around),
}

/// What the innermost open block is.
#[derive(Clone, Copy)]
pub enum Kind {
    /// There is none: the parts stand at the top.
    Top,
    /// The first block of a conditional.
    Then,
    /// The second block of a conditional.
    Else,
    /// The block of a loop.
    Loop,
}

/// The open blocks. A contract sees their list, the innermost one first.
#[derive(Drop)]
pub struct Blocks {
    open: Vec<Begun>,
}

impl Model for Blocks {
    ghost use Rattle.std.specs.Prelude.{List, reverse};
    ghost use Rattle.std.specs.Coded.{codes};
    ghost use Rattle.hpr_terms.specs.Private.TermCode.{term_coded};
    ghost use Rattle.hpr_syntax.specs.Private.BodyCode.{body_coded};
    ghost use Rattle.hpr_text.specs.declared.blocks.Begun.{Begun};

    ghost Value = { List Begun };

    ghost coded = { Prim.hlevel (codes, term_coded, body_coded) };

    ghost view = { λ b. reverse b.open.items };
}

impl Blocks {
    /// No block is open.
    pub fn new(alloc: Global) -> Blocks
        ensures { result ≡ [] }
    {
        Blocks {
            open: Vec::new(alloc),
        }
    }

    /// How many blocks are open.
    pub fn len(&self) -> usize
        ensures { result ≡ length self.now }
    {
        self.open.len()
    }

    /// One more open block.
    pub fn push(&mut self, block: Begun) -> Result<(), NoMemory>
        ensures { OnOk result (self.new ≡ block ∷ self.old) }
    {
        Ok(self.open.push(block)?)
    }

    /// The innermost open block, which is open no more.
    pub fn pop(&mut self) -> Option<Begun>
        ensures { MatchOption result (self.old ≡ []) (λ b. self.old ≡ b ∷ self.new) }
    {
        self.open.pop()
    }

    /// What the innermost open block is.
    #[tactic(auto, using(crate::proofs::Innermost::kind_none, crate::proofs::Innermost::kind_some))]
    pub fn kind(&self) -> Kind
        ensures { result ≡ blocks.kind_of self.now }
    {
        match self.open.last() {
            None => Kind::Top,
            Some(Begun::Then(_)) => Kind::Then,
            Some(Begun::Else(_, _)) => Kind::Else,
            Some(Begun::Loop(_)) => Kind::Loop,
        }
    }
}
