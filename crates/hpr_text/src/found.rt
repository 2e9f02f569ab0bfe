//! What was read so far.
ghost use Rattle.std.specs.Prelude.{◌≡◌, ◌≢◌, ◌≤◌, [], ◌∷◌, ◌++◌, length, nat_lt, is_some, Some, IfOk, IfErr, OnOk};
ghost use Rattle.hpr_terms.specs.declared.limits.TheConstants.{MAX_LEVELS, MAX_PARTS};
ghost use Rattle.hpr_terms.specs.Names.{stream};
ghost use Rattle.hpr_syntax.specs.Action.{assigns, writes, stores};
ghost use Rattle.hpr_syntax.specs.Body.{done, branch, loop};
ghost use Rattle.hpr_syntax.specs.BodyOf.{before};
ghost use Rattle.hpr_syntax.specs.Shape.{IsProgram};
ghost use Rattle.hpr_text.specs.Machine as machine;
ghost use Rattle.hpr_text.specs.Private.InPlace.{InPlace};

use crate::blocks::{Around, Begun, Blocks};
use crate::form::Mode;
use hpr_scan::Fault;
use hpr_syntax::{Block, IssuedDraft, Program, ShapeError, Stmt};
use hpr_terms::limits::{MAX_LEVELS, MAX_PARTS};
use hpr_terms::{Expr, Name, NoMemory, Tag};
use std::alloc::Global;
use std::marker::Model;
use std::mem;

/// Names in their order. A contract sees their list.
#[derive(Drop)]
pub struct Names {
    names: Vec<Name>,
}

impl Model for Names {
    ghost use Rattle.std.specs.Prelude.{List, ℕ};

    ghost Value = { List (List ℕ) };

    ghost view = { λ n. n.names.items };
}

impl Names {
    fn new(alloc: Global) -> Names
        ensures { result ≡ [] }
    {
        Names {
            names: Vec::new(alloc),
        }
    }

    fn push(&mut self, name: Name) -> Result<(), NoMemory>
        ensures { OnOk result (self.new ≡ self.old ++ (name ∷ [])) }
    {
        Ok(self.names.push(name)?)
    }

    /// The names.
    pub fn into_vec(self) -> Vec<Name>
        ensures { result.items ≡ self }
    {
        let Names { names } = self;
        names
    }
}

/// What was read so far.
pub struct Found {
    /// Which texts are read.
    pub mode: Mode,
    /// How many parts of an untagged text have begun.
    pub count: usize,
    /// Whether there is a header.
    pub has_header: bool,
    /// The numbers of the header's pairs, or of the tags where there is no header.
    pub issued: IssuedDraft,
    /// The blocks that have begun.
    pub blocks: Blocks,
    /// The parts of the innermost one, or at the top.
    pub parts: Block,
    /// The names of `end`.
    pub names: Names,
}

/// All of it is dropped in one call.
impl Drop for Found {
    fn drop(self) {
        let Found {
            mode: _,
            count: _,
            has_header: _,
            issued: _,
            blocks: _,
            parts: _,
            names: _,
        } = self;
    }
}

/// One more part stands behind these, unless more have begun than a program may have.
#[tactic(auto, using(crate::proofs::Parts::pushed_body))]
fn push_kept(parts: &mut Block, begun: usize, part: Stmt) -> Result<(), NoMemory>
    ensures { OnOk result (parts.new ≡ machine.then_kept (machine.keeps machine.limit begun) parts.old
        (before part done)) }
{
    if begun <= MAX_PARTS {
        parts.stmts.push(part)?;
    }
    Ok(())
}

impl Found {
    /// Nothing was read.
    pub fn new(alloc: Global, mode: Mode) -> Found
        ensures { result ≡ machine.nothing_found mode }
    {
        Found {
            mode,
            count: 0,
            has_header: false,
            issued: IssuedDraft::new(alloc),
            blocks: Blocks::new(alloc),
            parts: Block::new(Vec::new(alloc)),
            names: Names::new(alloc),
        }
    }

    /// The author's number is raised to the serial.
    pub fn raise(&mut self, author: u32, serial: u32) -> Result<(), NoMemory>
        requires { 1 ≤ serial }
        ensures { OnOk result (self.new ≡ machine.with_number author serial self.old) }
    {
        self.issued.raise(author, serial)
    }

    /// The number of the tag's author is raised to the tag's serial, unless there is a header.
    pub fn issue(&mut self, tag: Tag) -> Result<(), NoMemory>
        requires { 1 ≤ tag.serial }
        ensures { OnOk result (self.new ≡ machine.with_tag tag self.old) }
    {
        if self.has_header {
            Ok(())
        } else {
            self.raise(tag.author, tag.serial)
        }
    }

    /// Whether one more block may stand in the open ones.
    pub fn has_room(&self) -> bool
        ensures { result ≡ nat_lt (length self.now.blocks) MAX_LEVELS }
    {
        self.blocks.len() < MAX_LEVELS
    }

    /// Whether a part without a tag can begin.
    pub fn can_begin(&self) -> bool
        ensures { result ≡ is_some (machine.part_begun machine.limit self.now) }
    {
        match self.mode {
            Mode::Tagged => false,
            Mode::Untagged(_) => self.has_room(),
        }
    }

    /// A part without a tag begins, and gets one. `Refused` comes exactly where it cannot begin.
    pub fn begin(&mut self) -> Result<Tag, Fault>
        ensures { InPlace (λ tag. (self.new, tag)) (machine.part_begun machine.limit self.old) result }
    {
        let Mode::Untagged(author) = self.mode else {
            return Err(Fault::Refused);
        };
        if !self.has_room() {
            return Err(Fault::Refused);
        }
        self.count = self.count.saturating_add(1);
        // the parts past those that are kept have the last serial
        let serial = self.count.min(MAX_PARTS) as u32;
        let tag = Tag { author, serial };
        self.issue(tag)?;
        Ok(tag)
    }

    /// The part stands behind the others, unless more have begun than a program may have.
    fn add_stmt(&mut self, part: Stmt) -> Result<(), NoMemory>
        ensures { OnOk result (self.new ≡ machine.with_parts machine.limit self.old.parts (before part done) self.old) }
    {
        push_kept(&mut self.parts, self.count, part)
    }

    /// One more part, an assignment, unless more have begun than a program may have.
    pub fn add_assignment(&mut self, tag: Tag, name: Name, value: Expr) -> Result<(), NoMemory>
        ensures { OnOk result (self.new ≡ machine.with_part machine.limit tag (assigns name value) self.old) }
    {
        self.add_stmt(Stmt::Assign(tag, name, value))
    }

    /// One more part, a write, unless more have begun than a program may have.
    pub fn add_write(&mut self, alloc: Global, tag: Tag, value: Expr) -> Result<(), NoMemory>
        ensures { OnOk result (self.new ≡ machine.with_part machine.limit tag (writes stream value) self.old) }
    {
        let stream = Name::stream(alloc)?;
        self.add_stmt(Stmt::Write(tag, stream, value))
    }

    /// One more part, a store, unless more have begun than a program may have.
    pub fn add_store(
        &mut self,
        tag: Tag,
        array: Name,
        index: Expr,
        value: Expr,
    ) -> Result<(), NoMemory>
        ensures { OnOk result (self.new ≡ machine.with_part machine.limit tag (stores array index value) self.old) }
    {
        self.add_stmt(Stmt::Store(tag, array, index, value))
    }

    /// Takes the parts of the innermost block.
    fn take_parts(&mut self, alloc: Global) -> Block
        ensures parts { result ≡ self.old.parts }
        ensures rest { self.new ≡ record self.old { parts = done } }
    {
        mem::replace(&mut self.parts, Block::new(Vec::new(alloc)))
    }

    /// A block begins, and the parts so far stand before the part that has it.
    fn around(&mut self, alloc: Global, tag: Tag, test: Expr) -> Around
        ensures around { result ≡ machine.around tag test self.old }
        ensures rest { self.new ≡ record self.old { parts = done } }
    {
        let before = self.take_parts(alloc);
        Around { before, tag, test }
    }

    /// The first block of a conditional begins.
    pub fn begin_then(&mut self, alloc: Global, tag: Tag, test: Expr) -> Result<(), NoMemory>
        ensures { OnOk result (self.new ≡ machine.in_then tag test self.old) }
    {
        let around = self.around(alloc, tag, test);
        self.blocks.push(Begun::Then(around))
    }

    /// The block of a loop begins.
    pub fn begin_loop(&mut self, alloc: Global, tag: Tag, test: Expr) -> Result<(), NoMemory>
        ensures { OnOk result (self.new ≡ machine.in_loop tag test self.old) }
    {
        let around = self.around(alloc, tag, test);
        self.blocks.push(Begun::Loop(around))
    }

    /// The second block of a conditional begins. `Refused` comes exactly where it cannot.
    pub fn turn_to_else(&mut self, alloc: Global) -> Result<(), Fault>
        ensures { InPlace (λ _. self.new) (machine.else_found self.old) result }
    {
        match self.blocks.pop() {
            Some(Begun::Then(around)) => {
                let yes = self.take_parts(alloc);
                self.blocks.push(Begun::Else(around, yes))?;
                Ok(())
            }
            _ => Err(Fault::Refused),
        }
    }

    /// A conditional ends. `Refused` comes exactly where it cannot.
    pub fn end_conditional(&mut self, alloc: Global) -> Result<(), Fault>
        ensures { InPlace (λ _. self.new) (machine.fi_found machine.limit self.old) result }
    {
        match self.blocks.pop() {
            Some(Begun::Then(around)) => {
                let yes = self.take_parts(alloc);
                self.end_branches(around, yes, Block::new(Vec::new(alloc)))?;
                Ok(())
            }
            Some(Begun::Else(around, yes)) => {
                let no = self.take_parts(alloc);
                self.end_branches(around, yes, no)?;
                Ok(())
            }
            _ => Err(Fault::Refused),
        }
    }

    /// The conditional of these blocks stands behind the parts before it.
    fn end_branches(&mut self, around: Around, yes: Block, no: Block) -> Result<(), NoMemory>
        ensures { OnOk result (self.new ≡ machine.block_ended machine.limit self.old.blocks around.before
            (branch around.tag around.test yes no done) self.old) }
    {
        let (before, tag, test) = around.into_parts();
        self.parts = before;
        self.add_stmt(Stmt::If(tag, test, yes, no))
    }

    /// A loop ends. `Refused` comes exactly where it cannot.
    pub fn end_loop(&mut self) -> Result<(), Fault>
        ensures { InPlace (λ _. self.new) (machine.od_found machine.limit self.old) result }
    {
        match self.blocks.pop() {
            Some(Begun::Loop(around)) => {
                self.end_rounds(around)?;
                Ok(())
            }
            _ => Err(Fault::Refused),
        }
    }

    /// The loop of the parts so far stands behind the parts before it.
    fn end_rounds(&mut self, around: Around) -> Result<(), NoMemory>
        ensures { OnOk result (self.new ≡ machine.block_ended machine.limit self.old.blocks around.before
            (loop around.tag around.test self.old.parts done) self.old) }
    {
        let (before, tag, test) = around.into_parts();
        let body = mem::replace(&mut self.parts, before);
        self.add_stmt(Stmt::While(tag, test, body))
    }

    /// One more name of `end`.
    pub fn add_name(&mut self, name: Name) -> Result<(), NoMemory>
        ensures { OnOk result (self.new ≡ machine.with_name name self.old) }
    {
        self.names.push(name)
    }

    /// The program of the issued numbers, the parts and the names of `end`, if it is one, and no
    /// more parts have begun than one may have.
    pub fn into_program(self, alloc: Global) -> Result<Program, ShapeError>
        ensures tree { IfOk result (λ p. p ≡ machine.tree_of self) }
        ensures few { IfOk result (λ p. self.count ≤ MAX_PARTS) }
        ensures program { IfOk result (λ p. IsProgram p) }
        ensures shape { IfErr result (λ e. e ≢ ShapeError.Memory → machine.shape_of self ≡ Some e) }
    {
        let begun = self.count;
        if begun > MAX_PARTS {
            return Err(ShapeError::TooManyParts(begun));
        }
        let Found {
            mode: _,
            count: _,
            has_header: _,
            issued,
            blocks: _,
            parts,
            names,
        } = self;
        Program::new(alloc, issued.finish()?, parts, names.into_vec())
    }
}
