//! The editor: a program that commands change, and the inverses that take them back.
ghost use Rattle.std.specs.Prelude.{◌≡◌, ◌≢◌, ◌≤◌, [], IfOk, IfErr, OnOk, OnErr};
ghost use Rattle.hpr_syntax.specs.Body.{done};
ghost use Rattle.hpr_syntax.specs.Tree.{Tree};
ghost use Rattle.hpr_edit.specs.Edited.{edited, becomes, refused};
ghost use Rattle.hpr_edit.specs.Reverted.{reverted, Undoes, IsPutBackIssued};

use crate::apply::edited;
use crate::command::{Command, EditError, Inverse};
use crate::revert::reverted;
use hpr_syntax::{Block, Issued, NoMemory, Program};
use std::alloc::Global;
use std::marker::Model;
use std::mem;

/// A program that is changed by commands, and the author of the new parts.
///
/// A contract sees the two. Tags are issued for good: no command and no revert makes an author's
/// issued number less.
#[derive(Drop)]
pub struct Editor {
    program: Program,
    author: u32,
}

impl Model for Editor {
    ghost use Rattle.hpr_edit.specs.Editing.{Editing, editing_coded};
    ghost use Rattle.hpr_syntax.specs.Tree.{Tree};
    ghost use Rattle.hpr_syntax.specs.Shape.{IsProgram};
    ghost use Rattle.std.specs.Prelude.{◌≤◌};

    ghost Value = { Editing };

    ghost coded = { editing_coded };

    ghost view = { λ e. record { program = e.program; author = e.author } };

    ghost invariant = { λ e. 1 ≤ e.author };
}

impl Editor {
    /// Edits a program. New parts are this author's, which is at least 1. It takes no memory.
    pub fn start(program: Program, author: u32) -> Editor
        requires { 1 ≤ author }
        ensures { result ≡ record { program = program; author = author } }
    {
        Editor { program, author }
    }

    /// The program as it is now.
    pub fn program(&self) -> &Program
        ensures { result.now ≡ self.now.program }
    {
        &self.program
    }

    /// Carries out a command, and answers what takes it back.
    ///
    /// It is refused exactly by the first of [`EditError`]'s causes that holds, in their order, or for
    /// want of memory, and the editor is then as it was. It changes the program in place, and takes time in
    /// proportion to the number of parts and to what it takes out or puts in, and an author's first part to
    /// the number of authors. An insert and a move ask for room for all parts, and give back what isn't used.
    pub fn apply(&mut self, alloc: Global, command: &Command) -> Result<Inverse, EditError>
        ensures edited { IfOk result (λ i. edited self.old.program command.now self.old.author
            ≡ becomes self.new.program i) }
        ensures undoes { IfOk result (λ i. Undoes self.old.program i self.new.program) }
        ensures issued { IfOk result (λ i. IsPutBackIssued i self.new.program) }
        ensures refused { IfErr result (λ e. e ≢ EditError.Memory
            → edited self.old.program command.now self.old.author ≡ refused e) }
        ensures unchanged { OnErr result (self.new ≡ self.old) }
        ensures author { self.new.author ≡ self.old.author }
    {
        let program = mem::replace(&mut self.program, nothing(alloc));
        let (program, made) = edited(alloc, program, command, self.author);
        self.program = program;
        made
    }

    /// Takes a command back: body and finals are those of before the command. Issued numbers stay.
    ///
    /// The inverse has to be that of some command which left the body and the finals that the program
    /// has now, and each tag that it puts back has to be issued by now, as it is right after the
    /// command. It fails only for want of memory. Then it hands the inverse back, and the editor is as
    /// it was.
    pub fn revert(&mut self, alloc: Global, inverse: Inverse) -> Result<(), Inverse>
        requires undoes { (old : Tree) × Undoes old inverse self.old.program }
        requires issued { IsPutBackIssued inverse self.old.program }
        ensures reverted { OnOk result (self.new.program ≡ reverted inverse self.old.program) }
        ensures body { OnOk result ((old : Tree) → Undoes old inverse self.old.program
            → self.new.program.body ≡ old.body) }
        ensures finals { OnOk result ((old : Tree) → Undoes old inverse self.old.program
            → self.new.program.finals ≡ old.finals) }
        ensures numbers { OnOk result (self.new.program.issued ≡ self.old.program.issued) }
        ensures back { IfErr result (λ i. i ≡ inverse) }
        ensures unchanged { OnErr result (self.new ≡ self.old) }
        ensures author { self.new.author ≡ self.old.author }
    {
        match self.take_back(alloc, &inverse) {
            Ok(()) => {
                drop(inverse);
                Ok(())
            }
            Err(_) => Err(inverse),
        }
    }

    /// Takes a command back, and leaves the inverse to the caller.
    fn take_back(&mut self, alloc: Global, inverse: &Inverse) -> Result<(), NoMemory>
        requires undoes { (old : Tree) × Undoes old inverse.now self.old.program }
        requires issued { IsPutBackIssued inverse.now self.old.program }
        ensures reverted { OnOk result (self.new.program ≡ reverted inverse.now self.old.program) }
        ensures unchanged { OnErr result (self.new ≡ self.old) }
        ensures author { self.new.author ≡ self.old.author }
    {
        self.program = reverted(alloc, &self.program, inverse)?;
        Ok(())
    }

    /// The program, given back. It takes no memory.
    pub fn close(self) -> Program
        ensures { result ≡ self.program }
    {
        let Editor { program, .. } = self;
        program
    }
}

/// The program with no parts. It takes no memory.
fn nothing(alloc: Global) -> Program
    ensures { result ≡ record { issued = []; body = done; finals = [] } }
{
    Program::from_parts(
        Issued::new(alloc),
        Block::new(Vec::new(alloc)),
        Vec::new(alloc),
    )
}
