//! Commands, what takes them back, and why they are refused.
//!
//! Commands change a tree, and the editor keeps the tags: Horwitz, Prins and Reps 1989 suppose such an
//! editor, and leave its commands open.
ghost use Rattle.std.specs.Prelude.{◌≡◌, [], ◌∷◌, ◌++◌, OnErr, OnOk};
ghost use Rattle.std.proofs.Common.{rules, ◌==◌};
ghost use Rattle.std.specs.Cmp.Rules.{comparing};
ghost use Rattle.std.specs.Cmp.Lexicographic.{pointwise};

use hpr_syntax::{Content, NoMemory, ShapeError, Stmt};
use hpr_terms::{Name, Tag};
use std::marker::Model;

/// A block of a program, and a place in it.
#[derive(Clone, Copy)]
pub struct Place {
    /// The part whose block it is. The bool is true for a loop's body and for the first block of a
    /// conditional, and false for its second. The top block has none.
    pub parent: Option<(Tag, bool)>,
    /// The place in the block: 0 is before its first part, and the number of its parts after its last.
    pub at: usize,
}

/// The names of `end` in their order. A contract sees their list.
pub struct FinalNames {
    names: Vec<Name>,
}

/// All of it is dropped in one call.
impl Drop for FinalNames {
    fn drop(self) {
        let FinalNames { names: _ } = self;
    }
}

impl Model for FinalNames {
    ghost use Rattle.std.specs.Prelude.{List, ℕ};

    ghost Value = { List (List ℕ) };

    ghost view = { λ n. n.names.items };
}

impl FinalNames {
    /// These names.
    pub fn new(names: Vec<Name>) -> FinalNames
        ensures { result ≡ names.items }
    {
        FinalNames { names }
    }

    /// The names.
    pub fn names(&self) -> &[Name]
        ensures { result.now ≡ self.now }
    {
        &self.names
    }

    /// One more name, behind these. Without memory they stay as they are.
    pub fn push(&mut self, name: Name) -> Result<(), NoMemory>
        ensures ok { OnOk result (self.new ≡ self.old ++ (name ∷ [])) }
        ensures err { OnErr result (self.new ≡ self.old) }
    {
        self.names.push(name)?;
        Ok(())
    }

    /// The names, given back.
    pub fn into_names(self) -> Vec<Name>
        ensures { result.items ≡ self }
    {
        let FinalNames { names } = self;
        names
    }
}

impl PartialEq for FinalNames {
    ghost eq = { pointwise (pointwise ◌==◌) };

    ghost laws = { Prim.search (comparing, rules) };

    fn eq(&self, other: &FinalNames) -> bool {
        self.names == other.names
    }
}

impl Eq for FinalNames {
    ghost laws = { Prim.search (comparing, rules) };
}

/// One change of a program. A new part gets the next serial of the editor's author.
pub enum Command {
    /// A new part with this content stands at the place. A conditional or a loop has empty blocks.
    Insert(Place, Content),
    /// The part with this tag is gone, and all that stands in it.
    Delete(Tag),
    /// The part with all that stands in it stands at the place, which is counted after the part was
    /// taken out.
    Move(Tag, Place),
    /// The part says this. Its tag and its blocks stay.
    Set(Tag, Content),
    /// A new conditional or loop with this content stands where the part with this tag stood, and has
    /// that part alone in its first block.
    Wrap(Tag, Content),
    /// The parts of the first block and then those of the second stand where the conditional or loop
    /// with this tag stood.
    Unwrap(Tag),
    /// `end` names these.
    Finals(FinalNames),
}

/// All of it is dropped in one call.
impl Drop for Command {
    fn drop(self) {
        match self {
            Command::Insert(_, _) => {}
            Command::Delete(_) => {}
            Command::Move(_, _) => {}
            Command::Set(_, _) => {}
            Command::Wrap(_, _) => {}
            Command::Unwrap(_) => {}
            Command::Finals(_) => {}
        }
    }
}

/// What takes one command back.
pub enum Inverse {
    /// Of an insert: the new part goes.
    Remove(Tag),
    /// Of a delete: the part with all that stood in it stands at its old place.
    PutBack(Place, Stmt),
    /// Of a move: the part stands at its old place, which is counted without the part.
    MoveBack(Tag, Place),
    /// Of a set: the part says what it said.
    SetBack(Tag, Content),
    /// Of a wrap: what stands in the new part stands in its place.
    Lift(Tag),
    /// Of an unwrap: the part with this tag and content stands at its old place. So many of the parts
    /// from there on are its first block, and so many of those behind them its second.
    Rewrap(Place, Tag, Content, usize, usize),
    /// Of a change of finals: `end` names what it named.
    FinalsBack(FinalNames),
}

/// All of it is dropped in one call.
impl Drop for Inverse {
    fn drop(self) {
        match self {
            Inverse::Remove(_) => {}
            Inverse::PutBack(_, _) => {}
            Inverse::MoveBack(_, _) => {}
            Inverse::SetBack(_, _) => {}
            Inverse::Lift(_) => {}
            Inverse::Rewrap(_, _, _, _, _) => {}
            Inverse::FinalsBack(_) => {}
        }
    }
}

/// Why a command is refused: the first of these that holds.
#[derive(Drop)]
pub enum EditError {
    /// No part has the tag that the command names.
    NoTag(Tag),
    /// The part with this tag would be moved into itself.
    IntoItself(Tag),
    /// There is no such block, or it is too short for the place.
    NoPlace,
    /// The content is of another kind than the part; or what would be wrapped round it is neither a
    /// conditional nor a loop; or the part to be unwrapped is neither.
    KindDiffers(Tag),
    /// The author's issued number is the greatest that there is.
    SerialsSpent,
    /// The result would be no program, and this is why. It is never `ShapeError::Memory`.
    Shape(ShapeError),
    /// Memory ran out.
    Memory,
}

impl From<NoMemory> for EditError {
    ghost use Rattle.std.specs.Prelude.{◌≡◌};
    ghost use Rattle.hpr_edit.specs.declared.command.EditError.TheVariants.{Memory};

    ghost from_gives = { λ _ e. e ≡ Memory };

    fn from(_error: NoMemory) -> EditError {
        EditError::Memory
    }
}
