//! Programs.
ghost use Rattle.std.specs.Prelude.{◌≡◌, ◌↔◌, IsTrue, [], ◌∷◌, ◌++◌, IfOk, OnOk, length, None, Some, ◌<◌, ◌≤◌, IfErr, ◌≢◌};
ghost use Rattle.std.specs.Option.{option_copied};
ghost use Rattle.std.proofs.Common.{rules};
ghost use Rattle.std.specs.Cmp.Rules.{comparing};
ghost use Rattle.std.specs.Ordering.{as_partial_cmp};
ghost use Rattle.hpr_terms.specs.declared.limits.TheConstants.{MAX_PARTS};
ghost use Rattle.hpr_syntax.specs.Body.{part_count};
ghost use Rattle.hpr_syntax.specs.Parts.{find_stmt};
ghost use Rattle.hpr_syntax.specs.Rows.{rows_of};
ghost use Rattle.hpr_syntax.specs.Tree.{Tree};
ghost use Rattle.hpr_syntax.specs.Shape.{IsProgram, shape};
ghost use Rattle.hpr_syntax.specs.Comparisons.{same_tree, tree_cmp, tree_total, tree_ties, tree_equiv, tree_per, tree_po};

use crate::issued::Issued;
use crate::proper::read_tree;
use crate::rows::{Row, preorder};
use crate::shape::{ShapeError, refusal};
use crate::tree::{Block, Stmt};
use hpr_terms::{Name, NoMemory, Tag, copy_names};
use std::alloc::Global;
use std::cmp::Ordering;
use std::marker::Model;

/// A program: its issued numbers, its body, and the names of `end` in their order.
///
/// A contract sees it as the plain tree of the three. Its names are names, its numbers are in
/// range, and it has none of the faults that [`ShapeError`] names. Programs compare by the three in
/// order.
pub struct Program {
    issued: Issued,
    body: Block,
    finals: Vec<Name>,
}

// By hand, so that each way out of a function that holds a program is one call.
impl Drop for Program {
    fn drop(self) {
        let Program {
            issued: _,
            body: _,
            finals: _,
        } = self;
    }
}

impl Model for Program {
    ghost use Rattle.hpr_syntax.specs.Tree.{Tree, tree_coded};
    ghost use Rattle.hpr_syntax.specs.Shape.{IsProgram};

    ghost Value = { Tree };

    ghost coded = { tree_coded };

    ghost view = { λ p. record { issued = p.issued; body = p.body; finals = p.finals.items } };

    ghost invariant = { λ p. IsProgram (record { issued = p.issued; body = p.body; finals = p.finals.items }) };
}

impl Program {
    /// The program of these three, if it is one: the first refusal that holds is the answer.
    pub fn new(
        alloc: Global,
        issued: Issued,
        body: Block,
        finals: Vec<Name>,
    ) -> Result<Program, ShapeError>
        ensures program { IfOk result (λ p. p ≡ record { issued = issued; body = body; finals = finals.items }) }
        ensures shape { IfOk result (λ p. IsProgram (record { issued = issued; body = body; finals = finals.items })) }
        ensures refused { IfErr result (λ e. e ≢ ShapeError.Memory
            → shape (record { issued = issued; body = body; finals = finals.items }) ≡ Some e) }
    {
        match refusal(alloc, &issued, &body, &finals)? {
            Some(error) => Err(error),
            None => {
                read_tree(&issued, &body, &finals);
                Ok(Program {
                    issued,
                    body,
                    finals,
                })
            }
        }
    }

    /// The program of these three, where the caller knows that they make one.
    pub fn from_parts(issued: Issued, body: Block, finals: Vec<Name>) -> Program
        requires { IsProgram (record { issued = issued; body = body; finals = finals.items }) }
        ensures { result ≡ record { issued = issued; body = body; finals = finals.items } }
    {
        Program {
            issued,
            body,
            finals,
        }
    }

    /// The three, given back.
    pub fn into_parts(self) -> (Issued, Block, Vec<Name>)
        ensures parts { self ≡ record { issued = result.0; body = result.1; finals = result.2.items } }
        ensures program { IsProgram self }
    {
        let Program {
            issued,
            body,
            finals,
        } = self;
        (issued, body, finals)
    }

    /// The issued numbers.
    pub fn issued(&self) -> &Issued
        ensures issued { result.now ≡ self.now.issued }
        ensures program { IsProgram self.now }
    {
        &self.issued
    }

    /// The body.
    pub fn body(&self) -> &Block
        ensures body { result.now ≡ self.now.body }
        ensures program { IsProgram self.now }
    {
        &self.body
    }

    /// The names of `end` in their order.
    pub fn finals(&self) -> &[Name]
        ensures finals { result.now ≡ self.now.finals }
        ensures program { IsProgram self.now }
    {
        &self.finals
    }

    /// How many parts the program has.
    #[tactic(auto, using(crate::proofs::PartBound::few_parts))]
    pub fn part_count(&self) -> usize
        ensures count { result ≡ part_count self.now.body }
        ensures few { result ≤ MAX_PARTS }
    {
        self.body.part_count()
    }

    /// The part with this tag, or none where no part has it.
    pub fn find(&self, tag: Tag) -> Option<&Stmt>
        ensures { option_copied result ≡ find_stmt tag self.now.body }
    {
        self.body.find(tag)
    }

    /// The rows of the parts in preorder.
    pub fn preorder(&self, alloc: Global) -> Result<Vec<Row>, NoMemory>
        ensures { IfOk result (λ rows. rows.items ≡ rows_of None 0 self.now.body) }
    {
        preorder(alloc, &self.body)
    }

    /// Whether two programs are the same: their issued numbers, their bodies and their final names.
    #[tactic(auto, using(crate::proofs::Same::tree_equal))]
    pub fn is_same(&self, other: &Program) -> bool
        ensures { IsTrue result ↔ (self.now ≡ other.now) }
    {
        self == other
    }

    /// A copy.
    pub fn copy(&self, alloc: Global) -> Result<Program, NoMemory>
        ensures { IfOk result (λ p. p ≡ self.now) }
    {
        Ok(Program {
            issued: self.issued.copy(alloc)?,
            body: self.body.copy(alloc)?,
            finals: copy_names(alloc, &self.finals)?,
        })
    }
}

impl PartialEq for Program {
    ghost eq = { same_tree };

    ghost laws = { tree_per };

    fn eq(&self, other: &Program) -> bool {
        self.issued == other.issued && self.body == other.body && self.finals == other.finals
    }
}

impl Eq for Program {
    ghost laws = { tree_equiv };
}

impl Ord for Program {
    ghost cmp = { tree_cmp };

    ghost total = { tree_total };

    ghost matches_partial_cmp = { Prim.search (comparing, rules) };

    ghost matches_eq = { tree_ties };

    fn cmp(&self, other: &Program) -> Ordering {
        self.issued
            .cmp(&other.issued)
            .then_with(|| self.body.cmp(&other.body))
            .then_with(|| self.finals.cmp(&other.finals))
    }
}

impl PartialOrd for Program {
    ghost partial_cmp = { as_partial_cmp tree_cmp };

    ghost laws = { tree_po };

    fn partial_cmp(&self, other: &Program) -> Option<Ordering> {
        Some(self.cmp(other))
    }
}
