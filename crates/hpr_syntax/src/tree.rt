//! Statements and blocks. A contract sees a block as a plain tree, down to the leaves.
//!
//! A block by itself may be deeper than a program allows. What goes down its levels ends on any of
//! them, but the stack that it takes is outside what is proved.
ghost use Rattle.std.specs.Prelude.{◌≡◌, ◌↔◌, ℕ, ◌≤◌, ◌+◌, ◌^◌, ◌<◌, IfOk, IsTrue, length, OnOk, ◌++◌};
ghost use Rattle.std.specs.Option.{option_copied};
ghost use Rattle.hpr_syntax.specs.Contents.{UsesIn};
ghost use Rattle.hpr_syntax.specs.Rows.{content_of};
ghost use Rattle.std.proofs.Common.{rules, ◌==◌};
ghost use Rattle.std.specs.Cmp.Rules.{comparing};
ghost use Rattle.std.specs.Cmp.Lexicographic.{pointwise, slice_cmp};
ghost use Rattle.std.specs.Ordering.{nat_cmp, as_partial_cmp, on};
ghost use Rattle.hpr_syntax.specs.Body.{Body, done, part_count};
ghost use Rattle.hpr_syntax.specs.BodyOrder.{block_code};
ghost use Rattle.hpr_syntax.specs.BodyOf.{body_of, before};
ghost use Rattle.hpr_syntax.specs.Parts.{tag_of, find_stmt, expr_of, index_of, defines};

use hpr_terms::{Expr, Name, NoMemory, Tag};
use std::alloc::Global;
use std::cmp::Ordering;
use std::marker::Model;

/// The parts that stand one after another in one place: at the top, in a branch or in a loop.
///
/// Blocks compare by their statements in order, the shorter first where it begins the longer.
#[cycle(tree)]
pub struct Block {
    pub stmts: Vec<Stmt>,
}

/// A part and what stands in it.
#[cycle(tree)]
#[derive(PartialEq, Eq, PartialOrd, Ord)]
pub enum Stmt {
    /// The name takes the value.
    Assign(Tag, Name, Expr),
    /// The first block where the test holds, and else the second.
    If(Tag, Expr, Block, Block),
    /// The block again and again while the test holds.
    While(Tag, Expr, Block),
    /// The number goes behind those that were written to the stream, which the name is.
    Write(Tag, Name, Expr),
    /// The element of the array, which the name is, at the index that the first expression gives takes the value of
    /// the second.
    Store(Tag, Name, Expr, Expr),
}

// By hand, so that each way out of a function that holds a block is one call, proved here.
impl Drop for Block {
    #[cycle(tree_drop)]
    fn drop(self) {
        let Block { stmts: _ } = self;
    }
}

// By hand, so that each way out of a function that holds a part is one call, proved here.
impl Drop for Stmt {
    #[cycle(tree_drop)]
    fn drop(self) {
        match self {
            Stmt::Assign(_, _, _) => {}
            Stmt::If(_, _, _, _) => {}
            Stmt::While(_, _, _) => {}
            Stmt::Write(_, _, _) => {}
            Stmt::Store(_, _, _, _) => {}
        }
    }
}

impl Model for Block {
    ghost use Rattle.hpr_syntax.specs.Body.{Body, depth};
    ghost use Rattle.hpr_syntax.specs.Private.BodyCode.{body_coded};

    ghost Value = { Body };

    ghost coded = { body_coded };

    ghost use Rattle.hpr_syntax.specs.BodyOf.{body_of};

    ghost view = { λ b. body_of b.stmts.items };

    ghost size = { depth };

    ghost use Rattle.hpr_syntax.specs.Private.BodyFalls.{depth_falls};

    ghost size_decreases = { λ b h. depth_falls b.stmts.items };
}

impl Block {
    /// The block of these statements.
    pub fn new(stmts: Vec<Stmt>) -> Block
        ensures { result ≡ body_of stmts.items }
    {
        Block { stmts }
    }

    /// The statements.
    pub fn stmts(&self) -> &Vec<Stmt>
        ensures { self.now ≡ body_of result.now.items }
    {
        &self.stmts
    }

    /// The statements, given back.
    pub fn into_stmts(self) -> Vec<Stmt>
        ensures { self ≡ body_of result.items }
    {
        let Block { stmts } = self;
        stmts
    }
}

impl Block {
    /// How many parts stand in the block.
    #[cycle(part_count)]
    pub fn part_count(&self) -> usize
        requires { part_count self.now < 2 ^ 32 }
        ensures { result ≡ part_count self.now }
    {
        let mut count = 0;
        for stmt in &self.stmts {
            count += stmt.part_count();
        }
        count
    }

    /// The statement with this tag, if there is one: the first in preorder.
    #[cycle(find)]
    pub fn find(&self, tag: Tag) -> Option<&Stmt>
        ensures { option_copied result ≡ find_stmt tag self.now }
    {
        for stmt in &self.stmts {
            if let Some(found) = stmt.find(tag) {
                return Some(found);
            }
        }
        None
    }

    /// A copy.
    #[cycle(copy)]
    pub fn copy(&self, alloc: Global) -> Result<Block, NoMemory>
        ensures { IfOk result (λ b. b ≡ self.now) }
    {
        let mut stmts = Vec::new(alloc);
        for stmt in &self.stmts {
            stmts.push(stmt.copy(alloc)?)?;
        }
        Ok(Block { stmts })
    }
}

impl Stmt {
    /// How many parts stand in the statement, itself included.
    #[cycle(part_count)]
    pub fn part_count(&self) -> usize
        requires { part_count (before self.now done) < 2 ^ 32 }
        ensures { result ≡ part_count (before self.now done) }
    {
        match self {
            Stmt::If(_, _, yes, no) => yes.part_count() + no.part_count() + 1,
            Stmt::While(_, _, body) => body.part_count() + 1,
            _ => 1,
        }
    }

    /// The part's tag.
    pub fn tag(&self) -> Tag
        ensures { result ≡ tag_of self.now }
    {
        match self {
            Stmt::Assign(tag, _, _) => *tag,
            Stmt::If(tag, _, _, _) => *tag,
            Stmt::While(tag, _, _) => *tag,
            Stmt::Write(tag, _, _) => *tag,
            Stmt::Store(tag, _, _, _) => *tag,
        }
    }

    /// The statement with this tag in this one.
    #[cycle(find)]
    pub fn find(&self, tag: Tag) -> Option<&Stmt>
        ensures { option_copied result ≡ find_stmt tag (before self.now done) }
    {
        if self.tag() == tag {
            return Some(self);
        }
        match self {
            Stmt::If(_, _, yes, no) => match yes.find(tag) {
                Some(found) => Some(found),
                None => no.find(tag),
            },
            Stmt::While(_, _, body) => body.find(tag),
            _ => None,
        }
    }

    /// A copy.
    #[cycle(copy)]
    pub fn copy(&self, alloc: Global) -> Result<Stmt, NoMemory>
        ensures { IfOk result (λ s. s ≡ self.now) }
    {
        match self {
            Stmt::Assign(tag, name, value) => assignment(alloc, *tag, name, value),
            Stmt::If(tag, test, yes, no) => {
                let yes = yes.copy(alloc)?;
                let no = no.copy(alloc)?;
                conditional(alloc, *tag, test, yes, no)
            }
            Stmt::While(tag, test, body) => {
                let body = body.copy(alloc)?;
                repetition(alloc, *tag, test, body)
            }
            Stmt::Write(tag, name, value) => writing(alloc, *tag, name, value),
            Stmt::Store(tag, array, index, value) => storing(alloc, *tag, array, index, value),
        }
    }
}

/// The assignment with copies of the name and the value.
fn assignment(alloc: Global, tag: Tag, name: &Name, value: &Expr) -> Result<Stmt, NoMemory>
    ensures { IfOk result (λ s. s ≡ Stmt.Assign tag name.now value.now) }
{
    let name = name.copy(alloc)?;
    let value = value.copy(alloc)?;
    Ok(Stmt::Assign(tag, name, value))
}

/// The write with copies of the name and the value.
fn writing(alloc: Global, tag: Tag, name: &Name, value: &Expr) -> Result<Stmt, NoMemory>
    ensures { IfOk result (λ s. s ≡ Stmt.Write tag name.now value.now) }
{
    let name = name.copy(alloc)?;
    let value = value.copy(alloc)?;
    Ok(Stmt::Write(tag, name, value))
}

/// The store with copies of the array's name, the index and the value.
fn storing(
    alloc: Global,
    tag: Tag,
    array: &Name,
    index: &Expr,
    value: &Expr,
) -> Result<Stmt, NoMemory>
    ensures { IfOk result (λ s. s ≡ Stmt.Store tag array.now index.now value.now) }
{
    let array = array.copy(alloc)?;
    let index = index.copy(alloc)?;
    let value = value.copy(alloc)?;
    Ok(Stmt::Store(tag, array, index, value))
}

/// The conditional of these blocks, with a copy of the test.
fn conditional(
    alloc: Global,
    tag: Tag,
    test: &Expr,
    yes: Block,
    no: Block,
) -> Result<Stmt, NoMemory>
    ensures { IfOk result (λ s. s ≡ Stmt.If tag test.now yes no) }
{
    let test = test.copy(alloc)?;
    Ok(Stmt::If(tag, test, yes, no))
}

/// The loop of this block, with a copy of the test.
fn repetition(alloc: Global, tag: Tag, test: &Expr, body: Block) -> Result<Stmt, NoMemory>
    ensures { IfOk result (λ s. s ≡ Stmt.While tag test.now body) }
{
    let test = test.copy(alloc)?;
    Ok(Stmt::While(tag, test, body))
}

/// The expression of a part: the value that it assigns, writes or stores, or what it tests.
pub fn expr_of(stmt: &Stmt) -> &Expr
    ensures { result.now ≡ expr_of stmt.now }
{
    match stmt {
        Stmt::Assign(_, _, value) => value,
        Stmt::If(_, test, _, _) => test,
        Stmt::While(_, test, _) => test,
        Stmt::Write(_, _, value) => value,
        Stmt::Store(_, _, _, value) => value,
    }
}

/// The expression of a store that gives the index; other parts have none.
pub fn index_of(stmt: &Stmt) -> Option<&Expr>
    ensures { option_copied result ≡ index_of stmt.now }
{
    match stmt {
        Stmt::Store(_, _, index, _) => Some(index),
        _ => None,
    }
}

/// The name that a part defines: an assignment its variable, a write the stream, a store its array, a predicate none.
pub fn defines(stmt: &Stmt) -> Option<&Name>
    ensures { option_copied result ≡ defines stmt.now }
{
    match stmt {
        Stmt::Assign(_, name, _) => Some(name),
        Stmt::If(_, _, _, _) => None,
        Stmt::While(_, _, _) => None,
        Stmt::Write(_, name, _) => Some(name),
        Stmt::Store(_, array, _, _) => Some(array),
    }
}

/// Whether a part uses this name: in its expressions, as the stream that it writes, or as the array into which it
/// stores.
pub fn uses(stmt: &Stmt, name: &Name) -> bool
    ensures { IsTrue result ↔ UsesIn (content_of stmt.now) name.now }
{
    match stmt {
        Stmt::Assign(_, _, value) => value.uses(name),
        Stmt::If(_, test, _, _) => test.uses(name),
        Stmt::While(_, test, _) => test.uses(name),
        Stmt::Write(_, stream, value) => value.uses(name) || name.is_same(stream),
        Stmt::Store(_, array, index, value) => {
            index.uses(name) || value.uses(name) || name.is_same(array)
        }
    }
}

impl PartialEq for Block {
    ghost eq = { on block_code (pointwise ◌==◌) };

    ghost laws = { Prim.search (comparing, rules) };

    #[cycle(tree_eq)]
    fn eq(&self, other: &Block) -> bool {
        self.stmts == other.stmts
    }
}

impl Eq for Block {
    ghost laws = { Prim.search (comparing, rules) };
}

impl Ord for Block {
    ghost cmp = { on block_code (slice_cmp nat_cmp) };

    ghost total = { Prim.search (comparing, rules) };

    ghost matches_partial_cmp = { Prim.search (comparing, rules) };

    ghost matches_eq = { Prim.search (comparing, rules) };

    #[cycle(tree_ord)]
    fn cmp(&self, other: &Block) -> Ordering {
        self.stmts.cmp(&other.stmts)
    }
}

impl PartialOrd for Block {
    ghost partial_cmp = { as_partial_cmp (on block_code (slice_cmp nat_cmp)) };

    ghost laws = { Prim.search (comparing, rules) };

    #[cycle(tree_partial)]
    fn partial_cmp(&self, other: &Block) -> Option<Ordering> {
        self.stmts.partial_cmp(&other.stmts)
    }
}
