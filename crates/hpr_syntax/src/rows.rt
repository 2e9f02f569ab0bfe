//! The parts of a block in preorder.
ghost use Rattle.std.specs.Prelude.{◌≡◌, ◌↔◌, IsTrue, [], ◌∷◌, ◌++◌, IfOk, OnOk, length, None};
ghost use Rattle.std.specs.Option.{option_copied};
ghost use Rattle.hpr_syntax.specs.Body.{done};
ghost use Rattle.hpr_syntax.specs.BodyOf.{before};
ghost use Rattle.hpr_syntax.specs.Parts.{tag_of};
ghost use Rattle.hpr_syntax.specs.Contents.{UsesIn, used_names};
ghost use Rattle.hpr_syntax.specs.Rows.{rows_of, row_of, content_of, made, structure_of, is_simple, same_structure, assigned, expr_in, index_in};

use crate::tree::{Block, Stmt};
use hpr_terms::names::names_in;
use hpr_terms::{Expr, Name, NoMemory, Tag};
use std::alloc::Global;

/// What a part says, without its tag and without the parts that stand in it.
#[derive(PartialEq, Eq, PartialOrd, Ord)]
pub enum Content {
    /// The name takes the value.
    Assign(Name, Expr),
    /// The test of a conditional.
    If(Expr),
    /// The test of a loop.
    While(Expr),
    /// The number goes behind those that were written to the stream, which the name is.
    Write(Name, Expr),
    /// The element of the array, which the name is, at the index that the first expression gives takes the value of
    /// the second.
    Store(Name, Expr, Expr),
}

// By hand, so that each way out of a function that holds a content is one call, proved here.
impl Drop for Content {
    fn drop(self) {
        match self {
            Content::Assign(_, _) => {}
            Content::If(_) => {}
            Content::While(_) => {}
            Content::Write(_, _) => {}
            Content::Store(_, _, _) => {}
        }
    }
}

impl Content {
    /// A copy.
    pub fn copy(&self, alloc: Global) -> Result<Content, NoMemory>
        ensures { IfOk result (λ c. c ≡ self.now) }
    {
        match self {
            Content::Assign(name, value) => assigning(alloc, name, value),
            Content::If(test) => Ok(Content::If(test.copy(alloc)?)),
            Content::While(test) => Ok(Content::While(test.copy(alloc)?)),
            Content::Write(name, value) => writing(alloc, name, value),
            Content::Store(array, index, value) => storing(alloc, array, index, value),
        }
    }

    /// Which blocks a part that says this has.
    pub fn structure(&self) -> Structure
        ensures { result ≡ structure_of self.now }
    {
        match self {
            Content::Assign(_, _) => Structure::Simple,
            Content::If(_) => Structure::Conditional,
            Content::While(_) => Structure::Loop,
            Content::Write(_, _) => Structure::Simple,
            Content::Store(_, _, _) => Structure::Simple,
        }
    }

    /// The name that a part that says this defines: an assignment its variable, a write the stream, a store its array,
    /// a predicate none.
    pub fn assigned(&self) -> Option<&Name>
        ensures { option_copied result ≡ assigned self.now }
    {
        match self {
            Content::Assign(name, _) => Some(name),
            Content::If(_) => None,
            Content::While(_) => None,
            Content::Write(name, _) => Some(name),
            Content::Store(array, _, _) => Some(array),
        }
    }

    /// The expression in what a part says: the value that it assigns, writes or stores, or what it tests.
    pub fn expr(&self) -> &Expr
        ensures { result.now ≡ expr_in self.now }
    {
        match self {
            Content::Assign(_, value) => value,
            Content::If(test) => test,
            Content::While(test) => test,
            Content::Write(_, value) => value,
            Content::Store(_, _, value) => value,
        }
    }

    /// The expression of a store that gives the index; other contents have none.
    pub fn index(&self) -> Option<&Expr>
        ensures { option_copied result ≡ index_in self.now }
    {
        match self {
            Content::Store(_, index, _) => Some(index),
            _ => None,
        }
    }

    /// Whether a part that says this uses the name: in its expressions, as the stream that it writes, or as the array
    /// into which it stores.
    pub fn uses(&self, name: &Name) -> bool
        ensures { IsTrue result ↔ UsesIn self.now name.now }
    {
        match self {
            Content::Assign(_, value) => value.uses(name),
            Content::If(test) => test.uses(name),
            Content::While(test) => test.uses(name),
            Content::Write(stream, value) => value.uses(name) || name.is_same(stream),
            Content::Store(array, index, value) => {
                index.uses(name) || value.uses(name) || name.is_same(array)
            }
        }
    }

    /// The names that a part that says this uses: those of its expressions from left to right, each as often
    /// as it stands there, and then the stream that it writes or the array into which it stores.
    pub fn used_names(&self, alloc: Global) -> Result<Vec<Name>, NoMemory>
        ensures { IfOk result (λ names. names.items ≡ used_names self.now) }
    {
        match self {
            Content::Assign(_, value) => names_in(alloc, value),
            Content::If(test) => names_in(alloc, test),
            Content::While(test) => names_in(alloc, test),
            Content::Write(stream, value) => {
                let mut names = names_in(alloc, value)?;
                names.push(stream.copy(alloc)?)?;
                Ok(names)
            }
            Content::Store(array, index, value) => names_of_store(alloc, array, index, value),
        }
    }

    /// The part that says this, with this tag and these blocks, as far as it has blocks.
    pub fn into_stmt(self, tag: Tag, first: Block, second: Block) -> Stmt
        ensures { result ≡ made tag self first second }
    {
        match self {
            Content::Assign(name, value) => Stmt::Assign(tag, name, value),
            Content::If(test) => Stmt::If(tag, test, first, second),
            Content::While(test) => Stmt::While(tag, test, first),
            Content::Write(name, value) => Stmt::Write(tag, name, value),
            Content::Store(array, index, value) => Stmt::Store(tag, array, index, value),
        }
    }
}

/// What an assignment of a copy of the value to a copy of the name says.
fn assigning(alloc: Global, name: &Name, value: &Expr) -> Result<Content, NoMemory>
    ensures { IfOk result (λ c. c ≡ Content.Assign name.now value.now) }
{
    let name = name.copy(alloc)?;
    let value = value.copy(alloc)?;
    Ok(Content::Assign(name, value))
}

/// What a write of a copy of the value to the stream of this name says.
fn writing(alloc: Global, name: &Name, value: &Expr) -> Result<Content, NoMemory>
    ensures { IfOk result (λ c. c ≡ Content.Write name.now value.now) }
{
    let name = name.copy(alloc)?;
    let value = value.copy(alloc)?;
    Ok(Content::Write(name, value))
}

/// What a store of a copy of the value, at a copy of the index, into the array of this name says.
fn storing(alloc: Global, array: &Name, index: &Expr, value: &Expr) -> Result<Content, NoMemory>
    ensures { IfOk result (λ c. c ≡ Content.Store array.now index.now value.now) }
{
    let array = array.copy(alloc)?;
    let index = index.copy(alloc)?;
    let value = value.copy(alloc)?;
    Ok(Content::Store(array, index, value))
}

/// The names that a store uses.
fn names_of_store(
    alloc: Global,
    array: &Name,
    index: &Expr,
    value: &Expr,
) -> Result<Vec<Name>, NoMemory>
    ensures { IfOk result (λ names. names.items ≡ used_names (Content.Store array.now index.now value.now)) }
{
    let mut names = names_in(alloc, index)?;
    let mut of_value = names_in(alloc, value)?;
    of_value.push(array.copy(alloc)?)?;
    names.append(&mut of_value)?;
    Ok(names)
}

/// Which blocks a part has.
#[derive(Clone, Copy)]
pub enum Structure {
    /// None.
    Simple,
    /// A first and a second one.
    Conditional,
    /// One, again and again.
    Loop,
}

impl Structure {
    /// Whether a part of this structure has no blocks.
    pub fn is_simple(self) -> bool
        ensures { result ≡ is_simple self }
    {
        match self {
            Structure::Simple => true,
            Structure::Conditional => false,
            Structure::Loop => false,
        }
    }

    /// Whether two structures are the same.
    pub fn is_same(self, other: Structure) -> bool
        ensures { result ≡ same_structure self other }
    {
        match (self, other) {
            (Structure::Simple, Structure::Simple) => true,
            (Structure::Conditional, Structure::Conditional) => true,
            (Structure::Loop, Structure::Loop) => true,
            _ => false,
        }
    }
}

/// A part by itself, with where it stands.
pub struct Row {
    pub tag: Tag,
    /// The part whose block it stands in, with the branch, which is true for a conditional's first
    /// block and for a loop's body. A top part has none.
    pub parent: Option<(Tag, bool)>,
    /// The place in that block, from 0.
    pub at: usize,
    pub content: Content,
}

// By hand, so that each way out of a function that holds a row is one call, proved here.
impl Drop for Row {
    fn drop(self) {
        let Row {
            tag: _,
            parent: _,
            at: _,
            content: _,
        } = self;
    }
}

/// What a part says, without the parts that stand in it.
pub fn content_of(alloc: Global, stmt: &Stmt) -> Result<Content, NoMemory>
    ensures { IfOk result (λ c. c ≡ content_of stmt.now) }
{
    match stmt {
        Stmt::Assign(_, name, value) => assigning(alloc, name, value),
        Stmt::If(_, test, _, _) => Ok(Content::If(test.copy(alloc)?)),
        Stmt::While(_, test, _) => Ok(Content::While(test.copy(alloc)?)),
        Stmt::Write(_, name, value) => writing(alloc, name, value),
        Stmt::Store(_, array, index, value) => storing(alloc, array, index, value),
    }
}

/// Which blocks a part has.
pub fn structure_of(stmt: &Stmt) -> Structure
    ensures { result ≡ structure_of (content_of stmt.now) }
{
    match stmt {
        Stmt::Assign(_, _, _) => Structure::Simple,
        Stmt::If(_, _, _, _) => Structure::Conditional,
        Stmt::While(_, _, _) => Structure::Loop,
        Stmt::Write(_, _, _) => Structure::Simple,
        Stmt::Store(_, _, _, _) => Structure::Simple,
    }
}

/// Whether a part says this.
pub fn has_content(stmt: &Stmt, content: &Content) -> bool
    ensures { IsTrue result ↔ (content_of stmt.now ≡ content.now) }
{
    match (stmt, content) {
        (Stmt::Assign(_, name, value), Content::Assign(other_name, other)) => name.is_same(
            other_name,
        ) && value.is_same(other),
        (Stmt::If(_, test, _, _), Content::If(other)) => test.is_same(other),
        (Stmt::While(_, test, _), Content::While(other)) => test.is_same(other),
        (Stmt::Write(_, name, value), Content::Write(other_name, other)) => name.is_same(other_name)
            && value.is_same(other),
        (Stmt::Store(_, array, index, value), Content::Store(other_array, other_index, other)) => {
            array.is_same(other_array) && index.is_same(other_index) && value.is_same(other)
        }
        _ => false,
    }
}

/// Whether two contents are the same.
pub fn same_content(a: &Content, b: &Content) -> bool
    ensures { IsTrue result ↔ (a.now ≡ b.now) }
{
    match (a, b) {
        (Content::Assign(name, value), Content::Assign(other_name, other)) => name.is_same(
            other_name,
        ) && value.is_same(other),
        (Content::If(test), Content::If(other)) => test.is_same(other),
        (Content::While(test), Content::While(other)) => test.is_same(other),
        (Content::Write(name, value), Content::Write(other_name, other)) => name.is_same(other_name)
            && value.is_same(other),
        (Content::Store(array, index, value), Content::Store(other_array, other_index, other)) => {
            array.is_same(other_array) && index.is_same(other_index) && value.is_same(other)
        }
        _ => false,
    }
}

/// The rows of a block's parts in preorder.
pub fn preorder(alloc: Global, body: &Block) -> Result<Vec<Row>, NoMemory>
    ensures { IfOk result (λ rows. rows.items ≡ rows_of None 0 body.now) }
{
    let mut rows = Vec::new(alloc);
    push_block(alloc, body, None, &mut rows)?;
    Ok(rows)
}

#[cycle(push)]
fn push_block(
    alloc: Global,
    block: &Block,
    parent: Option<(Tag, bool)>,
    rows: &mut Vec<Row>,
) -> Result<(), NoMemory>
    ensures { OnOk result (rows.new.items ≡ rows.old.items ++ rows_of parent 0 block.now) }
{
    for (at, stmt) in block.stmts.iter().enumerate() {
        push_stmt(alloc, stmt, parent, at, rows)?;
    }
    Ok(())
}

#[cycle(push)]
fn push_stmt(
    alloc: Global,
    stmt: &Stmt,
    parent: Option<(Tag, bool)>,
    at: usize,
    rows: &mut Vec<Row>,
) -> Result<(), NoMemory>
    ensures { OnOk result (rows.new.items ≡ rows.old.items ++ rows_of parent at (before stmt.now done)) }
{
    push_row(alloc, stmt, parent, at, rows)?;
    match stmt {
        Stmt::If(tag, _, yes, no) => {
            push_block(alloc, yes, Some((*tag, true)), rows)?;
            push_block(alloc, no, Some((*tag, false)), rows)
        }
        Stmt::While(tag, _, body) => push_block(alloc, body, Some((*tag, true)), rows),
        _ => Ok(()),
    }
}

/// Puts the row of a part behind these.
fn push_row(
    alloc: Global,
    stmt: &Stmt,
    parent: Option<(Tag, bool)>,
    at: usize,
    rows: &mut Vec<Row>,
) -> Result<(), NoMemory>
    ensures { OnOk result (rows.new.items ≡ rows.old.items ++ row_of (tag_of stmt.now) parent at
        (content_of stmt.now) ∷ []) }
{
    let tag = stmt.tag();
    let content = content_of(alloc, stmt)?;
    rows.push(Row {
        tag,
        parent,
        at,
        content,
    })?;
    Ok(())
}
