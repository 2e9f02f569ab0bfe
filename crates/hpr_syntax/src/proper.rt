//! What a block, an expression, issued numbers and names that are at hand are known to be.
//!
//! A contract sees a name as its bytes and a number as a number. That the bytes are a name or
//! the stream's or an array's, and the number in range, is known where a name or a number is read: so these walks read
//! them, and do no more.
ghost use Rattle.std.specs.Prelude.{All};
ghost use Rattle.hpr_terms.specs.Names.{IsVariable};
ghost use Rattle.hpr_terms.specs.TermOf.{term_of};
ghost use Rattle.hpr_syntax.specs.Body.{done};
ghost use Rattle.hpr_syntax.specs.BodyOf.{before};
ghost use Rattle.hpr_syntax.specs.Issued.{IsIssued};
ghost use Rattle.hpr_syntax.specs.Proper.{IsProperTerm, IsProperTag, IsProperContent, IsProperBody, IsProperPair, IsProper};

use crate::issued::Issued;
use crate::rows::Content;
use crate::tree::{Block, Stmt};
use hpr_terms::{Expr, Name, Tag};

/// Reads an expression.
pub fn read_expr(expr: &Expr)
    ensures { IsProperTerm (term_of expr.now) }
{
    match expr {
        Expr::Num(literal) => {
            let _value = literal.value();
        }
        Expr::Var(name) => {
            let _text = name.text();
        }
        Expr::Prefix(_, operand) => {
            read_expr(operand.expr());
        }
        Expr::Infix(_, left, right) => {
            read_expr(left.expr());
            read_expr(right.expr());
        }
        Expr::Elem(array, index) => {
            let _text = array.text();
            read_expr(index.expr());
        }
    }
}

/// Reads a tag.
pub fn read_tag(_tag: Tag)
    ensures { IsProperTag _tag }
{}

/// Reads what a part says.
pub fn read_content(content: &Content)
    ensures { IsProperContent content.now }
{
    match content {
        Content::Assign(name, value) => {
            let _text = name.text();
            read_expr(value);
        }
        Content::If(test) => read_expr(test),
        Content::While(test) => read_expr(test),
        Content::Write(name, value) => {
            let _text = name.text();
            read_expr(value);
        }
        Content::Store(array, index, value) => {
            let _text = array.text();
            read_expr(index);
            read_expr(value);
        }
    }
}

/// Reads a block.
#[cycle(read)]
#[tactic(auto, using(crate::proofs::ProperLemmas::proper_before))]
fn read_block(block: &Block)
    ensures { IsProperBody block.now }
{
    for stmt in &block.stmts {
        read_stmt(stmt);
    }
}

#[cycle(read)]
fn read_stmt(stmt: &Stmt)
    ensures { IsProperBody (before stmt.now done) }
{
    read_tag(stmt.tag());
    match stmt {
        Stmt::Assign(_, name, value) => {
            let _text = name.text();
            read_expr(value);
        }
        Stmt::If(_, test, yes, no) => {
            read_expr(test);
            read_block(yes);
            read_block(no);
        }
        Stmt::While(_, test, body) => {
            read_expr(test);
            read_block(body);
        }
        Stmt::Write(_, name, value) => {
            let _text = name.text();
            read_expr(value);
        }
        Stmt::Store(_, array, index, value) => {
            let _text = array.text();
            read_expr(index);
            read_expr(value);
        }
    }
}

/// Reads a pair of issued numbers.
fn read_pair(_author: u32, _number: u32)
    ensures { IsProperPair (_author, _number) }
{}

/// Reads issued numbers.
fn read_pairs(rows: &[(u32, u32)])
    ensures { All IsProperPair rows.now }
{
    for row in rows {
        read_pair(row.0, row.1);
    }
}

/// Reads issued numbers.
pub fn read_issued(issued: &Issued)
    ensures ascending { IsIssued issued.now }
    ensures numbers { All IsProperPair issued.now }
{
    read_pairs(issued.rows());
}

/// Reads names.
pub fn read_names(names: &[Name])
    ensures { All IsVariable names.now }
{
    for name in names {
        let _text = name.text();
    }
}

/// Reads the three parts of a program.
pub(crate) fn read_tree(issued: &Issued, body: &Block, finals: &[Name])
    ensures { IsProper (record { issued = issued.now; body = body.now; finals = finals.now }) }
{
    read_issued(issued);
    read_block(body);
    read_names(finals);
}
