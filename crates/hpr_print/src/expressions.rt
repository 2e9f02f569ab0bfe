//! The text of an expression.
ghost use Rattle.std.specs.Prelude.{◌≡◌, ◌++◌, OnOk, IsUtf8};
ghost use Rattle.hpr_terms.specs.TermOf.{term_of};
ghost use Rattle.hpr_syntax.specs.Print.{term_text, element_text, bracketed, sign, level_of_sign, level_of, prefix_sign};

use crate::put::{put, put_number};
use hpr_syntax::{Binary, Expr, Name, NoMemory, Unary};
use std::alloc::Global;

fn sign(op: Binary) -> &'static [u8]
    ensures { result.now ≡ sign op }
{
    match op {
        Binary::Or => b"or",
        Binary::And => b"and",
        Binary::Equal => b"=",
        Binary::Differ => b"<>",
        Binary::Less => b"<",
        Binary::LessEqual => b"<=",
        Binary::Greater => b">",
        Binary::GreaterEqual => b">=",
        Binary::Add => b"+",
        Binary::Sub => b"-",
        Binary::Mul => b"*",
        Binary::Div => b"/",
        Binary::Rem => b"%",
    }
}

fn level_of_sign(op: Binary) -> u8
    ensures { result ≡ level_of_sign op }
{
    match op {
        Binary::Or => 1,
        Binary::And => 2,
        Binary::Equal | Binary::Differ => 3,
        Binary::Less | Binary::LessEqual | Binary::Greater | Binary::GreaterEqual => 3,
        Binary::Add | Binary::Sub => 4,
        Binary::Mul | Binary::Div | Binary::Rem => 5,
    }
}

fn level(expr: &Expr) -> u8
    ensures { result ≡ level_of (term_of expr.now) }
{
    match expr {
        Expr::Num(_) | Expr::Var(_) | Expr::Elem(_, _) => 7,
        Expr::Prefix(_, _) => 6,
        Expr::Infix(op, _, _) => level_of_sign(*op),
    }
}

fn prefix_sign(op: Unary) -> &'static [u8]
    ensures { result.now ≡ prefix_sign op }
{
    match op {
        Unary::Neg => b"-",
        Unary::Not => b"not ",
    }
}

/// Puts the expression at the end.
#[cycle(put_expr)]
#[tactic(auto, unfolding(hpr_syntax::specs::Print::term_text))]
pub fn put_expr(alloc: Global, out: &mut Vec<u8>, expr: &Expr) -> Result<(), NoMemory>
    ensures text { OnOk result (out.new.items ≡ out.old.items ++ term_text (term_of expr.now)) }
    ensures utf8 { OnOk result (IsUtf8 (term_text (term_of expr.now))) }
{
    match expr {
        Expr::Num(number) => put_number(alloc, out, number.value() as u64),
        Expr::Var(name) => put(out, name.text().as_bytes()),
        Expr::Prefix(op, operand) => {
            put(out, prefix_sign(*op))?;
            let inner = operand.expr();
            put_operand(alloc, out, inner, level(inner) < 6)
        }
        Expr::Infix(op, left, right) => {
            let first = left.expr();
            let binds = level_of_sign(*op);
            let is_loose = level(first) < binds || (binds == 3 && level(first) == 3);
            put_operand(alloc, out, first, is_loose)?;
            put(out, b" ")?;
            put(out, sign(*op))?;
            put(out, b" ")?;
            let second = right.expr();
            put_operand(alloc, out, second, level(second) <= binds)
        }
        Expr::Elem(array, index) => put_element(alloc, out, array, index.expr()),
    }
}

/// Puts the element of an array with this index.
#[cycle(put_expr)]
pub fn put_element(
    alloc: Global,
    out: &mut Vec<u8>,
    array: &Name,
    index: &Expr,
) -> Result<(), NoMemory>
    ensures text { OnOk result (out.new.items ≡ out.old.items
        ++ element_text array.now (term_text (term_of index.now))) }
    ensures utf8 { OnOk result (IsUtf8 (element_text array.now (term_text (term_of index.now)))) }
{
    put(out, array.base().as_bytes())?;
    put(out, b"[")?;
    put_expr(alloc, out, index)?;
    put(out, b"]")
}

#[cycle(put_expr)]
fn put_operand(
    alloc: Global,
    out: &mut Vec<u8>,
    expr: &Expr,
    is_bracketed: bool,
) -> Result<(), NoMemory>
    ensures text { OnOk result (out.new.items ≡ out.old.items
        ++ bracketed is_bracketed (term_text (term_of expr.now))) }
    ensures utf8 { OnOk result (IsUtf8 (bracketed is_bracketed (term_text (term_of expr.now)))) }
{
    if is_bracketed {
        put(out, b"(")?;
        put_expr(alloc, out, expr)?;
        put(out, b")")
    } else {
        put_expr(alloc, out, expr)
    }
}
