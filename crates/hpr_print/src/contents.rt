//! The text of a content or an expression alone.
ghost use Rattle.std.specs.Prelude.{◌≡◌, IfOk, IsUtf8};
ghost use Rattle.hpr_syntax.specs.Print as print;

use crate::expressions::{put_element, put_expr};
use crate::put::put;
use hpr_syntax::{Content, Expr, NoMemory};
use std::alloc::Global;

/// The canonical text of an expression: one blank around each infix sign, and the brackets that its
/// tree needs and no others. It fails only for want of memory.
pub fn expr_text(alloc: Global, expr: &Expr) -> Result<Vec<u8>, NoMemory>
    ensures { IfOk result (λ v. v.items ≡ print.expr_text expr.now) }
{
    let mut out = Vec::new(alloc);
    put_expr(alloc, &mut out, expr)?;
    Ok(out)
}

/// The canonical text of what a part says, without its tag and its blocks: `NAME := EXPR`,
/// `NAME[EXPR] := EXPR`, `write EXPR`, `if EXPR` or `while EXPR`. It is UTF-8. It fails only for want of memory.
pub fn content_text(alloc: Global, content: &Content) -> Result<Vec<u8>, NoMemory>
    ensures text { IfOk result (λ v. v.items ≡ print.content_text content.now) }
    ensures utf8 { IfOk result (λ v. IsUtf8 v.items) }
{
    let mut out = Vec::new(alloc);
    match content {
        Content::Assign(name, value) => {
            put(&mut out, name.text().as_bytes())?;
            put(&mut out, b" := ")?;
            put_expr(alloc, &mut out, value)?;
        }
        Content::If(test) => {
            put(&mut out, b"if ")?;
            put_expr(alloc, &mut out, test)?;
        }
        Content::While(test) => {
            put(&mut out, b"while ")?;
            put_expr(alloc, &mut out, test)?;
        }
        Content::Write(_, value) => {
            put(&mut out, b"write ")?;
            put_expr(alloc, &mut out, value)?;
        }
        Content::Store(array, index, value) => {
            put_element(alloc, &mut out, array, index)?;
            put(&mut out, b" := ")?;
            put_expr(alloc, &mut out, value)?;
        }
    }
    Ok(out)
}
