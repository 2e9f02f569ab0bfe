//! The text of the parts of a block.
ghost use Rattle.std.specs.Prelude.{◌≡◌, ◌++◌, ◌+◌, ◌^◌, ◌<◌, OnOk, codes};
ghost use Rattle.hpr_terms.specs.TermOf.{term_of};
ghost use Rattle.hpr_terms.specs.Texts.{tag_text};
ghost use Rattle.hpr_syntax.specs.Body.{done, depth};
ghost use Rattle.hpr_syntax.specs.BodyOf.{before};
ghost use Rattle.hpr_syntax.specs.Print.{body_text, else_text, term_text, element_text, indent, line};

use crate::expressions::{put_element, put_expr};
use crate::put::put;
use hpr_syntax::{Block, Expr, Name, NoMemory, Stmt, Tag};
use std::alloc::Global;

/// Puts two spaces for each level.
fn put_indent(out: &mut Vec<u8>, level: usize) -> Result<(), NoMemory>
    ensures { OnOk result (out.new.items ≡ out.old.items ++ indent level) }
{
    for _ in 0..level {
        put(out, b"  ")?;
    }
    Ok(())
}

/// Puts a part's indent and its tag.
fn put_start(alloc: Global, out: &mut Vec<u8>, level: usize, tag: Tag) -> Result<(), NoMemory>
    ensures { OnOk result (out.new.items ≡ out.old.items ++ indent level ++ tag_text tag) }
{
    put_indent(out, level)?;
    let text = tag.to_string(alloc)?;
    put(out, text.as_str().as_bytes())
}

/// Puts an expression and the end of its line.
fn put_end(alloc: Global, out: &mut Vec<u8>, expr: &Expr, end: &[u8]) -> Result<(), NoMemory>
    ensures { OnOk result (out.new.items ≡ out.old.items ++ term_text (term_of expr.now) ++ end.now ++ codes "\n") }
{
    put_expr(alloc, out, expr)?;
    put(out, end)?;
    put(out, b"\n")
}

/// Puts the line of a write, or the first line of a conditional or a loop.
fn put_first_line(
    alloc: Global,
    out: &mut Vec<u8>,
    level: usize,
    tag: Tag,
    word: &[u8],
    expr: &Expr,
    end: &[u8],
) -> Result<(), NoMemory>
    ensures { OnOk result (out.new.items ≡ out.old.items ++ line level
        (tag_text tag ++ word.now ++ term_text (term_of expr.now) ++ end.now)) }
{
    put_start(alloc, out, level, tag)?;
    put(out, word)?;
    put_end(alloc, out, expr, end)
}

/// Puts the name of an assignment.
fn put_name(out: &mut Vec<u8>, name: &Name) -> Result<(), NoMemory>
    ensures { OnOk result (out.new.items ≡ out.old.items ++ codes ": " ++ name.now ++ codes " := ") }
{
    put(out, b": ")?;
    put(out, name.text().as_bytes())?;
    put(out, b" := ")
}

/// Puts an assignment.
fn put_assignment(
    alloc: Global,
    out: &mut Vec<u8>,
    level: usize,
    tag: Tag,
    name: &Name,
    value: &Expr,
) -> Result<(), NoMemory>
    ensures { OnOk result (out.new.items ≡ out.old.items ++ line level
        (tag_text tag ++ codes ": " ++ name.now ++ codes " := " ++ term_text (term_of value.now) ++ codes ";")) }
{
    put_start(alloc, out, level, tag)?;
    put_name(out, name)?;
    put_end(alloc, out, value, b";")
}

/// Puts the element into which a store stores.
fn put_stored(alloc: Global, out: &mut Vec<u8>, array: &Name, index: &Expr) -> Result<(), NoMemory>
    ensures { OnOk result (out.new.items ≡ out.old.items ++ codes ": "
        ++ element_text array.now (term_text (term_of index.now)) ++ codes " := ") }
{
    put(out, b": ")?;
    put_element(alloc, out, array, index)?;
    put(out, b" := ")
}

/// Puts a store.
fn put_store(
    alloc: Global,
    out: &mut Vec<u8>,
    level: usize,
    tag: Tag,
    array: &Name,
    index: &Expr,
    value: &Expr,
) -> Result<(), NoMemory>
    ensures { OnOk result (out.new.items ≡ out.old.items ++ line level
        (tag_text tag ++ codes ": " ++ element_text array.now (term_text (term_of index.now))
        ++ codes " := " ++ term_text (term_of value.now) ++ codes ";")) }
{
    put_start(alloc, out, level, tag)?;
    put_stored(alloc, out, array, index)?;
    put_end(alloc, out, value, b";")
}

fn put_line(out: &mut Vec<u8>, level: usize, text: &[u8]) -> Result<(), NoMemory>
    ensures { OnOk result (out.new.items ≡ out.old.items ++ line level text.now) }
{
    put_indent(out, level)?;
    put(out, text)?;
    put(out, b"\n")
}

/// Puts the parts of a block, a line each.
#[cycle(put_block)]
pub fn put_block(
    alloc: Global,
    out: &mut Vec<u8>,
    block: &Block,
    level: usize,
) -> Result<(), NoMemory>
    requires { level + depth block.now < 2 ^ 32 }
    ensures { OnOk result (out.new.items ≡ out.old.items ++ body_text level block.now) }
{
    for stmt in &block.stmts {
        put_stmt(alloc, out, stmt, level)?;
    }
    Ok(())
}

#[cycle(put_block)]
#[tactic(auto, unfolding(hpr_syntax::specs::Print::body_text))]
fn put_stmt(alloc: Global, out: &mut Vec<u8>, stmt: &Stmt, level: usize) -> Result<(), NoMemory>
    requires { level + depth (before stmt.now done) < 2 ^ 32 }
    ensures { OnOk result (out.new.items ≡ out.old.items ++ body_text level (before stmt.now done)) }
{
    match stmt {
        Stmt::Assign(tag, name, value) => put_assignment(alloc, out, level, *tag, name, value),
        Stmt::If(tag, test, yes, no) => {
            put_first_line(alloc, out, level, *tag, b": if ", test, b" then")?;
            put_block(alloc, out, yes, level + 1)?;
            put_else(alloc, out, no, level)?;
            put_line(out, level, b"fi")
        }
        Stmt::While(tag, test, body) => {
            put_first_line(alloc, out, level, *tag, b": while ", test, b" do")?;
            put_block(alloc, out, body, level + 1)?;
            put_line(out, level, b"od")
        }
        Stmt::Write(tag, _, value) => {
            put_first_line(alloc, out, level, *tag, b": write ", value, b";")
        }
        Stmt::Store(tag, array, index, value) => {
            put_store(alloc, out, level, *tag, array, index, value)
        }
    }
}

#[cycle(put_block)]
fn put_else(alloc: Global, out: &mut Vec<u8>, block: &Block, level: usize) -> Result<(), NoMemory>
    requires { level + 1 + depth block.now < 2 ^ 32 }
    ensures { OnOk result (out.new.items ≡ out.old.items ++ else_text level block.now
        (body_text (level + 1) block.now)) }
{
    if !block.stmts.is_empty() {
        put_line(out, level, b"else")?;
        put_block(alloc, out, block, level + 1)?;
    }
    Ok(())
}
