//! Calls on the tree of a program.

use crate::marks::Marks;
use hpr_syntax::{
    Content, Issued, Program, Stmt, content_of, defines, expr_of, has_content, index_of,
    same_content, structure_of, uses,
};
use hpr_terms::{Expr, Name, Tag};
use std::alloc::Global;

/// Makes the calls.
pub(crate) fn call(alloc: Global, marks: &mut Marks, program: &Program) -> Option<()> {
    let x = Name::new(alloc, "x").ok()?;
    let copy = program.copy(alloc).ok()?;
    marks.ready()?;
    marks.after("Program::part_count", program.part_count() == 6)?;
    marks.after("Program::is_same", program.is_same(&copy))?;
    marks.after("Program::finals", program.finals().len() == 2)?;
    marks.after("Block::stmts", program.body().stmts().len() == 4)?;
    call_issued(marks, program.issued())?;
    let second = Tag {
        author: 1,
        serial: 2,
    };
    let found = program.find(second);
    marks.after("Program::find", found.is_some())?;
    call_part(alloc, marks, found?, &x)?;
    call_parts(marks, copy)
}

fn call_issued(marks: &mut Marks, issued: &Issued) -> Option<()> {
    marks.after("Issued::get", issued.get(1) == 6)?;
    marks.after("Issued::rows", issued.rows().len() == 1)
}

// The part is `1.2: a[x] := 2`.
fn call_part(alloc: Global, marks: &mut Marks, part: &Stmt, x: &Name) -> Option<()> {
    let content = content_of(alloc, part).ok()?;
    marks.ready()?;
    marks.after("Stmt::tag", part.tag().serial == 2)?;
    marks.after("expr_of", matches!(expr_of(part), Expr::Num(_)))?;
    marks.after("index_of", index_of(part).is_some())?;
    marks.after("defines", defines(part).is_some())?;
    marks.after("uses", uses(part, x))?;
    marks.after("has_content", has_content(part, &content))?;
    marks.after("same_content", same_content(&content, &content))?;
    marks.after("structure_of", structure_of(part).is_simple())?;
    call_content(marks, &content, x)
}

fn call_content(marks: &mut Marks, content: &Content, x: &Name) -> Option<()> {
    marks.after("Content::assigned", content.assigned().is_some())?;
    marks.after("Content::uses", content.uses(x))?;
    marks.after("Name::text", x.text() == "x")?;
    marks.after("Name::is_array", !x.is_array())
}

fn call_parts(marks: &mut Marks, program: Program) -> Option<()> {
    let (issued, body, finals) = program.into_parts();
    marks.after("Program::into_parts", finals.len() == 2)?;
    let again = Program::from_parts(issued, body, finals);
    marks.after("Program::from_parts", again.part_count() == 6)
}
