//! Calls of hpr_syntax on the program of a text.
use hpr_print::expr_text;
use hpr_refusals::Refusal;
use hpr_rows::{
    Out, Row, array_of, name_of, put, put_comparison, put_content, put_count, put_counted,
    put_made, put_message, put_names, put_tag, tag_of, truth,
};
use hpr_syntax::{
    Block, Content, Issued, IssuedDraft, Program, Row as Place, Stmt, Structure, Value, content_of,
    defines, expr_of, has_content, has_wrong_name, index_of, is_large, is_large_content,
    same_content, structure_of, uses,
};
use hpr_terms::{Binary, Expr, Literal, Name, Operand, Tag};
use std::alloc::Global;

/// Answers the call.
pub(crate) fn call(row: Row<'_>, out: &mut Out) -> Option<()> {
    match row.word(1)? {
        "rows" => rows(row, out),
        "find" => find(row, out),
        "uses" => part_uses(row, out),
        "structure" => structure(row, out),
        "compare" => compare(row, out),
        "sum" => sum(row, out),
        "store" => store(row, out),
        "index" => index(row, out),
        "used" => used_names(row, out),
        "named" => named(row, out),
        "value" => value(row, out),
        "stored" => stored(row, out),
        "issued" => drafted(row, out),
        _ => None,
    }
}

// Puts the block that a part stands in.
fn put_block(out: &mut Out, parent: Option<(Tag, bool)>) {
    match parent {
        Some((tag, branch)) => {
            put_tag(out, tag);
            put(out, &[" ", truth(branch)]);
        }
        None => out.put_piece("top"),
    }
}

fn put_place(alloc: Global, out: &mut Out, place: &Place) {
    put_tag(out, place.tag);
    out.put_piece(" in ");
    put_block(out, place.parent);
    put_counted(out, " at ", place.at);
    out.put_piece(": ");
    put_content(alloc, out, &place.content);
    out.put_piece("\n");
}

fn put_places(alloc: Global, out: &mut Out, places: &[Place]) {
    for place in places {
        put_place(alloc, out, place);
    }
}

fn put_rows(alloc: Global, out: &mut Out, program: &Program) {
    match program.preorder(alloc) {
        Ok(places) => put_places(alloc, out, &places),
        Err(_) => out.cut(),
    }
}

// `rows PROGRAM`: the parts in preorder.
fn rows(row: Row<'_>, out: &mut Out) -> Option<()> {
    let program = row.program(2)?;
    put_rows(row.alloc, out, &program);
    Some(())
}

fn is_copied(alloc: Global, content: &Content) -> bool {
    match content.copy(alloc) {
        Ok(copy) => same_content(&copy, content),
        Err(_) => false,
    }
}

fn put_said(alloc: Global, out: &mut Out, stmt: &Stmt, content: &Content) {
    let says = truth(has_content(stmt, content));
    let copied = truth(is_copied(alloc, content));
    put_content(alloc, out, content);
    put(out, &[", says so ", says, ", copied ", copied, "\n"]);
}

fn put_found(alloc: Global, out: &mut Out, stmt: &Stmt) {
    put_tag(out, stmt.tag());
    out.put_piece(" ");
    match content_of(alloc, stmt) {
        Ok(content) => put_said(alloc, out, stmt, &content),
        Err(_) => out.cut(),
    }
}

fn put_part(alloc: Global, out: &mut Out, program: &Program, tag: Tag) {
    match program.find(tag) {
        Some(stmt) => put_found(alloc, out, stmt),
        None => out.put_piece("no part\n"),
    }
}

// `find PROGRAM TAG`: the part with the tag.
fn find(row: Row<'_>, out: &mut Out) -> Option<()> {
    let tag = row.tag(3)?;
    let program = row.program(2)?;
    put_part(row.alloc, out, &program, tag);
    Some(())
}

fn defined(stmt: &Stmt) -> &str {
    match defines(stmt) {
        Some(name) => name.text(),
        None => "nothing",
    }
}

fn put_uses(out: &mut Out, stmt: &Stmt, name: &Name) {
    let says = truth(uses(stmt, name));
    let expression = truth(expr_of(stmt).uses(name));
    put(out, &["defines ", defined(stmt)]);
    put(
        out,
        &[", uses ", says, ", its expression ", expression, "\n"],
    );
}

fn used(row: Row<'_>, out: &mut Out, program: &Program) -> Option<()> {
    let stmt = program.find(row.tag(3)?)?;
    let name = row.name(4)?;
    put_uses(out, stmt, &name);
    Some(())
}

// `uses PROGRAM TAG NAME`: what the part defines, and whether it uses the name.
fn part_uses(row: Row<'_>, out: &mut Out) -> Option<()> {
    let program = row.program(2)?;
    used(row, out, &program)
}

fn structure_word(structure: Structure) -> &'static str {
    match structure {
        Structure::Simple => "simple",
        Structure::Conditional => "conditional",
        Structure::Loop => "loop",
    }
}

fn assigned(content: &Content) -> &str {
    match content.assigned() {
        Some(name) => name.text(),
        None => "nothing",
    }
}

fn put_structure(out: &mut Out, stmt: &Stmt, content: &Content) {
    let own = structure_of(stmt);
    out.put_piece(structure_word(own));
    out.put_piece(", simple ");
    out.put_piece(truth(own.is_simple()));
    out.put_piece(", same ");
    out.put_piece(truth(content.structure().is_same(own)));
    out.put_piece(", assigns ");
    out.put_piece(assigned(content));
    out.put_piece(", large ");
    out.put_piece(truth(is_large(content.expr())));
    out.put_piece("\n");
}

fn put_known(alloc: Global, out: &mut Out, stmt: &Stmt) {
    match content_of(alloc, stmt) {
        Ok(content) => put_structure(out, stmt, &content),
        Err(_) => out.cut(),
    }
}

// `structure PROGRAM TAG`: which blocks the part with the tag has, and what it assigns.
fn structure(row: Row<'_>, out: &mut Out) -> Option<()> {
    let program = row.program(2)?;
    put_known(row.alloc, out, program.find(row.tag(3)?)?);
    Some(())
}

fn is_program_copied(alloc: Global, program: &Program) -> bool {
    match program.copy(alloc) {
        Ok(copy) => copy.is_same(program),
        Err(_) => false,
    }
}

fn compared(row: Row<'_>, out: &mut Out, one: &Program) -> Option<()> {
    let copied = is_program_copied(row.alloc, one);
    let other = row.program(3)?;
    put_comparison(out, one.cmp(&other), one.is_same(&other), copied);
    Some(())
}

// `compare PROGRAM PROGRAM`: the order of two programs.
fn compare(row: Row<'_>, out: &mut Out) -> Option<()> {
    let one = row.program(2)?;
    compared(row, out, &one)
}

fn one() -> Option<Expr> {
    Some(Expr::Num(Literal::new(1)?))
}

fn plus_one(alloc: Global, sum: Expr) -> Option<Expr> {
    let sum = Operand::new(alloc, sum).ok()?;
    Some(Expr::Infix(Binary::Add, sum, Operand::new(alloc, one()?).ok()?))
}

// A sum of ones with so many operators.
fn ones(alloc: Global, operators: u64) -> Option<Expr> {
    let mut sum = one()?;
    for _ in 0..operators {
        sum = plus_one(alloc, sum)?;
    }
    Some(sum)
}

// `1.1: x := SUM`
fn assignment(alloc: Global, sum: Expr) -> Option<Stmt> {
    let tag = Tag {
        author: 1,
        serial: 1,
    };
    Some(Stmt::Assign(tag, Name::new(alloc, "x").ok()?, sum))
}

fn block(alloc: Global, stmt: Stmt) -> Option<Block> {
    let mut stmts = Vec::new(alloc);
    stmts.push(stmt).ok()?;
    Some(Block::new(stmts))
}

fn raise(draft: &mut IssuedDraft, tag: Tag) -> Option<()> {
    if tag.serial == 0 {
        return None;
    }
    draft.raise(tag.author, tag.serial).ok()
}

fn put_issued(out: &mut Out, issued: &Issued) {
    out.put_piece("issued");
    for (author, serial) in issued.rows() {
        put_counted(out, " ", *author as usize);
        put_counted(out, ":", *serial as usize);
    }
    out.put_piece("\n");
}

// `issued TAG..`: the numbers that raises to these tags come to, one after the other.
fn drafted(row: Row<'_>, out: &mut Out) -> Option<()> {
    let mut draft = IssuedDraft::new(row.alloc);
    for word in row.rest(2) {
        raise(&mut draft, tag_of(word.as_str())?)?;
    }
    match draft.finish() {
        Ok(issued) => put_issued(out, &issued),
        Err(_) => out.cut(),
    }
    Some(())
}

fn issued(alloc: Global) -> Option<Issued> {
    let mut issued = Issued::new(alloc);
    issued.raise(1, 1).ok()?;
    Some(issued)
}

fn put_judged(alloc: Global, out: &mut Out, issued: Issued, body: Block) {
    match Program::new(alloc, issued, body, Vec::new(alloc)) {
        Ok(program) => put_count(out, "parts ", program.part_count() as u64),
        Err(error) => put_message(out, Refusal::Shape(error).message(alloc, "P")),
    }
}

// `sum OPERATORS`: whether a sum of so many operators is too large, and what comes of a program with it.
fn sum(row: Row<'_>, out: &mut Out) -> Option<()> {
    let sum = ones(row.alloc, row.count(2)?)?;
    put(out, &["too large ", truth(is_large(&sum)), ", "]);
    let body = block(row.alloc, assignment(row.alloc, sum)?)?;
    put_judged(row.alloc, out, issued(row.alloc)?, body);
    Some(())
}

// Puts what comes of a program with one part that says this.
fn put_part_judged(row: Row<'_>, out: &mut Out, content: Content) -> Option<()> {
    let tag = Tag {
        author: 1,
        serial: 1,
    };
    let (first, second) = (
        Block::new(Vec::new(row.alloc)),
        Block::new(Vec::new(row.alloc)),
    );
    let body = block(row.alloc, content.into_stmt(tag, first, second))?;
    put_judged(row.alloc, out, issued(row.alloc)?, body);
    Some(())
}

// A store into `a[]` whose index and number are sums of so many operators.
fn store_of(alloc: Global, index: u64, number: u64) -> Option<Content> {
    let index = ones(alloc, index)?;
    let number = ones(alloc, number)?;
    Some(Content::Store(array_of(alloc, "a")?, index, number))
}

// `store OPERATORS OPERATORS`: whether a store whose index and number are sums of so many operators is too large,
// and what comes of a program with it.
fn store(row: Row<'_>, out: &mut Out) -> Option<()> {
    let content = store_of(row.alloc, row.count(2)?, row.count(3)?)?;
    put(
        out,
        &["too large ", truth(is_large_content(&content)), ", "],
    );
    put_part_judged(row, out, content)
}

fn put_expr(alloc: Global, out: &mut Out, title: &str, expr: Option<&Expr>) {
    out.put_piece(title);
    match expr {
        Some(expr) => put_made(out, expr_text(alloc, expr)),
        None => out.put_piece("none"),
    }
}

fn put_exprs(alloc: Global, out: &mut Out, stmt: &Stmt, content: &Content) {
    put_expr(alloc, out, "index ", index_of(stmt));
    put_expr(alloc, out, ", of its content ", content.index());
    put_expr(alloc, out, ", expression ", Some(expr_of(stmt)));
    out.put_piece("\n");
}

fn put_index(alloc: Global, out: &mut Out, stmt: &Stmt) {
    match content_of(alloc, stmt) {
        Ok(content) => put_exprs(alloc, out, stmt, &content),
        Err(_) => out.cut(),
    }
}

// `index PROGRAM TAG`: the index of the part with the tag, if it has one, and its other expression.
fn index(row: Row<'_>, out: &mut Out) -> Option<()> {
    let program = row.program(2)?;
    put_index(row.alloc, out, program.find(row.tag(3)?)?);
    Some(())
}

fn put_used(alloc: Global, out: &mut Out, content: &Content, name: &Name) {
    put(out, &["uses it ", truth(content.uses(name)), ", uses"]);
    match content.used_names(alloc) {
        Ok(names) => put_names(out, "", &names),
        Err(_) => out.cut(),
    }
}

fn used_in(row: Row<'_>, out: &mut Out, program: &Program) -> Option<()> {
    let content = content_of(row.alloc, program.find(row.tag(3)?)?).ok()?;
    let name = row.name(4)?;
    put_used(row.alloc, out, &content, &name);
    Some(())
}

// `used PROGRAM TAG NAME`: whether what the part says uses the name, and all names that it uses.
fn used_names(row: Row<'_>, out: &mut Out) -> Option<()> {
    let program = row.program(2)?;
    used_in(row, out, &program)
}

// What a part says that assigns to the name, writes to it, or stores into it: the number, or at the index.
fn content_named(kind: &str, name: Name, expr: Expr) -> Option<Content> {
    match kind {
        "assign" => Some(Content::Assign(name, expr)),
        "write" => Some(Content::Write(name, expr)),
        "store" => Some(Content::Store(name, one()?, expr)),
        "index" => Some(Content::Store(name, expr, one()?)),
        _ => None,
    }
}

fn variable(alloc: Global, name: &str) -> Option<Expr> {
    Some(Expr::Var(name_of(alloc, name)?))
}

fn element(alloc: Global, array: &str, index: &str) -> Option<Expr> {
    let index = Operand::new(alloc, variable(alloc, index)?).ok()?;
    Some(Expr::Elem(name_of(alloc, array)?, index))
}

// The variable of a word `NAME`, or the element of a word `NAME:INDEX`, where the index is a variable.
fn used_by(alloc: Global, word: &str) -> Option<Expr> {
    match word.split_once(':') {
        Some((array, index)) => element(alloc, array, index),
        None => variable(alloc, word),
    }
}

fn put_named(row: Row<'_>, out: &mut Out, content: Content) -> Option<()> {
    put(out, &["wrong name ", truth(has_wrong_name(&content)), ", "]);
    put_part_judged(row, out, content)
}

// `named KIND NAME NAME` or `named KIND NAME NAME:INDEX`: whether the content that gives the first name what the
// other word says has a wrong name, and what comes of a program with it.
fn named(row: Row<'_>, out: &mut Out) -> Option<()> {
    let name = row.name(3)?;
    let expr = used_by(row.alloc, row.word(4)?)?;
    let content = content_named(row.word(2)?, name, expr)?;
    put_named(row, out, content)
}

fn put_worth(out: &mut Out, value: &Value) {
    put_counted(out, "count ", value.count());
    out.put_piece(", number ");
    out.put_value(value.number());
    if let Value::List(written) = value {
        for number in written.numbers() {
            out.put_piece(" ");
            out.put_value(*number);
        }
    }
    out.put_piece("\n");
}

fn write_numbers(alloc: Global, value: &mut Value, numbers: &[String]) -> Option<()> {
    for number in numbers {
        value.write(alloc, number.parse().ok()?).ok()?;
    }
    Some(())
}

// `value NUMBER NUMBER..`: the first number as a value, behind which the others are written, and a copy made before.
fn value(row: Row<'_>, out: &mut Out) -> Option<()> {
    let mut value = Value::Number(row.word(2)?.parse().ok()?);
    let copy = value.copy(row.alloc).ok()?;
    write_numbers(row.alloc, &mut value, row.rest(3))?;
    put_worth(out, &copy);
    put_worth(out, &value.copy(row.alloc).ok()?);
    Some(())
}

fn put_element(out: &mut Out, value: &Value, word: &str) -> Option<()> {
    let (at, _) = word.split_once('=')?;
    put(out, &[" ", at, "="]);
    out.put_value(value.element(at.parse().ok()?));
    Some(())
}

fn put_elements(out: &mut Out, value: &Value, words: &[String]) -> Option<()> {
    for word in words {
        put_element(out, value, word.as_str())?;
    }
    Some(())
}

// Puts how many elements aren't 0, the number, and the elements of the words.
fn put_stored(out: &mut Out, value: &Value, words: &[String]) -> Option<()> {
    put_counted(out, "elements ", value.element_count());
    out.put_piece(", number ");
    out.put_value(value.number());
    out.put_piece(":");
    put_elements(out, value, words)?;
    out.put_piece("\n");
    Some(())
}

fn store_number(alloc: Global, value: &mut Value, word: &str) -> Option<()> {
    let (at, number) = word.split_once('=')?;
    value
        .store(alloc, at.parse().ok()?, number.parse().ok()?)
        .ok()
}

fn store_numbers(alloc: Global, value: &mut Value, words: &[String]) -> Option<()> {
    for word in words {
        store_number(alloc, value, word.as_str())?;
    }
    Some(())
}

fn put_copies(row: Row<'_>, out: &mut Out, before: &Value, value: &Value) -> Option<()> {
    put_stored(out, before, row.rest(3))?;
    put_stored(out, &value.copy(row.alloc).ok()?, row.rest(3))
}

// `stored NUMBER AT=NUMBER..`: the first number as a value, whose elements then get the other ones, and a copy made
// before.
fn stored(row: Row<'_>, out: &mut Out) -> Option<()> {
    let mut value = Value::Number(row.word(2)?.parse().ok()?);
    let before = value.copy(row.alloc).ok()?;
    store_numbers(row.alloc, &mut value, row.rest(3))?;
    put_copies(row, out, &before, &value)
}
