//! Calls of hpr_expressions, of the expressions of hpr_terms, and of `eval`.
use crate::state::read_state;
use hpr_expressions::Reader;
use hpr_print::expr_text;
use hpr_rows::{Out, Row, put_comparison, put_count, put_counted, put_made};
use hpr_run::{Fault, State, eval};
use hpr_scan::{Refusal, read};
use hpr_terms::Expr;
use std::alloc::Global;

/// Answers the call.
pub(crate) fn call(row: Row<'_>, out: &mut Out) -> Option<()> {
    match row.word(1)? {
        "show" => show(row, out),
        "after" => after(row, out),
        "compare" => compare(row, out),
        "eval" => value(row, out),
        _ => None,
    }
}

fn put_expression(alloc: Global, out: &mut Out, expr: &Expr) {
    put_made(out, expr_text(alloc, expr));
    out.put_piece("\n");
}

fn put_read(alloc: Global, out: &mut Out, reading: Reader) {
    match reading.ended(alloc) {
        Ok(expr) => put_expression(alloc, out, &expr),
        Err(_) => out.cut(),
    }
}

fn put_refusal(out: &mut Out, refusal: Refusal) {
    match refusal {
        Refusal::Stuck { place } => put_count(out, "stuck at ", place as u64),
        Refusal::Memory => out.cut(),
    }
}

// `show TEXT`: the expression in its canonical form.
fn show(row: Row<'_>, out: &mut Out) -> Option<()> {
    let bytes = row.bytes(2)?;
    match read(row.alloc, Reader::start(row.alloc), bytes) {
        Ok(reading) => put_read(row.alloc, out, reading),
        Err(refusal) => put_refusal(out, refusal),
    }
    Some(())
}

fn put_counted_read(alloc: Global, out: &mut Out, reading: Reader) {
    put_counted(out, "operators ", reading.operators());
    out.put_piece(": ");
    put_read(alloc, out, reading);
}

// `after OPERATORS TEXT`: the expression where so many operators stand before it, and how many there are then.
fn after(row: Row<'_>, out: &mut Out) -> Option<()> {
    let before = row.number(2)?;
    let bytes = row.bytes(3)?;
    match read(row.alloc, Reader::start_after(row.alloc, before), bytes) {
        Ok(reading) => put_counted_read(row.alloc, out, reading),
        Err(refusal) => put_refusal(out, refusal),
    }
    Some(())
}

fn reading(row: Row<'_>, at: usize) -> Option<Reader> {
    let bytes = row.bytes(at)?;
    read(row.alloc, Reader::start(row.alloc), bytes).ok()
}

fn expression(row: Row<'_>, at: usize) -> Option<Expr> {
    reading(row, at)?.ended(row.alloc).ok()
}

fn is_copied(alloc: Global, expr: &Expr) -> bool {
    match expr.copy(alloc) {
        Ok(copy) => copy.is_same(expr),
        Err(_) => false,
    }
}

fn compared(row: Row<'_>, out: &mut Out, one: &Expr) -> Option<()> {
    let copied = is_copied(row.alloc, one);
    let other = expression(row, 3)?;
    put_comparison(out, one.cmp(&other), one.is_same(&other), copied);
    Some(())
}

// `compare TEXT TEXT`: the order of two expressions.
fn compare(row: Row<'_>, out: &mut Out) -> Option<()> {
    let one = expression(row, 2)?;
    compared(row, out, &one)
}

fn put_value(out: &mut Out, expr: &Expr, state: &State) {
    match eval(expr, state) {
        Ok(value) => {
            out.put_value(value);
            out.put_piece("\n");
        }
        Err(Fault::Overflow) => out.put_piece("overflow\n"),
        Err(Fault::ZeroDivide) => out.put_piece("zero-divide\n"),
        Err(Fault::OutputFull) => out.put_piece("output-full\n"),
        Err(Fault::IndexRange) => out.put_piece("index-range\n"),
    }
}

fn value_in(row: Row<'_>, out: &mut Out, expr: &Expr) -> Option<()> {
    let state = read_state(row, 3)?;
    put_value(out, expr, &state);
    Some(())
}

// `eval TEXT STATE..`: the value.
fn value(row: Row<'_>, out: &mut Out) -> Option<()> {
    let expr = expression(row, 2)?;
    value_in(row, out, &expr)
}
