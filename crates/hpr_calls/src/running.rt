//! Calls of hpr_run and hpr_meaning on the program of a text, with the reports of runs.
ghost use Rattle.std.specs.Prelude.{IfOk};
ghost use Rattle.hpr_report.specs.TableText.{IsSingleValued};

use crate::arrays::put_elements;
use crate::state::read_state;
use hpr_meaning::{Instance, Origin, Read, Reading, Traced, trace};
use hpr_report::{outcome_text, table_text};
use hpr_rows::{Out, Row, put, put_count, put_counted, put_made, put_tag, truth};
use hpr_run::{FinalValues, Outcome, State, Value, run};
use hpr_syntax::Program;
use hpr_terms::{Name, NoMemory};
use std::alloc::Global;

/// Answers the call.
pub(crate) fn call(row: Row<'_>, out: &mut Out) -> Option<()> {
    match row.word(1)? {
        "table" => table(row, out),
        "state" => stated(row, out),
        "count" => counted(row, out),
        _ => started(row, out),
    }
}

// The calls of a program, a count of steps and a state.
fn started(row: Row<'_>, out: &mut Out) -> Option<()> {
    let program = row.program(2)?;
    in_state(row, out, &program)
}

fn in_state(row: Row<'_>, out: &mut Out, program: &Program) -> Option<()> {
    let most = row.count(3)?;
    let state = read_state(row, 4)?;
    match row.word(1)? {
        "run" => put_run(row.alloc, out, program, &state, most),
        _ => put_trace(row.alloc, out, program, &state, most),
    }
    Some(())
}

fn put_outcome(alloc: Global, out: &mut Out, outcome: &Outcome) {
    put_made(out, outcome_text(alloc, outcome));
}

// `run PROGRAM STEPS STATE..`: how the run goes.
fn put_run(alloc: Global, out: &mut Out, program: &Program, state: &State, most: u64) {
    match run(alloc, program, state, most) {
        Ok(outcome) => put_outcome(alloc, out, &outcome),
        Err(_) => out.cut(),
    }
}

fn put_origin(out: &mut Out, origin: Origin) {
    match origin {
        Origin::Initial => out.put_piece(" initial"),
        Origin::Instance(number) => put_counted(out, " from ", number),
    }
}

fn put_reading(out: &mut Out, reading: Reading) {
    match reading {
        Reading::Number(number) => out.put_value(number),
        Reading::Size(size) => put_counted(out, "size ", size),
    }
}

fn put_read(out: &mut Out, read: &Read) {
    put(out, &[" ", read.name.text(), "="]);
    put_reading(out, read.value);
    put_origin(out, read.origin);
}

fn put_reads(out: &mut Out, reads: &[Read]) {
    for read in reads {
        put_read(out, read);
    }
}

fn put_turns(out: &mut Out, turns: &[u64]) {
    for turn in turns {
        out.put_number(*turn);
        out.put_piece(" ");
    }
}

// Puts an item in one line: tag, turns, reads and number.
fn put_item(out: &mut Out, item: &Instance) {
    put_tag(out, item.tag);
    out.put_piece(" [ ");
    put_turns(out, &item.turns);
    out.put_piece("]");
    put_reads(out, &item.reads);
    out.put_piece(" gives ");
    out.put_value(item.value);
    out.put_piece("\n");
}

fn put_items(out: &mut Out, items: &[Instance]) {
    for item in items {
        put_item(out, item);
    }
}

fn put_traced(alloc: Global, out: &mut Out, traced: &Traced) {
    put_items(out, &traced.items);
    put_outcome(alloc, out, &traced.outcome);
}

// `trace PROGRAM STEPS STATE..`: the steps of the run, and how it goes.
fn put_trace(alloc: Global, out: &mut Out, program: &Program, state: &State, most: u64) {
    match trace(alloc, program, state, most) {
        Ok(traced) => put_traced(alloc, out, &traced),
        Err(_) => out.cut(),
    }
}

// The values with which a program ends from a state, whose names are given.
fn values_from(alloc: Global, program: &Program, state: &State) -> Result<FinalValues, NoMemory>
    ensures { IfOk result (λ values. IsSingleValued values) }
{
    match run(alloc, program, state, 100)? {
        Outcome::Ends { finals, .. } => Ok(finals),
        _ => Err(NoMemory),
    }
}

fn values_of(alloc: Global, program: &Program) -> Result<FinalValues, NoMemory>
    ensures { IfOk result (λ values. IsSingleValued values) }
{
    values_from(alloc, program, &State::new(alloc))
}

fn table_of(
    alloc: Global,
    base: &FinalValues,
    a: &FinalValues,
    b: &FinalValues,
    merged: &FinalValues,
) -> Result<Vec<u8>, NoMemory>
    requires base { IsSingleValued base.now }
    requires a { IsSingleValued a.now }
    requires b { IsSingleValued b.now }
    requires merged { IsSingleValued merged.now }
{
    table_text(alloc, base.list(), a.list(), b.list(), merged.list())
}

fn table_of_runs(
    alloc: Global,
    base: &Program,
    a: &Program,
    b: &Program,
    merged: &Program,
) -> Result<Vec<u8>, NoMemory> {
    let base = values_of(alloc, base)?;
    let a = values_of(alloc, a)?;
    let b = values_of(alloc, b)?;
    let merged = values_of(alloc, merged)?;
    table_of(alloc, &base, &a, &b, &merged)
}

fn put_table(alloc: Global, out: &mut Out, programs: &[Program]) {
    if let [base, a, b, merged] = programs {
        put_made(out, table_of_runs(alloc, base, a, b, merged));
    }
}

// `table BASE A B MERGED`: the table of the final values of four programs.
fn table(row: Row<'_>, out: &mut Out) -> Option<()> {
    let programs = row.programs(2, 6)?;
    put_table(row.alloc, out, &programs);
    Some(())
}

fn put_worth(out: &mut Out, value: &Value) {
    match value {
        Value::Number(number) => out.put_value(*number),
        Value::List(written) => put_counted(out, "size ", written.len()),
        Value::Array(cells) => put_elements(out, cells),
    }
}

fn put_listed(out: &mut Out, state: &State, name: &Name) {
    put(out, &["lists ", truth(state.lists(name)), ", under it "]);
    match state.listed(name) {
        Some(value) => put_worth(out, value),
        None => out.put_piece("nothing"),
    }
    out.put_piece(", number ");
    out.put_value(state.get(name));
}

fn put_name_in(alloc: Global, out: &mut Out, state: &State, name: &Name) {
    put_listed(out, state, name);
    out.put_piece(", worth ");
    match state.value(alloc, name) {
        Ok(value) => put_worth(out, &value),
        Err(_) => out.cut(),
    }
    out.put_piece("\n");
}

// `state NAME STATE..`: what the name is worth in the state, and whether the state lists it.
fn stated(row: Row<'_>, out: &mut Out) -> Option<()> {
    let name = row.name(2)?;
    let state = read_state(row, 3)?;
    put_name_in(row.alloc, out, &state, &name);
    Some(())
}

// `count ARRAY STATE..`: how many elements of the array aren't 0 in the state.
fn counted(row: Row<'_>, out: &mut Out) -> Option<()> {
    let array = row.name(2)?;
    let state = read_state(row, 3)?;
    put_count(out, "count ", state.count(&array) as u64);
    Some(())
}
