//! Calls that make the answers of a program, a run, a verdict, a number or a word.
use crate::put::put_value;
use hpr_json::{
    absent_value, edges_value, no_program_value, outcome_value, program_value, spent_value,
    state_value, verdict_value, words_value,
};
use hpr_rows::{Out, Row};
use hpr_run::{Outcome, State, run};
use hpr_syntax::Program;
use hpr_terms::NoMemory;
use hpr_verify::{Verdict, verify};
use std::alloc::Global;

/// Answers the call: `program TEXT` is the answer that is this program; `run TEXT STEPS` is how its run goes
/// from the state that lists nothing; `verify BASE A B TEXT` is the verdict on this program; `no-program PARTS` and `spent TRIES` are answers of an integration;
/// `edges FILE`, `absent FILE`, `state MESSAGE` and `words` are refusals.
pub(crate) fn call(row: Row<'_>, out: &mut Out) -> Option<()> {
    match row.word(0)? {
        "program" => put_value(row.alloc, out, program_value(row.alloc, &row.program(1)?)),
        "run" => put_run(row.alloc, out, &row.program(1)?, row.count(2)?),
        "verify" => put_value(row.alloc, out, verdict_value(row.alloc, &verdict(row)?)),
        "no-program" => put_value(row.alloc, out, no_program_value(row.alloc, row.number(1)?)),
        "spent" => put_value(row.alloc, out, spent_value(row.alloc, row.count(1)?)),
        "edges" => put_value(row.alloc, out, edges_value(row.alloc, row.word(1)?)),
        "absent" => put_value(row.alloc, out, absent_value(row.alloc, row.word(1)?)),
        "state" => put_value(row.alloc, out, state_value(row.alloc, row.text(1)?)),
        "words" => put_value(row.alloc, out, words_value(row.alloc)),
        _ => return None,
    }
    Some(())
}

fn verdict(row: Row<'_>) -> Option<Verdict> {
    let (base, a, b) = (row.program(1)?, row.program(2)?, row.program(3)?);
    verify(row.alloc, &base, &a, &b, &row.program(4)?).ok()
}

fn outcome_of(alloc: Global, program: &Program, most: u64) -> Result<Outcome, NoMemory> {
    run(alloc, program, &State::new(alloc), most)
}

fn put_run(alloc: Global, out: &mut Out, program: &Program, most: u64) {
    match outcome_of(alloc, program, most) {
        Ok(outcome) => put_value(alloc, out, outcome_value(alloc, &outcome)),
        Err(_) => out.cut(),
    }
}
