//! Calls of the layers that know names, expressions, programs and their texts, and of those around them, as rows.
//! Its rows are those of hpr_rows.
#![tactic(auto)]

mod arrays;
mod asking;
mod conflicts;
mod edits;
mod expression;
mod files;
mod inputs;
mod point;
mod running;
mod samples;
mod state;
mod term;
mod text;
mod tree;

use hpr_rows::{Calls, Out, Row, Sheet, take};
use std::io;

struct ProgramCalls;

impl Calls for ProgramCalls {
    fn answer(row: Row<'_>, out: &mut Out) -> Option<()> {
        match row.word(0)? {
            "array" => arrays::call(row, out),
            "copy" => arrays::copied(row, out),
            "text" => text::call(row, out),
            "expression" => expression::call(row, out),
            "tree" => tree::call(row, out),
            "term" => term::call(row, out),
            "run" => running::call(row, out),
            "point" => point::call(row, out),
            "edit" => edits::call(row, out),
            "file" => files::call(row, out),
            "input" => inputs::call(row, out),
            "words" => asking::call(row, out),
            "sample" => samples::call(row, out),
            "conflict" => conflicts::call(row, out),
            _ => None,
        }
    }
}

fn main(rt: HostRuntime) -> io::Result<()> {
    let alloc = rt.alloc();
    let mut texts = Vec::new(alloc);
    let mut sheet = Sheet::new(alloc);
    for line in rt.lines(alloc) {
        let line = line?;
        if take::<ProgramCalls>(alloc, &mut texts, &mut sheet, line.as_str()).is_none() {
            sheet.refuse(line.as_str());
        }
    }
    let text = sheet.end(alloc);
    print!(rt; "{text}")
}
