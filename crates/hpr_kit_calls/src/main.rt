//! Calls of the crates below hprkit's top call that show conflicts, places, graphs and impact, as rows.
//! Its rows are those of hpr_rows. A text may spell vertices, edges or conflicts, a line each, in the form in which hpr
//! prints them.
#![tactic(auto)]

mod drawn;
mod graphs;
mod groups;
mod impact;
mod interference;
mod located;
mod marks;
mod numbers;
mod outcome;
mod put;
mod reasons;
mod sentences;
mod sources;
mod spelled;

use hpr_rows::{Calls, Out, Row, Sheet, take};
use std::io;

struct KitCalls;

impl Calls for KitCalls {
    fn answer(row: Row<'_>, out: &mut Out) -> Option<()> {
        match row.word(0)? {
            "conflicts" => groups::call(row, out),
            "interference" => interference::call(row, out),
            "located" => located::call(row, out),
            "drawn" => drawn::call(row, out),
            "impact" => impact::call(row, out),
            "outcome" => outcome::call(row, out),
            _ => None,
        }
    }
}

fn main(rt: HostRuntime) -> io::Result<()> {
    let alloc = rt.alloc();
    let mut texts = Vec::new(alloc);
    let mut sheet = Sheet::new(alloc);
    for line in rt.lines(alloc) {
        let line = line?;
        if take::<KitCalls>(alloc, &mut texts, &mut sheet, line.as_str()).is_none() {
            sheet.refuse(line.as_str());
        }
    }
    let text = sheet.end(alloc);
    print!(rt; "{text}")
}
