//! Calls of hpr_json, as rows. Its rows are those of hpr_rows.
#![tactic(auto)]

mod graphs;
mod put;
mod refused;
mod said;

use hpr_rows::{Calls, Out, Row, Sheet, take};
use std::io;

struct JsonCalls;

impl Calls for JsonCalls {
    fn answer(row: Row<'_>, out: &mut Out) -> Option<()> {
        match row.word(0)? {
            "graph" => graphs::call(row, out),
            "refused" => refused::call(row, out),
            _ => said::call(row, out),
        }
    }
}

fn main(rt: HostRuntime) -> io::Result<()> {
    let alloc = rt.alloc();
    let mut texts = Vec::new(alloc);
    let mut sheet = Sheet::new(alloc);
    for line in rt.lines(alloc) {
        let line = line?;
        if take::<JsonCalls>(alloc, &mut texts, &mut sheet, line.as_str()).is_none() {
            sheet.refuse(line.as_str());
        }
    }
    let text = sheet.end(alloc);
    print!(rt; "{text}")
}
