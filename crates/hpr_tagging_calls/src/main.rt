//! Calls of hpr_tagging, as rows.
//! Its rows are those of hpr_rows.
#![tactic(auto)]

mod tagging;

use hpr_rows::{Calls, Out, Row, Sheet, take};
use std::io;

struct TaggingCalls;

impl Calls for TaggingCalls {
    fn answer(row: Row<'_>, out: &mut Out) -> Option<()> {
        match row.word(0)? {
            "tag" => tagging::tag(row, out),
            "parts" => tagging::parts(row, out),
            "program" => tagging::program(row, out),
            _ => None,
        }
    }
}

fn main(rt: HostRuntime) -> io::Result<()> {
    let alloc = rt.alloc();
    let mut texts = Vec::new(alloc);
    let mut sheet = Sheet::new(alloc);
    for line in rt.lines(alloc) {
        let line = line?;
        if take::<TaggingCalls>(alloc, &mut texts, &mut sheet, line.as_str()).is_none() {
            sheet.refuse(line.as_str());
        }
    }
    let text = sheet.end(alloc);
    print!(rt; "{text}")
}
