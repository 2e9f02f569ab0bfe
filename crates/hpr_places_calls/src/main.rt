//! Calls of hpr_places, as rows.
//! Its rows are those of hpr_rows.
#![tactic(auto)]

mod places;

use hpr_rows::{Calls, Out, Row, Sheet, take};
use std::io;

struct PlacesCalls;

impl Calls for PlacesCalls {
    fn answer(row: Row<'_>, out: &mut Out) -> Option<()> {
        match row.word(0)? {
            "places" => places::call(row, out),
            "line" => places::line(row, out),
            _ => None,
        }
    }
}

fn main(rt: HostRuntime) -> io::Result<()> {
    let alloc = rt.alloc();
    let mut texts = Vec::new(alloc);
    let mut sheet = Sheet::new(alloc);
    for line in rt.lines(alloc) {
        let line = line?;
        if take::<PlacesCalls>(alloc, &mut texts, &mut sheet, line.as_str()).is_none() {
            sheet.refuse(line.as_str());
        }
    }
    let text = sheet.end(alloc);
    print!(rt; "{text}")
}
