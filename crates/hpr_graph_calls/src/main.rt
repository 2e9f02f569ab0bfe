//! Calls of the layers that know graphs, of integrations, and of the searches below them, as rows.
//! Its rows are those of hpr_rows.
#![tactic(auto)]

mod any;
mod engine;
mod forest;
mod graph;
mod judged;
mod many;
mod orders;
mod region;
mod search;
mod slices;
mod spelled;
mod split;
mod tries;
mod walk;

use hpr_rows::{Calls, Out, Row, Sheet, take};
use std::io;

struct GraphCalls;

impl Calls for GraphCalls {
    fn answer(row: Row<'_>, out: &mut Out) -> Option<()> {
        match row.word(0)? {
            "any" => any::call(row, out),
            "graph" => graph::call(row, out),
            "slice" => slices::call(row, out),
            "order" => orders::call(row, out),
            "many" => many::call(row, out),
            "integrate" => engine::call(row, out),
            "verify" => judged::call(row, out),
            "region" => region::call(row, out),
            "search" => search::call(row, out),
            "walk" => walk::call(row, out),
            "forest" => forest::call(row, out),
            _ => None,
        }
    }
}

fn main(rt: HostRuntime) -> io::Result<()> {
    let alloc = rt.alloc();
    let mut texts = Vec::new(alloc);
    let mut sheet = Sheet::new(alloc);
    for line in rt.lines(alloc) {
        let line = line?;
        if take::<GraphCalls>(alloc, &mut texts, &mut sheet, line.as_str()).is_none() {
            sheet.refuse(line.as_str());
        }
    }
    let text = sheet.end(alloc);
    print!(rt; "{text}")
}
