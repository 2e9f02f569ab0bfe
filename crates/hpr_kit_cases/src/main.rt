//! Calls of hprkit over files in memory, as rows.
//!
//! Its rows are those of hpr_rows, whose texts are the files. A call is the words of one behind what it is made over:
//! `hprkit WORDS` where nothing fails, `unread WORDS` over a shelf whose first fetch fails, `unwritten WORDS` over a
//! store that gives no file other bytes, and `out ROOM WORDS` and `err ROOM WORDS` over a sink that has room for so
//! many bytes. It prints `status N`, then `out COUNT` and `err COUNT`, each with the text behind it whose bytes are
//! counted, where it isn't empty; and for each file that got other bytes `file NAME` and `bytes COUNT` with these.
#![tactic(auto)]

mod call;
mod store;

use hpr_rows::{Calls, Out, Row, Sheet, take};
use std::io;

struct KitCalls;

impl Calls for KitCalls {
    fn answer(row: Row<'_>, out: &mut Out) -> Option<()> {
        match row.word(0)? {
            "hprkit" => call::plain(row, out),
            "unread" => call::unread(row, out),
            "unwritten" => call::unwritten(row, out),
            "out" => call::cut_out(row, out),
            "err" => call::cut_err(row, out),
            _ => None,
        }
    }
}

fn main(rt: HostRuntime) -> io::Result<()> {
    let alloc = rt.alloc();
    let mut texts = Vec::new(alloc);
    let mut sheet = Sheet::new(alloc);
    for line in rt.lines(alloc) {
        let line = line?;
        if take::<KitCalls>(alloc, &mut texts, &mut sheet, line.as_str()).is_none() {
            sheet.refuse(line.as_str());
        }
    }
    let text = sheet.end(alloc);
    print!(rt; "{text}")
}
