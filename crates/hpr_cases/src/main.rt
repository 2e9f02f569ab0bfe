//! Makes the calls of the top call that stand on standard input, over files in memory, and compares what each comes to
//! with what it is to come to.
//!
//! A case is some lines, by their first sign:
//!
//! - `# TITLE` begins a case;
//! - `@ NAME` begins a file, whose lines follow up to the next sign; between two of them stands a newline;
//! - `+ TEXT` goes on in the last line of the file;
//! - `* FIRST LAST TEXT` goes on with the text for each number from FIRST to LAST, which stands in the place of `$`;
//! - `! shelf CALLS`, `! out STEP ROOM CALLS` and `! err STEP ROOM CALLS` name the calls that fail, from 0 on, and the
//!   most bytes that a sink takes in a call and in all;
//! - `! noting shelf` takes a shelf that notes what it is asked for: a line `fetch NAME MOST` for each fetch;
//! - `! last count` takes an `err` whose count of failures stands at the last value of a u64;
//! - `! steady shelf` and `! steady sinks` take a shelf and sinks that never fail, of which the sinks keep nothing;
//! - `$ WORDS` makes the call; a case may make several, over the same files;
//! - `= LINE` is a line that the call comes to: `status N`, then `out COUNT` and `err COUNT`, each with the text behind it
//!   whose bytes are counted, where it isn't empty.
//!
//! In texts and words `\HH` is the byte of these hexadecimal digits, and `\` alone an empty word.
#![tactic(auto)]

mod call;
mod case;
mod last_count;
mod noting;
mod text;

use crate::call::tell;
use crate::case::Case;
use hpr_rows::Sheet;
use std::alloc::Global;
use std::io;

// Takes a line of a case.
fn take(alloc: Global, case: &mut Case, sheet: &mut Sheet, line: &str) -> Option<()> {
    if let Some(title) = line.strip_prefix("# ") {
        *case = Case::new(alloc);
        sheet.begin(alloc, title);
        return Some(());
    }
    if sheet.takes(line) {
        return Some(());
    }
    match line.strip_prefix("$ ") {
        Some(words) => tell(alloc, case, words, sheet.told()),
        None => case.take_line(alloc, line),
    }
}

fn main(rt: HostRuntime) -> io::Result<()> {
    let alloc = rt.alloc();
    let mut case = Case::new(alloc);
    let mut sheet = Sheet::new(alloc);
    for line in rt.lines(alloc) {
        let line = line?;
        if take(alloc, &mut case, &mut sheet, line.as_str()).is_none() {
            sheet.refuse(line.as_str());
        }
    }
    let text = sheet.end(alloc);
    print!(rt; "{text}")
}
