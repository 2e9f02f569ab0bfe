//! Programs read, merged, printed and run by these crates, as docs/calling.md tells.
#![tactic(auto)]

mod calling;
mod merging;
mod running;
mod statements;

use crate::calling::merged_both_ways;
use crate::merging::merge_texts;
use crate::running::final_values;
use crate::statements::merge_statements;
use std::io;

const BASE: &[u8] = b"program issued 1:2 1.1: price := 40; 1.2: total := price * 3; end(total)";

const A: &[u8] =
    b"program issued 1:2, 2:1 1.1: price := 40; 1.2: total := price * 3; 2.1: count := 3; end(count, total)";

const B: &[u8] =
    b"program issued 1:2, 3:1 1.1: price := 40; 1.2: total := price * 3; 3.1: tax := total / 5; end(tax, total)";

// Statements of another language: 10 is the number of a text that counts items, 20 of one that adds them up, and 30 of one
// that takes the last of so many.
const COUNTED: &[u8] = b"program issued 1:1 1.1: count := 10 % items; end(count)";

const SUMMED: &[u8] =
    b"program issued 1:1, 2:1 1.1: count := 10 % items; 2.1: sum := 20 % items; end(count, sum)";

const LAST: &[u8] =
    b"program issued 1:1, 3:1 1.1: count := 10 % items; 3.1: last := 30 % items % count; end(count, last)";

// Prints the merged program and its final values, then a merged program of another language, and then what two calls of the
// whole program print.
fn main(rt: HostRuntime) -> io::Result<()> {
    let alloc = rt.alloc();
    let Ok(merged) = merge_texts(alloc, BASE, A, B) else {
        return println!(rt; "not merged");
    };
    if let Ok(text) = std::str::from_utf8(merged.as_slice()) {
        print!(rt; "{text}")?;
    }
    if let Ok(Some(finals)) = final_values(alloc, merged.as_slice(), 1000) {
        for (name, value) in finals.list() {
            let number = value.number();
            println!(rt; "{name} {number}")?;
        }
    }
    let Ok(statements) = merge_statements::<u64, u64>(alloc, COUNTED, SUMMED, LAST) else {
        return println!(rt; "not merged");
    };
    if let Ok(text) = std::str::from_utf8(statements.as_slice()) {
        print!(rt; "{text}")?;
    }
    let Some((first, second)) = merged_both_ways(alloc, BASE, A, B) else {
        return println!(rt; "not called");
    };
    for printed in [&first, &second] {
        if let Ok(text) = std::str::from_utf8(printed.bytes()) {
            print!(rt; "{text}")?;
        }
    }
    Ok(())
}
