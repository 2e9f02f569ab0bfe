//! The program: real files and streams, standard input as the file `-`, and the top call over them.
#![tactic(auto)]

mod store;

use crate::store::FileStore;
use hpr_kit::{Status, kit};
use hpr_system::{InputShelf, StdSink};
use std::io;
use std::process::ExitCode;

// The status for want of memory, where there is none even for the words.
const NO_MEMORY: u8 = 8;

fn main(rt: HostRuntime) -> ExitCode {
    let words: Vec<String> = match read_words(&rt) {
        Ok(words) => words,
        Err(error) => {
            if error.kind() == io::ErrorKind::OutOfMemory {
                return ExitCode::from(NO_MEMORY);
            }
            Vec::new(rt.alloc())
        }
    };
    ExitCode::from(run(&rt, words.as_slice()).number())
}

// The call that the words ask for, over real files and streams.
fn run(rt: &HostRuntime, words: &[String]) -> Status {
    let mut shelf = InputShelf::new(rt, rt.stdin());
    let mut out = StdSink::new(rt.stdout());
    let mut err = StdSink::new(rt.stderr());
    let mut store = FileStore::new(rt);
    kit(
        rt.alloc(),
        words,
        &mut shelf,
        &mut store,
        &mut out,
        &mut err,
    )
}

// The words after the program's name. The error's kind is `OutOfMemory` where there is no memory for them, and another
// where a word is not UTF-8.
fn read_words(rt: &HostRuntime) -> io::Result<Vec<String>> {
    let mut words = Vec::new(rt.alloc());
    for word in std::env::args(rt)?.skip(1) {
        words.push(word)?;
    }
    Ok(words)
}
