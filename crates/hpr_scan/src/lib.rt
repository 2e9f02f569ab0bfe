//! Reads a text by a machine of tokens: what every reader of texts shares.
//!
//! A machine says by its steps which tokens may follow one another. The reader finds the tokens in
//! the bytes and hands them to the machine. It takes exactly the texts of the lists of tokens that
//! lead the machine to an end. Of other bytes it names the exact place: the length of their longest
//! front that further bytes complete to such a text.
#![tactic(auto)]

mod machine;
mod reader;
mod scanner;
pub mod word;

pub use machine::{Fault, FrontMachine, TokenMachine};
pub use reader::{Refusal, read, read_front};
