//! The words of a command line: each command's own words are read by `clap`.
//!
//! The commands are `integrate BASE V1 V2.. [--tries N]`, `run FILE [STATE..] [--steps N] [--trace]`,
//! `graph FILE [--json]`, `slice FILE POINT.. [--program]`, `affected BASE A`,
//! `trial BASE A B [STATE..] [--steps N]`, `edit FILE SCRIPT --author N`, `tag FILE --author N`,
//! `sample SEED PARTS` and `verify BASE A B M`. Another program reads the words of its own commands by the same
//! arguments.
#![tactic(auto)]

mod arguments;
mod asked;
mod commands;
mod found;
pub mod laws;

pub use arguments::{Argument, parse};
pub use asked::{Asked, WordsError, read_words};
pub use found::{flag_from, list_from, name_from, word_number_from};
