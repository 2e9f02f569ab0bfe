//! The words of a call of hprkit: each command's own words are read by `clap`, as hpr's are.
//!
//! The commands are `fmt FILE [--check | --in-place]`, `at FILE BYTE`, `tag FILE --author N [--keep]`,
//! `graph FILE --json | --dot [--no-control] [--no-flow] [--no-order]`, `impact FILE POINT.. [--json | --marks]`,
//! `affected BASE V`, `conflicts BASE V1 V2..` and `merge BASE V1 V2.. [--tries N]`. A call with the word `--help` asks for
//! the help, and the word `--version` alone for the version.
#![tactic(auto)]

mod asked;
mod commands;
mod forms;

pub use asked::{Asked, read_words};
pub use forms::{FormatForm, GraphForm, ImpactForm, LeftOut};
pub use hpr_words::WordsError;
