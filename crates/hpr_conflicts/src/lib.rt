//! Conflicts in groups that one edge explains, and in words.
#![tactic(auto)]

mod groups;
mod key;
mod words;

pub use groups::{GroupNumbers, group_numbers, group_rows};
pub use words::sentence;
