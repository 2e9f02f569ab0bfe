//! The canonical text of programs, contents and expressions.
#![tactic(auto)]

mod blocks;
mod contents;
mod expressions;
mod program;
mod put;

pub use contents::{content_text, expr_text};
pub use program::text_of;
