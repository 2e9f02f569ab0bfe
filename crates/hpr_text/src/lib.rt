//! Reads the text of a program, with the tag of each part or without tags, or of a content.
//!
//! A machine of tokens says where each token leads, by one function for each place of the grammar,
//! and hands the tokens of an expression to the machine of hpr_expressions; the reader of bytes
//! finds the tokens, and names the exact place of a refusal.
#![tactic(auto)]

mod blocks;
mod boxed;
mod content;
mod form;
mod found;
pub mod laws;
mod machine;
mod places;
mod reader;
mod state;

pub use content::read_content;
pub use form::Mode;
pub use hpr_syntax::{Content, NoMemory, Program, ShapeError};
pub use reader::{TextError, parse};
