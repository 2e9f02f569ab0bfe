//! Where the parts of a program stand in its text, so that an editor can mark them.
//!
//! The text is parsed first. Its parts are then found in one pass over the bytes, along the tree: the next token's
//! first byte, the byte behind what a part says, and behind the word that ends its blocks.
#![tactic(auto)]

pub mod laws;
mod lines;
mod place;
mod reader;
mod scan;
mod walk;

pub use lines::line_and_column;
pub use place::{Place, Placed};
pub use reader::places;
