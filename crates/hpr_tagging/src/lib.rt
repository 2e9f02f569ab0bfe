//! Puts tags into a text in which some parts have none, as where a person wrote new parts by hand.
//!
//! The bytes are cut into words and signs, whether or not they are a text. From these the greatest serial
//! of the author is known, how many parts have no tag, and before which bytes tags are put in. The text
//! with these is read as any other, and a place in it is led back to the text as it was written.
#![tactic(auto)]

mod changes;
mod counts;
pub mod laws;
mod lexemes;
mod reader;
mod texts;

pub use hpr_syntax::{Program, ShapeError};
pub use reader::{Tagged, TaggingError, tag_parts};
