//! Reads edit scripts: lists of the editor's commands, each with a `;` behind it.
//!
//! A command's head, up to its content or its `;`, is read here, one byte at a time, since the words
//! of scripts are not reserved; contents are read by hpr_text. A refusal has the exact place: the
//! length of the longest front that further bytes complete to a script.
#![tactic(auto)]

mod found;
pub mod laws;
mod reader;
mod scanner;
mod stage;
mod word;

pub use hpr_edit::{Command, FinalNames, Place};
pub use hpr_syntax::Content;
pub use reader::{ScriptError, read_script};
