//! The editor: commands that change a program one at a time, and the inverses that take them back.
#![tactic(auto)]

mod apply;
mod change;
mod command;
mod editor;
mod exchange;
pub mod laws;
mod places;
mod put;
mod refusal;
mod revert;
mod script;

pub use command::{Command, EditError, FinalNames, Inverse, Place};
pub use editor::Editor;
pub use script::{CommandRefusal, apply_script};
