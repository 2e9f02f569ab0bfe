//! Why a file, a script or a command of a script is refused, and what is said of it.
#![tactic(auto)]

mod commands;
mod files;
pub mod laws;
mod reasons;

pub use commands::command_message;
pub use files::Refusal;
pub use hpr_edit::{Command, CommandRefusal, EditError};
pub use hpr_syntax::{Program, ShapeError, Tag};
pub use reasons::about;
