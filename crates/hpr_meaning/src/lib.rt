//! What a program does step by step: the instances of a run, and what the theory says of them.
#![tactic(auto)]

mod definers;
pub mod laws;
mod memo;
mod names;
mod traced;
mod tracing;
mod turns;

pub use traced::{Instance, Origin, Read, Reading, Traced};
pub use tracing::trace;
