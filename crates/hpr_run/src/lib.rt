//! The interpreter: values of expressions, and runs of programs that are bounded by a number of steps.
#![tactic(auto)]

mod interpreter;
pub mod laws;
mod observer;
mod state;
mod values;

pub use hpr_syntax::{Cells, Value, Written};
pub use interpreter::{FinalValues, Outcome, final_values, run, run_observed};
pub use observer::Observer;
pub use state::State;
pub use values::{Fault, eval};
