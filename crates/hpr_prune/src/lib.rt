//! Slices as programs: a program without the parts that a slice of its graph lacks.
//!
//! The slices are those of Reps and Yang (1988).
#![tactic(auto)]

pub mod laws;
mod left;

pub use hpr_graph::{Graph, NoMemory};
pub use left::prune;
