//! Slices of dependence graphs, and what is reached from some of their vertices.
//!
//! The slices are those of Reps and Yang (1988).
#![tactic(auto)]

mod order;
mod slices;
mod sources;
mod steps;
mod targets;

pub use hpr_graph::{Graph, NoMemory};
pub use slices::{forward, slice};
pub use sources::Sources;
pub use steps::steps_of;
