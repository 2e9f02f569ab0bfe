//! Programs made from a seed: a base of so many parts and two variants of it, for benchmarks and for
//! trying the tool.
#![tactic(auto)]

mod base;
mod draws;
mod groups;
mod parts;
mod set;
mod variant;

pub use set::{SampleSet, sample};
