//! The points of a program, the pairs of points that may follow one another, and the paths that
//! they make: which part may run after which; and what holds of the skeletons of programs alone: where
//! paths lead, and in which order a run comes to the parts, whatever their expressions are worth.
//!
//! The points and pairs are those of the control flow graph of Horwitz, Prins and Reps (1989), in
//! which a conditional or a loop stands for its predicate.
#![tactic(auto)]

mod build;
pub mod laws;
pub mod skeletons;
mod spot;
mod succ;
mod used;

pub use build::successors;
pub use hpr_terms::{Name, NoMemory, Tag};
pub use spot::Step;
pub use succ::Succ;
