//! What a variant of a program changed, and what it shares with others: directly affected, affected and
//! preserved points (the latter two after Horwitz, Prins and Reps 1989).
#![tactic(auto)]

mod comparison;
mod differing;
mod lacking;
pub mod laws;
mod lists;
mod points;

pub use comparison::Comparison;
pub use hpr_graph::{Graph, NoMemory};
pub use points::{affected, direct, preserved, preserved_beside, preserved_by};
