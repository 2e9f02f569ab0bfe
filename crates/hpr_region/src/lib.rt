//! A search for arrangements that judges each part before it places it (after Horwitz, Prins and Reps 1989, who
//! order the parts of a block by another method).
#![tactic(auto)]

mod clashing;
mod flows;
pub mod laws;
mod needs;
mod pending;
mod plan;
mod planning;
mod rivals;
mod search;
mod summary;
mod tables;

pub use hpr_graph::{Graph, NoMemory, Vertex};
pub use search::Search;
