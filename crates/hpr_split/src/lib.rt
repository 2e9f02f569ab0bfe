//! New tags for some parts of a graph, so that no tag has two contents (Horwitz, Prins and Reps 1989 have no
//! tags).
#![tactic(auto)]

mod numbers;
mod parts;
mod renaming;
mod tags;

pub use hpr_graph::{Graph, NoMemory, Tag, Vertex};
pub use tags::{SplitTags, split};
