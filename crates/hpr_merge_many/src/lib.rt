//! The merged graph of any number of variants and their base, with all conflicts. Horwitz, Prins and Reps (1989)
//! have it of two variants, and name no edge for a conflict.
#![tactic(auto)]

mod conflicts;
mod versions;

pub use hpr_graph::{Edge, Graph, ManyConflict, NoMemory, Vertex};
pub use versions::{ManyMerged, merge_many};
