//! Integration of any number of a program's variants: the merged graph of the variants and their base, the
//! conflicts of the variants, and the program that has the merged graph. Horwitz, Prins and Reps (1989) have
//! all of it of two variants, and name no edge for a conflict.
#![tactic(auto)]

mod integration;
mod programs;
mod stop;

pub use hpr_graph::{Edge, Graph, ManyConflict, NoMemory, Vertex};
pub use hpr_merge_many::{ManyMerged, merge_many};
pub use hpr_syntax::Program;
pub use integration::integrate_many;
pub use stop::ManyStop;
