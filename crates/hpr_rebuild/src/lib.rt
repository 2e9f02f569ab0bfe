//! The program that has a graph, if there is one: the arrangements of the graph are tried in their
//! order (Horwitz, Prins and Reps 1989 for the graphs; they give the arrangements no order, and no
//! budget of tries).
#![tactic(auto)]

mod candidates;
mod clash;
mod count;
mod error;
pub mod laws;
mod search;

pub use clash::{FirstClash, first_clash};
pub use count::part_count;
pub use error::RebuildError;
pub use hpr_graph::{Graph, Vertex};
pub use hpr_syntax::{Issued, Program};
pub use search::{Rebuilt, rebuild, rebuild_counted};
