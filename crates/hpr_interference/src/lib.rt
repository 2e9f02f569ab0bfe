//! What interferes in an integration, for tools and for persons: all conflicts as JSON, with their places, in
//! groups that one edge explains, each with a sentence that says what the edge means.
#![tactic(auto)]

mod answer;
mod found;
mod groups;
mod own;
mod shown;

pub use answer::conflicts_value;
pub use found::conflicts_among;
pub use hpr_graph::{Graph, ManyConflict, NoMemory};
pub use hpr_located::Source;
