//! Where the parts of a program stand, by bytes, lines and columns, and vertices as JSON with where they stand.
#![tactic(auto)]

mod located;
mod marks;
mod shown;
mod source;

pub use located::{Located, locate};
pub use shown::{conflict_at, edge_at, vertex_at, vertices_at, with_member};
pub use source::Source;
