//! One search over directed graphs: which points do walks lead to?
#![tactic(auto)]

mod digraph;
mod marks;
mod rows;
mod search;

pub use digraph::Digraph;
pub use marks::is_marked;
pub use rows::Rows;
pub use search::{Found, reachable, reached};
