//! The texts of reports.
#![tactic(auto)]

mod conflicts;
mod edges;
mod graphs;
mod objects;
mod outcome;
mod points;
mod table;
mod values;

pub use conflicts::{conflicts_text, many_conflicts_text};
pub use graphs::{edge_text, edge_words, graph_text, vertex_text, vertex_words};
pub use objects::graph_json;
pub use outcome::{outcome_line, outcome_text};
pub use points::affected_text;
pub use table::table_text;
