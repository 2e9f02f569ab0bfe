//! Graphs of programs shown: as JSON with where the vertices stand and what they define and use, and as pictures.
#![tactic(auto)]

mod dot;
mod edges;
mod nodes;
mod put;
mod told;

pub use dot::{LeftOut, dot_text};
pub use told::{graph_json, graph_value};
