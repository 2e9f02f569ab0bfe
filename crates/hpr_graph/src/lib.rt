//! Dependence graphs: a finite set of vertices and a finite set of edges, kept with dense numbers, and
//! the definitions of the integration theory: the graph of a program, slices, affected and preserved
//! points, the merged graph and conflicts.
//!
//! The graphs are the program dependence graphs of Horwitz, Prins and Reps (1989), the slices those of
//! Reps and Yang (1988). Where a definition differs from theirs, its file of specs/ says so.
#![tactic(auto)]

mod conflict;
mod draft;
mod edge;
mod graph;
mod link;
pub mod links;
mod order;
mod ordered;
mod same;
mod sets;
mod vertex;

pub use conflict::{Conflict, ManyConflict, Side};
pub use draft::Draft;
pub use edge::{Edge, Kind};
pub use graph::Graph;
pub use hpr_syntax::{Content, Name, NoMemory, Tag};
pub use link::{Link, LinkKind};
pub use order::compare_vertices;
pub use ordered::number_among;
pub use vertex::{Vertex, place_of, same_vertex};
