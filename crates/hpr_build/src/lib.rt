//! The dependence graph of a program.
#![tactic(auto)]

mod controls;
mod error;
mod flow_links;
mod flows;
mod graph;
mod initial;
pub mod laws;
mod lists;
mod order_links;
mod orders;
mod places;
mod pushes;
mod reaching;
mod tables;
mod uses;
mod variables;

pub use error::BuildError;
pub use graph::graph_of;
