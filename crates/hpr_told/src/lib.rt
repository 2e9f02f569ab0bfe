//! What comes of an integration as JSON, with the places of its parts: hpr's own answer, and beside it the graph that
//! was searched for, the parts that got new tags, how many tries were made, and the first clash of the search.
#![tactic(auto)]

mod clash;
mod outcome;
mod sought;

pub use hpr_graph::NoMemory;
pub use hpr_located::Source;
pub use hpr_outcome::Outcome;
pub use outcome::outcome_value;
