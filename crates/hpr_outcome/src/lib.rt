//! What comes of an integration of any number of variants, with all that a tool wants to know of it: the graph
//! that was searched for, which parts got new tags, how many tries were made, and the first clash.
#![tactic(auto)]

mod merging;
mod outcome;
mod search;

pub use hpr_rebuild::FirstClash;
pub use merging::merge_outcome;
pub use outcome::{Outcome, Sought};
