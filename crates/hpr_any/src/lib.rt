//! The integration theorem for every meaning of a program's parts: whatever language they are of, with any values
//! and faults, what a call answers keeps the meaning. hpr's own meaning is one of them.
#![tactic(auto)]

mod integration;
mod judgement;
pub mod laws;
mod left;
mod variants;

pub use integration::integrate;
pub use judgement::verify;
pub use left::prune;
pub use variants::integrate_many;
