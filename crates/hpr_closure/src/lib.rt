//! What is reached from the directly affected points: where an edge counts, and the laws on which forward
//! closure rests.
//!
//! The laws are contracts of functions without arguments, and the lemmas of proofs/ are for the crates above.
#![tactic(auto)]

mod counts;
pub mod laws;

pub use counts::counts_at;
