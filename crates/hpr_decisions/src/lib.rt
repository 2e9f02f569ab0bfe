//! What a call of the program decides and how it ends, as definitions; and the theorems on them.
#![tactic(auto)]

pub mod laws;
mod status;

pub use status::Status;
