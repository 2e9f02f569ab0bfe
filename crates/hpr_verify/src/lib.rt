//! The judgement on a merged program that was made elsewhere: whether it has the merged graph of two variants
//! and their base, and if not, what shows it. Horwitz, Prins and Reps 1989 have no such thing.
#![tactic(auto)]

mod difference;
mod error;
mod first;
mod judgement;
pub mod laws;
mod verdict;

pub use error::VerifyError;
pub use hpr_graph::{Conflict, Edge, Vertex};
pub use hpr_syntax::Program;
pub use judgement::verify;
pub use verdict::{Holder, Verdict};
