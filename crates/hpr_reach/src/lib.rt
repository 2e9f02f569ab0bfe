//! What undisturbed paths reach: which points a definition comes to, and which names a program
//! takes from before it.
#![tactic(auto)]

mod bits;
pub mod laws;
mod live;
mod search;

pub use bits::BitRow;
pub use live::live_at_entry;
pub use search::reach;
