//! Programs with other tags: the laws say that they have the same graph and do the same, but for their tags; so a
//! program with the merged graph keeps the meaning of all variants, also where parts of it were split off.
//!
//! The laws are contracts of functions without arguments.
#![tactic(auto)]

pub mod laws;
