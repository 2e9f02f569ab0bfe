//! What a change of a program can reach, and why a point of a variant is affected.
#![tactic(auto)]

mod edges;
mod impact;
mod lines;
mod marks;
mod search;
mod targets;
mod values;
mod why;

pub use hpr_graph::{Graph, NoMemory};
pub use impact::impact_text;
pub use lines::marked_text;
pub use marks::impact_marks;
pub use values::{impact_value, reasons_value};
pub use why::{Reason, reasons};
