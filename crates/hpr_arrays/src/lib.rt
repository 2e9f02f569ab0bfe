//! The elements of one array: 65,536 numbers, in pages that are made when they are first written.
#![tactic(auto)]

mod cells;
mod memory;
mod pages;

pub use cells::Cells;
pub use memory::NoMemory;
