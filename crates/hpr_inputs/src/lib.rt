//! What the words of a call name: files and the programs and scripts that they spell, states and points;
//! and the answers and refusals that are decided of it.
#![tactic(auto)]

mod answer;
mod files;
mod points;
mod programs;
mod states;
mod versions;

pub use answer::{Kind, Report, Stop};
pub use files::{read_commands, read_program, read_text};
pub use points::read_points;
pub use programs::read_programs;
pub use states::read_state;
pub use versions::{Versions, read_versions};
