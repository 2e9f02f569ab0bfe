//! What hpr answers, as JSON.
#![tactic(auto)]

mod answers;
mod graphs;
mod line;
mod members;
mod outcomes;
mod points;
mod refusals;
mod verdicts;
mod vertices;

pub use answers::{conflicts_value, no_program_value, program_value, spent_value};
pub use graphs::{edge_values, graph_value};
pub use line::json_line;
pub use members::put_text;
pub use outcomes::outcome_value;
pub use points::points_value;
pub use refusals::{absent_value, edges_value, refusal_value, state_value, words_value};
pub use verdicts::verdict_value;
pub use vertices::{carried_value, control_value, flow_value, order_value, vertex_value};
