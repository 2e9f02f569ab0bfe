//! Reads an expression token by token: what programs and contents share, and whatever else has
//! expressions in it.
//!
//! A `Reader` is a machine of tokens. Its tokens are exactly those that the grammar spells
//! expressions with, grouped by the levels of its operators; whoever reads a larger text hands it
//! the tokens of an expression, and asks it whether the expression can end.
#![tactic(auto)]

mod expression;
pub mod laws;
mod pending;

pub use expression::{Reader, Reading};
pub use hpr_scan::{Fault, TokenMachine};
pub use hpr_terms::{Expr, Keyword, NoMemory, Sign, Token};
