//! The words of the language: names, keywords, tags, literals, expressions and tokens, and the
//! definitions that say what they are. Names, tags, literals and expressions have a total order.
#![tactic(auto)]

mod expr;
mod keyword;
pub mod limits;
mod memory;
mod name;
pub mod names;
mod tag;
mod token;

pub use expr::{Binary, Expr, Literal, Operand, Unary};
pub use keyword::Keyword;
pub use memory::NoMemory;
pub use name::{Name, NameError, copy_names, is_array, is_name, is_name_byte, is_name_like};
pub use tag::Tag;
pub use token::{Sign, Token};
