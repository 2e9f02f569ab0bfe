//! Programs as trees with tags: blocks, statements, issued numbers, and the tests that a tree must
//! pass to be a program.
#![tactic(auto)]

mod issued;
pub mod laws;
mod program;
pub mod proper;
mod rows;
mod shape;
mod tree;
mod value;

pub use hpr_arrays::Cells;
pub use hpr_terms::{Binary, Expr, Literal, Name, NameError, NoMemory, Operand, Tag, Unary};
pub use issued::{Issued, IssuedDraft};
pub use program::Program;
pub use rows::{Content, Row, Structure, content_of, has_content, same_content, structure_of};
pub use shape::{ShapeError, has_wrong_name, is_large, is_large_content};
pub use tree::{Block, Stmt, defines, expr_of, index_of, uses};
pub use value::{Value, Written};
