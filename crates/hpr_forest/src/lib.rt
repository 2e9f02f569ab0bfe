//! Orders of the items of a forest, one by one: depth-first orders in which each sibling comes after those that must
//! come before it.
//!
//! What is left to be placed under an item is placed before anything else, so each order is the preorder of one tree.
//!
//! The orders are found by a backtracking walk down a tree of choices, for any rules of what may stand next: it visits each complete list
//! once, in lexicographic order, and keeps nothing but the list at hand.
//!
//! Beside it stands the search for the first whole list that fits, which gives up a front where its rules say that nothing behind it fits, and the
//! first number that makes it give one up.
#![tactic(auto)]

mod backtracking;
mod blocks;
mod choices;
mod counts;
mod filling;
mod first;
mod fitting;
mod orders;
mod pending;
mod placing;
mod ready;
mod sparse;
mod walk;

pub use backtracking::Backtracking;
pub use blocks::Blocks;
pub use choices::Choices;
pub use filling::has_order;
pub use first::first_clash;
pub use fitting::{Found, first_fitting};
pub use orders::Orders;
pub use pending::Pending;
pub use walk::{first_order, next_order};
