//! The order in which the programs with a graph's parts and control edges are tried, and how the control
//! edges of a graph make a tree (after Horwitz, Prins and Reps 1989, who leave the order open).
#![tactic(auto)]

mod arranged;
mod arrangements;
mod blocks;
mod building;
mod control;
mod item;
mod joining;
mod levels;
mod lift;
mod listed;
mod numbers;
mod ordered;
mod preorder;
mod ranking;
mod reached;
mod tags;
mod tree;

pub use arranged::arrange;
pub use arrangements::Arrangements;
pub use hpr_graph::{Graph, NoMemory, Tag, Vertex};
pub use item::Item;
pub use numbers::{final_names, places_of};
pub use ordered::{RankedParts, parts_by_rank};
pub use preorder::parts;
pub use ranking::{rank, rank_of_all};
pub use tree::{OrderError, RegionTree, regions};
