//! What comes of an integration.
use hpr_graph::{Graph, ManyConflict, Tag, Vertex};
use hpr_rebuild::FirstClash;
use hpr_syntax::Program;

/// What was searched for a program, and with how many tries.
#[derive(Drop)]
pub struct Sought {
    /// The graph that the program was to have: the merged graph, in which no tag has two contents.
    pub graph: Graph,
    /// The parts that got new tags, as they were, in the order of vertices, each with its new tag.
    pub renamed: Vec<(Vertex, Tag)>,
    /// How many tries were made.
    pub tries: u64,
}

/// What comes of an integration of a base and its variants.
#[derive(Drop)]
pub enum Outcome {
    /// The variants interfere: all conflicts, in the order of hpr's lines.
    Interference(Vec<ManyConflict>),
    /// The merged program.
    Merged(Program, Sought),
    /// No program has the graph; and the first clash of the search, where there is one.
    NoProgram(Sought, Option<FirstClash>),
    /// The tries are spent; and the first clash of the search, where there is one.
    Spent(Sought, Option<FirstClash>),
}
