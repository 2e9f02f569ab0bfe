//! The judgement on a merged program that was made elsewhere.
use hpr_graph::{Conflict, Edge, Vertex};

/// Which of two graphs has what the other lacks (Horwitz, Prins and Reps 1989 have no such thing).
#[derive(Clone, Copy, Debug)]
pub enum Holder {
    /// The graph of the program that is offered.
    Offered,
    /// The merged graph, in which the parts that are split off have their new tags.
    Merged,
}

/// The judgement on a merged program that was made elsewhere (Horwitz, Prins and Reps 1989 have no such
/// thing).
#[derive(Drop)]
pub enum Verdict {
    /// The offered program has the merged graph.
    Same,
    /// The variants interfere: this is the first conflict.
    Conflict(Conflict),
    /// The least vertex that one of the two graphs alone has, and which one.
    Vertex(Vertex, Holder),
    /// The graphs have the same vertices: the least edge that one of them alone has, and which one.
    Edge(Edge, Holder),
}
