//! The edges of a graph by the numbers of its vertices.

/// The kind of an edge by numbers. The name of a flow edge is the one that its source defines.
#[derive(Clone, Copy, PartialEq, Eq, PartialOrd, Ord)]
pub enum LinkKind {
    /// The label.
    Control(bool),
    Independent,
    /// The loop.
    Carried(usize),
    /// The shared use.
    Order(usize),
}

/// An edge of a graph, by the numbers of its source and of its loop or shared use. The row of links that it
/// stands in tells its target.
#[derive(Clone, Copy, PartialEq, Eq, PartialOrd, Ord)]
pub struct Link {
    pub from: usize,
    pub kind: LinkKind,
}
