//! The forms in which an answer can be asked for.

/// What is done with the canonical text of a file's program.
#[derive(Clone, Copy, Drop)]
pub enum FormatForm {
    /// It is printed.
    Print,
    /// It is compared with the file.
    Check,
    /// The file gets it.
    InPlace,
}

/// How a graph is told.
#[derive(Clone, Copy, Drop)]
pub enum GraphForm {
    /// As JSON.
    Json,
    /// As a text that Graphviz draws, without the edges of some kinds.
    Dot(LeftOut),
}

/// Which edges a picture of a graph leaves out.
#[derive(Clone, Copy, Drop)]
pub struct LeftOut {
    /// Control edges.
    pub control: bool,
    /// Flow edges, also those that a loop carries.
    pub flow: bool,
    /// Order edges.
    pub order: bool,
}

/// How the points that a change can reach are told.
#[derive(Clone, Copy, Drop)]
pub enum ImpactForm {
    /// One a line, as hpr tells points.
    Points,
    /// As JSON.
    Json,
    /// As marks in front of the lines of the text in which such parts begin.
    Marks,
}
