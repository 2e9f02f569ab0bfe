//! The edges of a dependence graph.
use crate::Vertex;
use hpr_syntax::Name;

/// What kind of dependence an edge is (Horwitz, Prins and Reps 1989).
pub enum Kind {
    /// The target runs where the test of the source comes out as this label; from Entry the label is
    /// true.
    Control(bool),
    /// A value of the name may flow from the source to the target with no back edge to a loop that
    /// encloses both.
    Independent(Name),
    /// A value of the name may flow from the source to the target by a back edge to this loop, which
    /// encloses both.
    Carried(Name, Vertex),
    /// Source and target define one name, both flow to this vertex, their shared use, and the source
    /// stands to the left.
    Order(Vertex),
}

/// A kind is dropped in one call.
impl Drop for Kind {
    fn drop(self) {
        match self {
            Kind::Control(_) => {}
            Kind::Independent(_) => {}
            Kind::Carried(_, _) => {}
            Kind::Order(_) => {}
        }
    }
}

/// An edge of a dependence graph.
pub struct Edge {
    pub to: Vertex,
    pub from: Vertex,
    pub kind: Kind,
}

/// An edge is dropped in one call.
impl Drop for Edge {
    fn drop(self) {
        let Edge {
            to: _,
            from: _,
            kind: _,
        } = self;
    }
}
