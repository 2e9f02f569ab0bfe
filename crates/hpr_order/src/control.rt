//! The control edges into a vertex.
ghost use Rattle.std.specs.Prelude.{◌≡◌, ◌≢◌, ◌↔◌, ◌<◌, ℕ, Bool, Some, IfSome, IsNone, IsTrue, Contains, length, slice_get};
ghost use Rattle.hpr_graph.specs.declared.vertex.Vertex.{Vertex};
ghost use Rattle.hpr_graph.specs.declared.link.Link.{Link};
ghost use Rattle.hpr_graph.specs.Graphs.{IsOnce};
ghost use Rattle.hpr_graph.specs.Numbered.{graph_in, row_of};
ghost use Rattle.hpr_order.specs.Regions.{Allows, AllowsIn};
ghost use Rattle.hpr_order.specs.Controls.{IsOnlyControl, label_of};

use hpr_graph::{Content, Graph, Link, LinkKind, Vertex};
use hpr_syntax::Structure;

/// The label of a control edge, or none for another kind.
pub(crate) fn label_of(kind: LinkKind) -> Option<bool>
    ensures { result ≡ label_of kind }
{
    match kind {
        LinkKind::Control(label) => Some(label),
        _ => None,
    }
}

/// The source and the label of the one control edge among these, or none where there is none or are
/// several.
pub(crate) fn only_control(row: &[Link]) -> Option<(usize, bool)>
    requires { IsOnce row.now }
    ensures found { IfSome result (λ p. IsOnlyControl row.now p.0 p.1) }
    ensures none { IsNone result → (from : ℕ) (label : Bool) → ¬ IsOnlyControl row.now from label }
{
    let mut found = None;
    for link in row {
        if let Some(label) = label_of(link.kind) {
            if found.is_some() {
                return None;
            }
            found = Some((link.from, label));
        }
    }
    found
}

/// Whether a control edge may go so.
pub(crate) fn is_allowed(from: &Vertex, label: bool, to: &Vertex) -> bool
    ensures { IsTrue result ↔ Allows from.now label to.now }
{
    match from {
        Vertex::Entry => label && !matches!(to, Vertex::Entry),
        Vertex::Part(_, content) => is_allowed_in(content, label)
            && matches!(to, Vertex::Part(_, _)),
        _ => false,
    }
}

/// Whether what says this has a branch with this label.
fn is_allowed_in(content: &Content, label: bool) -> bool
    ensures { IsTrue result ↔ AllowsIn content.now label }
{
    match content.structure() {
        Structure::Simple => false,
        Structure::Conditional => true,
        Structure::Loop => label,
    }
}
