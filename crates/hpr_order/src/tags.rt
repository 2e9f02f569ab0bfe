//! Tags that have two contents.
ghost use Rattle.std.specs.Prelude.{◌≡◌, ◌↔◌, ◌⊎◌, true, IfOk, OnOk};
ghost use Rattle.std.specs.BTreeSet.{contains};
ghost use Rattle.hpr_terms.specs.declared.tag.Tag.{Tag};
ghost use Rattle.hpr_graph.specs.Graphs.{IsOnce};
ghost use Rattle.hpr_graph.specs.Order.{tag_cmp};
ghost use Rattle.hpr_order.specs.Least.{IsLeastIn, HasTag, HasTwoIn, lesser, noted};

use hpr_graph::{NoMemory, Tag, Vertex};
use std::alloc::Global;
use std::collections::BTreeSet;

/// The least tag that two of the vertices have, if there is one. No vertex stands twice, so these are two
/// contents.
pub(crate) fn repeated_tag(alloc: Global, vertices: &[Vertex]) -> Result<Option<Tag>, NoMemory>
    requires { IsOnce vertices.now }
    ensures { IfOk result (λ tag. IsLeastIn tag_cmp (HasTwoIn vertices.now) tag) }
{
    let mut seen = BTreeSet::new(alloc);
    let mut least = None;
    for vertex in vertices {
        least = noted(&mut seen, least, vertex)?;
    }
    Ok(least)
}

/// Puts the vertex's tag among those seen. One that was seen is the least repeated tag if it comes before
/// the least so far.
fn noted(
    seen: &mut BTreeSet<Tag>,
    least: Option<Tag>,
    vertex: &Vertex,
) -> Result<Option<Tag>, NoMemory>
    ensures seen { OnOk result ((t : Tag) → (contains tag_cmp seen.new t ≡ true)
        ↔ ((contains tag_cmp seen.old t ≡ true) ⊎ HasTag vertex.now t)) }
    ensures least { IfOk result (λ o. o ≡ noted (contains tag_cmp seen.old) least vertex.now) }
{
    match vertex {
        Vertex::Part(tag, _) => if seen.insert(*tag)? {
            Ok(least)
        } else {
            Ok(Some(lesser_tag(least, *tag)))
        },
        _ => Ok(least),
    }
}

/// The lesser of the two.
fn lesser_tag(least: Option<Tag>, tag: Tag) -> Tag
    ensures { result ≡ lesser tag_cmp least tag }
{
    match least {
        Some(other) if other <= tag => other,
        _ => tag,
    }
}
