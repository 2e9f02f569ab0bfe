//! Vertices under their new tags.
ghost use Rattle.std.specs.Prelude.{◌≡◌, ◌+◌, ◌<◌, ◌≤◌, map, length, IfOk};
ghost use Rattle.hpr_graph.specs.InOrder.{Ascends};
ghost use Rattle.hpr_graph.specs.Order.{vertex_cmp};
ghost use Rattle.hpr_graph.specs.Split.{max_serial, new_tag, renamed, with_new_tags, with_tag};

use hpr_graph::{NoMemory, Tag, Vertex, number_among};
use std::alloc::Global;

/// The vertices, of which these parts, in the order of vertices, are under their new tags: the first has the
/// serial behind this one.
pub(crate) fn all_renamed(
    alloc: Global,
    vertices: &[Vertex],
    parts: &[Vertex],
    serial: u32,
) -> Result<Vec<Vertex>, NoMemory>
    requires ascend { Ascends vertex_cmp parts.now }
    requires serials { serial + length parts.now ≤ max_serial }
    ensures { IfOk result (λ v. v.items ≡ map (renamed (with_new_tags serial parts.now)) vertices.now) }
{
    let mut all = Vec::new(alloc);
    for vertex in vertices {
        all.push(renamed(alloc, vertex, parts, serial)?)?;
    }
    Ok(all)
}

/// The vertex, under its new tag if it is one of these parts.
fn renamed(
    alloc: Global,
    vertex: &Vertex,
    parts: &[Vertex],
    serial: u32,
) -> Result<Vertex, NoMemory>
    requires ascend { Ascends vertex_cmp parts.now }
    requires serials { serial + length parts.now ≤ max_serial }
    ensures { IfOk result (λ v. v ≡ renamed (with_new_tags serial parts.now) vertex.now) }
{
    match number_among(vertex, parts) {
        Some(at) => with_tag(alloc, vertex, new_tag(serial + at as u32 + 1)),
        None => vertex.copy(alloc),
    }
}

/// The vertex, under this tag if it is a part.
fn with_tag(alloc: Global, vertex: &Vertex, tag: Tag) -> Result<Vertex, NoMemory>
    ensures { IfOk result (λ v. v ≡ with_tag tag vertex.now) }
{
    match vertex {
        Vertex::Part(_, content) => Ok(Vertex::Part(tag, content.copy(alloc)?)),
        _ => vertex.copy(alloc),
    }
}

/// The tag of author 0 with this serial.
fn new_tag(serial: u32) -> Tag
    ensures { result ≡ new_tag serial }
{
    Tag { author: 0, serial }
}

/// The parts with their new tags: the first has the serial behind this one.
pub(crate) fn with_new_tags(
    alloc: Global,
    parts: Vec<Vertex>,
    serial: u32,
) -> Result<Vec<(Vertex, Tag)>, NoMemory>
    requires { serial + length parts.items ≤ max_serial }
    ensures { IfOk result (λ rs. rs.items ≡ with_new_tags serial parts.items) }
{
    let mut renamed = Vec::new(alloc);
    let mut last = serial;
    for part in parts {
        last += 1;
        renamed.push((part, new_tag(last)))?;
    }
    Ok(renamed)
}
