//! Vertices and edges with their places in a variant's own file, or else in another.
ghost use Rattle.std.specs.Prelude.{◌≡◌, IfOk, map, string_bytes};
ghost use Rattle.serde_json.specs.View.{view};
ghost use Rattle.hpr_located.specs.Sources.{spot_of, standing_of};
ghost use Rattle.hpr_located.specs.Shown.{located_data, located_edge, located_kind};
ghost use Rattle.hpr_interference.specs.Answers.{file_at, own_first};

use hpr_graph::{Edge, Kind, NoMemory, Vertex};
use hpr_json::{carried_value, control_value, flow_value, order_value};
use hpr_located::{Source, vertex_at};
use serde_json::Value;
use std::alloc::{AllocError, Global};

/// An edge, with its places in the file with this number, or else in another.
pub(crate) fn own_edge(
    alloc: Global,
    edge: &Edge,
    sources: &[Source],
    own: usize,
) -> Result<Value, NoMemory>
    ensures { IfOk result (λ value.
        view value ≡ located_edge (own_first (map standing_of sources.now) own) edge.now) }
{
    let from = own_point(alloc, &edge.from, sources, own)?;
    let to = own_point(alloc, &edge.to, sources, own)?;
    own_kind(alloc, &edge.kind, from, to, sources, own)
}

/// The object of an edge of this kind between two vertices.
fn own_kind(
    alloc: Global,
    kind: &Kind,
    from: Value,
    to: Value,
    sources: &[Source],
    own: usize,
) -> Result<Value, NoMemory>
    ensures { IfOk result (λ value. view value
        ≡ located_kind (own_first (map standing_of sources.now) own) kind.now (view from) (view to)) }
{
    match kind {
        Kind::Control(label) => Ok(control_value(alloc, *label, from, to)?),
        Kind::Independent(name) => Ok(flow_value(alloc, name, from, to)?),
        Kind::Carried(name, by) => {
            let carrier = own_point(alloc, by, sources, own)?;
            Ok(carried_value(alloc, name, carrier, from, to)?)
        }
        Kind::Order(used) => {
            let used = own_point(alloc, used, sources, own)?;
            Ok(order_value(alloc, used, from, to)?)
        }
    }
}

/// A vertex, with its place in the file with this number, or else in another.
pub(crate) fn own_point(
    alloc: Global,
    vertex: &Vertex,
    sources: &[Source],
    own: usize,
) -> Result<Value, NoMemory>
    ensures { IfOk result (λ value.
        view value ≡ located_data (own_first (map standing_of sources.now) own) vertex.now) }
{
    let nearest = nearest(vertex, sources, own);
    vertex_at(alloc, vertex, nearest)
}

/// The file with this number alone, where the vertex stands in it; else all.
fn nearest<'a>(vertex: &Vertex, sources: &'a [Source], own: usize) -> &'a [Source]
    ensures { spot_of (map standing_of result.now) vertex.now
        ≡ spot_of (own_first (map standing_of sources.now) own) vertex.now }
{
    if own >= sources.len() {
        return sources;
    }
    match sources[own].place(vertex) {
        Some(_) => &sources[own..own + 1],
        None => sources,
    }
}

/// The name of the file with this number; nothing where there is none.
pub(crate) fn file_at(alloc: Global, sources: &[Source], own: usize) -> Result<String, AllocError>
    ensures { IfOk result (λ name. string_bytes name ≡ file_at (map standing_of sources.now) own) }
{
    if own >= sources.len() {
        return Ok(String::new(alloc));
    }
    let name = String::from_str(alloc, sources[own].file())?;
    Ok(name)
}
