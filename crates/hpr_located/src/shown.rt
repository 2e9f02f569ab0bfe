//! Vertices, edges and conflicts as JSON, with where they stand.
ghost use Rattle.std.specs.Prelude.{◌≡◌, IfOk, false, map};
ghost use Rattle.std.specs.Option.{option_map};
ghost use Rattle.serde_json.specs.View.{view};
ghost use Rattle.serde_json.specs.Written.{has_float};
ghost use Rattle.hpr_located.specs.Sources.{spot_of, standing_of};
ghost use Rattle.hpr_located.specs.Shown.{located_conflict, located_data, located_edge, located_kind, place_data, with_member, with_place};

use crate::{Located, Source};
use hpr_graph::{Edge, Kind, ManyConflict, NoMemory, Vertex};
use hpr_json::{carried_value, control_value, flow_value, order_value, put_text, vertex_value};
use serde_json::{Map, Value, put};
use std::alloc::{AllocError, Global};

/// A vertex as an object, as hpr_json shows it. Where it stands in one of the files it has the member `place` too, an
/// object with the `file`, the first `byte` from 0, the `length` in bytes, and the `line` and the `column` of the
/// first byte from 1. The first of the files in which it stands counts. It fails only for want of memory.
pub fn vertex_at(alloc: Global, vertex: &Vertex, sources: &[Source]) -> Result<Value, NoMemory>
    ensures data { IfOk result (λ value. view value ≡ located_data (map standing_of sources.now) vertex.now) }
    ensures whole { IfOk result (λ value. has_float (view value) ≡ false) }
{
    let value = vertex_value(alloc, vertex)?;
    match spot_of(vertex, sources) {
        None => Ok(value),
        Some(spot) => {
            let place = place_value(alloc, &spot)?;
            Ok(with_member(alloc, value, "place", place)?)
        }
    }
}

/// The name of a file, and where something stands in its text.
#[derive(Clone, Copy)]
struct Spot<'a> {
    file: &'a str,
    located: Located,
}

/// Where the vertex stands in the first of the files in which it stands, if it stands in one.
fn spot_of<'a>(vertex: &Vertex, sources: &'a [Source]) -> Option<Spot<'a>>
    ensures { option_map (λ s. (s.file.now, s.located)) result ≡ spot_of (map standing_of sources.now) vertex.now }
{
    for source in sources {
        if let Some(located) = source.place(vertex) {
            let file = source.file();
            return Some(Spot { file, located });
        }
    }
    None
}

/// Where something stands, as an object.
fn place_value(alloc: Global, spot: &Spot) -> Result<Value, AllocError>
    ensures { IfOk result (λ value. view value ≡ place_data (spot.now.file.now, spot.now.located)) }
{
    let place = spot.located.place;
    let mut members = Map::new(alloc);
    put(&mut members, alloc, "byte", Value::from(place.first))?;
    put(
        &mut members,
        alloc,
        "column",
        Value::from(spot.located.column),
    )?;
    put_text(alloc, &mut members, "file", spot.file)?;
    put(&mut members, alloc, "length", Value::from(place.length))?;
    put(&mut members, alloc, "line", Value::from(spot.located.line))?;
    Ok(Value::Object(members))
}

/// The object of each vertex.
pub fn vertices_at(
    alloc: Global,
    vertices: &[Vertex],
    sources: &[Source],
) -> Result<Vec<Value>, NoMemory>
    ensures { IfOk result (λ values.
        map view values.items ≡ map (located_data (map standing_of sources.now)) vertices.now) }
{
    let mut values = Vec::new(alloc);
    for vertex in vertices {
        values.push(vertex_at(alloc, vertex, sources)?)?;
    }
    Ok(values)
}

/// An edge as an object, as hpr_json shows it, between such vertices. It fails only for want of memory.
pub fn edge_at(alloc: Global, edge: &Edge, sources: &[Source]) -> Result<Value, NoMemory>
    ensures data { IfOk result (λ value. view value ≡ located_edge (map standing_of sources.now) edge.now) }
    ensures whole { IfOk result (λ value. has_float (view value) ≡ false) }
{
    let from = vertex_at(alloc, &edge.from, sources)?;
    let to = vertex_at(alloc, &edge.to, sources)?;
    kind_at(alloc, &edge.kind, from, to, sources)
}

/// The object of an edge of this kind between two vertices.
fn kind_at(
    alloc: Global,
    kind: &Kind,
    from: Value,
    to: Value,
    sources: &[Source],
) -> Result<Value, NoMemory>
    ensures { IfOk result (λ value.
        view value ≡ located_kind (map standing_of sources.now) kind.now (view from) (view to)) }
{
    match kind {
        Kind::Control(label) => Ok(control_value(alloc, *label, from, to)?),
        Kind::Independent(name) => Ok(flow_value(alloc, name, from, to)?),
        Kind::Carried(name, by) => {
            let carrier = vertex_at(alloc, by, sources)?;
            Ok(carried_value(alloc, name, carrier, from, to)?)
        }
        Kind::Order(used) => {
            let used = vertex_at(alloc, used, sources)?;
            Ok(order_value(alloc, used, from, to)?)
        }
    }
}

/// A conflict as an object: the `edge` that shows it, the affected `point`, and the number of the `variant`, from 1.
/// It fails only for want of memory.
pub fn conflict_at(
    alloc: Global,
    conflict: &ManyConflict,
    sources: &[Source],
) -> Result<Value, NoMemory>
    ensures data { IfOk result (λ value. view value ≡ located_conflict (map standing_of sources.now) conflict.now) }
    ensures whole { IfOk result (λ value. has_float (view value) ≡ false) }
{
    let edge = edge_at(alloc, &conflict.edge, sources)?;
    let point = vertex_at(alloc, &conflict.point, sources)?;
    let mut members = Map::new(alloc);
    put(&mut members, alloc, "edge", edge)?;
    put(&mut members, alloc, "point", point)?;
    put(
        &mut members,
        alloc,
        "variant",
        Value::from(conflict.variant),
    )?;
    Ok(Value::Object(members))
}

/// The object with this member; what is no object stays. It fails only for want of memory.
pub fn with_member(
    alloc: Global,
    value: Value,
    key: &str,
    member: Value,
) -> Result<Value, AllocError>
    ensures { IfOk result (λ shown. view shown ≡ with_member key.now (view member) (view value)) }
{
    match value {
        Value::Object(mut members) => {
            put(&mut members, alloc, key, member)?;
            Ok(Value::Object(members))
        }
        other => Ok(other),
    }
}
