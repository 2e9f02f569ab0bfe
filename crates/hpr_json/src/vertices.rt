//! Vertices, edges and conflicts as JSON.
ghost use Rattle.std.specs.Prelude.{◌≡◌, codes, map, IfOk, OnOk, string_bytes};
ghost use Rattle.serde_json.specs.Data.{string, member, no_members};
ghost use Rattle.serde_json.specs.View.{view, members_view};
ghost use Rattle.hpr_syntax.specs.Print.{content_text};
ghost use Rattle.hpr_json.specs.Vertices.{named_data, vertex_data, carried_data, order_data, kind_data, edge_data, conflict_data, many_conflict_data};

use crate::members::put_text;
use hpr_graph::{Content, Edge, Kind, ManyConflict, Name, NoMemory, Tag, Vertex};
use hpr_print::content_text;
use serde_json::{Map, Value, put};
use std::alloc::{AllocError, Global};

/// A vertex as an object: its `kind` is `entry`, `init`, `part` or `final`. An init and a final vertex have
/// their `name`, and a part its `tag` and its `content`, what it says. It fails only for want of memory.
pub fn vertex_value(alloc: Global, vertex: &Vertex) -> Result<Value, NoMemory>
    ensures { IfOk result (λ value. view value ≡ vertex_data vertex.now) }
{
    match vertex {
        Vertex::Entry => Ok(entry_value(alloc)?),
        Vertex::Init(name) => Ok(named_value(alloc, "init", name.text())?),
        Vertex::Part(tag, content) => part_value(alloc, *tag, content),
        Vertex::Final(name) => Ok(named_value(alloc, "final", name.text())?),
    }
}

/// The object of each vertex.
pub fn vertex_values(alloc: Global, vertices: &[Vertex]) -> Result<Vec<Value>, NoMemory>
    ensures { IfOk result (λ values. map view values.items ≡ map vertex_data vertices.now) }
{
    let mut values = Vec::new(alloc);
    for vertex in vertices {
        values.push(vertex_value(alloc, vertex)?)?;
    }
    Ok(values)
}

fn entry_value(alloc: Global) -> Result<Value, AllocError>
    ensures { IfOk result (λ value. view value ≡ vertex_data Vertex.Entry) }
{
    let mut members = Map::new(alloc);
    put_text(alloc, &mut members, "kind", "entry")?;
    Ok(Value::Object(members))
}

/// A vertex of this kind with a name.
fn named_value(alloc: Global, kind: &str, name: &str) -> Result<Value, AllocError>
    ensures { IfOk result (λ value. view value ≡ named_data kind.now name.now) }
{
    let mut members = Map::new(alloc);
    put_text(alloc, &mut members, "kind", kind)?;
    put_text(alloc, &mut members, "name", name)?;
    Ok(Value::Object(members))
}

fn part_value(alloc: Global, tag: Tag, content: &Content) -> Result<Value, NoMemory>
    ensures { IfOk result (λ value. view value ≡ vertex_data (Vertex.Part tag content.now)) }
{
    let said = content_words(alloc, content)?;
    let mut members = Map::new(alloc);
    put(&mut members, alloc, "content", Value::from(said))?;
    put_text(alloc, &mut members, "kind", "part")?;
    put(
        &mut members,
        alloc,
        "tag",
        Value::from(tag.to_string(alloc)?),
    )?;
    Ok(Value::Object(members))
}

/// What a part says.
fn content_words(alloc: Global, content: &Content) -> Result<String, NoMemory>
    ensures { IfOk result (λ text. string_bytes text ≡ content_text content.now) }
{
    match String::from_utf8(content_text(alloc, content)?) {
        Ok(text) => Ok(text),
        Err(_) => unreachable!(),
    }
}

/// An edge as an object: its `kind` is `control`, `flow`, `carried` or `order`, and `from` and `to` are its
/// vertices. A control edge has its `label`, a flow edge the `name` of what flows, a carried one also the
/// vertex of the `loop` that carries it, and an order edge the vertex `for` which it is, the shared use. It
/// fails only for want of memory.
pub(crate) fn edge_value(alloc: Global, edge: &Edge) -> Result<Value, NoMemory>
    ensures { IfOk result (λ value. view value ≡ edge_data edge.now) }
{
    let from = vertex_value(alloc, &edge.from)?;
    let to = vertex_value(alloc, &edge.to)?;
    kind_value(alloc, &edge.kind, from, to)
}

/// The object of an edge of this kind between two vertices.
fn kind_value(alloc: Global, kind: &Kind, from: Value, to: Value) -> Result<Value, NoMemory>
    ensures { IfOk result (λ value. view value ≡ kind_data kind.now (view from) (view to)) }
{
    match kind {
        Kind::Control(label) => Ok(control_value(alloc, *label, from, to)?),
        Kind::Independent(name) => Ok(flow_value(alloc, name, from, to)?),
        Kind::Carried(name, by) => {
            let carrier = vertex_value(alloc, by)?;
            Ok(carried_value(alloc, name, carrier, from, to)?)
        }
        Kind::Order(used) => {
            let used = vertex_value(alloc, used)?;
            Ok(order_value(alloc, used, from, to)?)
        }
    }
}

/// The object of a control edge with this label between two vertices. It fails only for want of memory.
pub fn control_value(
    alloc: Global,
    label: bool,
    from: Value,
    to: Value,
) -> Result<Value, AllocError>
    ensures { IfOk result (λ value. view value ≡ kind_data (Kind.Control label) (view from) (view to)) }
{
    let mut members = Map::new(alloc);
    put_ends(alloc, &mut members, "control", from, to)?;
    put(&mut members, alloc, "label", Value::from(label))?;
    Ok(Value::Object(members))
}

/// The object of a flow edge for this name that no loop carries. It fails only for want of memory.
pub fn flow_value(alloc: Global, name: &Name, from: Value, to: Value) -> Result<Value, AllocError>
    ensures { IfOk result (λ value. view value ≡ kind_data (Kind.Independent name.now) (view from) (view to)) }
{
    let mut members = Map::new(alloc);
    put_ends(alloc, &mut members, "flow", from, to)?;
    put_text(alloc, &mut members, "name", name.text())?;
    Ok(Value::Object(members))
}

/// The object of a flow edge for this name that a loop carries. It fails only for want of memory.
pub fn carried_value(
    alloc: Global,
    name: &Name,
    carrier: Value,
    from: Value,
    to: Value,
) -> Result<Value, AllocError>
    ensures { IfOk result (λ value. view value ≡ carried_data name.now (view carrier) (view from) (view to)) }
{
    let mut members = Map::new(alloc);
    put_ends(alloc, &mut members, "carried", from, to)?;
    put(&mut members, alloc, "loop", carrier)?;
    put_text(alloc, &mut members, "name", name.text())?;
    Ok(Value::Object(members))
}

/// The object of an order edge for a shared use. It fails only for want of memory.
pub fn order_value(alloc: Global, used: Value, from: Value, to: Value) -> Result<Value, AllocError>
    ensures { IfOk result (λ value. view value ≡ order_data (view used) (view from) (view to)) }
{
    let mut members = Map::new(alloc);
    put_ends(alloc, &mut members, "order", from, to)?;
    put(&mut members, alloc, "for", used)?;
    Ok(Value::Object(members))
}

/// Puts what the object of each edge has: its kind and its ends.
fn put_ends(
    alloc: Global,
    members: &mut Map<String, Value>,
    kind: &str,
    from: Value,
    to: Value,
) -> Result<(), AllocError>
    requires { members_view members.old.entries ≡ no_members }
    ensures { OnOk result (members_view members.new.entries ≡ member (codes "from") (view from)
        (member (codes "kind") (string kind.now) (member (codes "to") (view to) no_members))) }
{
    put(members, alloc, "from", from)?;
    put_text(alloc, members, "kind", kind)?;
    put(members, alloc, "to", to)
}

/// A conflict of one of many variants.
pub(crate) fn conflict_value(alloc: Global, conflict: &ManyConflict) -> Result<Value, NoMemory>
    ensures { IfOk result (λ value. view value ≡ many_conflict_data conflict.now) }
{
    numbered_value(alloc, conflict.variant, &conflict.point, &conflict.edge)
}

/// A conflict as an object: the `edge` that shows it, the affected `point`, and the number of the
/// `variant`, from 1. It fails only for want of memory.
pub(crate) fn numbered_value(
    alloc: Global,
    variant: usize,
    point: &Vertex,
    edge: &Edge,
) -> Result<Value, NoMemory>
    ensures { IfOk result (λ value. view value ≡ conflict_data (variant, point.now, edge.now)) }
{
    let edge = edge_value(alloc, edge)?;
    let point = vertex_value(alloc, point)?;
    let mut members = Map::new(alloc);
    put(&mut members, alloc, "edge", edge)?;
    put(&mut members, alloc, "point", point)?;
    put(&mut members, alloc, "variant", Value::from(variant))?;
    Ok(Value::Object(members))
}
