//! Graphs as JSON.
ghost use Rattle.std.specs.Prelude.{◌≡◌, ◌++◌, ◌<◌, List, ℕ, codes, length, map, IfOk, OnOk, Some};
ghost use Rattle.serde_json.specs.Data.{member, no_members, object, put as with_member, string};
ghost use Rattle.serde_json.specs.View.{members_view, view};
ghost use Rattle.serde_json.specs.Written.{compact_text};
ghost use Rattle.hpr_graph.specs.Graphs.{name_of};
ghost use Rattle.hpr_graph.specs.Numbered.{IsLink, graph_in};
ghost use Rattle.hpr_graph.specs.Order.{vertex_cmp};
ghost use Rattle.hpr_graph.specs.InOrder.{Ascends, edge_of, row_edges, edges_of, name_at, vertex_at};
ghost use Rattle.hpr_report.specs.GraphTexts.{vertex_words};
ghost use Rattle.hpr_report.specs.GraphJson.{number_data, control_data, flow_data, carried_data, order_data, edge_data, graph_data, IsGraphJson};

use crate::graphs::vertex_words;
use hpr_graph::{Graph, Link, LinkKind, NoMemory, Vertex};
use serde_json::{Map, Value, put};
use std::alloc::{AllocError, Global};

/// A graph as one JSON object in compact text and a newline. Its member `vertices` is the array of the
/// vertices' texts without their brackets, in order; its member `edges` is the array of the edges in
/// order, each an object that names its vertices by their places in `vertices`, from 0: `from`, `to`,
/// `kind`, and then `label`, `name`, `loop` or `for` as the kind wants. Members stand in ascending order
/// of their keys. It fails only for want of memory. The form is defined here alone.
pub fn graph_json(alloc: Global, graph: &Graph) -> Result<Vec<u8>, NoMemory>
    ensures { IfOk result (λ text. IsGraphJson (graph_in graph.now) text.items) }
{
    let graph = graph.in_order()?;
    let _vertices = graph.vertices();
    json_of(alloc, &graph)
}

/// The same of a graph whose vertices ascend; its edges stand as they do in the graph.
fn json_of(alloc: Global, graph: &Graph) -> Result<Vec<u8>, NoMemory>
    requires { Ascends vertex_cmp graph.now.vertices }
    ensures { IfOk result (λ text. text.items
        ≡ compact_text (graph_data graph.now.vertices (edges_of graph.now)) ++ codes "\n") }
{
    let mut out = graph_value(alloc, graph)?.to_vec(alloc)?;
    out.push(b'\n')?;
    Ok(out)
}

/// The object of a graph whose vertices ascend.
fn graph_value(alloc: Global, graph: &Graph) -> Result<Value, NoMemory>
    requires { Ascends vertex_cmp graph.now.vertices }
    ensures { IfOk result (λ value. view value ≡ graph_data graph.now.vertices (edges_of graph.now)) }
{
    let mut members = Map::new(alloc);
    put_graph(alloc, &mut members, graph)?;
    Ok(Value::Object(members))
}

/// Puts the members of a graph into an object that has none.
fn put_graph(alloc: Global, members: &mut Map<String, Value>, graph: &Graph) -> Result<(), NoMemory>
    requires ascend { Ascends vertex_cmp graph.now.vertices }
    requires empty { members_view members.old.entries ≡ no_members }
    ensures { OnOk result (object (members_view members.new.entries)
        ≡ graph_data graph.now.vertices (edges_of graph.now)) }
{
    let vertices = vertex_values(alloc, graph.vertices())?;
    put(members, alloc, "vertices", Value::Array(vertices))?;
    let edges = edge_values(alloc, graph)?;
    Ok(put(members, alloc, "edges", Value::Array(edges))?)
}

/// The text of each vertex.
fn vertex_values(alloc: Global, vertices: &[Vertex]) -> Result<Vec<Value>, NoMemory>
    ensures { IfOk result (λ values. map view values.items ≡ map (λ v. string (vertex_words v)) vertices.now) }
{
    let mut values = Vec::new(alloc);
    for vertex in vertices {
        values.push(Value::from(vertex_words(alloc, vertex)?))?;
    }
    Ok(values)
}

/// The object of each edge, vertex by vertex.
fn edge_values(alloc: Global, graph: &Graph) -> Result<Vec<Value>, NoMemory>
    requires { Ascends vertex_cmp graph.now.vertices }
    ensures { IfOk result (λ values. map view values.items ≡ map (edge_data graph.now.vertices) (edges_of graph.now)) }
{
    let mut values = Vec::new(alloc);
    for to in 0..graph.vertices().len() {
        push_row(alloc, &mut values, graph, to)?;
    }
    Ok(values)
}

/// Pushes the object of each edge into one vertex.
fn push_row(
    alloc: Global,
    values: &mut Vec<Value>,
    graph: &Graph,
    to: usize,
) -> Result<(), NoMemory>
    requires ascend { Ascends vertex_cmp graph.now.vertices }
    requires to { to < length graph.now.vertices }
    ensures { OnOk result (map view values.new.items ≡ map view values.old.items
        ++ map (edge_data graph.now.vertices) (row_edges graph.now to)) }
{
    for link in graph.edges_into(to) {
        values.push(edge_value(alloc, graph, to, *link)?)?;
    }
    Ok(())
}

/// The object of an edge.
fn edge_value(alloc: Global, graph: &Graph, to: usize, link: Link) -> Result<Value, AllocError>
    requires ascend { Ascends vertex_cmp graph.now.vertices }
    requires link { IsLink graph.now to link }
    ensures { IfOk result (λ value. view value ≡ edge_data graph.now.vertices (edge_of graph.now.vertices to link)) }
{
    let mut members = Map::new(alloc);
    put_edge(alloc, &mut members, graph, to, link)?;
    Ok(Value::Object(members))
}

// Each of these puts the members of an edge into an object that has none.

fn put_edge(
    alloc: Global,
    members: &mut Map<String, Value>,
    graph: &Graph,
    to: usize,
    link: Link,
) -> Result<(), AllocError>
    requires ascend { Ascends vertex_cmp graph.now.vertices }
    requires link { IsLink graph.now to link }
    requires empty { members_view members.old.entries ≡ no_members }
    ensures { OnOk result (object (members_view members.new.entries)
        ≡ edge_data graph.now.vertices (edge_of graph.now.vertices to link)) }
{
    let from = link.from;
    match link.kind {
        LinkKind::Control(label) => put_control(alloc, members, label, from, to),
        LinkKind::Independent => put_flow(alloc, members, name_from(graph, from), from, to),
        LinkKind::Carried(by) => put_carried(alloc, members, by, name_from(graph, from), from, to),
        LinkKind::Order(used) => put_order(alloc, members, used, from, to),
    }
}

fn put_control(
    alloc: Global,
    members: &mut Map<String, Value>,
    label: bool,
    from: usize,
    to: usize,
) -> Result<(), AllocError>
    requires { members_view members.old.entries ≡ no_members }
    ensures { OnOk result (object (members_view members.new.entries) ≡ control_data label from to) }
{
    put_ends(alloc, members, "control", from, to)?;
    put(members, alloc, "label", Value::from(label))
}

fn put_flow(
    alloc: Global,
    members: &mut Map<String, Value>,
    name: &str,
    from: usize,
    to: usize,
) -> Result<(), AllocError>
    requires { members_view members.old.entries ≡ no_members }
    ensures { OnOk result (object (members_view members.new.entries) ≡ flow_data name.now from to) }
{
    put_ends(alloc, members, "flow", from, to)?;
    put_text(alloc, members, "name", name)
}

fn put_carried(
    alloc: Global,
    members: &mut Map<String, Value>,
    by: usize,
    name: &str,
    from: usize,
    to: usize,
) -> Result<(), AllocError>
    requires { members_view members.old.entries ≡ no_members }
    ensures { OnOk result (object (members_view members.new.entries) ≡ carried_data by name.now from to) }
{
    put_ends(alloc, members, "carried", from, to)?;
    put(members, alloc, "loop", Value::from(by))?;
    put_text(alloc, members, "name", name)
}

fn put_order(
    alloc: Global,
    members: &mut Map<String, Value>,
    used: usize,
    from: usize,
    to: usize,
) -> Result<(), AllocError>
    requires { members_view members.old.entries ≡ no_members }
    ensures { OnOk result (object (members_view members.new.entries) ≡ order_data used from to) }
{
    put_ends(alloc, members, "order", from, to)?;
    put(members, alloc, "for", Value::from(used))
}

/// Puts what the object of each edge has: its kind and its ends.
fn put_ends(
    alloc: Global,
    members: &mut Map<String, Value>,
    kind: &str,
    from: usize,
    to: usize,
) -> Result<(), AllocError>
    requires { members_view members.old.entries ≡ no_members }
    ensures { OnOk result (members_view members.new.entries ≡ member (codes "from") (number_data from)
        (member (codes "kind") (string kind.now) (member (codes "to") (number_data to) no_members))) }
{
    put(members, alloc, "from", Value::from(from))?;
    put_text(alloc, members, "kind", kind)?;
    put(members, alloc, "to", Value::from(to))
}

/// Puts a member that is a text.
fn put_text(
    alloc: Global,
    members: &mut Map<String, Value>,
    key: &str,
    text: &str,
) -> Result<(), AllocError>
    ensures { OnOk result (members_view members.new.entries
        ≡ with_member key.now (string text.now) (members_view members.old.entries)) }
{
    put(
        members,
        alloc,
        key,
        Value::String(String::from_str(alloc, text)?),
    )
}

/// The name that the vertex with this number defines.
fn name_from(graph: &Graph, from: usize) -> &str
    requires vertex { from < length graph.now.vertices }
    requires defines { (x : List ℕ) × (name_of (vertex_at graph.now.vertices from) ≡ Some x) }
    ensures { result.now ≡ name_at graph.now.vertices from }
{
    match graph.vertex(from).defines() {
        Some(name) => name.text(),
        None => unreachable!(),
    }
}
