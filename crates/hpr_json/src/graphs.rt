//! Graphs as JSON.
ghost use Rattle.std.specs.Prelude.{◌≡◌, ◌++◌, ◌<◌, false, List, ℕ, codes, length, map, IfOk, OnOk, Some};
ghost use Rattle.serde_json.specs.Data.{array, member, no_members, object, string};
ghost use Rattle.serde_json.specs.View.{items_view, view};
ghost use Rattle.serde_json.specs.Written.{has_float};
ghost use Rattle.hpr_graph.specs.Graphs.{name_of};
ghost use Rattle.hpr_graph.specs.Numbered.{IsLink, graph_in};
ghost use Rattle.hpr_graph.specs.Order.{vertex_cmp};
ghost use Rattle.hpr_graph.specs.InOrder.{Ascends, edge_of, edges_of, name_at, row_edges, vertex_at};
ghost use Rattle.hpr_report.specs.GraphJson.{edge_data};
ghost use Rattle.hpr_json.specs.Answers.{graph_data, IsGraphData};

use crate::members::put_text;
use crate::vertices::{carried_value, control_value, flow_value, order_value, vertex_values};
use hpr_graph::{Graph, Link, LinkKind, Name, NoMemory};
use serde_json::{Map, Value, put};
use std::alloc::{AllocError, Global};

/// A graph: an object with its `vertices` and its `edges`, both in hpr's order, and the status `done`. An edge names
/// its vertices by their places in `vertices`, from 0: `from` and `to`, and the `loop` of a carried edge or the vertex
/// `for` which an order edge is; beside them stand its `kind`, and the `label` or the `name` that such a kind has. It
/// fails only for want of memory.
pub fn graph_value(alloc: Global, graph: &Graph) -> Result<Value, NoMemory>
    ensures data { IfOk result (λ value. IsGraphData (graph_in graph.now) (view value)) }
    ensures whole { IfOk result (λ value. has_float (view value) ≡ false) }
{
    let graph = graph.in_order()?;
    let _vertices = graph.vertices();
    ordered_value(alloc, &graph)
}

/// The object of a graph whose vertices ascend.
fn ordered_value(alloc: Global, graph: &Graph) -> Result<Value, NoMemory>
    requires { Ascends vertex_cmp graph.now.vertices }
    ensures data { IfOk result (λ value. view value ≡ graph_data graph.now.vertices (edges_of graph.now)) }
    ensures whole { IfOk result (λ value. has_float (view value) ≡ false) }
{
    let vertices = vertex_values(alloc, graph.vertices())?;
    let edges = edge_values(alloc, graph)?;
    Ok(listed_graph(alloc, vertices, edges)?)
}

/// An object with these vertices and these edges.
fn listed_graph(alloc: Global, vertices: Vec<Value>, edges: Vec<Value>) -> Result<Value, AllocError>
    ensures { IfOk result (λ value. view value ≡ object (member (codes "edges") (array (items_view edges.items))
        (member (codes "status") (string (codes "done"))
        (member (codes "vertices") (array (items_view vertices.items)) no_members)))) }
{
    let mut members = Map::new(alloc);
    put(&mut members, alloc, "edges", Value::Array(edges))?;
    put_text(alloc, &mut members, "status", "done")?;
    put(&mut members, alloc, "vertices", Value::Array(vertices))?;
    Ok(Value::Object(members))
}

/// The object of each edge of a graph whose vertices ascend, vertex by vertex, as [`graph_value`] has it. It fails only
/// for want of memory.
pub fn edge_values(alloc: Global, graph: &Graph) -> Result<Vec<Value>, NoMemory>
    requires { Ascends vertex_cmp graph.now.vertices }
    ensures { IfOk result (λ values. map view values.items ≡ map (edge_data graph.now.vertices) (edges_of graph.now)) }
{
    let mut values = Vec::new(alloc);
    for to in 0..graph.vertices().len() {
        push_row(alloc, &mut values, graph, to)?;
    }
    Ok(values)
}

/// Pushes the object of each edge into one vertex.
fn push_row(
    alloc: Global,
    values: &mut Vec<Value>,
    graph: &Graph,
    to: usize,
) -> Result<(), NoMemory>
    requires ascend { Ascends vertex_cmp graph.now.vertices }
    requires to { to < length graph.now.vertices }
    ensures { OnOk result (map view values.new.items ≡ map view values.old.items
        ++ map (edge_data graph.now.vertices) (row_edges graph.now to)) }
{
    for link in graph.edges_into(to) {
        values.push(link_value(alloc, graph, to, *link)?)?;
    }
    Ok(())
}

/// The object of an edge, with the places of its vertices.
fn link_value(alloc: Global, graph: &Graph, to: usize, link: Link) -> Result<Value, AllocError>
    requires ascend { Ascends vertex_cmp graph.now.vertices }
    requires link { IsLink graph.now to link }
    ensures { IfOk result (λ value. view value ≡ edge_data graph.now.vertices (edge_of graph.now.vertices to link)) }
{
    let from = Value::from(link.from);
    let to = Value::from(to);
    match link.kind {
        LinkKind::Control(label) => control_value(alloc, label, from, to),
        LinkKind::Independent => flow_value(alloc, name_from(graph, link.from), from, to),
        LinkKind::Carried(by) => {
            let name = name_from(graph, link.from);
            carried_value(alloc, name, Value::from(by), from, to)
        }
        LinkKind::Order(used) => order_value(alloc, Value::from(used), from, to),
    }
}

/// The name that the vertex with this number defines.
fn name_from(graph: &Graph, from: usize) -> &Name
    requires vertex { from < length graph.now.vertices }
    requires defines { (x : List ℕ) × (name_of (vertex_at graph.now.vertices from) ≡ Some x) }
    ensures { result.now ≡ name_at graph.now.vertices from }
{
    match graph.vertex(from).defines() {
        Some(name) => name,
        None => unreachable!(),
    }
}
