//! Graphs as JSON, with where their vertices stand and which names they define and use.
ghost use Rattle.std.specs.Prelude.{◌≡◌, ◌∷◌, [], false, IfOk, map, option_to_list};
ghost use Rattle.serde_json.specs.Data.{string};
ghost use Rattle.serde_json.specs.View.{view};
ghost use Rattle.serde_json.specs.Written.{has_float};
ghost use Rattle.hpr_terms.specs.declared.tag.Tag.{Tag};
ghost use Rattle.hpr_graph.specs.Graphs.{name_of};
ghost use Rattle.hpr_graph.specs.Numbered.{graph_in};
ghost use Rattle.hpr_located.specs.Sources.{standing_of};
ghost use Rattle.hpr_drawn.specs.Told.{AreListed, AreTold, AreUses, IsGraphObject, IsTold, IsToldGraph};
ghost use Rattle.hpr_drawn.specs.Told.{graph_object, names_data, told_graph};

use hpr_graph::{Content, Graph, Name, NoMemory, Vertex};
use hpr_json::{edge_values, put_text};
use hpr_located::{Source, vertex_at, with_member};
use hpr_terms::names::in_order;
use serde_json::{Map, Value, put};
use std::alloc::{AllocError, Global};

/// A graph as an object, as hpr_json shows it, whose vertices have more: where they stand in the first of the files in
/// which they stand, as [`hpr_located::vertex_at`] has it, `defines`, an array with the name that the vertex defines,
/// if it defines one, and `uses`, an array with the names that it uses, in the order of their bytes, each once: a part
/// those that it reads, and the stream or the array that it changes, and a final value its name. It fails only for
/// want of memory.
pub fn graph_json(alloc: Global, graph: &Graph, sources: &[Source]) -> Result<Value, NoMemory>
    ensures data { IfOk result (λ value. IsToldGraph (map standing_of sources.now) (graph_in graph.now) (view value)) }
    ensures whole { IfOk result (λ value. has_float (view value) ≡ false) }
{
    let listed = listed(alloc, graph, sources)?;
    Ok(listed_answer(alloc, listed)?)
}

/// A graph as [`graph_json`] has it, without a status: for an object that tells a graph beside other things. It fails
/// only for want of memory.
pub fn graph_value(alloc: Global, graph: &Graph, sources: &[Source]) -> Result<Value, NoMemory>
    ensures data { IfOk result (λ value. IsGraphObject (map standing_of sources.now) (graph_in graph.now)
        (view value)) }
    ensures whole { IfOk result (λ value. has_float (view value) ≡ false) }
{
    let listed = listed(alloc, graph, sources)?;
    Ok(listed_object(alloc, listed)?)
}

/// What is listed of a graph.
#[derive(Drop)]
struct Lists {
    edges: Vec<Value>,
    vertices: Vec<Value>,
}

/// The objects of the edges and of the vertices of a graph.
fn listed(alloc: Global, graph: &Graph, sources: &[Source]) -> Result<Lists, NoMemory>
    ensures { IfOk result (λ listed. AreListed (map standing_of sources.now) (graph_in graph.now)
        (map view listed.edges.items) (map view listed.vertices.items)) }
{
    let graph = graph.in_order()?;
    let vertices = told_values(alloc, graph.vertices(), sources)?;
    let edges = edge_values(alloc, &graph)?;
    Ok(Lists { edges, vertices })
}

/// The object of these lists with the status of an answer.
fn listed_answer(alloc: Global, listed: Lists) -> Result<Value, AllocError>
    ensures { IfOk result (λ value. view value
        ≡ told_graph (map view listed.edges.items) (map view listed.vertices.items)) }
{
    let mut members = Map::new(alloc);
    put(&mut members, alloc, "edges", Value::Array(listed.edges))?;
    put_text(alloc, &mut members, "status", "done")?;
    put(
        &mut members,
        alloc,
        "vertices",
        Value::Array(listed.vertices),
    )?;
    Ok(Value::Object(members))
}

/// The object of these lists.
fn listed_object(alloc: Global, listed: Lists) -> Result<Value, AllocError>
    ensures { IfOk result (λ value. view value
        ≡ graph_object (map view listed.edges.items) (map view listed.vertices.items)) }
{
    let mut members = Map::new(alloc);
    put(&mut members, alloc, "edges", Value::Array(listed.edges))?;
    put(
        &mut members,
        alloc,
        "vertices",
        Value::Array(listed.vertices),
    )?;
    Ok(Value::Object(members))
}

/// The object of each vertex.
fn told_values(
    alloc: Global,
    vertices: &[Vertex],
    sources: &[Source],
) -> Result<Vec<Value>, NoMemory>
    ensures { IfOk result (λ values. AreTold (map standing_of sources.now) vertices.now (map view values.items)) }
{
    let mut values = Vec::new(alloc);
    for vertex in vertices {
        values.push(told_value(alloc, vertex, sources)?)?;
    }
    Ok(values)
}

/// The object of a vertex.
fn told_value(alloc: Global, vertex: &Vertex, sources: &[Source]) -> Result<Value, NoMemory>
    ensures { IfOk result (λ value. IsTold (map standing_of sources.now) vertex.now (view value)) }
{
    let value = vertex_at(alloc, vertex, sources)?;
    let defined = defined_value(alloc, vertex)?;
    let value = with_member(alloc, value, "defines", defined)?;
    let used = names_value(alloc, &used_by(alloc, vertex)?)?;
    Ok(with_member(alloc, value, "uses", used)?)
}

/// The name that a vertex defines, if it defines one, as an array.
fn defined_value(alloc: Global, vertex: &Vertex) -> Result<Value, AllocError>
    ensures { IfOk result (λ value. view value ≡ names_data (option_to_list (name_of vertex.now))) }
{
    let mut values = Vec::new(alloc);
    if let Some(name) = vertex.defines() {
        values.push(name_value(alloc, name)?)?;
    }
    Ok(Value::Array(values))
}

/// Names as an array.
fn names_value(alloc: Global, names: &[Name]) -> Result<Value, AllocError>
    ensures { IfOk result (λ value. view value ≡ names_data names.now) }
{
    let mut values = Vec::new(alloc);
    for name in names {
        values.push(name_value(alloc, name)?)?;
    }
    Ok(Value::Array(values))
}

fn name_value(alloc: Global, name: &Name) -> Result<Value, AllocError>
    ensures { IfOk result (λ value. view value ≡ string name.now) }
{
    Ok(Value::String(String::from_str(alloc, name.text())?))
}

/// The names that a vertex uses, in the order of their bytes, each once.
fn used_by(alloc: Global, vertex: &Vertex) -> Result<Vec<Name>, NoMemory>
    ensures { IfOk result (λ names. AreUses vertex.now names.items) }
{
    match vertex {
        Vertex::Entry => Ok(Vec::new(alloc)),
        Vertex::Init(_) => Ok(Vec::new(alloc)),
        Vertex::Part(_, content) => used_in(alloc, content),
        Vertex::Final(name) => name_alone(alloc, name),
    }
}

/// The names that a part uses which says this.
fn used_in(alloc: Global, content: &Content) -> Result<Vec<Name>, NoMemory>
    ensures { IfOk result (λ names. (t : Tag) → AreUses (Vertex.Part t content.now) names.items) }
{
    let used = content.used_names(alloc)?;
    Ok(in_order(used)?)
}

/// One name.
fn name_alone(alloc: Global, name: &Name) -> Result<Vec<Name>, NoMemory>
    ensures { IfOk result (λ names. names.items ≡ name.now ∷ []) }
{
    let mut names = Vec::new(alloc);
    names.push(name.copy(alloc)?)?;
    Ok(names)
}
