//! Clashes as JSON.
ghost use Rattle.std.specs.Prelude.{◌≡◌, ◌<◌, All, IfOk, length, map};
ghost use Rattle.serde_json.specs.View.{view};
ghost use Rattle.hpr_located.specs.Sources.{standing_of};
ghost use Rattle.hpr_told.specs.Clashes.{IsClashWithin, IsWithin};
ghost use Rattle.hpr_told.specs.Clashes.{clash_data, clash_object, numbered_data, with_clash};

use hpr_graph::{Graph, NoMemory};
use hpr_located::{Source, vertex_at, with_member};
use hpr_outcome::FirstClash;
use serde_json::{Map, Value, put};
use std::alloc::{AllocError, Global};

/// The object with the clash, if there is one.
pub(crate) fn with_clash(
    alloc: Global,
    value: Value,
    clash: &Option<FirstClash>,
    graph: &Graph,
    sources: &[Source],
) -> Result<Value, NoMemory>
    requires { IsClashWithin graph.now clash.now }
    ensures { IfOk result (λ told. view told
        ≡ with_clash (map standing_of sources.now) graph.now clash.now (view value)) }
{
    match clash {
        None => Ok(value),
        Some(first) => {
            let told = clash_value(alloc, first, graph, sources)?;
            Ok(with_member(alloc, value, "clash", told)?)
        }
    }
}

/// A clash: the part that clashes, and the parts behind which it stands.
fn clash_value(
    alloc: Global,
    clash: &FirstClash,
    graph: &Graph,
    sources: &[Source],
) -> Result<Value, NoMemory>
    requires { IsWithin graph.now clash.now }
    ensures { IfOk result (λ value. view value
        ≡ clash_data (map standing_of sources.now) graph.now clash.now) }
{
    let behind = numbered_values(alloc, &clash.front, graph, sources)?;
    let part = numbered_value(alloc, clash.part, graph, sources)?;
    Ok(clash_object(alloc, behind, part)?)
}

/// The vertices with these numbers.
fn numbered_values(
    alloc: Global,
    numbers: &[usize],
    graph: &Graph,
    sources: &[Source],
) -> Result<Vec<Value>, NoMemory>
    requires { All (λ n. n < length graph.now.vertices) numbers.now }
    ensures { IfOk result (λ values. map view values.items
        ≡ map (numbered_data (map standing_of sources.now) graph.now) numbers.now) }
{
    let mut values = Vec::new(alloc);
    for number in numbers {
        values.push(numbered_value(alloc, *number, graph, sources)?)?;
    }
    Ok(values)
}

/// The vertex with this number.
fn numbered_value(
    alloc: Global,
    number: usize,
    graph: &Graph,
    sources: &[Source],
) -> Result<Value, NoMemory>
    requires { number < length graph.now.vertices }
    ensures { IfOk result (λ value. view value
        ≡ numbered_data (map standing_of sources.now) graph.now number) }
{
    vertex_at(alloc, graph.vertex(number), sources)
}

/// The object of a clash.
fn clash_object(alloc: Global, behind: Vec<Value>, part: Value) -> Result<Value, AllocError>
    ensures { IfOk result (λ value. view value ≡ clash_object (map view behind.items) (view part)) }
{
    let mut members = Map::new(alloc);
    put(&mut members, alloc, "behind", Value::Array(behind))?;
    put(&mut members, alloc, "part", part)?;
    Ok(Value::Object(members))
}
