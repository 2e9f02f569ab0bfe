//! What a change can reach, and reasons, as JSON.
ghost use Rattle.std.specs.Prelude.{◌≡◌, ◌<◌, ℕ, codes, false, length, map, All, IfOk};
ghost use Rattle.serde_json.specs.Data.{object, put as with_member};
ghost use Rattle.serde_json.specs.View.{members_view, view};
ghost use Rattle.serde_json.specs.Written.{has_float};
ghost use Rattle.hpr_graph.specs.Numbered.{graph_in};
ghost use Rattle.hpr_graph.specs.Slices.{IsReached};
ghost use Rattle.hpr_report.specs.AffectedText.{IsOneOf};
ghost use Rattle.hpr_report.specs.GraphJson.{number_data};
ghost use Rattle.hpr_located.specs.Sources.{standing_of};
ghost use Rattle.hpr_impact.specs.Shown.{IsImpactData, listed_data, reason_data, reasons_data};
ghost use Rattle.hpr_impact.specs.Private.Members.{by_members};

use crate::Reason;
use crate::impact::reached_graph;
use hpr_graph::{Edge, Graph, NoMemory};
use hpr_json::put_text;
use hpr_located::{Source, edge_at, vertex_at, vertices_at};
use serde_json::{Map, Value, put};
use std::alloc::{AllocError, Global};

/// What a change at some vertices of a graph can reach, as [`crate::impact_text`] has it: an object that has the
/// vertices as `points`, in hpr's order and each with its place, and the status `done`. It fails only for want of
/// memory.
pub fn impact_value(
    alloc: Global,
    graph: &Graph,
    points: &[usize],
    sources: &[Source],
) -> Result<Value, NoMemory>
    requires { All (λ p. p < length graph.now.vertices) points.now }
    ensures data { IfOk result (λ value. IsImpactData (map standing_of sources.now)
        (IsReached (graph_in graph.now) (IsOneOf graph.now points.now)) (view value)) }
    ensures whole { IfOk result (λ value. has_float (view value) ≡ false) }
{
    let reached = reached_graph(alloc, graph, points)?;
    let values = vertices_at(alloc, reached.vertices(), sources)?;
    let value = listed_value(alloc, values)?;
    Ok(value)
}

/// The affected points with their reasons: an object that has them as `points`, in the order given, and the status
/// `done`. Each is an object that tells whether the `point` is affected directly (`direct`), by which edge it is reached
/// where it isn't (`by`), and the place among them, from 0, of the `root` from which it is reached. Vertices have
/// their places. It fails only for want of memory.
pub fn reasons_value(
    alloc: Global,
    reasons: &[Reason],
    sources: &[Source],
) -> Result<Value, NoMemory>
    ensures data { IfOk result (λ value. view value ≡ reasons_data (map standing_of sources.now) reasons.now) }
    ensures whole { IfOk result (λ value. has_float (view value) ≡ false) }
{
    let values = reason_values(alloc, reasons, sources)?;
    let value = listed_value(alloc, values)?;
    Ok(value)
}

/// The object of each reason.
fn reason_values(
    alloc: Global,
    reasons: &[Reason],
    sources: &[Source],
) -> Result<Vec<Value>, NoMemory>
    ensures { IfOk result (λ values.
        map view values.items ≡ map (reason_data (map standing_of sources.now)) reasons.now) }
{
    let mut values = Vec::new(alloc);
    for reason in reasons {
        values.push(reason_value(alloc, reason, sources)?)?;
    }
    Ok(values)
}

/// The object of a reason.
fn reason_value(alloc: Global, reason: &Reason, sources: &[Source]) -> Result<Value, NoMemory>
    ensures { IfOk result (λ value. view value ≡ reason_data (map standing_of sources.now) reason.now) }
{
    let point = vertex_at(alloc, &reason.point, sources)?;
    let members = members_by(alloc, &reason.by, sources)?;
    let value = with_point(alloc, members, point, reason.root)?;
    Ok(value)
}

/// The object of these members, the point and the place of its root.
fn with_point(
    alloc: Global,
    mut members: Map<String, Value>,
    point: Value,
    root: usize,
) -> Result<Value, AllocError>
    ensures { IfOk result (λ value. view value ≡ object (with_member (codes "root") (number_data root)
        (with_member (codes "point") (view point) (members_view members.entries)))) }
{
    put(&mut members, alloc, "point", point)?;
    put(&mut members, alloc, "root", Value::from(root))?;
    Ok(Value::Object(members))
}

/// The members of a reason that tell whether there is an edge, and which.
fn members_by(
    alloc: Global,
    by: &Option<Edge>,
    sources: &[Source],
) -> Result<Map<String, Value>, NoMemory>
    ensures { IfOk result (λ members.
        members_view members.entries ≡ by_members (map standing_of sources.now) by.now) }
{
    let mut members = Map::new(alloc);
    match by {
        Some(edge) => {
            put(&mut members, alloc, "by", edge_at(alloc, edge, sources)?)?;
            put(&mut members, alloc, "direct", Value::from(false))?;
        }
        None => put(&mut members, alloc, "direct", Value::from(true))?,
    }
    Ok(members)
}

/// An object that lists these as points.
fn listed_value(alloc: Global, values: Vec<Value>) -> Result<Value, AllocError>
    ensures { IfOk result (λ value. view value ≡ listed_data (map view values.items)) }
{
    let mut members = Map::new(alloc);
    put(&mut members, alloc, "points", Value::Array(values))?;
    put_text(alloc, &mut members, "status", "done")?;
    Ok(Value::Object(members))
}
