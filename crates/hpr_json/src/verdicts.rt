//! The verdict of `verify` as JSON.
ghost use Rattle.std.specs.Prelude.{◌≡◌, false, IfOk};
ghost use Rattle.serde_json.specs.View.{view};
ghost use Rattle.serde_json.specs.Written.{has_float};
ghost use Rattle.hpr_graph.specs.Conflicts.{number_of};
ghost use Rattle.hpr_verify.specs.declared.verdict.Verdict.TheVariants as verdicts;
ghost use Rattle.hpr_json.specs.Verdicts.{holder_word, side_data, verdict_data};

use crate::members::put_text;
use crate::vertices::{edge_value, numbered_value, vertex_value};
use hpr_graph::{Conflict, Edge, NoMemory, Side, Vertex};
use hpr_verify::{Holder, Verdict};
use serde_json::{Map, Value, put};
use std::alloc::{AllocError, Global};

/// The verdict on an offered program: an object with the status `verified`; or with the status `rejected` and what
/// shows it: the first `conflict`, of whose variants A is 1 and B is 2, or the `vertex` or the `edge` that one of two
/// graphs has and the other lacks, with its `holder`, which is `offered` or `merged`. It fails only for want of memory.
pub fn verdict_value(alloc: Global, verdict: &Verdict) -> Result<Value, NoMemory>
    ensures data { IfOk result (λ value. view value ≡ verdict_data verdict.now) }
    ensures whole { IfOk result (λ value. has_float (view value) ≡ false) }
{
    judged_value(alloc, verdict)
}

/// The object of a verdict.
fn judged_value(alloc: Global, verdict: &Verdict) -> Result<Value, NoMemory>
    ensures { IfOk result (λ value. view value ≡ verdict_data verdict.now) }
{
    match verdict {
        Verdict::Same => Ok(same_value(alloc)?),
        Verdict::Conflict(conflict) => first_value(alloc, conflict),
        Verdict::Vertex(vertex, holder) => vertex_apart(alloc, vertex, *holder),
        Verdict::Edge(edge, holder) => edge_apart(alloc, edge, *holder),
    }
}

// Each of these makes the object of a verdict.

fn same_value(alloc: Global) -> Result<Value, AllocError>
    ensures { IfOk result (λ value. view value ≡ verdict_data verdicts.Same) }
{
    let mut members = Map::new(alloc);
    put_text(alloc, &mut members, "status", "verified")?;
    Ok(Value::Object(members))
}

fn first_value(alloc: Global, conflict: &Conflict) -> Result<Value, NoMemory>
    ensures { IfOk result (λ value. view value ≡ verdict_data (verdicts.Conflict conflict.now)) }
{
    let shown = side_value(alloc, conflict)?;
    let mut members = Map::new(alloc);
    put(&mut members, alloc, "conflict", shown)?;
    put_text(alloc, &mut members, "status", "rejected")?;
    Ok(Value::Object(members))
}

fn vertex_apart(alloc: Global, vertex: &Vertex, holder: Holder) -> Result<Value, NoMemory>
    ensures { IfOk result (λ value. view value ≡ verdict_data (verdicts.Vertex vertex.now holder)) }
{
    let shown = vertex_value(alloc, vertex)?;
    let mut members = Map::new(alloc);
    put_text(alloc, &mut members, "holder", holder_word(holder))?;
    put_text(alloc, &mut members, "status", "rejected")?;
    put(&mut members, alloc, "vertex", shown)?;
    Ok(Value::Object(members))
}

fn edge_apart(alloc: Global, edge: &Edge, holder: Holder) -> Result<Value, NoMemory>
    ensures { IfOk result (λ value. view value ≡ verdict_data (verdicts.Edge edge.now holder)) }
{
    let shown = edge_value(alloc, edge)?;
    let mut members = Map::new(alloc);
    put(&mut members, alloc, "edge", shown)?;
    put_text(alloc, &mut members, "holder", holder_word(holder))?;
    put_text(alloc, &mut members, "status", "rejected")?;
    Ok(Value::Object(members))
}

/// A conflict of one of two variants.
fn side_value(alloc: Global, conflict: &Conflict) -> Result<Value, NoMemory>
    ensures { IfOk result (λ value. view value ≡ side_data conflict.now) }
{
    let variant = side_number(conflict.side) + 1;
    numbered_value(alloc, variant, &conflict.point, &conflict.edge)
}

fn side_number(side: Side) -> usize
    ensures { result ≡ number_of side }
{
    match side {
        Side::A => 0,
        Side::B => 1,
    }
}

fn holder_word(holder: Holder) -> &'static str
    ensures { result.now ≡ holder_word holder }
{
    match holder {
        Holder::Offered => "offered",
        Holder::Merged => "merged",
    }
}
