//! Conflicts as JSON.
ghost use Rattle.std.specs.Prelude.{◌≡◌, IfOk, length, map, string_bytes, zip};
ghost use Rattle.serde_json.specs.View.{view};
ghost use Rattle.hpr_located.specs.Sources.{standing_of};
ghost use Rattle.hpr_interference.specs.Answers.{conflict_data, conflict_object};

use crate::own::{file_at, own_edge, own_point};
use hpr_graph::{ManyConflict, NoMemory};
use hpr_located::Source;
use serde_json::{Map, Value, put};
use std::alloc::{AllocError, Global};

/// The object of each conflict, with the number of its group.
pub(crate) fn conflict_values(
    alloc: Global,
    conflicts: &[ManyConflict],
    numbers: &[usize],
    sources: &[Source],
) -> Result<Vec<Value>, NoMemory>
    requires { length numbers.now ≡ length conflicts.now }
    ensures { IfOk result (λ values. map view values.items
        ≡ map (conflict_data (map standing_of sources.now)) (zip conflicts.now numbers.now)) }
{
    let mut values = Vec::with_capacity(alloc, conflicts.len())?;
    for (at, conflict) in conflicts.iter().enumerate() {
        let value = conflict_value(alloc, conflict, numbers[at], sources)?;
        values.push(value)?;
    }
    Ok(values)
}

/// A conflict, with the number of its group.
fn conflict_value(
    alloc: Global,
    conflict: &ManyConflict,
    group: usize,
    sources: &[Source],
) -> Result<Value, NoMemory>
    ensures { IfOk result (λ value. view value
        ≡ conflict_data (map standing_of sources.now) (conflict.now, group)) }
{
    let variant = conflict.variant;
    let edge = own_edge(alloc, &conflict.edge, sources, variant)?;
    let point = own_point(alloc, &conflict.point, sources, variant)?;
    let file = file_at(alloc, sources, variant)?;
    Ok(conflict_object(alloc, edge, file, group, point, variant)?)
}

/// The object of a conflict.
fn conflict_object(
    alloc: Global,
    edge: Value,
    file: String,
    group: usize,
    point: Value,
    variant: usize,
) -> Result<Value, AllocError>
    ensures { IfOk result (λ value. view value
        ≡ conflict_object (view edge) (string_bytes file) group (view point) variant) }
{
    let mut members = Map::new(alloc);
    put(&mut members, alloc, "edge", edge)?;
    put(&mut members, alloc, "file", Value::from(file))?;
    put(&mut members, alloc, "group", Value::from(group))?;
    put(&mut members, alloc, "point", point)?;
    put(&mut members, alloc, "variant", Value::from(variant))?;
    Ok(Value::Object(members))
}
