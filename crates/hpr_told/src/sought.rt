//! What was searched for, as JSON.
ghost use Rattle.std.specs.Prelude.{◌≡◌, IfOk, map};
ghost use Rattle.serde_json.specs.View.{view};
ghost use Rattle.hpr_located.specs.Sources.{standing_of};
ghost use Rattle.hpr_told.specs.Outcomes.{renamed_data, renamed_object, with_sought};

use hpr_graph::{NoMemory, Tag, Vertex};
use hpr_located::{Source, vertex_at, with_member};
use hpr_outcome::Sought;
use serde_json::{Map, Value, put};
use std::alloc::{AllocError, Global};

/// The object with the graph that was searched for, the parts that got new tags, and the number of the tries.
pub(crate) fn with_sought(
    alloc: Global,
    value: Value,
    graph: Value,
    sought: &Sought,
    sources: &[Source],
) -> Result<Value, NoMemory>
    ensures { IfOk result (λ told. view told
        ≡ with_sought (map standing_of sources.now) sought.now (view graph) (view value)) }
{
    let renamed = renamed_values(alloc, &sought.renamed, sources)?;
    let value = with_member(alloc, value, "tries", Value::from(sought.tries))?;
    let value = with_member(alloc, value, "renamed", Value::Array(renamed))?;
    Ok(with_member(alloc, value, "graph", graph)?)
}

/// The object of each part that got a new tag.
fn renamed_values(
    alloc: Global,
    renamed: &[(Vertex, Tag)],
    sources: &[Source],
) -> Result<Vec<Value>, NoMemory>
    ensures { IfOk result (λ values.
        map view values.items ≡ map (renamed_data (map standing_of sources.now)) renamed.now) }
{
    let mut values = Vec::new(alloc);
    for (vertex, tag) in renamed {
        let part = vertex_at(alloc, vertex, sources)?;
        values.push(renamed_object(alloc, part, *tag)?)?;
    }
    Ok(values)
}

/// The object of a part and its new tag.
fn renamed_object(alloc: Global, part: Value, tag: Tag) -> Result<Value, AllocError>
    ensures { IfOk result (λ value. view value ≡ renamed_object (view part) tag) }
{
    let mut members = Map::new(alloc);
    put(&mut members, alloc, "part", part)?;
    put(
        &mut members,
        alloc,
        "tag",
        Value::from(tag.to_string(alloc)?),
    )?;
    Ok(Value::Object(members))
}
