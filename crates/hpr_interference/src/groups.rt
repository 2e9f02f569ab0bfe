//! Groups of conflicts as JSON.
ghost use Rattle.std.specs.Prelude.{◌≡◌, ◌<◌, ℕ, List, Contains, IfOk, codes, length, map, slice_index_or, string_bytes};
ghost use Rattle.std.specs.List.{AllZip};
ghost use Rattle.serde_json.specs.Data.{array, member, no_members, object, string};
ghost use Rattle.serde_json.specs.View.{items_view, view};
ghost use Rattle.hpr_report.specs.GraphJson.{number_data};
ghost use Rattle.hpr_search.specs.Rows.{numbers_of};
ghost use Rattle.hpr_located.specs.Sources.{standing_of};
ghost use Rattle.hpr_interference.specs.Answers.{group_data};
ghost use Rattle.hpr_interference.specs.Groups.{Group};
ghost use Rattle.hpr_interference.specs.Private.Rows.{IsRow};

use crate::own::{file_at, own_edge};
use hpr_conflicts::sentence;
use hpr_graph::{ManyConflict, NoMemory, Vertex};
use hpr_located::Source;
use serde_json::{Map, Value, put};
use std::alloc::{AllocError, Global};

/// The object of each group, by the rows of the places of their conflicts.
pub(crate) fn group_values(
    alloc: Global,
    conflicts: &[ManyConflict],
    rows: &[Vec<usize>],
    sources: &[Source],
) -> Result<Vec<Value>, NoMemory>
    requires some { (row : List ℕ) → Contains (numbers_of rows.now) row → 0 < length row }
    requires within { (row : List ℕ) (i : ℕ) → Contains (numbers_of rows.now) row → Contains row i
        → i < length conflicts.now }
    ensures { IfOk result (λ values. (gs : List Group) × AllZip (IsRow conflicts.now) (numbers_of rows.now) gs
        × (map view values.items ≡ map (group_data (map standing_of sources.now)) gs)) }
{
    let mut values = Vec::with_capacity(alloc, rows.len())?;
    for row in rows {
        let value = group_value(alloc, conflicts, row, sources)?;
        values.push(value)?;
    }
    Ok(values)
}

/// A group, by the places of its conflicts.
fn group_value(
    alloc: Global,
    conflicts: &[ManyConflict],
    row: &[usize],
    sources: &[Source],
) -> Result<Value, NoMemory>
    requires some { 0 < length row.now }
    requires within { (i : ℕ) → Contains row.now i → i < length conflicts.now }
    ensures { IfOk result (λ value. (g : Group) × IsRow conflicts.now row.now g
        × (view value ≡ group_data (map standing_of sources.now) g)) }
{
    let first = conflict_at(conflicts, row[0]);
    let points = points_of(alloc, conflicts, row)?;
    shown_group(alloc, first, row, &points, sources)
}

/// The points of the conflicts at these places.
fn points_of<'a>(
    alloc: Global,
    conflicts: &'a [ManyConflict],
    row: &[usize],
) -> Result<Vec<&'a Vertex>, NoMemory>
    requires { (i : ℕ) → Contains row.now i → i < length conflicts.now }
    ensures { IfOk result (λ points. (c : ManyConflict) → map (λ p. p.now) points.items
        ≡ map (λ i. (slice_index_or conflicts.now i c).point) row.now) }
{
    let mut points = Vec::with_capacity(alloc, row.len())?;
    for at in row {
        points.push(&conflict_at(conflicts, *at).point)?;
    }
    Ok(points)
}

/// The conflict at this place.
fn conflict_at(conflicts: &[ManyConflict], at: usize) -> &ManyConflict
    requires { at < length conflicts.now }
    ensures { (c : ManyConflict) → result.now ≡ slice_index_or conflicts.now at c }
{
    &conflicts[at]
}

/// The group of a conflict, with these places and points.
fn shown_group(
    alloc: Global,
    first: &ManyConflict,
    row: &[usize],
    points: &[&Vertex],
    sources: &[Source],
) -> Result<Value, NoMemory>
    ensures { IfOk result (λ value. view value ≡ group_data (map standing_of sources.now)
        (record {
          variant = first.now.variant;
          edge = first.now.edge;
          places = row.now;
          points = map (λ p. p.now) points.now;
        })) }
{
    let variant = first.variant;
    let edge = own_edge(alloc, &first.edge, sources, variant)?;
    let file = file_at(alloc, sources, variant)?;
    let said = sentence(alloc, file.as_str(), &first.edge, points)?;
    let places = place_values(alloc, row)?;
    Ok(group_object(alloc, places, edge, said, variant)?)
}

/// The object of a group.
fn group_object(
    alloc: Global,
    places: Vec<Value>,
    edge: Value,
    said: String,
    variant: usize,
) -> Result<Value, AllocError>
    ensures { IfOk result (λ value. view value
        ≡ object (member (codes "conflicts") (array (items_view places.items))
        (member (codes "edge") (view edge) (member (codes "sentence") (string (string_bytes said))
        (member (codes "variant") (number_data variant) no_members))))) }
{
    let mut members = Map::new(alloc);
    put(&mut members, alloc, "conflicts", Value::Array(places))?;
    put(&mut members, alloc, "edge", edge)?;
    put(&mut members, alloc, "sentence", Value::from(said))?;
    put(&mut members, alloc, "variant", Value::from(variant))?;
    Ok(Value::Object(members))
}

/// These numbers.
fn place_values(alloc: Global, row: &[usize]) -> Result<Vec<Value>, NoMemory>
    ensures { IfOk result (λ values. map view values.items ≡ map number_data row.now) }
{
    let mut values = Vec::with_capacity(alloc, row.len())?;
    for at in row {
        values.push(Value::from(*at))?;
    }
    Ok(values)
}
