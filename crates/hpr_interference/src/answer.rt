//! What interferes, as JSON.
ghost use Rattle.std.specs.Prelude.{◌≡◌, IfOk, codes, false, map};
ghost use Rattle.serde_json.specs.Data.{array, member, no_members, object, string};
ghost use Rattle.serde_json.specs.View.{items_view, view};
ghost use Rattle.serde_json.specs.Written.{has_float};
ghost use Rattle.hpr_located.specs.Sources.{standing_of};
ghost use Rattle.hpr_interference.specs.Answers.{Tells, status_of};

use crate::groups::group_values;
use crate::shown::conflict_values;
use hpr_conflicts::{group_numbers, group_rows};
use hpr_graph::{ManyConflict, NoMemory};
use hpr_json::put_text;
use hpr_located::Source;
use serde_json::{Map, Value, put};
use std::alloc::{AllocError, Global};

/// What interferes, as an object: all `conflicts` as they are listed, the `groups` of those of one
/// variant that one edge explains, and the `status`, which is `interference` or, where there is no
/// conflict, `none`.
///
/// A conflict has the `edge` that shows it, the `file` of its variant, the place of its `group`, from
/// 0, its affected `point`, and the number of the `variant`. A group has the places of its `conflicts`,
/// from 0, their `edge`, a `sentence` on what the edge means and to which points it matters, and the
/// number of the `variant` (Horwitz, Prins and Reps 1989 name no edge for a conflict). Vertices have
/// their places in the variant's own file, or else in the first of the others in which they stand.
///
/// The first of the files is base, and the number of a variant is the place of its file; a variant with
/// no file has an empty name. Looks each edge up once by hash, and each vertex that is shown at most once
/// in each file, and twice in the variant's own. It fails only for want of memory.
pub fn conflicts_value(
    alloc: Global,
    conflicts: &[ManyConflict],
    sources: &[Source],
) -> Result<Value, NoMemory>
    ensures data { IfOk result (λ value. Tells (map standing_of sources.now) conflicts.now (view value)) }
    ensures whole { IfOk result (λ value. has_float (view value) ≡ false) }
{
    let numbers = group_numbers(alloc, conflicts)?;
    let rows = group_rows(alloc, &numbers.of, numbers.count)?;
    let told = conflict_values(alloc, conflicts, &numbers.of, sources)?;
    let groups = group_values(alloc, conflicts, &rows, sources)?;
    Ok(answer_object(alloc, told, groups, status_of(conflicts))?)
}

/// Whether there are conflicts, in a word.
fn status_of(conflicts: &[ManyConflict]) -> &'static str
    ensures { result.now ≡ status_of conflicts.now }
{
    match conflicts {
        [] => "none",
        _ => "interference",
    }
}

/// The object of the answer.
fn answer_object(
    alloc: Global,
    conflicts: Vec<Value>,
    groups: Vec<Value>,
    status: &str,
) -> Result<Value, AllocError>
    ensures { IfOk result (λ value. view value
        ≡ object (member (codes "conflicts") (array (items_view conflicts.items))
        (member (codes "groups") (array (items_view groups.items))
        (member (codes "status") (string status.now) no_members)))) }
{
    let mut members = Map::new(alloc);
    put(&mut members, alloc, "conflicts", Value::Array(conflicts))?;
    put(&mut members, alloc, "groups", Value::Array(groups))?;
    put_text(alloc, &mut members, "status", status)?;
    Ok(Value::Object(members))
}
