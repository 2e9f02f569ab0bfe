//! The answers of an integration as JSON.
ghost use Rattle.std.specs.Prelude.{◌≡◌, false, map, IfOk, string_bytes};
ghost use Rattle.serde_json.specs.View.{view};
ghost use Rattle.serde_json.specs.Written.{has_float};
ghost use Rattle.hpr_syntax.specs.Print.{text};
ghost use Rattle.hpr_json.specs.Vertices.{many_conflict_data};
ghost use Rattle.hpr_json.specs.Answers.{program_data, conflicts_data, no_program_data, spent_data};

use crate::members::{listed_value, put_text};
use crate::vertices::conflict_value;
use hpr_graph::{ManyConflict, NoMemory};
use hpr_print::text_of;
use hpr_syntax::Program;
use serde_json::{Map, Value, put};
use std::alloc::Global;

/// The answer that is a program: an object with its canonical text as `program`, and the status `done`. It
/// fails only for want of memory.
pub fn program_value(alloc: Global, program: &Program) -> Result<Value, NoMemory>
    ensures data { IfOk result (λ value. view value ≡ program_data (text program.now)) }
    ensures whole { IfOk result (λ value. has_float (view value) ≡ false) }
{
    let text = program_text(alloc, program)?;
    let mut members = Map::new(alloc);
    put(&mut members, alloc, "program", Value::from(text))?;
    put_text(alloc, &mut members, "status", "done")?;
    Ok(Value::Object(members))
}

/// The canonical text of a program.
fn program_text(alloc: Global, program: &Program) -> Result<String, NoMemory>
    ensures { IfOk result (λ t. string_bytes t ≡ text program.now) }
{
    let _body = program.body();
    match String::from_utf8(text_of(alloc, program)?) {
        Ok(text) => Ok(text),
        Err(_) => unreachable!(),
    }
}

/// The answer where the variants interfere: an object with all `conflicts`, as they are listed, and the
/// status `interference`. It fails only for want of memory.
pub fn conflicts_value(alloc: Global, conflicts: &[ManyConflict]) -> Result<Value, NoMemory>
    ensures data { IfOk result (λ value. view value ≡ conflicts_data conflicts.now) }
    ensures whole { IfOk result (λ value. has_float (view value) ≡ false) }
{
    let values = conflict_values(alloc, conflicts)?;
    Ok(listed_value(alloc, "conflicts", values, "interference")?)
}

/// The object of each conflict.
fn conflict_values(alloc: Global, conflicts: &[ManyConflict]) -> Result<Vec<Value>, NoMemory>
    ensures { IfOk result (λ values. map view values.items ≡ map many_conflict_data conflicts.now) }
{
    let mut values = Vec::new(alloc);
    for conflict in conflicts {
        values.push(conflict_value(alloc, conflict)?)?;
    }
    Ok(values)
}

/// The answer where no program has the merged graph: an object with the number of its `parts`, and the
/// status `no program`. It fails only for want of memory.
pub fn no_program_value(alloc: Global, parts: usize) -> Result<Value, NoMemory>
    ensures data { IfOk result (λ value. view value ≡ no_program_data parts) }
    ensures whole { IfOk result (λ value. has_float (view value) ≡ false) }
{
    let mut members = Map::new(alloc);
    put(&mut members, alloc, "parts", Value::from(parts))?;
    put_text(alloc, &mut members, "status", "no program")?;
    Ok(Value::Object(members))
}

/// The answer where none of the arrangements that were tried has the merged graph: an object with the
/// number of `tries`, and the status `spent`. It fails only for want of memory.
pub fn spent_value(alloc: Global, tries: u64) -> Result<Value, NoMemory>
    ensures data { IfOk result (λ value. view value ≡ spent_data tries) }
    ensures whole { IfOk result (λ value. has_float (view value) ≡ false) }
{
    let mut members = Map::new(alloc);
    put_text(alloc, &mut members, "status", "spent")?;
    put(&mut members, alloc, "tries", Value::from(tries))?;
    Ok(Value::Object(members))
}
