//! How a run went, as JSON.
ghost use Rattle.std.specs.Prelude.{◌≡◌, false, map, IfOk};
ghost use Rattle.serde_json.specs.View.{view};
ghost use Rattle.serde_json.specs.Written.{has_float};
ghost use Rattle.hpr_syntax.specs.Run.{ends, faults, more};
ghost use Rattle.hpr_run.specs.Faults.{fault_of};
ghost use Rattle.hpr_run.specs.Outcomes.{outcome_of};
ghost use Rattle.hpr_report.specs.Texts.{fault_word};
ghost use Rattle.hpr_json.specs.Outcomes.{integer_data, element_data, elements_data, value_data, final_data, outcome_data};

use crate::members::put_text;
use hpr_run::{Fault, Outcome, Value as Worth};
use hpr_syntax::{Name, NoMemory, Tag};
use serde_json::{Map, Value, put};
use std::alloc::{AllocError, Global};

/// How a run went, as an object with the number of its `steps`. Where the program ended the status is
/// `done`, and `values` has an object with the `name` and the `value` of each name of `end`, in its order;
/// where a part came to a fault it is `faulted`, with the part's `tag` and what the `fault` is called; where
/// there is a further step to do it is `not ended`. A value is a number; of `out` the array of the numbers;
/// of an array an object with its `elements` that aren't 0, ascending, each an array of its index and its
/// number. It fails only for want of memory.
pub fn outcome_value(alloc: Global, outcome: &Outcome) -> Result<Value, NoMemory>
    ensures data { IfOk result (λ value. view value ≡ outcome_data (outcome_of outcome.now)) }
    ensures whole { IfOk result (λ value. has_float (view value) ≡ false) }
{
    match outcome {
        Outcome::Ends { finals, steps } => ended_value(alloc, finals.list(), *steps),
        Outcome::Faults { tag, fault, steps } => Ok(faulted_value(alloc, *tag, *fault, *steps)?),
        Outcome::More { steps } => Ok(more_value(alloc, *steps)?),
    }
}

/// How a run went that ended.
fn ended_value(alloc: Global, finals: &[(Name, Worth)], steps: u64) -> Result<Value, NoMemory>
    ensures { IfOk result (λ value. view value ≡ outcome_data (ends finals.now steps)) }
{
    let values = final_values(alloc, finals)?;
    let mut members = Map::new(alloc);
    put_text(alloc, &mut members, "status", "done")?;
    put(&mut members, alloc, "steps", Value::from(steps))?;
    put(&mut members, alloc, "values", Value::Array(values))?;
    Ok(Value::Object(members))
}

/// How a run went that came to a fault.
fn faulted_value(alloc: Global, tag: Tag, fault: Fault, steps: u64) -> Result<Value, AllocError>
    ensures { IfOk result (λ value. view value ≡ outcome_data (faults tag (fault_of fault) steps)) }
{
    let mut members = Map::new(alloc);
    put_text(alloc, &mut members, "fault", fault_word(fault))?;
    put_text(alloc, &mut members, "status", "faulted")?;
    put(&mut members, alloc, "steps", Value::from(steps))?;
    put(
        &mut members,
        alloc,
        "tag",
        Value::from(tag.to_string(alloc)?),
    )?;
    Ok(Value::Object(members))
}

fn fault_word(fault: Fault) -> &'static str
    ensures { result.now ≡ fault_word (fault_of fault) }
{
    match fault {
        Fault::Overflow => "overflow",
        Fault::ZeroDivide => "zero-divide",
        Fault::OutputFull => "output-full",
        Fault::IndexRange => "index-range",
    }
}

/// How a run went that has a further step to do.
fn more_value(alloc: Global, steps: u64) -> Result<Value, AllocError>
    ensures { IfOk result (λ value. view value ≡ outcome_data (more steps)) }
{
    let mut members = Map::new(alloc);
    put_text(alloc, &mut members, "status", "not ended")?;
    put(&mut members, alloc, "steps", Value::from(steps))?;
    Ok(Value::Object(members))
}

/// The object of each name and its value.
fn final_values(alloc: Global, finals: &[(Name, Worth)]) -> Result<Vec<Value>, NoMemory>
    ensures { IfOk result (λ values. map view values.items ≡ map final_data finals.now) }
{
    let mut values = Vec::new(alloc);
    for (name, worth) in finals {
        values.push(final_value(alloc, name, worth)?)?;
    }
    Ok(values)
}

/// The object of a name and its value.
fn final_value(alloc: Global, name: &Name, worth: &Worth) -> Result<Value, NoMemory>
    ensures { IfOk result (λ value. view value ≡ final_data (name.now, worth.now)) }
{
    let value = worth_value(alloc, worth)?;
    let mut members = Map::new(alloc);
    put_text(alloc, &mut members, "name", name.text())?;
    put(&mut members, alloc, "value", value)?;
    Ok(Value::Object(members))
}

/// What a name is worth.
fn worth_value(alloc: Global, worth: &Worth) -> Result<Value, NoMemory>
    ensures { IfOk result (λ value. view value ≡ value_data worth.now) }
{
    match worth {
        Worth::Number(number) => Ok(Value::from(*number)),
        Worth::List(written) => Ok(Value::Array(numbers(alloc, written.numbers())?)),
        Worth::Array(cells) => match cells.entries() {
            Ok(entries) => Ok(elements_value(alloc, &entries)?),
            Err(_) => Err(NoMemory),
        },
    }
}

/// The numbers.
fn numbers(alloc: Global, numbers: &[i64]) -> Result<Vec<Value>, AllocError>
    ensures { IfOk result (λ values. map view values.items ≡ map integer_data numbers.now) }
{
    let mut values = Vec::new(alloc);
    for number in numbers {
        values.push(Value::from(*number))?;
    }
    Ok(values)
}

/// The object of the elements of an array.
fn elements_value(alloc: Global, entries: &[(u16, i64)]) -> Result<Value, AllocError>
    ensures { IfOk result (λ value. view value ≡ elements_data entries.now) }
{
    let values = elements(alloc, entries)?;
    let mut members = Map::new(alloc);
    put(&mut members, alloc, "elements", Value::Array(values))?;
    Ok(Value::Object(members))
}

/// Each element with its index.
fn elements(alloc: Global, entries: &[(u16, i64)]) -> Result<Vec<Value>, AllocError>
    ensures { IfOk result (λ values. map view values.items ≡ map element_data entries.now) }
{
    let mut values = Vec::new(alloc);
    for entry in entries {
        values.push(element_value(alloc, *entry)?)?;
    }
    Ok(values)
}

/// An element with its index.
fn element_value(alloc: Global, entry: (u16, i64)) -> Result<Value, AllocError>
    ensures { IfOk result (λ value. view value ≡ element_data entry) }
{
    let (at, number) = entry;
    let mut pair = Vec::with_capacity(alloc, 2)?;
    pair.push(Value::from(at))?;
    pair.push(Value::from(number))?;
    Ok(Value::Array(pair))
}
