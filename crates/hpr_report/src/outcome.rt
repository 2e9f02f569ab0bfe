//! How a run went.
ghost use Rattle.std.specs.Prelude.{◌≡◌, ◌++◌, flat_map, IfOk, OnOk, string_bytes};
ghost use Rattle.hpr_syntax.specs.Run.{faults};
ghost use Rattle.hpr_run.specs.Faults.{fault_of};
ghost use Rattle.hpr_run.specs.Outcomes.{outcome_of};
ghost use Rattle.hpr_report.specs.Texts.{fault_word, value_line, outcome_line, outcome_text};

use crate::graphs::count_line;
use crate::values::put_value_text;
use hpr_run::{Fault, Outcome, Value};
use hpr_syntax::{Name, NoMemory, Tag};
use std::alloc::{AllocError, Global};

/// How a run went: one line, with the count of its steps, and where it ended a line `NAME = VALUE`
/// for each name of `end`, in its order. Each line ends with a newline. It fails only for want of
/// memory.
pub fn outcome_text(alloc: Global, outcome: &Outcome) -> Result<Vec<u8>, NoMemory>
    ensures { IfOk result (λ text. text.items ≡ outcome_text (outcome_of outcome.now)) }
{
    let mut out = outcome_line(alloc, outcome)?;
    match outcome {
        Outcome::Ends { finals, .. } => {
            put_values(alloc, &mut out, finals.list())?;
            Ok(out)
        }
        Outcome::Faults { .. } | Outcome::More { .. } => Ok(out),
    }
}

/// How a run went, without its values: one line, with the count of its steps, and a newline. It fails
/// only for want of memory.
pub fn outcome_line(alloc: Global, outcome: &Outcome) -> Result<Vec<u8>, NoMemory>
    ensures { IfOk result (λ text. text.items ≡ outcome_line (outcome_of outcome.now)) }
{
    match outcome {
        Outcome::Ends { steps, .. } => count_line(alloc, "ended, steps ", *steps),
        Outcome::Faults { tag, fault, steps } => faulted_line(alloc, tag, *fault, *steps),
        Outcome::More { steps } => count_line(alloc, "not ended, steps ", *steps),
    }
}

/// How a run went that came to a fault.
fn faulted_line(alloc: Global, tag: &Tag, fault: Fault, steps: u64) -> Result<Vec<u8>, NoMemory>
    ensures { IfOk result (λ text. text.items ≡ outcome_line (faults tag.now (fault_of fault) steps)) }
{
    let word = fault_word(fault);
    Ok(format!(in alloc; "faulted {word} at {tag}, steps {steps}\n")?.into_bytes())
}

fn fault_word(fault: Fault) -> &'static str
    ensures { result.now ≡ fault_word (fault_of fault) }
{
    match fault {
        Fault::Overflow => "overflow",
        Fault::ZeroDivide => "zero-divide",
        Fault::OutputFull => "output-full",
        Fault::IndexRange => "index-range",
    }
}

/// Puts a line for each name and its value.
fn put_values(alloc: Global, out: &mut Vec<u8>, values: &[(Name, Value)]) -> Result<(), NoMemory>
    ensures { OnOk result (out.new.items ≡ out.old.items ++ flat_map value_line values.now) }
{
    for (name, value) in values {
        put_value(alloc, out, name, value)?;
    }
    Ok(())
}

/// Puts the line of a name and its value.
fn put_value(alloc: Global, out: &mut Vec<u8>, name: &Name, value: &Value) -> Result<(), NoMemory>
    ensures { OnOk result (out.new.items ≡ out.old.items ++ value_line (name.now, value.now)) }
{
    let line = value_line(alloc, name, value)?;
    out.extend_from_slice(line.as_bytes())?;
    Ok(())
}

#[tactic(auto, unfolding(crate::specs::Texts::value_line))]
fn value_line(alloc: Global, name: &Name, value: &Value) -> Result<String, AllocError>
    ensures { IfOk result (λ text. string_bytes text ≡ value_line (name.now, value.now)) }
{
    let mut line = format!(in alloc; "{name} = ")?;
    put_value_text(&mut line, value)?;
    line.push_str("\n")?;
    Ok(line)
}
