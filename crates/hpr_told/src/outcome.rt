//! Outcomes as JSON.
ghost use Rattle.std.specs.Prelude.{◌≡◌, false, IfOk, map};
ghost use Rattle.serde_json.specs.View.{view};
ghost use Rattle.serde_json.specs.Written.{has_float};
ghost use Rattle.hpr_located.specs.Sources.{standing_of};
ghost use Rattle.hpr_told.specs.Clashes.{HasClashInGraph, IsClashWithin};
ghost use Rattle.hpr_told.specs.Outcomes.{IsMergedTold, IsNoneTold, IsOutcomeTold, IsSpentTold};

use crate::clash::with_clash;
use crate::sought::with_sought;
use hpr_drawn::graph_value;
use hpr_graph::NoMemory;
use hpr_interference::conflicts_value;
use hpr_json::{no_program_value, program_value, spent_value};
use hpr_located::Source;
use hpr_outcome::{FirstClash, Outcome, Sought};
use hpr_rebuild::part_count;
use hpr_syntax::Program;
use serde_json::Value;
use std::alloc::Global;

/// What comes of an integration, as an object whose `status` is `done`, `interference`, `no program` or `spent`.
///
/// Where the variants interfere it is what [`conflicts_value`] tells. Else it is hpr's own answer, with the canonical
/// text of the `program`, or the number of the `parts` of the graph that no program has. Beside that stand the `graph`
/// that was searched for, as [`graph_value`] tells it; `renamed`, an array of the parts that got new tags, in the order
/// of vertices, each with the `part` as it was and its new `tag`; the number of the `tries`; and, where no program was
/// found and the search has a first clash, the `clash`: the `part` that clashes, and the parts `behind` which it stands,
/// in the order in which they were placed. Each vertex is told as [`hpr_located::vertex_at`] has it. No paper has such
/// an answer.
///
/// The numbers of the clash are those of vertices of the graph. It fails only for want of memory.
pub fn outcome_value(
    alloc: Global,
    outcome: &Outcome,
    sources: &[Source],
) -> Result<Value, NoMemory>
    requires clash { HasClashInGraph outcome.now }
    ensures data { IfOk result (λ value. IsOutcomeTold (map standing_of sources.now) outcome.now
        (view value)) }
    ensures whole { IfOk result (λ value. has_float (view value) ≡ false) }
{
    match outcome {
        Outcome::Interference(conflicts) => conflicts_value(alloc, conflicts, sources),
        Outcome::Merged(program, sought) => merged_value(alloc, program, sought, sources),
        Outcome::NoProgram(sought, clash) => none_value(alloc, sought, clash, sources),
        Outcome::Spent(sought, clash) => unfound_value(alloc, sought, clash, sources),
    }
}

/// The answer that is a program.
fn merged_value(
    alloc: Global,
    program: &Program,
    sought: &Sought,
    sources: &[Source],
) -> Result<Value, NoMemory>
    ensures data { IfOk result (λ value. IsMergedTold (map standing_of sources.now) program.now sought.now
        (view value)) }
    ensures whole { IfOk result (λ value. has_float (view value) ≡ false) }
{
    let graph = graph_value(alloc, &sought.graph, sources)?;
    let value = program_value(alloc, program)?;
    with_sought(alloc, value, graph, sought, sources)
}

/// The answer where no program has the graph.
fn none_value(
    alloc: Global,
    sought: &Sought,
    clash: &Option<FirstClash>,
    sources: &[Source],
) -> Result<Value, NoMemory>
    requires { IsClashWithin sought.now.graph clash.now }
    ensures data { IfOk result (λ value. IsNoneTold (map standing_of sources.now) sought.now clash.now
        (view value)) }
    ensures whole { IfOk result (λ value. has_float (view value) ≡ false) }
{
    let graph = graph_value(alloc, &sought.graph, sources)?;
    let value = no_program_value(alloc, part_count(&sought.graph))?;
    let told = with_clash(alloc, value, clash, &sought.graph, sources)?;
    with_sought(alloc, told, graph, sought, sources)
}

/// The answer where the tries are spent.
fn unfound_value(
    alloc: Global,
    sought: &Sought,
    clash: &Option<FirstClash>,
    sources: &[Source],
) -> Result<Value, NoMemory>
    requires { IsClashWithin sought.now.graph clash.now }
    ensures data { IfOk result (λ value. IsSpentTold (map standing_of sources.now) sought.now clash.now
        (view value)) }
    ensures whole { IfOk result (λ value. has_float (view value) ≡ false) }
{
    let graph = graph_value(alloc, &sought.graph, sources)?;
    let value = spent_value(alloc, sought.tries)?;
    let told = with_clash(alloc, value, clash, &sought.graph, sources)?;
    with_sought(alloc, told, graph, sought, sources)
}
