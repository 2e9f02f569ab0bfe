//! How what a request comes to is told.
ghost use Rattle.std.specs.Prelude.{◌≡◌, false, IfOk};
ghost use Rattle.serde_json.specs.View.{view};
ghost use Rattle.serde_json.specs.Written.{has_float};
ghost use Rattle.hpr_run.specs.Outcomes.{outcome_of};
ghost use Rattle.hpr_decisions.specs.Ends.{status_of_kind};
ghost use Rattle.hpr_decisions.specs.RunFile.{kind_of};
ghost use Rattle.hpr_json.specs.Answers.{json_line};
ghost use Rattle.hpr_data.specs.Told.{verdict_status};
ghost use Rattle.hpr_data.specs.Private.ToldAs.{HasPoints, StoppedAs, ToldAs};

use crate::found::{Found, Stop};
use hpr_decisions::Status;
use hpr_json::{
    absent_value, conflicts_value, edges_value, graph_value, json_line, no_program_value,
    outcome_value, points_value, program_value, refusal_value, spent_value, state_value,
    verdict_value, words_value,
};
use hpr_run::Outcome;
use hpr_syntax::NoMemory;
use hpr_verify::Verdict;
use serde_json::Value;
use std::alloc::Global;

/// What is told of a request.
#[derive(Drop)]
pub struct Reply {
    /// How it went: as the call of the program with these words over these files. `ReadFault` is for a file that
    /// isn't there.
    pub status: Status,
    /// One JSON object in compact text, and a newline.
    pub text: Vec<u8>,
}

/// Tells what is found.
pub(crate) fn told(alloc: Global, found: &Found) -> Result<Reply, NoMemory>
    requires { HasPoints found.now }
    ensures { IfOk result (ToldAs found.now) }
{
    match found {
        Found::Merged(program) => line(alloc, Status::Done, program_value(alloc, program)?),
        Found::Interference(conflicts) => line(
            alloc,
            Status::Interference,
            conflicts_value(alloc, conflicts)?,
        ),
        Found::NoProgram(parts) => {
            line(alloc, Status::NoProgram, no_program_value(alloc, *parts)?)
        }
        Found::Spent(tries) => line(alloc, Status::Spent, spent_value(alloc, *tries)?),
        Found::Affected(graph, points) => {
            line(alloc, Status::Done, points_value(alloc, graph, points)?)
        }
        Found::Graph(graph) => line(alloc, Status::Done, graph_value(alloc, graph)?),
        Found::Judged(verdict) => {
            line(
                alloc,
                verdict_status(verdict),
                verdict_value(alloc, verdict)?,
            )
        }
        Found::Ran(outcome) => line(alloc, run_status(outcome), outcome_value(alloc, outcome)?),
    }
}

/// The status of a verdict.
fn verdict_status(verdict: &Verdict) -> Status
    ensures { result ≡ verdict_status verdict.now }
{
    match verdict {
        Verdict::Same => Status::Done,
        Verdict::Conflict(_) | Verdict::Vertex(_, _) | Verdict::Edge(_, _) => Status::Rejected,
    }
}

/// The status of a run.
fn run_status(outcome: &Outcome) -> Status
    ensures { result ≡ status_of_kind (kind_of (outcome_of outcome.now)) }
{
    match outcome {
        Outcome::Ends { .. } => Status::Done,
        Outcome::Faults { .. } | Outcome::More { .. } => Status::NotEnded,
    }
}

/// Tells why nothing is found.
pub(crate) fn stopped(alloc: Global, stop: &Stop<'_>) -> Result<Reply, NoMemory>
    ensures { IfOk result (StoppedAs stop.now) }
{
    match stop {
        Stop::NoCall => line(alloc, Status::Words, words_value(alloc)?),
        Stop::Word(message) => line(
            alloc,
            Status::Refused,
            state_value(alloc, message.as_str())?,
        ),
        Stop::Absent(file) => line(alloc, Status::ReadFault, absent_value(alloc, file)?),
        Stop::Refused(file, why) => {
            line(alloc, Status::Refused, refusal_value(alloc, file, why)?)
        }
        Stop::TooManyEdges(file) => line(alloc, Status::Refused, edges_value(alloc, file)?),
        Stop::Memory => Err(NoMemory),
    }
}

/// A status and the line of an object.
fn line(alloc: Global, status: Status, object: Value) -> Result<Reply, NoMemory>
    requires { has_float (view object) ≡ false }
    ensures status { IfOk result (λ reply. reply.status ≡ status) }
    ensures text { IfOk result (λ reply. reply.text.items ≡ json_line (view object)) }
{
    let text = json_line(alloc, &object)?;
    Ok(Reply { status, text })
}
