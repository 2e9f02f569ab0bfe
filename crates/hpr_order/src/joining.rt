//! Parts put into a list, in runs.
ghost use Rattle.std.specs.Prelude.{◌≡◌, ◌+◌, ◌<◌, [], IfOk, OnOk, length, replicate};
ghost use Rattle.hpr_graph.specs.Graphs.{IsOnce};
ghost use Rattle.hpr_graph.specs.Rank.{IsJoined};
ghost use Rattle.hpr_order.specs.Joining.{IsTaken, runs_of, with_first, woven};

use crate::listed::{listed, place_in};
use hpr_graph::{NoMemory, Vertex};
use indexmap::IndexSet;
use std::alloc::Global;

/// Puts in what the list lacks of these parts: each right before the one that follows it, or at the end.
///
/// What the list lacks between two parts that it has is one run, and all runs are put in at once. Looks
/// each part up by hash once, and copies none; linear.
pub(crate) fn join(
    alloc: Global,
    list: Vec<Vertex>,
    parts: Vec<Vertex>,
) -> Result<Vec<Vertex>, NoMemory>
    requires list { IsOnce list.items }
    requires parts { IsOnce parts.items }
    ensures { IfOk result (λ v. IsJoined parts.items list.items v.items) }
{
    let list = listed(alloc, list)?;
    let runs = runs_in(alloc, &list, parts)?;
    let list = list.into_iter().collect(alloc)?;
    weave(alloc, list, runs)
}

/// The parts that aren't listed, in runs: for each place of the list the run that goes right before it,
/// and behind them the one that goes to the end. Each run is kept from its end on.
fn runs_in(
    alloc: Global,
    list: &IndexSet<Vertex>,
    mut parts: Vec<Vertex>,
) -> Result<Vec<Vec<Vertex>>, NoMemory>
    requires { IsOnce parts.items }
    ensures count { IfOk result (λ runs. length runs.items ≡ length list.now.keys + 1) }
    ensures joined { IfOk result (λ runs.
        IsJoined parts.items list.now.keys (woven (runs_of runs.items) list.now.keys)) }
{
    let mut at = list.len();
    let mut runs = blank_runs(alloc, at)?;
    while let Some(part) = parts.pop() {
        at = take(list, &mut runs, at, part)?;
    }
    Ok(runs)
}

/// An empty run for each of so many places, and one more.
fn blank_runs(alloc: Global, places: usize) -> Result<Vec<Vec<Vertex>>, NoMemory>
    ensures { IfOk result (λ runs. runs_of runs.items ≡ replicate (places + 1) []) }
{
    let mut runs = Vec::new(alloc);
    for _ in 0..places {
        runs.push(Vec::new(alloc))?;
    }
    runs.push(Vec::new(alloc))?;
    Ok(runs)
}

/// The place of the part, where it is listed. Else the part becomes the first of the run for the place
/// given, which is given back.
fn take(
    list: &IndexSet<Vertex>,
    runs: &mut Vec<Vec<Vertex>>,
    at: usize,
    part: Vertex,
) -> Result<usize, NoMemory>
    requires { at < length runs.old.items }
    ensures { IfOk result (λ next.
        IsTaken list.now.keys part at (runs_of runs.old.items) next (runs_of runs.new.items)) }
{
    if let Some(place) = place_in(list, &part) {
        return Ok(place);
    }
    put_first(runs, at, part)?;
    Ok(at)
}

/// Makes the part the first of a run.
fn put_first(runs: &mut Vec<Vec<Vertex>>, at: usize, part: Vertex) -> Result<(), NoMemory>
    requires { at < length runs.old.items }
    ensures { OnOk result (runs_of runs.new.items ≡ with_first (runs_of runs.old.items) at part) }
{
    let run = &mut runs[at];
    run.push(part)?;
    Ok(())
}

/// The list with each run put in before its place, and the last one at the end; from the end on.
fn weave(
    alloc: Global,
    mut list: Vec<Vertex>,
    mut runs: Vec<Vec<Vertex>>,
) -> Result<Vec<Vertex>, NoMemory>
    requires { length runs.items ≡ length list.items + 1 }
    ensures { IfOk result (λ v. v.items ≡ woven (runs_of runs.items) list.items) }
{
    let mut woven = Vec::new(alloc);
    while let Some(mut run) = runs.pop() {
        woven.append(&mut run)?;
        if let Some(vertex) = list.pop() {
            woven.push(vertex)?;
        }
    }
    woven.reverse();
    Ok(woven)
}
