//! The command `merge`.
ghost use Rattle.std.specs.Prelude.{◌≡◌, ◌≤◌, ◌+◌, IfOk, length, map};
ghost use Rattle.hpr_terms.specs.declared.limits.TheConstants.{MAX_VARIANTS};
ghost use Rattle.hpr_engine.specs.Made.{AreGraphsOf};
ghost use Rattle.hpr_located.specs.Sources.{standing_of};
ghost use Rattle.hpr_told.specs.Clashes.{HasClashInGraph};
ghost use Rattle.hpr_kit.specs.Graphs.{OnGraphs};
ghost use Rattle.hpr_kit.specs.Merges.{ComesOf, IsMergeTold, IsToldOf, files_for, variants_first};
ghost use Rattle.hpr_kit.specs.Private.Graphs.{Says};
ghost use Rattle.hpr_kit.specs.Private.Replies.{seen};

use crate::conflicts::graphs_for;
use crate::graphs::print_line;
use crate::load::{Halt, Loaded};
use crate::reply::Reply;
use hpr_graph::Graph;
use hpr_located::Source;
use hpr_outcome::{Outcome, merge_outcome};
use hpr_syntax::{NoMemory, Program};
use hpr_told::outcome_value;
use std::alloc::Global;

/// What an integration of the programs of these files comes to, of which the first is base, within so many tries.
pub(crate) fn merge_reply(
    alloc: Global,
    files: &[&str],
    loaded: Loaded,
    tries: u64,
) -> Result<Reply, Halt>
    requires programs { length loaded.programs.items ≡ length files.now }
    requires least { 3 ≤ length files.now }
    requires most { length files.now ≤ MAX_VARIANTS + 1 }
    requires tries { 1 ≤ tries }
    ensures { Says (λ a. OnGraphs (map (λ w. w.now) files.now) loaded.programs.items
        (λ gs. IsMergeTold loaded.programs.items tries (map standing_of loaded.sources.items) a) a)
        result }
{
    let graphs = graphs_for(alloc, files, loaded.programs.as_slice())?;
    let outcome = outcome_for(alloc, loaded.programs.as_slice(), graphs.as_slice(), tries)?;
    let reply = outcome_told(alloc, &outcome, loaded.sources)?;
    Ok(reply)
}

/// What an integration of these programs comes to, of which the first is base.
fn outcome_for(
    alloc: Global,
    programs: &[Program],
    graphs: &[Graph],
    tries: u64,
) -> Result<Outcome, NoMemory>
    requires least { 3 ≤ length programs.now }
    requires most { length programs.now ≤ MAX_VARIANTS + 1 }
    requires graphs { AreGraphsOf programs.now graphs.now }
    requires count { length graphs.now ≡ length programs.now }
    requires tries { 1 ≤ tries }
    ensures comes { IfOk result (λ outcome. ComesOf programs.now tries outcome) }
    ensures clash { IfOk result HasClashInGraph }
{
    let outcome = merge_outcome(
        alloc,
        &programs[0],
        &programs[1..],
        &graphs[0],
        &graphs[1..],
        tries,
    )?;
    Ok(outcome)
}

/// The reply that tells what an integration comes to, where the first of the files is base.
fn outcome_told(alloc: Global, outcome: &Outcome, sources: Vec<Source>) -> Result<Reply, NoMemory>
    requires { HasClashInGraph outcome.now }
    ensures { IfOk result (λ reply. IsToldOf outcome.now (map standing_of sources.items) (seen reply)) }
{
    let files = files_for(outcome, sources);
    let value = outcome_value(alloc, outcome, files.as_slice())?;
    print_line(alloc, &value)
}

/// The files in the order in which a part's place is looked for in them: as they are where the variants interfere, so that
/// the place of a file is the number of its variant; else the variants' before base's, which is the first of these.
fn files_for(outcome: &Outcome, sources: Vec<Source>) -> Vec<Source>
    ensures { map standing_of result.items ≡ files_for outcome.now (map standing_of sources.items) }
{
    match outcome {
        Outcome::Interference(_) => sources,
        _ => variants_first(sources),
    }
}

/// The files with the first of them behind the others.
fn variants_first(mut sources: Vec<Source>) -> Vec<Source>
    ensures { map standing_of result.items ≡ variants_first (map standing_of sources.items) }
{
    turn(sources.as_mut_slice());
    sources
}

/// Puts the first of the files behind the others.
fn turn(sources: &mut [Source])
    ensures { map standing_of sources.new ≡ variants_first (map standing_of sources.old) }
{
    if !sources.is_empty() {
        sources.rotate_left(1);
    }
}
