//! The command `conflicts`.
ghost use Rattle.std.specs.Prelude.{◌≡◌, ◌≤◌, ◌+◌, ◌∷◌, IfOk, length, map};
ghost use Rattle.hpr_terms.specs.declared.limits.TheConstants.{MAX_VARIANTS};
ghost use Rattle.hpr_engine.specs.Made.{AreGraphsOf};
ghost use Rattle.hpr_graph.specs.Numbered.{graphs_in};
ghost use Rattle.hpr_graph.specs.Whole.{AreAll, IsWhole};
ghost use Rattle.hpr_located.specs.Sources.{standing_of};
ghost use Rattle.hpr_kit.specs.Graphs.{AreConflictsOf, AreConflictsTold, OnGraphs};
ghost use Rattle.hpr_kit.specs.Private.Graphs.{MakesGraphs, Says};
ghost use Rattle.hpr_kit.specs.Private.Replies.{seen};

use crate::graphs::{graph_for, print_line};
use crate::load::{Halt, Loaded, push_one};
use crate::reply::Reply;
use hpr_graph::{Graph, ManyConflict};
use hpr_interference::{conflicts_among, conflicts_value};
use hpr_located::Source;
use hpr_syntax::{NoMemory, Program};
use std::alloc::Global;

/// The names of base and its variants.
pub(crate) fn with_base<'a>(
    alloc: Global,
    base: &'a str,
    variants: &[&'a str],
) -> Result<Vec<&'a str>, NoMemory>
    ensures { IfOk result (λ files. map (λ w. w.now) files.items
        ≡ base.entry.now ∷ map (λ w. w.now) variants.now) }
{
    let mut files = Vec::new(alloc);
    files.push(base)?;
    files.extend_from_slice(variants)?;
    Ok(files)
}

/// What interferes in an integration of the programs of these files, of which the first is base.
pub(crate) fn conflicts_reply(alloc: Global, files: &[&str], loaded: &Loaded) -> Result<Reply, Halt>
    requires programs { length loaded.now.programs.items ≡ length files.now }
    requires least { 3 ≤ length files.now }
    requires most { length files.now ≤ MAX_VARIANTS + 1 }
    ensures { Says (λ a. OnGraphs (map (λ w. w.now) files.now) loaded.now.programs.items
        (λ gs. AreConflictsTold gs (map standing_of loaded.now.sources.items) a) a) result }
{
    let graphs = graphs_for(alloc, files, loaded.programs.as_slice())?;
    let reply = conflicts_told(alloc, graphs.as_slice(), loaded.sources.as_slice())?;
    Ok(reply)
}

/// The graphs of the programs of these files.
pub(crate) fn graphs_for(
    alloc: Global,
    files: &[&str],
    programs: &[Program],
) -> Result<Vec<Graph>, Halt>
    requires { length programs.now ≡ length files.now }
    ensures makes { MakesGraphs (map (λ w. w.now) files.now) programs.now result }
    ensures count { IfOk result (λ graphs. length graphs.items ≡ length files.now) }
    ensures whole { IfOk result (λ graphs. AreAll IsWhole (graphs_in graphs.items)) }
    ensures programs { IfOk result (λ graphs. AreGraphsOf programs.now graphs.items) }
{
    let mut graphs = Vec::new(alloc);
    for (at, file) in files.iter().enumerate() {
        let program = &programs[at];
        let _body = program.body();
        let graph = graph_for(alloc, file, program)?;
        let _vertices = graph.vertices();
        push_one(&mut graphs, graph)?;
    }
    Ok(graphs)
}

fn conflicts_told(alloc: Global, graphs: &[Graph], sources: &[Source]) -> Result<Reply, NoMemory>
    requires least { 3 ≤ length graphs.now }
    requires most { length graphs.now ≤ MAX_VARIANTS + 1 }
    requires whole { AreAll IsWhole (graphs_in graphs.now) }
    ensures { IfOk result (λ reply. AreConflictsTold graphs.now (map standing_of sources.now) (seen reply)) }
{
    let conflicts = conflicts_of(alloc, graphs)?;
    let value = conflicts_value(alloc, conflicts.as_slice(), sources)?;
    print_line(alloc, &value)
}

/// The conflicts of the variants behind the first graph, which is base's.
fn conflicts_of(alloc: Global, graphs: &[Graph]) -> Result<Vec<ManyConflict>, NoMemory>
    requires least { 3 ≤ length graphs.now }
    requires most { length graphs.now ≤ MAX_VARIANTS + 1 }
    requires whole { AreAll IsWhole (graphs_in graphs.now) }
    ensures { IfOk result (λ conflicts. AreConflictsOf graphs.now conflicts.items) }
{
    conflicts_among(alloc, &graphs[0], &graphs[1..])
}
