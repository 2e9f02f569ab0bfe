//! Three programs merged.
ghost use Rattle.std.specs.Prelude.{◌≡◌, ◌≢◌, [], IfOk, IfErr};
ghost use Rattle.hpr_syntax.specs.Shape.{IsProgram};
ghost use Rattle.hpr_graph.specs.Answer.{IsWithoutConflict, merged_of};
ghost use Rattle.hpr_graph.specs.Conflicts.{AreConflicts};
ghost use Rattle.hpr_graph.specs.Graphs.{Same};
ghost use Rattle.hpr_graph.specs.Numbered.{IsNumbered, graph_in};
ghost use Rattle.hpr_graph.specs.ProgramGraph.{graph_of};
ghost use Rattle.hpr_graph.specs.Whole.{IsWhole};
ghost use Rattle.hpr_engine.specs.Limit.{AreInLimit, HasTooManyEdges};
ghost use Rattle.hpr_meaning.specs.UnionLaw.{KeepsSides};
ghost use Rattle.hpr_engine.specs.Made.{IsGraphOf, IsMergeOf};
ghost use Rattle.hpr_engine.specs.Answers.{IfInterference, IfJudged, IfTooManyEdges, IsFirstTooLarge, IsUnsearched};

use crate::stop::{Stop, Which};
use hpr_build::{BuildError, graph_of};
use hpr_graph::Graph;
use hpr_merge::merge;
use hpr_syntax::Program;
use hpr_terms::limits::MAX_EDGES;
use std::alloc::Global;

/// The merged graph of two variants of a program and their base, where the variants don't interfere
/// (Horwitz, Prins and Reps 1989). Each affected point has there the slice that it has in the graph of
/// its variant. Theirs has no limit on edges.
///
/// Refuses with `TooManyEdges` where a graph of the three has more than [`MAX_EDGES`] edges, and names the
/// first of base, A and B; else with `Interference` where there is a conflict, and lists all of them;
/// and with `Memory` where memory runs out.
pub fn merge_programs(
    alloc: Global,
    base: &Program,
    a: &Program,
    b: &Program,
) -> Result<Graph, Stop>
    ensures graph { IfOk result (λ g. Same (graph_in g) (merged_of base.now a.now b.now)) }
    ensures no_conflict { IfOk result (λ _. IsWithoutConflict base.now a.now b.now) }
    ensures kept { IfOk result (λ _. KeepsSides base.now a.now b.now) }
    ensures within { IfJudged result (AreInLimit base.now a.now b.now) }
    ensures too_many { IfTooManyEdges result (λ which. IsFirstTooLarge base.now a.now b.now which) }
    ensures conflicts { IfInterference result (λ cs. AreConflicts (graph_of base.now) (graph_of a.now)
        (graph_of b.now) cs) }
    ensures interferes { IfInterference result (λ cs. cs ≢ []) }
    ensures unsearched { IfErr result IsUnsearched }
{
    let graphs = limited_graphs(alloc, base, a, b)?;
    merge_graphs(alloc, &graphs.base, &graphs.a, &graphs.b)
}

/// The graphs of a base and its two variants.
#[derive(Drop)]
struct Graphs {
    base: Graph,
    a: Graph,
    b: Graph,
}

/// The graphs of the three programs, of which the first that has too many edges is named.
fn limited_graphs(alloc: Global, base: &Program, a: &Program, b: &Program) -> Result<Graphs, Stop>
    ensures base { IfOk result (λ g. IsGraphOf base.now g.base) }
    ensures a { IfOk result (λ g. IsGraphOf a.now g.a) }
    ensures b { IfOk result (λ g. IsGraphOf b.now g.b) }
    ensures within { IfOk result (λ _. AreInLimit base.now a.now b.now) }
    ensures too_many { IfTooManyEdges result (λ which. IsFirstTooLarge base.now a.now b.now which) }
    ensures no_interference { IfInterference result (λ _. ⊥) }
    ensures unsearched { IfErr result IsUnsearched }
{
    let base_graph = limited_graph(alloc, base, Which::Base)?;
    let a_graph = limited_graph(alloc, a, Which::A)?;
    let b_graph = limited_graph(alloc, b, Which::B)?;
    Ok(Graphs {
        base: base_graph,
        a: a_graph,
        b: b_graph,
    })
}

/// The merged graph of these graphs, which are whole, where there is no conflict.
fn merge_graphs(alloc: Global, base: &Graph, a: &Graph, b: &Graph) -> Result<Graph, Stop>
    requires base { IsWhole (graph_in base.now) }
    requires a { IsWhole (graph_in a.now) }
    requires b { IsWhole (graph_in b.now) }
    ensures merged { IfOk result (λ g. IsMergeOf (graph_in base.now) (graph_in a.now) (graph_in b.now) g) }
    ensures within { IfTooManyEdges result (λ _. ⊥) }
    ensures conflicts { IfInterference result (λ cs. AreConflicts (graph_in base.now) (graph_in a.now)
        (graph_in b.now) cs) }
    ensures interferes { IfInterference result (λ cs. cs ≢ []) }
    ensures unsearched { IfErr result IsUnsearched }
{
    let merged = merge(alloc, base, a, b)?;
    let _vertices = merged.graph.vertices();
    if merged.conflicts.is_empty() {
        Ok(merged.graph)
    } else {
        Err(Stop::Interference(merged.conflicts))
    }
}

/// The graph of a program, which is named where it has too many edges.
fn limited_graph(alloc: Global, program: &Program, which: Which) -> Result<Graph, Stop>
    ensures graph { IfOk result (λ g. Same (graph_in g) (graph_of program.now)) }
    ensures numbered { IfOk result (λ g. IsNumbered g) }
    ensures program { IfOk result (λ _. IsProgram program.now) }
    ensures within { IfOk result (λ _. ¬ HasTooManyEdges program.now) }
    ensures too_many { IfTooManyEdges result (λ named. (named ≡ which) × HasTooManyEdges program.now) }
    ensures no_interference { IfInterference result (λ _. ⊥) }
    ensures unsearched { IfErr result IsUnsearched }
{
    let _body = program.body();
    match graph_of(alloc, program, MAX_EDGES) {
        Ok(graph) => {
            let _vertices = graph.vertices();
            Ok(graph)
        }
        Err(BuildError::TooManyEdges) => Err(Stop::TooManyEdges(which)),
        Err(BuildError::Memory) => Err(Stop::Memory),
    }
}
