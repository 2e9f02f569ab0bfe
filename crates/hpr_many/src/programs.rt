//! A base and many variants merged.
ghost use Rattle.std.specs.Prelude.{◌≡◌, ◌≢◌, ◌≤◌, ℕ, ◌∷◌, ◌++◌, [], Contains, IfOk, IfErr, OnOk, length, map};
ghost use Rattle.hpr_terms.specs.declared.limits.TheConstants.{MAX_VARIANTS};
ghost use Rattle.hpr_syntax.specs.Shape.{IsProgram};
ghost use Rattle.hpr_graph.specs.declared.conflict.ManyConflict.{ManyConflict};
ghost use Rattle.hpr_graph.specs.declared.edge.Edge.{Edge};
ghost use Rattle.hpr_graph.specs.declared.vertex.Vertex.{Vertex};
ghost use Rattle.hpr_graph.specs.Answer.{AreWithoutConflict, graphs_of, merged_of_all};
ghost use Rattle.hpr_graph.specs.Conflicts.{AreConflictsBy, told_many};
ghost use Rattle.hpr_graph.specs.Graphs.{Same};
ghost use Rattle.hpr_graph.specs.Numbered.{IsNumbered, graph_in, graphs_in};
ghost use Rattle.hpr_graph.specs.ProgramGraph.{graph_of};
ghost use Rattle.hpr_graph.specs.Whole.{AreAll, IsWhole};
ghost use Rattle.hpr_engine.specs.Limit.{AreAllInLimit, HasTooManyEdges, IsFirstTooLargeOf};
ghost use Rattle.hpr_engine.specs.Made.{AreGraphsOf, IsGraphOf};
ghost use Rattle.hpr_many.specs.Answers.{IfManyInterference, IfManyJudged, IfManyTooManyEdges};
ghost use Rattle.hpr_many.specs.Answers.{IsFirstTooLargeVariant, IsManyUnsearched};
ghost use Rattle.hpr_many.specs.Made.{IsMergeOfAll};

use crate::stop::ManyStop;
use hpr_build::{BuildError, graph_of};
use hpr_graph::{Graph, NoMemory};
use hpr_merge_many::merge_many;
use hpr_syntax::Program;
use hpr_terms::limits::MAX_EDGES;
use std::alloc::Global;

/// The merged graph of a base and its variants, where the variants don't interfere. Makes the graph of each
/// program once.
pub(crate) fn merge_all_programs(
    alloc: Global,
    base: &Program,
    variants: &[Program],
) -> Result<Graph, ManyStop>
    requires least { 2 ≤ length variants.now }
    requires most { length variants.now ≤ MAX_VARIANTS }
    ensures graph { IfOk result (λ g. Same (graph_in g) (merged_of_all base.now variants.now)) }
    ensures no_conflict { IfOk result (λ _. AreWithoutConflict {X = ℕ × Vertex × Edge} (λ t. t)
        base.now variants.now) }
    ensures within { IfManyJudged result (AreAllInLimit (base.now ∷ variants.now)) }
    ensures too_many { IfManyTooManyEdges result (λ n. IsFirstTooLargeOf (base.now ∷ variants.now) n) }
    ensures conflicts { IfManyInterference result (λ cs. AreConflictsBy (λ t. t) (graph_of base.now)
        (graphs_of variants.now) (map told_many cs)) }
    ensures numbers { IfManyInterference result (λ cs. (c : ManyConflict) → Contains cs c → 1 ≤ c.variant) }
    ensures interferes { IfManyInterference result (λ cs. cs ≢ []) }
    ensures unsearched { IfErr result IsManyUnsearched }
{
    let graphs = limited_graphs(alloc, base, variants)?;
    merge_graphs(alloc, &graphs.base, &graphs.variants)
}

/// The graphs of a base and its variants.
#[derive(Drop)]
struct Graphs {
    base: Graph,
    variants: Vec<Graph>,
}

/// The graphs of the programs, of which the first that has too many edges is named.
fn limited_graphs(alloc: Global, base: &Program, variants: &[Program]) -> Result<Graphs, ManyStop>
    ensures base { IfOk result (λ g. IsGraphOf base.now g.base) }
    ensures variants { IfOk result (λ g. AreGraphsOf variants.now g.variants.items) }
    ensures within { IfOk result (λ _. AreAllInLimit (base.now ∷ variants.now)) }
    ensures too_many { IfManyTooManyEdges result (λ n. IsFirstTooLargeOf (base.now ∷ variants.now) n) }
    ensures no_interference { IfManyInterference result (λ _. ⊥) }
    ensures unsearched { IfErr result IsManyUnsearched }
{
    let base_graph = limited_graph(alloc, base, 0)?;
    let graphs = variant_graphs(alloc, variants)?;
    Ok(Graphs {
        base: base_graph,
        variants: graphs,
    })
}

/// The graphs of the variants, of which the first that has too many edges is named by its number, from 1.
fn variant_graphs(alloc: Global, variants: &[Program]) -> Result<Vec<Graph>, ManyStop>
    ensures graphs { IfOk result (λ gs. AreGraphsOf variants.now gs.items) }
    ensures within { IfOk result (λ _. AreAllInLimit variants.now) }
    ensures too_many { IfManyTooManyEdges result (λ n. IsFirstTooLargeVariant variants.now n) }
    ensures no_interference { IfManyInterference result (λ _. ⊥) }
    ensures unsearched { IfErr result IsManyUnsearched }
{
    let mut graphs = Vec::new(alloc);
    for (at, variant) in variants.iter().enumerate() {
        let graph = limited_graph(alloc, variant, at + 1)?;
        push_graph(&mut graphs, graph)?;
    }
    Ok(graphs)
}

/// Puts a graph behind the others.
fn push_graph(graphs: &mut Vec<Graph>, graph: Graph) -> Result<(), NoMemory>
    ensures { OnOk result (graphs.new.items ≡ graphs.old.items ++ graph ∷ []) }
{
    graphs.push(graph)?;
    Ok(())
}

/// The merged graph of these graphs, which are whole, where there is no conflict.
fn merge_graphs(alloc: Global, base: &Graph, variants: &[Graph]) -> Result<Graph, ManyStop>
    requires least { 2 ≤ length variants.now }
    requires most { length variants.now ≤ MAX_VARIANTS }
    requires base { IsWhole (graph_in base.now) }
    requires variants { AreAll IsWhole (graphs_in variants.now) }
    ensures merged { IfOk result (λ g. IsMergeOfAll (graph_in base.now) (graphs_in variants.now) g) }
    ensures within { IfManyTooManyEdges result (λ _. ⊥) }
    ensures conflicts { IfManyInterference result (λ cs. AreConflictsBy (λ t. t) (graph_in base.now)
        (graphs_in variants.now) (map told_many cs)) }
    ensures numbers { IfManyInterference result (λ cs. (c : ManyConflict) → Contains cs c → 1 ≤ c.variant) }
    ensures interferes { IfManyInterference result (λ cs. cs ≢ []) }
    ensures unsearched { IfErr result IsManyUnsearched }
{
    let merged = merge_many(alloc, base, variants)?;
    let _vertices = merged.graph.vertices();
    if merged.conflicts.is_empty() {
        Ok(merged.graph)
    } else {
        Err(ManyStop::Interference(merged.conflicts))
    }
}

/// The graph of a program, which has this number, where it has too many edges.
fn limited_graph(alloc: Global, program: &Program, number: usize) -> Result<Graph, ManyStop>
    ensures graph { IfOk result (λ g. Same (graph_in g) (graph_of program.now)) }
    ensures numbered { IfOk result (λ g. IsNumbered g) }
    ensures program { IfOk result (λ _. IsProgram program.now) }
    ensures within { IfOk result (λ _. ¬ HasTooManyEdges program.now) }
    ensures too_many { IfManyTooManyEdges result (λ named. (named ≡ number) × HasTooManyEdges program.now) }
    ensures no_interference { IfManyInterference result (λ _. ⊥) }
    ensures unsearched { IfErr result IsManyUnsearched }
{
    let _body = program.body();
    match graph_of(alloc, program, MAX_EDGES) {
        Ok(graph) => {
            let _vertices = graph.vertices();
            Ok(graph)
        }
        Err(BuildError::TooManyEdges) => Err(ManyStop::TooManyEdges(number)),
        Err(BuildError::Memory) => Err(ManyStop::Memory),
    }
}
