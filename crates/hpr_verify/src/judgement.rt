//! The judgement on a merged program that was made elsewhere.
ghost use Rattle.std.specs.Prelude.{◌≡◌, ◌≢◌, ◌↔◌, [], ◌∷◌, IfOk};
ghost use Rattle.hpr_syntax.specs.Meaning.{Keeps};
ghost use Rattle.hpr_syntax.specs.Shape.{IsProgram};
ghost use Rattle.hpr_graph.specs.Answer.{merged_of};
ghost use Rattle.hpr_graph.specs.Graphs.{Same};
ghost use Rattle.hpr_graph.specs.Numbered.{graph_in};
ghost use Rattle.hpr_graph.specs.ProgramGraph.{graph_of};
ghost use Rattle.hpr_engine.specs.Answers.{number_of};
ghost use Rattle.hpr_engine.specs.Limit.{AreAllInLimit, HasTooManyEdges, IsFirstTooLargeOf};
ghost use Rattle.hpr_verify.specs.Refusals.{IfTooManyEdges, IsFirstOf};
ghost use Rattle.hpr_verify.specs.Verdict.{HasSearchedGraph, IsJudged, IsVerdict};

use crate::difference::difference;
use crate::{Conflict, Program, Verdict, VerifyError};
use hpr_build::{BuildError, graph_of};
use hpr_engine::{Stop, Which, merge_programs, searched_for};
use hpr_graph::Graph;
use hpr_terms::limits::MAX_EDGES;
use std::alloc::Global;

/// The judgement on a program that is offered as the merge of two variants and their base, whoever made it.
/// Where the variants interfere, it is the first conflict. Else it tells how the graph of the offered program
/// differs from the merged graph, in which of two contents of one tag the one that A lacks has a new tag, as
/// in what `hpr_engine::integrate` answers: by the least vertex that one of the two alone has; where they have
/// the same vertices, by the least edge; or they are the same, and then the offered program keeps the meaning
/// of both variants (Horwitz, Prins and Reps 1989; Reps and Yang 1988; they have no such judgement, and no
/// tags). Issued numbers and the order of finals don't matter, nor does the order of parts where the graph
/// leaves it open. Nothing is searched, and no text is compared.
///
/// Refuses with `TooManyEdges` where a graph of the four programs has more than [`MAX_EDGES`] edges, and
/// names the first of base, A, B and the offered one by its number, from 0; and with `Memory` where memory
/// runs out.
pub fn verify(
    alloc: Global,
    base: &Program,
    a: &Program,
    b: &Program,
    offered: &Program,
) -> Result<Verdict, VerifyError>
    // The verdict is one by the definition.
    ensures verdict { IfOk result (λ v. IsVerdict base.now a.now b.now offered.now v) }
    ensures same { IfOk result (λ v. (v ≡ Verdict.Same) ↔ HasSearchedGraph base.now a.now b.now offered.now) }

    // An offered program that has the merged graph keeps the meaning of both variants.
    ensures keeps { IfOk result (λ v. v ≡ Verdict.Same → Keeps base.now a.now b.now offered.now) }

    // The limit on edges comes first.
    ensures within { IfOk result (λ _. AreAllInLimit (base.now ∷ a.now ∷ b.now ∷ offered.now ∷ [])) }
    ensures too_many { IfTooManyEdges result (λ which. IsFirstTooLargeOf (base.now ∷ a.now ∷ b.now ∷ offered.now ∷ [])
        which) }
{
    match merge_programs(alloc, base, a, b) {
        Ok(merged) => judged(alloc, merged, base, a, b, offered),
        Err(Stop::Interference(conflicts)) => interfering(alloc, conflicts, offered),
        Err(Stop::TooManyEdges(which)) => Err(VerifyError::TooManyEdges(number_of(which))),
        Err(Stop::Memory) => Err(VerifyError::Memory),
        Err(Stop::NoProgram(_)) => unreachable!(),
        Err(Stop::Spent) => unreachable!(),
    }
}

/// The number of one of the three programs.
fn number_of(which: Which) -> usize
    ensures { result ≡ number_of which }
{
    match which {
        Which::Base => 0,
        Which::A => 1,
        Which::B => 2,
    }
}

/// The verdict where the variants interfere: the first of the conflicts.
fn interfering(
    alloc: Global,
    conflicts: Vec<Conflict>,
    offered: &Program,
) -> Result<Verdict, VerifyError>
    requires { conflicts.items ≢ [] }
    ensures first { IfOk result (λ v. IsFirstOf conflicts.items v) }
    ensures within { IfOk result (λ _. ¬ HasTooManyEdges offered.now) }
    ensures too_many { IfTooManyEdges result (λ which. (which ≡ 3) × HasTooManyEdges offered.now) }
{
    let _graph = offered_graph(alloc, offered)?;
    Ok(Verdict::Conflict(first_of(conflicts)))
}

/// The first of these conflicts.
fn first_of(mut conflicts: Vec<Conflict>) -> Conflict
    requires { conflicts.items ≢ [] }
    ensures { IsFirstOf conflicts.items (Verdict.Conflict result) }
{
    conflicts.remove(0)
}

/// The verdict where the variants don't interfere, and this is their merged graph.
fn judged(
    alloc: Global,
    merged: Graph,
    base: &Program,
    a: &Program,
    b: &Program,
    offered: &Program,
) -> Result<Verdict, VerifyError>
    requires { Same (graph_in merged) (merged_of base.now a.now b.now) }
    ensures judged { IfOk result (λ v. IsJudged base.now a.now b.now offered.now v) }
    ensures base { IfOk result (λ _. IsProgram base.now) }
    ensures a { IfOk result (λ _. IsProgram a.now) }
    ensures b { IfOk result (λ _. IsProgram b.now) }
    ensures offered { IfOk result (λ _. IsProgram offered.now) }
    ensures within { IfOk result (λ _. ¬ HasTooManyEdges offered.now) }
    ensures too_many { IfTooManyEdges result (λ which. (which ≡ 3) × HasTooManyEdges offered.now) }
{
    let graph = offered_graph(alloc, offered)?;
    let searched = searched_for(alloc, merged, base, a, b)?;
    Ok(difference(alloc, &graph, &searched.graph)?)
}

/// The graph of the offered program, whose number is 3.
fn offered_graph(alloc: Global, offered: &Program) -> Result<Graph, VerifyError>
    ensures graph { IfOk result (λ g. Same (graph_in g) (graph_of offered.now)) }
    ensures program { IfOk result (λ _. IsProgram offered.now) }
    ensures within { IfOk result (λ _. ¬ HasTooManyEdges offered.now) }
    ensures too_many { IfTooManyEdges result (λ which. (which ≡ 3) × HasTooManyEdges offered.now) }
{
    let _body = offered.body();
    match graph_of(alloc, offered, MAX_EDGES) {
        Ok(graph) => Ok(graph),
        Err(BuildError::TooManyEdges) => Err(VerifyError::TooManyEdges(3)),
        Err(BuildError::Memory) => Err(VerifyError::Memory),
    }
}
