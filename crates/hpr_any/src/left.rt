//! What a slice leaves of a program, whatever its parts mean.
ghost use Rattle.std.specs.Prelude.{IfOk};
ghost use Rattle.hpr_graph.specs.Numbered.{graph_in};
ghost use Rattle.hpr_prune.specs.KeptLaw.{IsSliceOf};
ghost use Rattle.hpr_prune.specs.Programs.{IsPruned};
ghost use Rattle.hpr_any.specs.MeaningOf.{MeaningOf, by_reads};
ghost use Rattle.hpr_prune.specs.Any.KeptLaw.{DoesItsPart};

use hpr_graph::{Graph, NoMemory};
use hpr_syntax::Program;
use std::alloc::Global;

/// What a slice leaves of a program, as `hpr_prune::prune` makes it, for parts that say something in whatever
/// language. With each meaning of what they say, over values of `V` and faults of `F`, what is left does its part of
/// what the program does: where the program ends it ends, with the same steps of its parts and the same values.
pub fn prune<V, F>(alloc: Global, program: &Program, slice: &Graph) -> Result<Program, NoMemory>
    ensures pruned { IfOk result (λ q. IsPruned (graph_in slice.now).vertex program.now q) }
    ensures does { IfOk result (λ q. IsSliceOf program.now (graph_in slice.now)
        → (m : MeaningOf V F) → DoesItsPart (by_reads m) program.now q (graph_in slice.now)) }
{
    let _program = program.finals();
    hpr_prune::prune(alloc, program, slice)
}
