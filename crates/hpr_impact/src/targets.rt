//! Which vertices control and flow edges lead to.
ghost use Rattle.std.specs.Prelude.{◌≡◌, ◌↔◌, ◌<◌, ℕ, length, All, Contains, IfOk};
ghost use Rattle.hpr_search.specs.Rows.{numbers_at};
ghost use Rattle.hpr_graph.specs.Numbered.{IsNumbered};
ghost use Rattle.hpr_slice.specs.Neighbours.{AreTargets};
ghost use Rattle.hpr_slice.specs.Steps.{AreStepsWithin};
ghost use Rattle.hpr_impact.specs.Private.Ways.{AreWays};

use crate::search::{Visit, search};
use hpr_graph::{Graph, NoMemory};
use hpr_search::Rows;
use hpr_slice::steps_of;
use std::alloc::Global;

/// From where a search comes to each vertex that is reached from these, by their numbers, each of which is that of a
/// vertex. Looks a fixed number of times at each edge.
pub(crate) fn ways(alloc: Global, graph: &Graph, starts: &[usize]) -> Result<Vec<Visit>, NoMemory>
    requires { All (λ s. s < length graph.now.vertices) starts.now }
    ensures { IfOk result (λ visits. AreWays graph.now starts.now visits.items) }
{
    let targets = targets_of(alloc, graph)?;
    search(alloc, &targets, starts)
}

/// For each vertex the vertices to which a control or flow edge leads from it.
fn targets_of(alloc: Global, graph: &Graph) -> Result<Rows, NoMemory>
    ensures rows { IfOk result (λ rows. AreTargets graph.now rows) }
    ensures numbered { IsNumbered graph.now }
{
    let count = graph.vertices().len();
    let steps = steps_of(alloc, graph)?;
    let rows = rows_of(alloc, count, &steps)?;
    Ok(rows)
}

/// So many rows, with the second number of each pair in the row of the first.
fn rows_of(alloc: Global, count: usize, steps: &[(usize, usize)]) -> Result<Rows, NoMemory>
    requires { AreStepsWithin count steps.now }
    ensures count { IfOk result (λ rows. length rows ≡ count) }
    ensures exact { IfOk result (λ rows. (from to : ℕ) → Contains (numbers_at rows from) to
        ↔ Contains steps.now (from, to)) }
{
    let mut rows = Rows::blank(alloc, count)?;
    for step in steps {
        rows.push(step.0, step.1)?;
    }
    Ok(rows)
}
