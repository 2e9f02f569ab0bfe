//! The control and flow edges of a graph as pairs of numbers.
ghost use Rattle.std.specs.Prelude.{◌≡◌, ◌<◌, ◌++◌, ℕ, length, IfOk, OnOk};
ghost use Rattle.hpr_search.specs.Marks.{IsMarked};
ghost use Rattle.hpr_slice.specs.Steps.{AreSteps, AreStepsInto, AreStepsWithin, steps_into};

use crate::order::targets_first;
use crate::slices::unmarked;
use crate::sources::is_followed;
use hpr_graph::{Graph, Link, NoMemory};
use std::alloc::Global;

/// The pairs of vertices, by their numbers, from the first of which a control or flow edge leads to the
/// second. Those into a vertex stand together, and behind those from it, as far as edges don't go round in a
/// circle. Looks a fixed number of times at each edge.
pub fn steps_of(alloc: Global, graph: &Graph) -> Result<Vec<(usize, usize)>, NoMemory>
    ensures steps { IfOk result (λ steps. AreSteps graph.now steps.items) }
    ensures within { IfOk result (λ steps. AreStepsWithin (length graph.now.vertices) steps.items) }
{
    let count = graph.vertices().len();
    let order = targets_first(alloc, graph)?;
    let mut done = unmarked(alloc, count)?;
    let mut steps = Vec::new(alloc);
    for to in &order {
        push_once(graph, *to, &mut done, &mut steps)?;
    }
    for at in 0..count {
        push_once(graph, at, &mut done, &mut steps)?;
    }
    Ok(steps)
}

/// Puts the steps into the vertex `to` behind the others, if there is such a vertex and it isn't marked, and
/// marks it.
fn push_once(
    graph: &Graph,
    to: usize,
    done: &mut Vec<bool>,
    steps: &mut Vec<(usize, usize)>,
) -> Result<(), NoMemory>
    requires count { length done.old.items ≡ length graph.now.vertices }
    requires steps { AreStepsInto graph.now done.old.items steps.old.items }
    ensures count { length done.new.items ≡ length done.old.items }
    ensures steps { OnOk result (AreStepsInto graph.now done.new.items steps.new.items) }
    ensures here { to < length done.old.items → IsMarked done.new.items to }
    ensures kept { (n : ℕ) → IsMarked done.old.items n → IsMarked done.new.items n }
{
    if to >= done.len() {
        return Ok(());
    }
    if done[to] {
        return Ok(());
    }
    done[to] = true;
    push_steps(graph.edges_into(to), to, steps)
}

/// Puts the steps of those of the links into the vertex `to` that a slice follows behind the others.
fn push_steps(links: &[Link], to: usize, into: &mut Vec<(usize, usize)>) -> Result<(), NoMemory>
    ensures { OnOk result (into.new.items ≡ into.old.items ++ steps_into to links.now) }
{
    for link in links {
        if is_followed(link.kind) {
            into.push((link.from, to))?;
        }
    }
    Ok(())
}
