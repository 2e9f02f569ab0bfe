//! The arrangement of a graph that has a given preorder.
ghost use Rattle.std.specs.Prelude.{◌≡◌, IfOk};
ghost use Rattle.hpr_syntax.specs.Shape.{IsProgram};
ghost use Rattle.hpr_syntax.specs.Tree.{Tree};
ghost use Rattle.hpr_graph.specs.Numbered.{graph_in};
ghost use Rattle.hpr_graph.specs.Arrangements.{IsArrangement};
ghost use Rattle.hpr_order.specs.Regions.{AreRegionsOf};
ghost use Rattle.hpr_order.specs.Arranging.{AreFirstNumbers, IsPreorderOf};
ghost use Rattle.hpr_order.specs.Items.{AreSlots};
ghost use Rattle.hpr_order.specs.Ordered.{IsListedProgram};

use crate::RegionTree;
use crate::building::program_in;
use crate::item::Item;
use crate::numbers::{final_names, items_at};
use hpr_graph::{Graph, NoMemory};
use hpr_syntax::{Issued, Program};
use std::alloc::Global;

/// The arrangement of the graph with these issued numbers whose parts in preorder are the vertices with
/// these numbers. There is one, and there is no other. An error is want of memory.
pub fn arrange(
    alloc: Global,
    graph: &Graph,
    regions: &RegionTree,
    order: &[usize],
    issued: &Issued,
) -> Result<Program, NoMemory>
    requires regions { AreRegionsOf graph.now regions.now }
    requires arrangement { (p : Tree) × IsArrangement (graph_in graph.now) issued.now p
        × IsPreorderOf graph.now order.now p }
    ensures arrangement { IfOk result (λ m. IsArrangement (graph_in graph.now) issued.now m) }
    ensures preorder { IfOk result (λ m. IsPreorderOf graph.now order.now m) }
    ensures only { IfOk result (λ m. (p : Tree) → IsArrangement (graph_in graph.now) issued.now p
        → IsPreorderOf graph.now order.now p → p ≡ m) }
{
    // no vertex stands twice
    let _vertices = graph.vertices();
    let items = items_at(alloc, graph, regions, order)?;
    program_as_listed(alloc, graph, &items, issued)
}

/// The program of the items as they are listed.
fn program_as_listed(
    alloc: Global,
    graph: &Graph,
    items: &[Item],
    issued: &Issued,
) -> Result<Program, NoMemory>
    requires slots { AreSlots items.now }
    requires made { (p : Tree) × IsProgram p × IsListedProgram (graph_in graph.now) items.now issued.now p }
    ensures { IfOk result (λ m. (p : Tree) → IsListedProgram (graph_in graph.now) items.now issued.now p → m ≡ p) }
{
    let finals = final_names(alloc, graph)?;
    let places = first_numbers(alloc, items.len())?;
    program_in(alloc, items, &places, issued, &finals)
}

/// The numbers from 0 up, so many.
fn first_numbers(alloc: Global, count: usize) -> Result<Vec<usize>, NoMemory>
    ensures { IfOk result (λ ns. AreFirstNumbers count ns.items) }
{
    let mut numbers = Vec::new(alloc);
    for number in 0..count {
        numbers.push(number)?;
    }
    Ok(numbers)
}
