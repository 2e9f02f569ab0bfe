//! A plan is made from a graph.
ghost use Rattle.std.specs.Prelude.{◌≡◌, ℕ, ◌≤◌, Some, None, List, [], Contains, replicate, false, length, slice_get, vec_len, IfOk, IfSome, IfNone, IsTrue};
ghost use Rattle.hpr_terms.specs.Names.{IsVariable};
ghost use Rattle.hpr_graph.specs.declared.vertex.Vertex.{Vertex};
ghost use Rattle.hpr_graph.specs.Numbered.{graph_in};
ghost use Rattle.hpr_order.specs.declared.item.Item.{Item};
ghost use Rattle.hpr_order.specs.Arranging.{IsRanking};
ghost use Rattle.hpr_order.specs.Regions.{AreRegionsOf};
ghost use Rattle.hpr_region.specs.Openings.{IsOpen, IsShut};
ghost use Rattle.hpr_region.specs.Plans.{IsPlanOf};

use crate::plan::Plan;
use crate::tables::flows_of;
use hpr_forest::{Blocks, has_order};
use hpr_graph::{Graph, NoMemory, Vertex};
use hpr_order::{Item, RegionTree, parts_by_rank};
use std::alloc::{AllocError, Global};

/// What a search of the graph's arrangements, by this rank, knows from its start.
pub(crate) fn plan_of(
    alloc: Global,
    graph: &Graph,
    regions: &RegionTree,
    rank: &[Vertex],
) -> Result<Plan, NoMemory>
    requires regions { AreRegionsOf graph.now regions.now }
    requires rank { IsRanking (graph_in graph.now) rank.now }
    ensures { IfOk result (λ plan. IsPlanOf graph.now rank.now plan) }
{
    // no vertex stands twice, and the finals of an arrangement are variables
    read_finals(graph.vertices());
    let parts = parts_by_rank(alloc, graph, regions, rank)?;
    let (numbers, items, choices) = parts.into_parts();
    let flows = flows_of(alloc, graph, &numbers, &items)?;
    let choices = open_choices(alloc, &items, choices)?;
    Ok(Plan {
        numbers,
        choices,
        flows,
    })
}

/// Reads the names of the Final vertices.
fn read_finals(vertices: &[Vertex])
    ensures { (x : List ℕ) → Contains vertices.now (Vertex.Final x) → IsVariable x }
{
    for vertex in vertices {
        let Vertex::Final(name) = vertex else {
            continue;
        };
        let _text = name.text();
    }
}

/// The tables, where some program has the items in an order by them; none where there is no such program.
fn open_choices(
    alloc: Global,
    items: &[Item],
    choices: Option<Blocks>,
) -> Result<Option<Blocks>, AllocError>
    ensures same { IfOk result (λ o. IfSome o (λ b. choices ≡ Some b)) }
    ensures open { IfOk result (λ o. IfSome o (λ b. IsOpen items.now b)) }
    ensures shut { IfOk result (λ o. IfNone o (IsShut items.now choices)) }
{
    let Some(blocks) = choices else {
        return Ok(None);
    };
    if !have_serials(items) {
        return Ok(None);
    }
    if !has_order(alloc, &blocks)? {
        return Ok(None);
    }
    Ok(Some(blocks))
}

/// Whether each serial is at least 1.
fn have_serials(items: &[Item]) -> bool
    ensures all { IsTrue result → (k : ℕ) (i : Item) → slice_get items.now k ≡ Some i → 1 ≤ i.tag.serial }
    ensures one { result ≡ false → (k : ℕ) × (i : Item) × (slice_get items.now k ≡ Some i) × (i.tag.serial ≡ 0) }
{
    for item in items {
        if item.tag.serial == 0 {
            return false;
        }
    }
    true
}

/// A row with no marks.
pub(crate) fn blank_row(alloc: Global, items: usize) -> Result<Vec<bool>, AllocError>
    ensures blank { IfOk result (λ row. row.items ≡ replicate items false) }
    ensures len { IfOk result (λ row. vec_len row ≡ items) }
{
    vec![in alloc; false; items]
}
