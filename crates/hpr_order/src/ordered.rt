//! The parts of a graph as items in the order of their rank, with the orders in which they may stand.
ghost use Rattle.std.specs.Prelude.{◌≡◌, ℕ, List, IfOk};
ghost use Rattle.hpr_graph.specs.Numbered.{Numbered, graph_in};
ghost use Rattle.hpr_order.specs.declared.item.Item.{Item};
ghost use Rattle.hpr_order.specs.Regions.{AreRegionsOf};
ghost use Rattle.hpr_order.specs.Arranging.{IsRanking, orders_in};
ghost use Rattle.hpr_order.specs.Limits.{AreOrdersOf};
ghost use Rattle.hpr_order.specs.Numbers.{AreRanked};
ghost use Rattle.hpr_order.specs.Ordered.{AreChoices, AreRankedParts, IsOrdered};

use crate::RegionTree;
use crate::blocks::choices_of;
use crate::item::Item;
use crate::numbers::{items_at, ranked_parts};
use hpr_forest::{Blocks, Orders};
use hpr_graph::{Graph, NoMemory, Vertex};
use std::alloc::{AllocError, Global};

/// The parts of a graph in the order of a rank.
pub struct RankedParts {
    /// The number of each part's vertex.
    pub numbers: Vec<usize>,
    /// What each part says, and where it stands.
    pub items: Vec<Item>,
    /// By which tables they may stand one behind the other; none where no order is that of an arrangement.
    pub choices: Option<Blocks>,
}

/// All are dropped in one call.
impl Drop for RankedParts {
    fn drop(self) {
        let RankedParts {
            numbers: _,
            items: _,
            choices: _,
        } = self;
    }
}

impl RankedParts {
    /// The three, given back.
    pub fn into_parts(self) -> (Vec<usize>, Vec<Item>, Option<Blocks>)
        ensures numbers { result.0 ≡ self.numbers }
        ensures items { result.1 ≡ self.items }
        ensures choices { result.2 ≡ self.choices }
    {
        let RankedParts {
            numbers,
            items,
            choices,
        } = self;
        (numbers, items, choices)
    }
}

/// Items, with their orders that are still to come.
pub struct OrderedItems {
    pub items: Vec<Item>,
    pub orders: Option<Orders>,
}

/// Both are dropped in one call.
impl Drop for OrderedItems {
    fn drop(self) {
        let OrderedItems {
            items: _,
            orders: _,
        } = self;
    }
}

/// The parts of the graph in the order of their rank, with the tables by which they may stand one behind the
/// other in arrangements. An error is want of memory.
pub fn parts_by_rank(
    alloc: Global,
    graph: &Graph,
    regions: &RegionTree,
    rank: &[Vertex],
) -> Result<RankedParts, NoMemory>
    requires regions { AreRegionsOf graph.now regions.now }
    requires rank { IsRanking (graph_in graph.now) rank.now }
    ensures { IfOk result (λ o. AreRankedParts graph.now rank.now o) }
{
    let numbers = ranked_parts(alloc, graph, rank)?;
    let items = items_at(alloc, graph, regions, &numbers)?;
    let choices = choices_of(alloc, graph, &numbers, &items)?;
    Ok(RankedParts {
        numbers,
        items,
        choices,
    })
}

/// The parts of the graph in the order of their rank, with all orders in which they may stand.
pub(crate) fn parts_in_order(
    alloc: Global,
    graph: &Graph,
    regions: &RegionTree,
    rank: &[Vertex],
) -> Result<OrderedItems, NoMemory>
    requires regions { AreRegionsOf graph.now regions.now }
    requires rank { IsRanking (graph_in graph.now) rank.now }
    ensures { IfOk result (λ o. (numbers : List ℕ) × AreRanked graph.now rank.now numbers
        × IsOrdered graph.now numbers o) }
{
    let parts = parts_by_rank(alloc, graph, regions, rank)?;
    let (_, items, choices) = parts.into_parts();
    let orders = orders_by(alloc, choices)?;
    Ok(OrderedItems { items, orders })
}

/// All orders by these tables.
fn orders_by(alloc: Global, choices: Option<Blocks>) -> Result<Option<Orders>, AllocError>
    ensures { IfOk result (λ o. (g : Numbered) (items : List Item) → AreChoices (graph_in g) items choices
        → AreOrdersOf (graph_in g) items (orders_in o)) }
{
    match choices {
        None => Ok(None),
        Some(blocks) => Ok(Some(Orders::start(alloc, blocks)?)),
    }
}
