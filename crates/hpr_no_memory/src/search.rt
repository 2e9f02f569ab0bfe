//! Calls of a started search, by its vertices and by its items.
ghost use Rattle.hpr_order.specs.Regions.{AreRegionsOf};

use crate::marks::Marks;
use hpr_graph::{Graph, NoMemory};
use hpr_order::{RegionTree, regions};
use hpr_region::Search;
use std::alloc::Global;

/// Makes the calls.
pub(crate) fn call(alloc: Global, marks: &mut Marks, graph: &Graph) -> Option<()> {
    let tree = regions(alloc, graph).ok()?;
    let mut search = started(alloc, graph, &tree).ok()?;
    marks.ready()?;
    call_by_items(marks, &mut search)?;
    for number in 0..graph.vertex_count() {
        call_by_number(marks, &mut search, number)?;
    }
    marks.after("Search::placed", search.placed().len() == 6)?;
    marks.after("Search::take_back", search.take_back().is_some())
}

// A search by the order of the graph's own vertices.
fn started(alloc: Global, graph: &Graph, tree: &RegionTree) -> Result<Search, NoMemory>
    requires { AreRegionsOf graph.now tree.now }
{
    let rank = graph.vertices();
    Search::start(alloc, graph, tree, rank)
}

fn call_by_number(marks: &mut Marks, search: &mut Search, number: usize) -> Option<()> {
    let is_ready = search.ready(number);
    marks.after("Search::ready", true)?;
    if !is_ready {
        return Some(());
    }
    marks.after("Search::admissible", search.admissible(number))?;
    search.place(number);
    marks.after("Search::place", true)
}

fn call_by_items(marks: &mut Marks, search: &mut Search) -> Option<()> {
    let next = search.next_ready(0);
    marks.after("Search::next_ready", next == Some(0))?;
    let item = next?;
    marks.after("Search::number_at", search.number_at(item) > 0)?;
    marks.after("Search::admits", search.admits(item))?;
    search.push(item);
    marks.after("Search::push", true)?;
    marks.after("Search::count", search.count() == 1)?;
    marks.after("Search::size", search.size() == 6)?;
    marks.after("Search::pop", search.pop() == Some(item))
}
