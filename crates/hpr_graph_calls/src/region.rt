//! Calls of hpr_region.
ghost use Rattle.hpr_order.specs.Regions.{AreRegionsOf};

use crate::spelled::graph;
use hpr_graph::Graph;
use hpr_order::{RegionTree, regions};
use hpr_region::Search;
use hpr_rows::{Out, Row, put_counted, put_numbers};
use hpr_terms::NoMemory;
use std::alloc::Global;

/// Answers the call.
pub(crate) fn call(row: Row<'_>, out: &mut Out) -> Option<()> {
    let graph = graph(row, 2)?;
    let tree = regions(row.alloc, &graph).ok()?;
    let mut search = started(row.alloc, &graph, &tree).ok()?;
    match row.word(1)? {
        "walk" => walk(out, &mut search),
        _ => judged(row, out, &graph, &mut search)?,
    }
    Some(())
}

// A search by the order of the graph's own vertices.
fn started(alloc: Global, graph: &Graph, tree: &RegionTree) -> Result<Search, NoMemory>
    requires { AreRegionsOf graph.now tree.now }
{
    let rank = graph.vertices();
    Search::start(alloc, graph, tree, rank)
}

// Places the vertices with the numbers that stand in the row.
fn place(row: Row<'_>, search: &mut Search) -> Option<()> {
    for at in 3..8 {
        let Some(number) = row.number(at) else {
            break;
        };
        if !search.ready(number) {
            return None;
        }
        search.place(number);
    }
    Some(())
}

// What may be placed next, and what of it clashes.
fn put_ready(out: &mut Out, search: &Search, number: usize) {
    if !search.ready(number) {
        return;
    }
    if search.admissible(number) {
        put_counted(out, "may stand ", number);
    } else {
        put_counted(out, "clashes ", number);
    }
    out.put_piece("\n");
}

fn take_back(out: &mut Out, search: &mut Search) {
    match search.take_back() {
        Some(number) => put_counted(out, "taken back ", number),
        None => out.put_piece("nothing"),
    }
    out.put_piece("\n");
}

// `judge GRAPH NUMBER ..`: places these vertices, judges all, and takes two back.
fn judged(row: Row<'_>, out: &mut Out, graph: &Graph, search: &mut Search) -> Option<()> {
    place(row, search)?;
    put_numbers(out, "placed", search.placed());
    for number in 0..graph.vertex_count() {
        put_ready(out, search, number);
    }
    take_back(out, search);
    take_back(out, search);
    take_back(out, search);
    Some(())
}

// The next item that may stand and doesn't clash, from one on; it is placed.
fn place_next(search: &mut Search) -> bool {
    for from in 0..search.size() {
        let Some(item) = search.next_ready(from) else {
            return false;
        };
        if search.admits(item) {
            search.push(item);
            return true;
        }
    }
    false
}

fn pop(out: &mut Out, search: &mut Search) {
    if let Some(item) = search.pop() {
        put_counted(out, "item ", item);
        put_counted(out, " is ", search.number_at(item));
        out.put_piece("\n");
    }
}

// `walk GRAPH`: places what may stand and doesn't clash, as far as it goes, and takes the last item back.
fn walk(out: &mut Out, search: &mut Search) {
    for _ in 0..search.size() {
        if !place_next(search) {
            break;
        }
    }
    put_numbers(out, "placed", search.placed());
    put_counted(out, "", search.count());
    put_counted(out, " of ", search.size());
    out.put_piece("\n");
    pop(out, search);
}
