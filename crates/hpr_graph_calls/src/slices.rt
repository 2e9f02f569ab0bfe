//! Calls of hpr_slice, hpr_prune, hpr_affected and hpr_merge on graphs.
ghost use Rattle.std.specs.Prelude.{◌≡◌, ◌↔◌, ◌<◌, All, IsTrue, length};
ghost use Rattle.hpr_graph.specs.Numbered.{graph_in};
ghost use Rattle.hpr_graph.specs.Whole.{IsWhole};

use crate::graph::{put_counts, put_new, put_number};
use crate::spelled::{graph, graphs, program_graph};
use hpr_affected::{Comparison, affected, direct, preserved, preserved_beside};
use hpr_graph::Graph;
use hpr_merge::{Merged, merge};
use hpr_prune::prune;
use hpr_rebuild::part_count;
use hpr_report::{affected_text, conflicts_text};
use hpr_rows::{Out, Row, put_count, put_made, put_marked, put_numbers, put_program};
use hpr_slice::{forward, slice};
use hpr_syntax::Program;
use hpr_terms::NoMemory;
use std::alloc::Global;

/// Answers the call.
pub(crate) fn call(row: Row<'_>, out: &mut Out) -> Option<()> {
    match row.word(1)? {
        "affected" => changed(row, out),
        "beside" => beside(row, out),
        "direct" => differing(row, out),
        "left" => left(row, out),
        "preserved" | "merge" => of_three(row, out),
        _ => at_points(row, out),
    }
}

fn push_number(numbers: &mut Vec<usize>, word: &str) -> Option<()> {
    numbers.push(word.parse().ok()?).ok()
}

fn numbers(alloc: Global, words: &[String]) -> Option<Vec<usize>> {
    let mut numbers = Vec::new(alloc);
    for word in words {
        push_number(&mut numbers, word.as_str())?;
    }
    Some(numbers)
}

fn are_below(points: &[usize], count: usize) -> bool
    ensures { IsTrue result ↔ All (λ p. p < count) points.now }
{
    points.iter().all(|point| *point < count)
}

/// Puts the title and the numbers that were found.
pub(crate) fn put_found(out: &mut Out, title: &str, found: Result<Vec<usize>, NoMemory>) {
    match found {
        Ok(numbers) => put_numbers(out, title, &numbers),
        Err(_) => out.cut(),
    }
}

fn put_reached(out: &mut Out, reached: Result<Vec<bool>, NoMemory>) {
    match reached {
        Ok(marks) => put_marked(out, "marked", &marks),
        Err(_) => out.cut(),
    }
}

// `at GRAPH NUMBER..`: the slice at these vertices; `forward GRAPH NUMBER..`: the vertices that are
// reached from these; `points GRAPH NUMBER..`: these vertices, as affected points are shown.
fn from_points(row: Row<'_>, out: &mut Out, graph: &Graph, points: &[usize]) -> Option<()> {
    if !are_below(points, graph.vertex_count()) {
        return None;
    }
    match row.word(1)? {
        "at" => put_new(row.alloc, out, slice(row.alloc, graph, points)),
        "forward" => put_reached(out, forward(row.alloc, graph, points)),
        _ => put_made(out, affected_text(row.alloc, graph, points)),
    }
    Some(())
}

fn at(row: Row<'_>, out: &mut Out, graph: &Graph) -> Option<()> {
    let points = numbers(row.alloc, row.rest(3))?;
    from_points(row, out, graph, &points)
}

fn at_points(row: Row<'_>, out: &mut Out) -> Option<()> {
    let graph = graph(row, 2)?;
    at(row, out, &graph)
}

/// Puts what is left of a program.
pub(crate) fn put_left(alloc: Global, out: &mut Out, left: Result<Program, NoMemory>) {
    match left {
        Ok(program) => put_program(alloc, out, &program),
        Err(_) => out.cut(),
    }
}

// `left PROGRAM GRAPH`: what the vertices of a graph leave of the program.
fn left(row: Row<'_>, out: &mut Out) -> Option<()> {
    let program = row.program(2)?;
    let graph = graph(row, 3)?;
    put_left(row.alloc, out, prune(row.alloc, &program, &graph));
    Some(())
}

// `affected BASE VARIANT`: the numbers of the affected points of the variant, both of them programs.
fn changed(row: Row<'_>, out: &mut Out) -> Option<()> {
    let base = program_graph(row, 2)?;
    let variant = program_graph(row, 3)?;
    put_found(out, "affected", affected(row.alloc, &variant, &base));
    Some(())
}

// Puts the number in the comparison's graph of each vertex of the base beside it.
fn put_places(out: &mut Out, base: &Graph, comparison: &Comparison)
    requires { comparison.now.other ≡ base.now }
{
    out.put_piece("places");
    for at in 0..base.vertex_count() {
        put_number(out, comparison.number_here(at));
    }
    out.put_piece("\n");
}

// Puts what base has of its own beside the variant of both comparisons, and what it shares with both.
fn put_sides(alloc: Global, out: &mut Out, base: &Graph, one: Comparison, two: Comparison)
    requires one { one.other ≡ base.now }
    requires two { two.other ≡ base.now }
    requires whole { IsWhole (graph_in base.now) }
    requires whole_one { IsWhole (graph_in one.graph) }
    requires whole_two { IsWhole (graph_in two.graph) }
{
    let beside_one = one.turned();
    let beside_two = two.turned();
    put_found(out, "turned", beside_one.direct());
    put_found(
        out,
        "preserved",
        preserved_beside(alloc, base, &beside_one, &beside_two),
    );
}

fn put_beside(out: &mut Out, base: &Graph, comparison: &Comparison)
    requires other { comparison.now.other ≡ base.now }
    requires whole { IsWhole (graph_in base.now) }
    requires graph { IsWhole (graph_in comparison.now.graph) }
{
    put_found(out, "direct", comparison.direct());
    put_found(out, "affected", comparison.affected());
    put_reached(out, comparison.affected_marks());
    put_places(out, base, comparison);
}

fn put_one_way(alloc: Global, out: &mut Out, base: &Graph, variant: &Graph)
    requires base { IsWhole (graph_in base.now) }
    requires variant { IsWhole (graph_in variant.now) }
{
    match Comparison::of(alloc, variant, base) {
        Ok(comparison) => put_beside(out, base, &comparison),
        Err(_) => out.cut(),
    }
}

fn put_with_another(alloc: Global, out: &mut Out, base: &Graph, variant: &Graph, one: Comparison)
    requires one { one.other ≡ base.now }
    requires whole { IsWhole (graph_in base.now) }
    requires whole_one { IsWhole (graph_in one.graph) }
    requires variant { IsWhole (graph_in variant.now) }
{
    match Comparison::of(alloc, variant, base) {
        Ok(two) => put_sides(alloc, out, base, one, two),
        Err(_) => out.cut(),
    }
}

fn put_other_way(alloc: Global, out: &mut Out, base: &Graph, variant: &Graph)
    requires base { IsWhole (graph_in base.now) }
    requires variant { IsWhole (graph_in variant.now) }
{
    match Comparison::of(alloc, variant, base) {
        Ok(one) => put_with_another(alloc, out, base, variant, one),
        Err(_) => out.cut(),
    }
}

// `beside BASE VARIANT`: the variant beside its base, and the other way round, both of them programs.
fn beside(row: Row<'_>, out: &mut Out) -> Option<()> {
    let base = program_graph(row, 2)?;
    let variant = program_graph(row, 3)?;
    put_one_way(row.alloc, out, &base, &variant);
    put_other_way(row.alloc, out, &base, &variant);
    Some(())
}

fn of_two(row: Row<'_>, out: &mut Out, graphs: &[Graph]) -> Option<()> {
    let [base, variant] = graphs else {
        return None;
    };
    put_found(out, "direct", direct(row.alloc, variant, base));
    Some(())
}

// `direct BASE VARIANT`: the numbers of the variant's directly affected points.
fn differing(row: Row<'_>, out: &mut Out) -> Option<()> {
    let graphs = graphs(row, 2, 4)?;
    of_two(row, out, &graphs)
}

fn put_merged(alloc: Global, out: &mut Out, merged: &Merged) {
    put_made(out, conflicts_text(alloc, &merged.conflicts));
    put_numbers(out, "affected in A", &merged.affected_a);
    put_numbers(out, "affected in B", &merged.affected_b);
    put_counts(out, &merged.graph);
    put_count(out, "parts ", part_count(&merged.graph) as u64);
}

fn put_merge(alloc: Global, out: &mut Out, merged: Result<Merged, NoMemory>) {
    match merged {
        Ok(merged) => put_merged(alloc, out, &merged),
        Err(_) => out.cut(),
    }
}

fn of_all(row: Row<'_>, out: &mut Out, base: &Graph, a: &Graph, b: &Graph) -> Option<()>
    requires base { IsWhole (graph_in base.now) }
    requires a { IsWhole (graph_in a.now) }
    requires b { IsWhole (graph_in b.now) }
{
    match row.word(1)? {
        "merge" => put_merge(row.alloc, out, merge(row.alloc, base, a, b)),
        _ => put_found(out, "preserved", preserved(row.alloc, base, a, b)),
    }
    Some(())
}

// `preserved BASE A B`: the numbers of base's preserved points; `merge BASE A B`: the conflicts, the
// affected points, and the size of the merged graph. All three are programs.
fn of_three(row: Row<'_>, out: &mut Out) -> Option<()> {
    let base = program_graph(row, 2)?;
    let a = program_graph(row, 3)?;
    let b = program_graph(row, 4)?;
    of_all(row, out, &base, &a, &b)
}
