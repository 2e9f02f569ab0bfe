//! Calls of hpr_affected, hpr_merge, hpr_many and hpr_order on a base and any number of its variants.
ghost use Rattle.std.specs.Prelude.{◌≡◌, IfOk};
ghost use Rattle.hpr_graph.specs.Numbered.{graph_in, graphs_in};
ghost use Rattle.hpr_graph.specs.Whole.{AreAll, IsWhole};
ghost use Rattle.hpr_affected.specs.Shared.{AreOfBase, others_of};

use crate::graph::{put_graph, put_vertices};
use crate::judged;
use crate::slices::put_found;
use crate::spelled::{program_graph, program_graphs};
use hpr_affected::{Comparison, affected, preserved_by};
use hpr_graph::{Edge, Graph, ManyConflict, Vertex};
use hpr_many::{ManyMerged, merge_many};
use hpr_merge::conflicts_of;
use hpr_order::rank_of_all;
use hpr_report::{edge_text, vertex_text};
use hpr_rows::{Out, Row, put_count, put_counted, put_made, put_numbers};
use hpr_syntax::Program;
use hpr_terms::NoMemory;
use std::alloc::Global;

/// Answers the call.
pub(crate) fn call(row: Row<'_>, out: &mut Out) -> Option<()> {
    match row.word(1)? {
        "integrate" => judged::many(row, out),
        "rank" => ranked(row, out),
        "conflicts" => conflicts(row, out),
        _ => of_graphs(row, out),
    }
}

fn rank_of(alloc: Global, out: &mut Out, base: &Program, variants: &[Program]) -> Option<()> {
    if variants.is_empty() {
        return None;
    }
    let vertices = rank_of_all(alloc, base, variants).ok()?;
    put_vertices(alloc, out, &vertices);
    Some(())
}

// `rank BASE VARIANT..`: the parts by their rank.
fn ranked(row: Row<'_>, out: &mut Out) -> Option<()> {
    let base = row.program(2)?;
    let variants = row.programs(3, row.words.len())?;
    rank_of(row.alloc, out, &base, &variants)
}

fn put_point(alloc: Global, out: &mut Out, point: &Vertex, edge: &Edge) {
    put_made(out, vertex_text(alloc, point));
    out.put_piece(": ");
    put_made(out, edge_text(alloc, edge));
    out.put_piece("\n");
}

fn put_points(alloc: Global, out: &mut Out, points: &[(Vertex, Edge)]) {
    put_count(out, "conflicts ", points.len() as u64);
    for (point, edge) in points {
        put_point(alloc, out, point, edge);
    }
}

fn points_of(
    alloc: Global,
    base: &Graph,
    variant: &Graph,
    merged: &Graph,
) -> Result<Vec<(Vertex, Edge)>, NoMemory>
    requires base { IsWhole (graph_in base.now) }
    requires variant { IsWhole (graph_in variant.now) }
    requires merged { IsWhole (graph_in merged.now) }
{
    let points = affected(alloc, variant, base)?;
    conflicts_of(alloc, variant, &points, merged)
}

fn put_conflicts_of(alloc: Global, out: &mut Out, base: &Graph, variant: &Graph, merged: &Graph)
    requires base { IsWhole (graph_in base.now) }
    requires variant { IsWhole (graph_in variant.now) }
    requires merged { IsWhole (graph_in merged.now) }
{
    match points_of(alloc, base, variant, merged) {
        Ok(points) => put_points(alloc, out, &points),
        Err(_) => out.cut(),
    }
}

// `conflicts BASE VARIANT MERGED`: the variant's affected points that haven't their slice in the third
// graph, each with the edge that shows it. All three are programs.
fn conflicts(row: Row<'_>, out: &mut Out) -> Option<()> {
    let base = program_graph(row, 2)?;
    let variant = program_graph(row, 3)?;
    let merged = program_graph(row, 4)?;
    put_conflicts_of(row.alloc, out, &base, &variant, &merged);
    Some(())
}

// The base beside each of the variants.
fn beside<'a>(
    alloc: Global,
    base: &'a Graph,
    variants: &'a [Graph],
) -> Result<Vec<Comparison<'a>>, NoMemory>
    ensures base { IfOk result (λ cs. AreOfBase base.now cs.items) }
    ensures others { IfOk result (λ cs. others_of cs.items ≡ variants.now) }
{
    let mut comparisons = Vec::new(alloc);
    for variant in variants {
        comparisons.push(Comparison::of(alloc, base, variant)?)?;
    }
    Ok(comparisons)
}

fn shared(alloc: Global, base: &Graph, variants: &[Graph]) -> Result<Vec<usize>, NoMemory>
    requires base { IsWhole (graph_in base.now) }
    requires variants { AreAll IsWhole (graphs_in variants.now) }
{
    let comparisons = beside(alloc, base, variants)?;
    preserved_by(alloc, base, &comparisons)
}

fn put_conflict(alloc: Global, out: &mut Out, conflict: &ManyConflict) {
    put_counted(out, "", conflict.variant);
    out.put_piece(" ");
    put_point(alloc, out, &conflict.point, &conflict.edge);
}

fn put_conflicts(alloc: Global, out: &mut Out, conflicts: &[ManyConflict]) {
    put_count(out, "conflicts ", conflicts.len() as u64);
    for conflict in conflicts {
        put_conflict(alloc, out, conflict);
    }
}

fn put_affected(out: &mut Out, affected: &[Vec<usize>]) {
    for points in affected {
        put_numbers(out, "affected", points);
    }
}

fn put_merged(alloc: Global, out: &mut Out, merged: &ManyMerged) {
    put_affected(out, &merged.affected);
    put_conflicts(alloc, out, &merged.conflicts);
    put_graph(alloc, out, &merged.graph);
}

fn put_merge(alloc: Global, out: &mut Out, merged: Result<ManyMerged, NoMemory>) {
    match merged {
        Ok(merged) => put_merged(alloc, out, &merged),
        Err(_) => out.cut(),
    }
}

fn merged_of(alloc: Global, out: &mut Out, base: &Graph, variants: &[Graph]) -> Option<()>
    requires base { IsWhole (graph_in base.now) }
    requires variants { AreAll IsWhole (graphs_in variants.now) }
{
    if variants.len() < 2 || variants.len() > 16 {
        return None;
    }
    put_merge(alloc, out, merge_many(alloc, base, variants));
    Some(())
}

fn of_all(row: Row<'_>, out: &mut Out, base: &Graph, variants: &[Graph]) -> Option<()>
    requires base { IsWhole (graph_in base.now) }
    requires variants { AreAll IsWhole (graphs_in variants.now) }
{
    match row.word(1)? {
        "merge" => merged_of(row.alloc, out, base, variants)?,
        _ => put_found(out, "preserved", shared(row.alloc, base, variants)),
    }
    Some(())
}

// `preserved BASE VARIANT..`: the numbers of base's preserved points; `merge BASE VARIANT..`: the affected
// points of each variant, the conflicts, each behind the number of its variant, and the merged graph.
fn of_graphs(row: Row<'_>, out: &mut Out) -> Option<()> {
    let base = program_graph(row, 2)?;
    let variants = program_graphs(row, 3)?;
    of_all(row, out, &base, &variants)
}
