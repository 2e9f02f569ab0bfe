//! Calls of hpr_interference on programs and on conflicts.
ghost use Rattle.hpr_graph.specs.Numbered.{graph_in, graphs_in};
ghost use Rattle.hpr_graph.specs.Whole.{AreAll, IsWhole};

use crate::graphs::{program_graph, program_graphs};
use crate::put::put_value;
use crate::sources::sources;
use crate::spelled::conflicts;
use hpr_graph::{Graph, ManyConflict};
use hpr_interference::{conflicts_among, conflicts_value};
use hpr_report::many_conflicts_text;
use hpr_rows::{Out, Row, put_made};

/// Answers the call.
pub(crate) fn call(row: Row<'_>, out: &mut Out) -> Option<()> {
    match row.word(1)? {
        "told" => told(row, out),
        _ => of_programs(row, out),
    }
}

// Puts the conflicts with the files of the texts whose names stand from this place on.
fn put_told(row: Row<'_>, out: &mut Out, found: &[ManyConflict], from: usize) -> Option<()> {
    let sources = sources(row, from)?;
    put_value(row.alloc, out, conflicts_value(row.alloc, found, &sources));
    Some(())
}

// `told CONFLICTS FILE..`: the answer that has these conflicts, where the files are base and the variants.
fn told(row: Row<'_>, out: &mut Out) -> Option<()> {
    let found = conflicts(row, 2)?;
    put_told(row, out, &found, 3)
}

fn put_found(row: Row<'_>, out: &mut Out, found: &[ManyConflict]) -> Option<()> {
    match row.word(1)? {
        "among" => put_made(out, many_conflicts_text(row.alloc, found)),
        "answer" => put_told(row, out, found, 2)?,
        _ => return None,
    }
    Some(())
}

fn of_graphs(row: Row<'_>, out: &mut Out, base: &Graph, variants: &[Graph]) -> Option<()>
    requires base { IsWhole (graph_in base.now) }
    requires variants { AreAll IsWhole (graphs_in variants.now) }
{
    if variants.len() < 2 || variants.len() > 16 {
        return None;
    }
    let found = conflicts_among(row.alloc, base, variants).ok()?;
    put_found(row, out, &found)
}

// `among BASE VARIANT..`: the conflicts, as hpr prints them; `answer BASE VARIANT..`: the answer that has them.
fn of_programs(row: Row<'_>, out: &mut Out) -> Option<()> {
    let base = program_graph(row, 2)?;
    let variants = program_graphs(row, 3)?;
    of_graphs(row, out, &base, &variants)
}
