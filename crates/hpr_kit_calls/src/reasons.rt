//! Calls of hpr_impact on two programs.
use crate::graphs::program_graph;
use crate::put::put_value;
use crate::sources::sources;
use hpr_graph::Edge;
use hpr_impact::{Reason, reasons, reasons_value};
use hpr_report::{edge_text, vertex_text};
use hpr_rows::{Out, Row, put_counted, put_made};
use std::alloc::Global;

fn put_by(alloc: Global, out: &mut Out, by: &Option<Edge>) {
    match by {
        Some(edge) => {
            out.put_piece(" by ");
            put_made(out, edge_text(alloc, edge));
        }
        None => out.put_piece(" directly"),
    }
}

// Puts a point, by which edge it is reached, and the place of its root.
fn put_reason(alloc: Global, out: &mut Out, reason: &Reason) {
    put_made(out, vertex_text(alloc, &reason.point));
    put_by(alloc, out, &reason.by);
    put_counted(out, ", root ", reason.root);
    out.put_piece("\n");
}

fn put_reasons(alloc: Global, out: &mut Out, found: &[Reason]) {
    put_counted(out, "reasons ", found.len());
    out.put_piece("\n");
    for reason in found {
        put_reason(alloc, out, reason);
    }
}

fn put_found(row: Row<'_>, out: &mut Out, found: &[Reason]) -> Option<()> {
    if row.word(1)? == "reasons" {
        put_reasons(row.alloc, out, found);
        return Some(());
    }
    let sources = sources(row, 4)?;
    put_value(row.alloc, out, reasons_value(row.alloc, found, &sources));
    Some(())
}

/// Answers the call: `reasons BASE VARIANT`: the affected points of the variant, each with its reason; `why BASE VARIANT
/// FILE..`: the same with the places of the vertices in these files.
pub(crate) fn call(row: Row<'_>, out: &mut Out) -> Option<()> {
    let base = program_graph(row, 2)?;
    let variant = program_graph(row, 3)?;
    let found = reasons(row.alloc, &variant, &base).ok()?;
    put_found(row, out, &found)
}
