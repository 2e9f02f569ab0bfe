//! Calls of hpr_any on programs and their graphs, whatever the parts mean.
use crate::engine::put_integrated;
use crate::judged::{put_all_integrated, put_judged};
use crate::slices::put_left;
use crate::spelled::graph;
use hpr_any::{integrate, integrate_many, prune, verify};
use hpr_rows::{Out, Row};
use hpr_syntax::Program;
use std::alloc::Global;

/// Answers the call.
pub(crate) fn call(row: Row<'_>, out: &mut Out) -> Option<()> {
    match row.word(1)? {
        "integrate" => integrated(row, out),
        "many" => all_integrated(row, out),
        "verify" => judged(row, out),
        "left" => left(row, out),
        _ => None,
    }
}

fn of_two(alloc: Global, out: &mut Out, programs: &[Program], tries: u64) -> Option<()> {
    let [base, a, b] = programs else {
        return None;
    };
    if tries == 0 {
        return None;
    }
    put_integrated(alloc, out, integrate::<u64, u64>(alloc, base, a, b, tries));
    Some(())
}

// `integrate BASE A B TRIES`: the integration of two variants with their base.
fn integrated(row: Row<'_>, out: &mut Out) -> Option<()> {
    let tries = row.count(5)?;
    let programs = row.programs(2, 5)?;
    of_two(row.alloc, out, &programs, tries)
}

fn of_all(
    alloc: Global,
    out: &mut Out,
    base: &Program,
    variants: &[Program],
    tries: u64,
) -> Option<()> {
    if tries == 0 || variants.len() < 2 || variants.len() > 16 {
        return None;
    }
    put_all_integrated(
        alloc,
        out,
        integrate_many::<u64, u64>(alloc, base, variants, tries),
    );
    Some(())
}

// `many TRIES BASE VARIANT..`: the integration of the variants with their base.
fn all_integrated(row: Row<'_>, out: &mut Out) -> Option<()> {
    let tries = row.count(2)?;
    let base = row.program(3)?;
    let variants = row.programs(4, row.words.len())?;
    of_all(row.alloc, out, &base, &variants, tries)
}

// `verify BASE A B M`: the verdict on M, a merged program of two variants and their base.
fn judged(row: Row<'_>, out: &mut Out) -> Option<()> {
    let programs = row.programs(2, 6)?;
    let [base, a, b, offered] = programs.as_slice() else {
        return None;
    };
    put_judged(
        row.alloc,
        out,
        verify::<u64, u64>(row.alloc, base, a, b, offered),
    );
    Some(())
}

// `left PROGRAM GRAPH`: what the vertices of a graph leave of the program.
fn left(row: Row<'_>, out: &mut Out) -> Option<()> {
    let program = row.program(2)?;
    let graph = graph(row, 3)?;
    put_left(
        row.alloc,
        out,
        prune::<u64, u64>(row.alloc, &program, &graph),
    );
    Some(())
}
