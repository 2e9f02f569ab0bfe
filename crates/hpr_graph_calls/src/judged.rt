//! Calls of hpr_many and hpr_verify on a base and its variants.
use hpr_many::{ManyStop, integrate_many};
use hpr_report::{conflicts_text, edge_text, many_conflicts_text, vertex_text};
use hpr_rows::{Out, Row, put_count, put_made, put_program};
use hpr_syntax::Program;
use hpr_verify::{Holder, Verdict, VerifyError, verify};
use std::alloc::Global;

fn put_stop(alloc: Global, out: &mut Out, stop: &ManyStop) {
    match stop {
        ManyStop::TooManyEdges(number) => put_count(out, "too many edges in ", *number as u64),
        ManyStop::Interference(conflicts) => put_made(out, many_conflicts_text(alloc, conflicts)),
        ManyStop::NoProgram(parts) => put_count(out, "no program, parts ", *parts as u64),
        ManyStop::Spent => out.put_piece("spent\n"),
        ManyStop::Memory => out.cut(),
    }
}

/// Puts what an integration of many variants answers.
pub(crate) fn put_all_integrated(alloc: Global, out: &mut Out, answer: Result<Program, ManyStop>) {
    match answer {
        Ok(merged) => put_program(alloc, out, &merged),
        Err(stop) => put_stop(alloc, out, &stop),
    }
}

fn integrated(
    alloc: Global,
    out: &mut Out,
    base: &Program,
    variants: &[Program],
    tries: u64,
) -> Option<()> {
    if tries == 0 || variants.len() < 2 || variants.len() > 16 {
        return None;
    }
    put_all_integrated(alloc, out, integrate_many(alloc, base, variants, tries));
    Some(())
}

/// `TRIES BASE VARIANT..`: the integration of the variants with their base.
pub(crate) fn many(row: Row<'_>, out: &mut Out) -> Option<()> {
    let tries = row.count(2)?;
    let base = row.program(3)?;
    let variants = row.programs(4, row.words.len())?;
    integrated(row.alloc, out, &base, &variants, tries)
}

fn holder(holder: Holder) -> &'static str {
    match holder {
        Holder::Offered => "offered ",
        Holder::Merged => "merged ",
    }
}

fn put_verdict(alloc: Global, out: &mut Out, verdict: Verdict) {
    match verdict {
        Verdict::Same => out.put_piece("same\n"),
        Verdict::Conflict(conflict) => put_made(out, conflicts_text(alloc, &[conflict])),
        Verdict::Vertex(vertex, who) => {
            out.put_piece(holder(who));
            put_made(out, vertex_text(alloc, &vertex));
            out.put_piece("\n");
        }
        Verdict::Edge(edge, who) => {
            out.put_piece(holder(who));
            put_made(out, edge_text(alloc, &edge));
            out.put_piece("\n");
        }
    }
}

/// Puts a judgement.
pub(crate) fn put_judged(alloc: Global, out: &mut Out, judged: Result<Verdict, VerifyError>) {
    match judged {
        Ok(verdict) => put_verdict(alloc, out, verdict),
        Err(VerifyError::TooManyEdges(number)) => put_count(
            out,
            "too many edges in ",
            number as u64,
        ),
        Err(VerifyError::Memory) => out.cut(),
    }
}

/// `BASE A B M`: the verdict on M, a merged program of two variants and their base.
pub(crate) fn call(row: Row<'_>, out: &mut Out) -> Option<()> {
    let programs = row.programs(1, 5)?;
    let [base, a, b, offered] = programs.as_slice() else {
        return None;
    };
    put_judged(row.alloc, out, verify(row.alloc, base, a, b, offered));
    Some(())
}
