//! Calls of hpr_engine on three programs.
use hpr_engine::{Program, Stop, Which, integrate};
use hpr_report::conflicts_text;
use hpr_rows::{Out, Row, put, put_counted, put_made, put_program};
use std::alloc::Global;

fn which(program: Which) -> &'static str {
    match program {
        Which::Base => "Base",
        Which::A => "A",
        Which::B => "B",
    }
}

fn put_stop(alloc: Global, out: &mut Out, stop: &Stop) {
    match stop {
        Stop::TooManyEdges(program) => put(out, &["too many edges in ", which(*program), "\n"]),
        Stop::Interference(conflicts) => put_made(out, conflicts_text(alloc, conflicts)),
        Stop::NoProgram(parts) => {
            put_counted(out, "no program of ", *parts);
            out.put_piece(" parts\n");
        }
        Stop::Spent => out.put_piece("spent\n"),
        Stop::Memory => out.cut(),
    }
}

/// Puts what an integration of two variants answers.
pub(crate) fn put_integrated(alloc: Global, out: &mut Out, answer: Result<Program, Stop>) {
    match answer {
        Ok(merged) => put_program(alloc, out, &merged),
        Err(stop) => put_stop(alloc, out, &stop),
    }
}

fn answer(alloc: Global, out: &mut Out, programs: &[Program], tries: u64) -> Option<()> {
    let [base, a, b] = programs else {
        return None;
    };
    if tries == 0 {
        return None;
    }
    put_integrated(alloc, out, integrate(alloc, base, a, b, tries));
    Some(())
}

/// `BASE A B TRIES`: the integration of two variants with their base.
pub(crate) fn call(row: Row<'_>, out: &mut Out) -> Option<()> {
    let tries = row.count(4)?;
    let programs = row.programs(1, 4)?;
    answer(row.alloc, out, &programs, tries)
}
