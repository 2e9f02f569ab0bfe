//! The command `affected`.
ghost use Rattle.hpr_io.specs.Files.{files_in};
ghost use Rattle.hpr_data.specs.Findings.{AffectedBetween, Affects};
ghost use Rattle.hpr_data.specs.Private.Comes.{Comes};

use crate::found::{Found, Stop};
use crate::graph::graph_named;
use crate::texts::program_named;
use hpr_affected::affected;
use hpr_syntax::Program;
use std::alloc::Global;

/// The affected points of a variant.
pub(crate) fn affected_points<'a>(
    alloc: Global,
    files: &[(String, Vec<u8>)],
    base: &'a str,
    a: &'a str,
) -> Result<Found, Stop<'a>>
    ensures { Comes (Affects (files_in files.now) base.now a.now) result }
{
    let base_program = program_named(alloc, files, base)?;
    let a_program = program_named(alloc, files, a)?;
    affected_between(alloc, base, &base_program, a, &a_program)
}

/// The affected points of the second of two texts' programs.
fn affected_between<'a>(
    alloc: Global,
    base: &'a str,
    base_program: &Program,
    a: &'a str,
    a_program: &Program,
) -> Result<Found, Stop<'a>>
    ensures { Comes (AffectedBetween base.now base_program.now a.now a_program.now) result }
{
    let _base_body = base_program.body();
    let _a_body = a_program.body();
    let base_graph = graph_named(alloc, base, base_program)?;
    let a_graph = graph_named(alloc, a, a_program)?;
    let points = affected(alloc, &a_graph, &base_graph)?;
    Ok(Found::Affected(a_graph, points))
}
