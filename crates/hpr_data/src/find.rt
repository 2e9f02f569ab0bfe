//! What a request comes to.
ghost use Rattle.std.specs.Prelude.{Some};
ghost use Rattle.hpr_io.specs.Files.{files_in};
ghost use Rattle.hpr_words.specs.Asked.{request};
ghost use Rattle.hpr_words.specs.Request.{IsInRange};
ghost use Rattle.hpr_data.specs.Findings.{Finds};
ghost use Rattle.hpr_data.specs.Private.Comes.{Comes};

use crate::affected::affected_points;
use crate::found::{Found, Stop};
use crate::graph::graph_shown;
use crate::integrate::integrated;
use crate::run::run_named;
use crate::verify::verified;
use hpr_words::Asked;
use std::alloc::Global;

/// What a request comes to over these texts.
pub(crate) fn find<'a>(
    alloc: Global,
    asked: Asked<'a>,
    files: &[(String, Vec<u8>)],
) -> Result<Found, Stop<'a>>
    requires { IsInRange (request asked) }
    ensures { Comes (Finds (Some (request asked.entry)) (files_in files.now)) result }
{
    match asked {
        Asked::Integrate { base, a, b, tries } => integrated(alloc, files, base, &[a, b], tries),
        Asked::IntegrateMany {
            base,
            variants,
            tries,
        } => integrated(alloc, files, base, variants.as_slice(), tries),
        Asked::Affected { base, a } => affected_points(alloc, files, base, a),
        Asked::Graph { file, json: _ } => graph_shown(alloc, files, file),
        Asked::Run {
            file,
            states,
            steps,
            trace: _,
        } => run_named(alloc, files, file, states.as_slice(), steps),
        Asked::Verify {
            base,
            a,
            b,
            offered,
        } => verified(alloc, files, &[base, a, b, offered]),
        _ => Err(Stop::NoCall),
    }
}
