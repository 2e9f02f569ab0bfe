//! The command `integrate`.
ghost use Rattle.std.specs.Prelude.{◌≡◌, ◌≤◌, ◌∷◌, get_or, length, map};
ghost use Rattle.hpr_io.specs.Files.{files_in};
ghost use Rattle.hpr_terms.specs.declared.limits.TheConstants.{MAX_VARIANTS};
ghost use Rattle.hpr_data.specs.Findings.{Integrated, Integrates};
ghost use Rattle.hpr_data.specs.Private.Comes.{Comes};

use crate::found::{Found, Stop};
use crate::texts::{program_named, programs_named};
use hpr_many::{ManyStop, integrate_many};
use hpr_syntax::Program;
use std::alloc::Global;

/// What the integration of variants with their base comes to, within so many tries.
pub(crate) fn integrated<'a>(
    alloc: Global,
    files: &[(String, Vec<u8>)],
    base: &'a str,
    names: &[&'a str],
    tries: u64,
) -> Result<Found, Stop<'a>>
    requires least { 2 ≤ length names.now }
    requires most { length names.now ≤ MAX_VARIANTS }
    requires tries { 1 ≤ tries }
    ensures { Comes (Integrates (files_in files.now) base.now (map (λ s. s.now) names.now) tries) result }
{
    let program = program_named(alloc, files, base)?;
    let programs = programs_named(alloc, files, names)?;
    answered(alloc, base, &program, names, &programs, tries)
}

/// The answer for the programs of base's text and the variants'.
fn answered<'a>(
    alloc: Global,
    base: &'a str,
    program: &Program,
    names: &[&'a str],
    programs: &[Program],
    tries: u64,
) -> Result<Found, Stop<'a>>
    requires least { 2 ≤ length programs.now }
    requires most { length programs.now ≤ MAX_VARIANTS }
    requires count { length programs.now ≡ length names.now }
    requires tries { 1 ≤ tries }
    ensures { Comes (Integrated base.now program.now (map (λ s. s.now) names.now) programs.now tries) result }
{
    match integrate_many(alloc, program, programs, tries) {
        Ok(merged) => Ok(Found::Merged(merged)),
        Err(ManyStop::TooManyEdges(number)) => {
            Err(Stop::TooManyEdges(name_of(number, base, names)))
        }
        Err(ManyStop::Interference(conflicts)) => Ok(Found::Interference(conflicts)),
        Err(ManyStop::NoProgram(parts)) => Ok(Found::NoProgram(parts)),
        Err(ManyStop::Spent) => Ok(Found::Spent(tries)),
        Err(ManyStop::Memory) => Err(Stop::Memory),
    }
}

/// The name of the text of the program with this number: 0 for base, then the variants.
fn name_of<'a>(number: usize, base: &'a str, names: &[&'a str]) -> &'a str
    ensures { result.now ≡ get_or (base.now ∷ map (λ s. s.now) names.now) number base.now }
{
    if number == 0 {
        return base;
    }
    match names.get(number - 1) {
        Some(name) => *name,
        None => base,
    }
}
