//! The command `verify`.
ghost use Rattle.std.specs.Prelude.{◌≡◌, length, map};
ghost use Rattle.hpr_io.specs.Files.{files_in};
ghost use Rattle.hpr_data.specs.Findings.{Verified, Verifies};
ghost use Rattle.hpr_data.specs.Private.Comes.{Comes};

use crate::found::{Found, Stop};
use crate::texts::programs_named;
use hpr_syntax::Program;
use hpr_verify::{VerifyError, verify};
use std::alloc::Global;

/// The verdict on the last of four texts' programs, by the first, which is the base, and two variants.
pub(crate) fn verified<'a>(
    alloc: Global,
    files: &[(String, Vec<u8>)],
    names: &[&'a str],
) -> Result<Found, Stop<'a>>
    requires { length names.now ≡ 4 }
    ensures { Comes (Verifies (files_in files.now) (map (λ s. s.now) names.now)) result }
{
    let programs = programs_named(alloc, files, names)?;
    verdict_of(alloc, names, &programs)
}

/// The verdict on the last of four programs.
fn verdict_of<'a>(alloc: Global, names: &[&'a str], programs: &[Program]) -> Result<Found, Stop<'a>>
    requires names { length names.now ≡ 4 }
    requires programs { length programs.now ≡ 4 }
    ensures { Comes (Verified (map (λ s. s.now) names.now) programs.now) result }
{
    let [base, a, b, offered] = programs else {
        unreachable!();
    };
    match verify(alloc, base, a, b, offered) {
        Ok(verdict) => Ok(Found::Judged(verdict)),
        Err(VerifyError::TooManyEdges(number)) => Err(Stop::TooManyEdges(names[number])),
        Err(VerifyError::Memory) => Err(Stop::Memory),
    }
}
