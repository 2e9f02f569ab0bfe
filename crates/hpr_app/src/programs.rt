//! The answer that prints a program.
ghost use Rattle.std.specs.Prelude.{◌≡◌};
ghost use Rattle.hpr_syntax.specs.Print.{text};
ghost use Rattle.hpr_inputs.specs.Decision.{prints};
ghost use Rattle.hpr_inputs.specs.Answer.{Merges};

use hpr_inputs::{Kind, Report, Stop};
use hpr_print::text_of;
use hpr_syntax::Program;
use std::alloc::Global;

/// The answer that prints the canonical text of a program.
pub fn print_program(alloc: Global, program: &Program) -> Result<Report, Stop>
    ensures { Merges (λ r. r ≡ prints Kind.Done (text program.now)) result }
{
    let text = text_of(alloc, program)?;
    Ok(Report {
        kind: Kind::Done,
        text,
    })
}
