//! Why a file is refused, and what is said of it.
ghost use Rattle.std.specs.Prelude.{◌≡◌, ◌≢◌, ◌++◌, IfOk, codes, string_bytes};
ghost use Rattle.std.specs.Fmt.{decimal};
ghost use Rattle.hpr_refusals.specs.Reasons.{reason, refusal_text};

use crate::reasons::{about, shape_reason};
use hpr_syntax::ShapeError;
use hpr_terms::limits::MAX_FILE;
use std::alloc::{AllocError, Global};

/// Why a file is refused. A script is refused for its length or its syntax alone.
#[derive(Drop)]
pub enum Refusal {
    /// It has more than [`MAX_FILE`] bytes.
    Longer,
    /// It spells no tree, or no script: so many of its first bytes can still be completed, and no
    /// more.
    Syntax { place: usize },
    /// It spells a tree that is no program.
    Shape(ShapeError),
}

impl Refusal {
    /// The message on the file with this name.
    ///
    /// It fails where memory runs out, also where that is why there is no program. The form of
    /// messages is defined here alone.
    pub fn message(&self, alloc: Global, file: &str) -> Result<String, AllocError>
        ensures text { IfOk result (λ text. string_bytes text ≡ refusal_text file.now self.now) }
        ensures memory { IfOk result (λ text. self.now ≢ Refusal.Shape ShapeError.Memory) }
    {
        let reason = self.reason(alloc)?;
        about(alloc, file, reason.as_str())
    }

    fn reason(&self, alloc: Global) -> Result<String, AllocError>
        ensures text { IfOk result (λ text. string_bytes text ≡ reason self.now) }
        ensures memory { IfOk result (λ text. self.now ≢ Refusal.Shape ShapeError.Memory) }
    {
        match self {
            Refusal::Longer => longer_than(alloc, MAX_FILE),
            Refusal::Syntax { place } => format!(in alloc; "syntax at byte {place}"),
            Refusal::Shape(error) => shape_reason(alloc, error),
        }
    }
}

fn longer_than(alloc: Global, most: usize) -> Result<String, AllocError>
    ensures { IfOk result (λ text. string_bytes text ≡ codes "longer than " ++ decimal most ++ codes " bytes") }
{
    format!(in alloc; "longer than {most} bytes")
}
