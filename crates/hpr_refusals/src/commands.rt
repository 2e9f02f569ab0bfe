//! What is said of the first command of a script that is refused.
ghost use Rattle.std.specs.Prelude.{◌≡◌, ◌≢◌, IfOk, string_bytes};
ghost use Rattle.hpr_refusals.specs.Reasons.{command_reason, command_text};

use crate::reasons::{about, shape_reason};
use hpr_edit::{CommandRefusal, EditError};
use hpr_syntax::ShapeError;
use std::alloc::{AllocError, Global};

/// The message on the first command of a script that is refused, where the script has this name.
///
/// It fails where memory runs out, also where that is why the command was refused.
pub fn command_message(
    alloc: Global,
    script: &str,
    refusal: &CommandRefusal,
) -> Result<String, AllocError>
    ensures text { IfOk result (λ text.
        string_bytes text ≡ command_text script.now refusal.now.number refusal.now.why) }
    ensures memory { IfOk result (λ text. refusal.now.why ≢ EditError.Memory) }
    ensures shape { IfOk result (λ text. refusal.now.why ≢ EditError.Shape ShapeError.Memory) }
{
    let number = refusal.number;
    let reason = command_reason(alloc, &refusal.why)?;
    let text = format!(in alloc; "command {number}: {reason}")?;
    about(alloc, script, text.as_str())
}

/// Why a command is refused, in words.
fn command_reason(alloc: Global, why: &EditError) -> Result<String, AllocError>
    ensures text { IfOk result (λ text. string_bytes text ≡ command_reason why.now) }
    ensures memory { IfOk result (λ text. why.now ≢ EditError.Memory) }
    ensures shape { IfOk result (λ text. why.now ≢ EditError.Shape ShapeError.Memory) }
{
    match why {
        EditError::NoTag(tag) => format!(in alloc; "no part {tag}"),
        EditError::IntoItself(tag) => format!(in alloc; "part {tag} would stand in itself"),
        EditError::NoPlace => String::from_str(alloc, "no such place"),
        EditError::KindDiffers(tag) => format!(in alloc; "part {tag} is of another kind"),
        EditError::SerialsSpent => String::from_str(alloc, "serials are spent"),
        EditError::Shape(error) => shape_reason(alloc, error),
        EditError::Memory => Err(AllocError),
    }
}
