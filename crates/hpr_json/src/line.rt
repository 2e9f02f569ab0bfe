//! The line of an answer.
ghost use Rattle.std.specs.Prelude.{◌≡◌, false, IfOk};
ghost use Rattle.serde_json.specs.View.{view};
ghost use Rattle.serde_json.specs.Written.{has_float};
ghost use Rattle.hpr_json.specs.Answers.{json_line};

use hpr_syntax::NoMemory;
use serde_json::Value;
use std::alloc::Global;

/// A value in compact text and a newline. No number in it is a float. It fails only for want of memory.
pub fn json_line(alloc: Global, value: &Value) -> Result<Vec<u8>, NoMemory>
    requires { has_float (view value.now) ≡ false }
    ensures { IfOk result (λ text. text.items ≡ json_line (view value.now)) }
{
    let mut out = value.to_vec(alloc)?;
    out.push(b'\n')?;
    Ok(out)
}
