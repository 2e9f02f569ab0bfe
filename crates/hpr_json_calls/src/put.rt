//! Puts the line of a value.
ghost use Rattle.std.specs.Prelude.{◌≡◌, false, IfOk};
ghost use Rattle.serde_json.specs.View.{view};
ghost use Rattle.serde_json.specs.Written.{has_float};

use hpr_json::json_line;
use hpr_rows::{Out, put_made};
use hpr_terms::NoMemory;
use serde_json::Value;
use std::alloc::Global;

/// Puts the line of a value that was made.
pub(crate) fn put_value(alloc: Global, out: &mut Out, made: Result<Value, NoMemory>)
    requires { IfOk made (λ value. has_float (view value) ≡ false) }
{
    match made {
        Ok(value) => put_made(out, json_line(alloc, &value)),
        Err(_) => out.cut(),
    }
}
