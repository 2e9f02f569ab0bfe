//! Puts what calls answer.
use hpr_rows::{Out, put_message};
use hpr_terms::NoMemory;
use serde_json::Value;
use std::alloc::Global;

/// Puts a value in a line.
pub(crate) fn put_line(alloc: Global, out: &mut Out, value: &Value) {
    put_message(out, value.to_string(alloc));
    out.put_piece("\n");
}

/// Puts a value that was made in a line.
pub(crate) fn put_value(alloc: Global, out: &mut Out, made: Result<Value, NoMemory>) {
    match made {
        Ok(value) => put_line(alloc, out, &value),
        Err(_) => out.cut(),
    }
}

/// Puts values that were made, a line each.
pub(crate) fn put_values(alloc: Global, out: &mut Out, made: Result<Vec<Value>, NoMemory>) {
    match made {
        Ok(values) => put_lines(alloc, out, &values),
        Err(_) => out.cut(),
    }
}

fn put_lines(alloc: Global, out: &mut Out, values: &[Value]) {
    for value in values {
        put_line(alloc, out, value);
    }
}
