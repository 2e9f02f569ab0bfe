//! The members of objects.
ghost use Rattle.std.specs.Prelude.{◌≡◌, codes, IfOk, OnOk};
ghost use Rattle.serde_json.specs.Data.{string, array, object, member, no_members, put as with_member};
ghost use Rattle.serde_json.specs.View.{view, items_view, members_view};

use serde_json::{Map, Value, put};
use std::alloc::{AllocError, Global};

/// Puts a member that is a text. It fails only for want of memory.
pub fn put_text(
    alloc: Global,
    members: &mut Map<String, Value>,
    key: &str,
    text: &str,
) -> Result<(), AllocError>
    ensures { OnOk result (members_view members.new.entries
        ≡ with_member key.now (string text.now) (members_view members.old.entries)) }
{
    put(
        members,
        alloc,
        key,
        Value::String(String::from_str(alloc, text)?),
    )
}

/// An object with a list at this key, and this status.
pub(crate) fn listed_value(
    alloc: Global,
    key: &str,
    values: Vec<Value>,
    status: &str,
) -> Result<Value, AllocError>
    ensures { IfOk result (λ value. view value ≡ object (with_member (codes "status") (string status.now)
        (member key.now (array (items_view values.items)) no_members))) }
{
    let mut members = Map::new(alloc);
    put(&mut members, alloc, key, Value::Array(values))?;
    put_text(alloc, &mut members, "status", status)?;
    Ok(Value::Object(members))
}
