//! Lists that grow.
ghost use Rattle.std.specs.Prelude.{◌≡◌, ◌∷◌, ◌++◌, [], OnOk, if◌then◌else◌};

use hpr_graph::NoMemory;

/// Puts the item behind the others where the test holds.
pub(crate) fn push_if<T: Drop>(test: bool, item: T, into: &mut Vec<T>) -> Result<(), NoMemory>
    ensures { OnOk result (into.new.items ≡ (if test then into.old.items ++ item ∷ [] else into.old.items)) }
{
    if test {
        into.push(item)?;
    }
    Ok(())
}
