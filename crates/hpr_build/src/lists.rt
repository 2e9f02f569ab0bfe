//! An item put at the end of a list where a test holds, and numbers in order.
ghost use Rattle.std.specs.Prelude.{◌≡◌, ◌↔◌, ◌⊎◌, ℕ, Contains, OnOk, IsTrue};
ghost use Rattle.std.specs.List.Sorted.{IsStrictlyIncreasing};
ghost use Rattle.hpr_graph.specs.Graphs.{IsOnce};

use hpr_terms::NoMemory;

/// Puts the item behind the others where the test holds.
pub(crate) fn push_if<T: Drop>(test: bool, item: T, into: &mut Vec<T>) -> Result<(), NoMemory>
    ensures exact { OnOk result ((x : T) → Contains into.new.items x
        ↔ (Contains into.old.items x ⊎ (IsTrue test × (item ≡ x)))) }
    ensures once { OnOk result (IsOnce into.old.items → (Contains into.old.items item → ⊥) → IsOnce into.new.items) }
{
    if test {
        into.push(item)?;
    }
    Ok(())
}

/// The numbers in ascending order, each once.
pub(crate) fn ascending(numbers: Vec<usize>) -> Vec<usize>
    ensures ascending { IsStrictlyIncreasing result.items }
    ensures same { (n : ℕ) → Contains result.items n ↔ Contains numbers.items n }
{
    let mut numbers = numbers;
    numbers.sort_unstable();
    numbers.dedup();
    numbers
}
