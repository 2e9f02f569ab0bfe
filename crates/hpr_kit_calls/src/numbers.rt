//! Numbers that words spell.
ghost use Rattle.std.specs.Prelude.{◌↔◌, ◌<◌, All, IsTrue};

use hpr_rows::Row;

/// The numbers that stand from this place on.
pub(crate) fn numbers(row: Row<'_>, from: usize) -> Option<Vec<usize>> {
    let mut numbers = Vec::new(row.alloc);
    for word in row.rest(from) {
        numbers.push(word.parse().ok()?).ok()?;
    }
    Some(numbers)
}

/// Whether all numbers are below the count.
pub(crate) fn are_below(numbers: &[usize], count: usize) -> bool
    ensures { IsTrue result ↔ All (λ n. n < count) numbers.now }
{
    numbers.iter().all(|number| *number < count)
}
