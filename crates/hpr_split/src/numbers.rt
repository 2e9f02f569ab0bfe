//! The issued numbers of a split.
ghost use Rattle.std.specs.Prelude.{◌≡◌, ◌≢◌, ◌↔◌, ℕ, ◌+◌, ◌≤◌, IsTrue, IfOk};
ghost use Rattle.hpr_syntax.specs.Issued.{issued_to};
ghost use Rattle.hpr_graph.specs.Split.{max_serial, split_issued};

use hpr_graph::NoMemory;
use hpr_syntax::Issued;
use hpr_terms::limits::MAX_TAG_NUMBER;
use std::alloc::Global;

/// Whether there are so many serials behind this one.
pub(crate) fn has_serials(serial: u32, count: usize) -> bool
    ensures { IsTrue result ↔ (serial + count ≤ max_serial) }
{
    count <= (MAX_TAG_NUMBER - serial) as usize
}

/// The issued numbers after author 0 got so many more serials.
pub(crate) fn with_more(alloc: Global, issued: &Issued, count: usize) -> Result<Issued, NoMemory>
    requires { issued_to 0 issued.now + count ≤ max_serial }
    ensures issued { IfOk result (λ i. i ≡ split_issued count issued.now) }
    ensures author { IfOk result (λ i. issued_to 0 i ≡ issued_to 0 issued.now + count) }
    ensures others { IfOk result (λ i. (a : ℕ) → a ≢ 0 → issued_to a i ≡ issued_to a issued.now) }
{
    let mut more = issued.copy(alloc)?;
    if count > 0 {
        more.raise(0, issued.get(0) + count as u32)?;
    }
    Ok(more)
}
