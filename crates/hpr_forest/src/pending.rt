//! What the placed items leave to be placed.

ghost use Rattle.std.specs.Prelude.{◌≡◌, ℕ, ◌<◌, [], ◌∷◌, ◌++◌, true, false, All, Contains, get_or, length, IfOk};
ghost use Rattle.hpr_forest.specs.Remaining.{can_of};
ghost use Rattle.hpr_forest.specs.Pending.{IsPending};

use crate::Blocks;
use crate::counts::Counts;
use crate::sparse::SparseRow;
use std::alloc::{AllocError, Global};

/// What the placed items of a forest leave to be placed: for each item how many of those that must come before it
/// aren't placed, and how many of those under it. An item for which none of the first are left is marked as ready,
/// until it is placed.
pub struct Pending {
    pub(crate) before: Counts,
    pub(crate) under: Counts,
    pub(crate) ready: SparseRow,
}

// By hand, so that each way out of a function that holds counts is one call.
impl Drop for Pending {
    fn drop(self) {
        let Pending {
            before: _,
            under: _,
            ready: _,
        } = self;
    }
}

impl Pending {
    /// Where nothing is placed. Takes time and memory in proportion to what stands in the tables.
    pub fn start(alloc: Global, blocks: &Blocks) -> Result<Pending, AllocError>
        ensures { IfOk result (λ pending. IsPending blocks.now [] pending) }
    {
        let before = Counts::start(alloc, &blocks.before)?;
        let under = Counts::start(alloc, &blocks.children)?;
        let ready = open_row(alloc, &before.left)?;
        Ok(Pending {
            before,
            under,
            ready,
        })
    }

    /// Places the item, which may be placed next, behind the placed ones. Looks at what must come behind it alone, and
    /// takes no memory.
    pub fn place(&mut self, blocks: &Blocks, placed: &[usize], item: usize)
        requires pending { IsPending blocks.now placed.now self.old }
        requires may { can_of blocks.now placed.now item ≡ true }
        ensures { IsPending blocks.now (placed.now ++ item ∷ []) self.new }
    {
        self.before.place(&blocks.before, placed, item);
        self.under.place(&blocks.children, placed, item);
        self.ready.clear(item);
        open_each(
            &mut self.ready,
            &self.before.left,
            &self.before.rows_with[item],
        );
    }

    /// Takes the item back, which was placed last, behind these.
    pub fn take_back(&mut self, blocks: &Blocks, placed: &[usize], item: usize)
        requires pending { IsPending blocks.now (placed.now ++ item ∷ []) self.old }
        requires may { can_of blocks.now placed.now item ≡ true }
        ensures { IsPending blocks.now placed.now self.new }
    {
        self.before.take_back(&blocks.before, placed, item);
        self.under.take_back(&blocks.children, placed, item);
        close_each(&mut self.ready, &self.before.rows_with[item]);
        self.ready.put(item);
    }
}

/// A mark at each entry that is 0.
fn open_row(alloc: Global, left: &[usize]) -> Result<SparseRow, AllocError>
    ensures count { IfOk result (λ row. length row ≡ length left.now) }
    ensures marked { IfOk result (λ row. (k : ℕ) → k < length left.now → get_or left.now k 0 ≡ 0
        → get_or row k false ≡ true) }
{
    let mut row = SparseRow::blank(alloc, left.len())?;
    for at in 0..left.len() {
        if left[at] == 0 {
            row.put(at);
        }
    }
    Ok(row)
}

/// Marks those of these entries that are 0.
fn open_each(row: &mut SparseRow, left: &[usize], entries: &[usize])
    requires count { length left.now ≡ length row.old }
    requires within { All (λ k. k < length row.old) entries.now }
    ensures count { length row.new ≡ length row.old }
    ensures kept { (k : ℕ) → get_or row.old k false ≡ true → get_or row.new k false ≡ true }
    ensures marked { (k : ℕ) → Contains entries.now k → get_or left.now k 0 ≡ 0 → get_or row.new k false ≡ true }
{
    for entry in entries {
        if left[*entry] == 0 {
            row.put(*entry);
        }
    }
}

/// Takes the mark from each of these places.
fn close_each(row: &mut SparseRow, places: &[usize])
    requires { All (λ k. k < length row.old) places.now }
    ensures count { length row.new ≡ length row.old }
    ensures kept { (k : ℕ) → ¬ Contains places.now k → get_or row.new k false ≡ get_or row.old k false }
{
    for place in places {
        row.clear(*place);
    }
}
