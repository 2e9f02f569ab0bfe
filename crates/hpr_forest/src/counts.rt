//! How many numbers of each row are still to be placed.

ghost use Rattle.std.specs.Prelude.{◌≡◌, ℕ, ◌+◌, ◌<◌, ◌≤◌, ◌^◌, ◌++◌, [], ◌∷◌, List, All, cond, eqb, false, get_or, length, IfOk, OnOk};
ghost use Rattle.hpr_forest.specs.Forest.{all_in};
ghost use Rattle.hpr_forest.specs.Marks.{is_in};
ghost use Rattle.hpr_forest.specs.Counting.{AreCounts, AreOfRows, AreTurned, Table, occurrences, row_of};

use std::alloc::{AllocError, Global};

/// For each row of numbers how many of them aren't placed (in-degrees, where a row has what must come before its
/// number: Kahn 1962).
pub struct Counts {
    /// How many numbers of each row aren't placed.
    pub(crate) left: Vec<usize>,
    /// For each number the rows in which it stands, each as often as it stands there.
    pub(crate) rows_with: Vec<Vec<usize>>,
}

// By hand, so that each way out of a function that holds counts is one call.
impl Drop for Counts {
    fn drop(self) {
        let Counts {
            left: _,
            rows_with: _,
        } = self;
    }
}

impl Counts {
    /// The counts where nothing is placed. Takes time and memory in proportion to the numbers in the rows.
    pub fn start(alloc: Global, rows: &[Vec<usize>]) -> Result<Counts, AllocError>
        requires { AreOfRows rows.now }
        ensures { IfOk result (λ counts. AreCounts rows.now [] counts) }
    {
        let left = lengths_of(alloc, rows)?;
        let rows_with = turned(alloc, rows)?;
        Ok(Counts { left, rows_with })
    }

    /// Whether all numbers of the row are placed.
    pub fn is_full(&self, row: usize) -> bool
        requires { row < length self.now.left.items }
        ensures { (rows : Table) (placed : List ℕ) → AreCounts rows placed self.now
            → result ≡ all_in placed (row_of rows row) }
    {
        self.left[row] == 0
    }

    /// Places the number behind the placed ones. Looks at the rows in which it stands alone.
    pub fn place(&mut self, rows: &[Vec<usize>], placed: &[usize], number: usize)
        requires counts { AreCounts rows.now placed.now self.old }
        requires number { number < length rows.now }
        requires fresh { is_in placed.now number ≡ false }
        ensures { AreCounts rows.now (placed.now ++ number ∷ []) self.new }
    {
        take_one_each(&mut self.left, &self.rows_with[number]);
    }

    /// Takes the number back, which was placed last, behind these.
    pub fn take_back(&mut self, rows: &[Vec<usize>], placed: &[usize], number: usize)
        requires counts { AreCounts rows.now (placed.now ++ number ∷ []) self.old }
        requires number { number < length rows.now }
        requires fresh { is_in placed.now number ≡ false }
        ensures { AreCounts rows.now placed.now self.new }
    {
        add_one_each(&mut self.left, &self.rows_with[number]);
    }
}

/// Takes one from each of these entries.
fn take_one_each(left: &mut Vec<usize>, entries: &[usize])
    requires within { All (λ k. k < length left.old.items) entries.now }
    requires enough { (k : ℕ) → occurrences entries.now k ≤ get_or left.old.items k 0 }
    ensures count { length left.new.items ≡ length left.old.items }
    ensures each { (k : ℕ) → get_or left.new.items k 0 + occurrences entries.now k ≡ get_or left.old.items k 0 }
{
    for entry in entries {
        left[*entry] -= 1;
    }
}

/// Adds one to each of these entries.
fn add_one_each(left: &mut Vec<usize>, entries: &[usize])
    requires within { All (λ k. k < length left.old.items) entries.now }
    requires room { (k : ℕ) → get_or left.old.items k 0 + occurrences entries.now k < 2 ^ 64 }
    ensures count { length left.new.items ≡ length left.old.items }
    ensures each { (k : ℕ) → get_or left.new.items k 0 ≡ get_or left.old.items k 0 + occurrences entries.now k }
{
    for entry in entries {
        left[*entry] += 1;
    }
}

/// How long each row is.
fn lengths_of(alloc: Global, rows: &[Vec<usize>]) -> Result<Vec<usize>, AllocError>
    ensures count { IfOk result (λ lengths. length lengths.items ≡ length rows.now) }
    ensures lengths { IfOk result (λ lengths. (k : ℕ) → k < length rows.now
        → get_or lengths.items k 0 ≡ length (row_of rows.now k)) }
    ensures room { IfOk result (λ _. (k : ℕ) → k < length rows.now → length (row_of rows.now k) < 2 ^ 64) }
{
    let mut lengths = Vec::with_capacity(alloc, rows.len())?;
    for at in 0..rows.len() {
        lengths.push(rows[at].len())?;
    }
    Ok(lengths)
}

/// The table turned round: for each number the rows in which it stands, each as often as it stands there.
fn turned(alloc: Global, rows: &[Vec<usize>]) -> Result<Vec<Vec<usize>>, AllocError>
    requires { AreOfRows rows.now }
    ensures count { IfOk result (λ turned. length turned.items ≡ length rows.now) }
    ensures turned { IfOk result (λ turned. AreTurned rows.now turned.items) }
{
    let mut turned = blank_rows(alloc, rows.len())?;
    for at in 0..rows.len() {
        push_to_each(&mut turned, &rows[at], at)?;
    }
    Ok(turned)
}

/// So many empty rows.
fn blank_rows(alloc: Global, count: usize) -> Result<Vec<Vec<usize>>, AllocError>
    ensures count { IfOk result (λ rows. length rows.items ≡ count) }
    ensures blank { IfOk result (λ rows. (k : ℕ) → row_of rows.items k ≡ []) }
{
    let mut rows = Vec::with_capacity(alloc, count)?;
    for _ in 0..count {
        rows.push(Vec::new(alloc))?;
    }
    Ok(rows)
}

/// Puts the number at the end of each of these rows.
fn push_to_each(rows: &mut Vec<Vec<usize>>, each: &[usize], number: usize) -> Result<(), AllocError>
    requires { All (λ k. k < length rows.old.items) each.now }
    ensures count { length rows.new.items ≡ length rows.old.items }
    ensures rows { OnOk result ((k n : ℕ) → occurrences (row_of rows.new.items k) n
        ≡ occurrences (row_of rows.old.items k) n + cond (eqb number n) (occurrences each.now k) 0) }
{
    for at in each {
        push_at(rows, *at, number)?;
    }
    Ok(())
}

/// Puts the number at the end of a row.
fn push_at(rows: &mut Vec<Vec<usize>>, at: usize, number: usize) -> Result<(), AllocError>
    requires { at < length rows.old.items }
    ensures count { length rows.new.items ≡ length rows.old.items }
    ensures here { OnOk result (row_of rows.new.items at ≡ row_of rows.old.items at ++ number ∷ []) }
    ensures others { OnOk result ((k : ℕ) → ¬ (k ≡ at) → row_of rows.new.items k ≡ row_of rows.old.items k) }
{
    let row = &mut rows[at];
    row.push(number)?;
    Ok(())
}
