//! Rows of numbers as the pages of an array.
ghost use Rattle.std.specs.Prelude.{◌≡◌, ◌<◌, ◌≤◌, ℕ, pos, [], ◌∷◌, ◌+◌, ◌++◌, length, get_or, slice_set, IfOk, OnOk, OnErr};
ghost use Rattle.hpr_arrays.specs.Elements.{element, with_element};
ghost use Rattle.hpr_arrays.specs.Pages.{rows_of, page_of, listed, elements_of, IsLaidOut};

use crate::memory::NoMemory;
use std::alloc::Global;

/// How many numbers a page has.
pub(crate) const PAGE: usize = 256;

/// The number with this index: 0 where its page wasn't made.
pub(crate) fn number_at(pages: &[Vec<i64>], at: u16) -> i64
    requires { IsLaidOut (rows_of pages.now) }
    ensures { result ≡ element (elements_of (rows_of pages.now)) at }
{
    let at = usize::from(at);
    number_in(row_at(pages, at / PAGE), at % PAGE)
}

/// The number at this place of a row: 0 where it isn't there.
fn number_in(row: &[i64], place: usize) -> i64
    ensures { result ≡ get_or row.now place (pos 0) }
{
    match row.get(place) {
        Some(&number) => number,
        None => 0,
    }
}

/// The row with this number: without numbers where it isn't there.
fn row_at(pages: &[Vec<i64>], page: usize) -> &[i64]
    ensures { result.now ≡ get_or (rows_of pages.now) page [] }
{
    match pages.get(page) {
        Some(row) => row,
        None => &[],
    }
}

/// Gives the element with this index its number, in a page that is made where it wasn't.
pub(crate) fn put(
    alloc: Global,
    pages: &mut Vec<Vec<i64>>,
    at: u16,
    number: i64,
) -> Result<(), NoMemory>
    requires { IsLaidOut (rows_of pages.old.items) }
    ensures laid_out { IsLaidOut (rows_of pages.new.items) }
    ensures ok { OnOk result (elements_of (rows_of pages.new.items)
        ≡ with_element (elements_of (rows_of pages.old.items)) at number) }
    ensures err { OnErr result (elements_of (rows_of pages.new.items) ≡ elements_of (rows_of pages.old.items)) }
{
    let at = usize::from(at);
    make_page(alloc, pages, at / PAGE)?;
    write(&mut pages[at / PAGE], at % PAGE, number);
    Ok(())
}

/// Gives the number at this place of a row another value.
fn write(row: &mut Vec<i64>, place: usize, number: i64)
    requires { place < length row.old.items }
    ensures { row.new.items ≡ slice_set row.old.items place number }
{
    row[place] = number;
}

/// Makes the page with this number, of zeros, where it wasn't made.
fn make_page(alloc: Global, pages: &mut Vec<Vec<i64>>, page: usize) -> Result<(), NoMemory>
    requires page { page < 256 }
    requires laid_out { IsLaidOut (rows_of pages.old.items) }
    ensures laid_out { IsLaidOut (rows_of pages.new.items) }
    ensures same { elements_of (rows_of pages.new.items) ≡ elements_of (rows_of pages.old.items) }
    ensures within { IfOk result (λ _. page < length pages.new.items) }
    ensures made { IfOk result (λ _. length (get_or (rows_of pages.new.items) page []) ≡ 256) }
{
    make_rows(alloc, pages, page + 1)?;
    fill(alloc, &mut pages[page])
}

/// A row without numbers becomes one of zeros.
fn fill(alloc: Global, row: &mut Vec<i64>) -> Result<(), NoMemory>
    ensures ok { OnOk result (row.new.items ≡ page_of row.old.items) }
    ensures err { OnErr result (row.new.items ≡ row.old.items) }
{
    if row.is_empty() {
        *row = vec![in alloc; 0; PAGE]?;
    }
    Ok(())
}

/// Makes rows without numbers until there are so many.
fn make_rows(alloc: Global, pages: &mut Vec<Vec<i64>>, count: usize) -> Result<(), NoMemory>
    requires count { count ≤ 256 }
    requires laid_out { IsLaidOut (rows_of pages.old.items) }
    ensures laid_out { IsLaidOut (rows_of pages.new.items) }
    ensures same { elements_of (rows_of pages.new.items) ≡ elements_of (rows_of pages.old.items) }
    ensures made { IfOk result (λ _. count ≤ length pages.new.items) }
{
    for _ in pages.len()..count {
        pages.push(Vec::new(alloc))?;
    }
    Ok(())
}

/// A copy of the rows.
pub(crate) fn copy_of(alloc: Global, pages: &[Vec<i64>]) -> Result<Vec<Vec<i64>>, NoMemory>
    ensures { IfOk result (λ copy. rows_of copy.items ≡ rows_of pages.now) }
{
    let mut copy = Vec::with_capacity(alloc, pages.len())?;
    for row in pages {
        copy.push(Vec::from_slice(alloc, row)?)?;
    }
    Ok(copy)
}

/// Puts the numbers of a row that aren't 0 behind the others, with their indices, which begin with the first.
pub(crate) fn push_listed(
    entries: &mut Vec<(u16, i64)>,
    first: usize,
    row: &[i64],
) -> Result<(), NoMemory>
    requires { first + length row.now ≤ 65536 }
    ensures { IfOk result (λ _. entries.new.items ≡ entries.old.items ++ listed first row.now) }
{
    for (place, &number) in row.iter().enumerate() {
        push_number(entries, first + place, number)?;
    }
    Ok(())
}

/// The same of one number.
fn push_number(entries: &mut Vec<(u16, i64)>, at: usize, number: i64) -> Result<(), NoMemory>
    requires { at < 65536 }
    ensures { IfOk result (λ _. entries.new.items ≡ entries.old.items ++ listed at (number ∷ [])) }
{
    if number != 0 {
        entries.push((at as u16, number))?;
    }
    Ok(())
}
