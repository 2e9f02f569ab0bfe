//! Calls of hpr_arrays.
use hpr_arrays::Cells;
use hpr_rows::{Out, Row, put_counted};

/// `array AT=NUMBER ..`: gives elements their numbers, one after another, and tells each; then how many aren't 0, and
/// these.
pub(crate) fn call(row: Row<'_>, out: &mut Out) -> Option<()> {
    let mut cells = Cells::new(row.alloc);
    set_all(&mut cells, out, row.rest(1))?;
    put_cells(&cells, out)
}

/// `copy AT=NUMBER AT=NUMBER..`: the same, and then of a copy that was made behind the first number.
pub(crate) fn copied(row: Row<'_>, out: &mut Out) -> Option<()> {
    let mut cells = Cells::new(row.alloc);
    set(&mut cells, out, row.word(1)?)?;
    let copy = cells.copy().ok()?;
    set_all(&mut cells, out, row.rest(2))?;
    put_both(&cells, &copy, out)
}

// Gives the element of each word `at=number` its number, and tells it.
fn set_all(cells: &mut Cells, out: &mut Out, words: &[String]) -> Option<()> {
    for word in words {
        set(cells, out, word.as_str())?;
    }
    Some(())
}

fn set(cells: &mut Cells, out: &mut Out, word: &str) -> Option<()> {
    let (at, number) = word.split_once('=')?;
    let at = at.parse().ok()?;
    cells.set(at, number.parse().ok()?).ok()?;
    put_element(out, at, cells.get(at));
    Some(())
}

fn put_both(cells: &Cells, copy: &Cells, out: &mut Out) -> Option<()> {
    put_cells(cells, out)?;
    put_cells(copy, out)
}

// Puts how many elements aren't 0, and these, one a line.
fn put_cells(cells: &Cells, out: &mut Out) -> Option<()> {
    put_counted(out, "count ", cells.count());
    out.put_piece("\n");
    put_entries(cells, out)
}

fn put_entries(cells: &Cells, out: &mut Out) -> Option<()> {
    let entries = cells.entries().ok()?;
    for &(at, number) in entries.iter() {
        put_element(out, at, number);
    }
    Some(())
}

fn put_element(out: &mut Out, at: u16, number: i64) {
    out.put_number(u64::from(at));
    out.put_piece(" = ");
    out.put_value(number);
    out.put_piece("\n");
}

/// Puts how many elements aren't 0, and these, all in one line.
pub(crate) fn put_elements(out: &mut Out, cells: &Cells) {
    put_counted(out, "elements ", cells.count());
    match cells.entries() {
        Ok(entries) => put_pairs(out, &entries),
        Err(_) => out.cut(),
    }
}

fn put_pairs(out: &mut Out, entries: &[(u16, i64)]) {
    for &(at, number) in entries {
        out.put_piece(" ");
        out.put_number(u64::from(at));
        out.put_piece("=");
        out.put_value(number);
    }
}
