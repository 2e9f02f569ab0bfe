//! Calls of hpr_conflicts on conflicts and on numbers of groups.
use crate::numbers::{are_below, numbers};
use crate::sentences;
use crate::spelled::conflicts;
use hpr_conflicts::{GroupNumbers, group_numbers, group_rows};
use hpr_rows::{Out, Row, put_count, put_numbers};
use std::alloc::Global;

/// Answers the call.
pub(crate) fn call(row: Row<'_>, out: &mut Out) -> Option<()> {
    match row.word(1)? {
        "groups" => groups(row, out),
        "rows" => rows(row, out),
        "sentence" => sentences::call(row, out),
        _ => None,
    }
}

// Puts a row.
fn put_each(out: &mut Out, rows: &[Vec<usize>]) {
    for row in rows {
        put_numbers(out, "row", row);
    }
}

// Puts the row of each group. There is none where a number is no group's.
fn put_rows(alloc: Global, out: &mut Out, numbers: &[usize], count: usize) -> Option<()> {
    if !are_below(numbers, count) {
        return None;
    }
    match group_rows(alloc, numbers, count) {
        Ok(rows) => put_each(out, &rows),
        Err(_) => out.cut(),
    }
    Some(())
}

fn put_groups(alloc: Global, out: &mut Out, found: &GroupNumbers) -> Option<()> {
    put_numbers(out, "numbers", &found.of);
    put_count(out, "groups ", found.count as u64);
    put_rows(alloc, out, &found.of, found.count)
}

// `groups CONFLICTS`: the number of each conflict's group, how many groups there are, and the places of each one's
// conflicts.
fn groups(row: Row<'_>, out: &mut Out) -> Option<()> {
    let conflicts = conflicts(row, 2)?;
    let found = group_numbers(row.alloc, &conflicts).ok()?;
    put_groups(row.alloc, out, &found)
}

// `rows COUNT NUMBER..`: the places of each number below the count.
fn rows(row: Row<'_>, out: &mut Out) -> Option<()> {
    let count = row.number(2)?;
    let numbers = numbers(row, 3)?;
    put_rows(row.alloc, out, &numbers, count)
}
