//! Calls of hpr_impact on a text and the numbers of lines.
use crate::numbers::numbers;
use hpr_impact::marked_text;
use hpr_rows::{Out, Row, put_made};
use std::alloc::Global;

// Marks, of which those with these numbers are set.
fn marks_at(alloc: Global, numbers: &[usize]) -> Option<Vec<bool>> {
    let mut marks = Vec::new(alloc);
    for at in 0..9 {
        marks.push(numbers.iter().any(|number| *number == at)).ok()?;
    }
    Some(marks)
}

/// Answers the call `lines TEXT NUMBER..`: the text with marks at the lines with these numbers, which are below 9.
pub(crate) fn call(row: Row<'_>, out: &mut Out) -> Option<()> {
    let numbers = numbers(row, 3)?;
    let marks = marks_at(row.alloc, &numbers)?;
    put_made(out, marked_text(row.alloc, row.bytes(2)?, &marks));
    out.put_piece("\n");
    Some(())
}
