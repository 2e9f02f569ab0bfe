//! Calls of hpr_search: where each point leads to its half, and over rows.
ghost use Rattle.std.specs.Prelude.{◌≡◌, IfOk, length};

use hpr_rows::{Out, Row, put, put_counted, put_marked, truth};
use hpr_search::{Digraph, Rows, is_marked, reachable};
use std::alloc::{AllocError, Global};

/// The points 0 to 7.
#[derive(Drop)]
struct Halves;

impl Digraph for Halves {
    ghost use Rattle.std.specs.Prelude.{[], ◌∷◌, ◌/◌};

    ghost points = { λ _. 8 };

    ghost steps = { λ _ p. p / 2 ∷ [] };

    fn point_count(&self) -> usize {
        8
    }

    fn push_steps(&self, point: usize, into: &mut Vec<usize>) -> Result<(), AllocError> {
        into.push(point / 2)?;
        Ok(())
    }
}

/// Answers the call.
pub(crate) fn call(row: Row<'_>, out: &mut Out) -> Option<()> {
    match row.word(1)? {
        "rows" => rows(row, out),
        "listed" => listed(row, out),
        _ => reached(row, out),
    }
}

// `POINT POINT`: the points that are reached from these.
fn reached(row: Row<'_>, out: &mut Out) -> Option<()> {
    let first = row.number(1)?.min(7);
    let second = row.number(2)?.min(7);
    let marks = reachable(row.alloc, &Halves, &[first, second]).ok()?;
    put_marked(out, "reached", &marks);
    Some(())
}

fn put_list(out: &mut Out, points: &[usize]) {
    out.put_piece("listed");
    for point in points {
        put_counted(out, " ", *point);
    }
    out.put_piece("\n");
}

// `listed POINT POINT`: the same points, as the search lists them, in order.
fn listed(row: Row<'_>, out: &mut Out) -> Option<()> {
    let first = row.number(2)?.min(7);
    let second = row.number(3)?.min(7);
    let found = hpr_search::reached(row.alloc, &Halves, &[first, second]).ok()?;
    let mut points = found.points.to_vec(row.alloc).ok()?;
    points.sort_unstable();
    put_list(out, &points);
    Some(())
}

// The rows of the edges from 0 to 1, from 1 to 2 and from 3 to 1.
fn edges(alloc: Global) -> Result<Rows, AllocError>
    ensures { IfOk result (λ rows. length rows ≡ 4) }
{
    let mut rows = Rows::blank(alloc, 4)?;
    rows.push(0, 1)?;
    rows.push(1, 2)?;
    rows.push(3, 1)?;
    Ok(rows)
}

// `rows POINT`: the points to which these edges lead from the point, and whether 3 and 4 are marked.
fn rows(row: Row<'_>, out: &mut Out) -> Option<()> {
    let point = row.number(2)?.min(3);
    let rows = edges(row.alloc).ok()?;
    let marks = reachable(row.alloc, &rows, &[point]).ok()?;
    put_marked(out, "reached", &marks);
    let three = truth(is_marked(&marks, 3));
    put(
        out,
        &["3 ", three, ", 4 ", truth(is_marked(&marks, 4)), "\n"],
    );
    Some(())
}
