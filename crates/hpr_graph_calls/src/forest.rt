//! Calls of hpr_forest.
ghost use Rattle.std.specs.Prelude.{◌≡◌, ℕ, Contains, IfOk};

use hpr_forest::{Blocks, Orders};
use hpr_rows::{Out, Row, put_numbers};
use std::alloc::{AllocError, Global};

/// `free`, or which item comes before which: the first six orders.
pub(crate) fn call(row: Row<'_>, out: &mut Out) -> Option<()> {
    let alloc = row.alloc;
    let blocks = match row.word(1)? {
        "free" => forest(alloc, false, false, false),
        "2-1" => forest(alloc, false, true, false),
        "3-0,1-2" => forest(alloc, true, false, true),
        "2-1,1-2" => forest(alloc, false, true, true),
        _ => return None,
    };
    put_orders(alloc, out, blocks.ok()?)
}

/// A row with the item, or an empty one.
fn item_row(alloc: Global, item: usize, used: bool) -> Result<Vec<usize>, AllocError>
    ensures { IfOk result (λ row. (y : ℕ) → Contains row.items y → y ≡ item) }
{
    if used {
        return Ok(vec![in alloc; item]?);
    }
    Ok(Vec::new(alloc))
}

/// Items 1 and 2 stand under 0, and 3 beside 0. Where it is asked, 3 comes before 0, 2 before 1 or 1 before 2.
fn forest(
    alloc: Global,
    three_first: bool,
    two_first: bool,
    one_first: bool,
) -> Result<Blocks, AllocError> {
    let parents = vec![in alloc; None, Some(0), Some(0), None]?;
    let under_zero = vec![in alloc; 1, 2]?;
    let children = vec![in alloc;
        under_zero,
        Vec::new(alloc),
        Vec::new(alloc),
        Vec::new(alloc),
    ]?;
    let before_zero = item_row(alloc, 3, three_first)?;
    let before_one = item_row(alloc, 2, two_first)?;
    let before_two = item_row(alloc, 1, one_first)?;
    let before = vec![in alloc; before_zero, before_one, before_two, Vec::new(alloc)]?;
    Ok(Blocks::new(parents, children, before))
}

fn put_next(out: &mut Out, orders: &mut Orders) -> Option<()> {
    match orders.next_one().ok()? {
        Some(order) => put_numbers(out, "order", &order),
        None => out.put_piece("no more\n"),
    }
    Some(())
}

fn put_orders(alloc: Global, out: &mut Out, blocks: Blocks) -> Option<()> {
    let mut orders = Orders::start(alloc, blocks).ok()?;
    for _ in 0..6 {
        put_next(out, &mut orders)?;
    }
    Some(())
}
