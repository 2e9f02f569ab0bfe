//! The limits of programs, on items.
ghost use Rattle.std.specs.Prelude.{◌≡◌, ℕ, ◌<◌, ◌≤◌, ◌↔◌, length, slice_get, Some, IfOk, IfSome, IfNone, IsTrue};
ghost use Rattle.hpr_order.specs.Items.{AreSlots, slot_at};
ghost use Rattle.hpr_order.specs.Limits.{IsWithinLimits, is_unfit, level_in};
ghost use Rattle.hpr_order.specs.Lifting.{AreLevels};
ghost use Rattle.hpr_order.specs.Building.{IsSlot};

use crate::item::Item;
use hpr_graph::NoMemory;
use hpr_syntax::{Content, has_wrong_name, is_large_content};
use hpr_terms::limits::{MAX_LEVELS, MAX_PARTS};
use std::alloc::Global;

/// For each item how many items stand around it, where the items are within the limits of programs; else
/// none.
pub(crate) fn levels_of(alloc: Global, items: &[Item]) -> Result<Option<Vec<usize>>, NoMemory>
    requires { AreSlots items.now }
    ensures limits { IfOk result (λ o. IfSome o (λ _. IsWithinLimits items.now)) }
    ensures levels { IfOk result (λ o. IfSome o (λ levels. AreLevels items.now levels.items)) }
    ensures none { IfOk result (λ o. IfNone o (¬ IsWithinLimits items.now)) }
{
    if items.len() > MAX_PARTS {
        return Ok(None);
    }
    let mut levels = Vec::new(alloc);
    for item in items {
        if is_unfit(&item.content) {
            return Ok(None);
        }
        let Some(level) = level_in(items, MAX_LEVELS - 1, item.slot) else {
            return Ok(None);
        };
        levels.push(level)?;
    }
    Ok(Some(levels))
}

/// Whether no part of a program says this: its expressions are too large, or it has a wrong name.
fn is_unfit(content: &Content) -> bool
    ensures { result ≡ is_unfit content.now }
{
    is_large_content(content) || has_wrong_name(content)
}

/// How many items stand around the slot, if there are at most so many.
fn level_in(items: &[Item], most: usize, slot: Option<(usize, bool)>) -> Option<usize>
    requires slots { AreSlots items.now }
    requires slot { IsSlot (length items.now) slot }
    ensures level { result ≡ level_in (slot_at items.now) most slot }
    ensures most { IfSome result (λ d. d ≤ most) }
{
    let Some((item, _)) = slot else {
        return Some(0);
    };
    if most == 0 {
        return None;
    }
    Some(level_in(items, most - 1, items[item].slot)? + 1)
}
