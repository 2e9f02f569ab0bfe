//! The tables of the forest that the items make, with the order that is asked of siblings.
ghost use Rattle.std.specs.Prelude.{◌≡◌, ℕ, ◌<◌, ◌↔◌, ◌⊎◌, All, true, false, Some, None, List, [], length, slice_get, Contains, IfOk, IfSome, IfNone, IsTrue, OnOk, vec_len};
ghost use Rattle.hpr_search.specs.Rows.{numbers_at, IsPushed};
ghost use Rattle.hpr_graph.specs.Numbered.{graph_in};
ghost use Rattle.hpr_forest.specs.Blocks.{row_at};
ghost use Rattle.hpr_order.specs.Items.{AreSlots, slot_at};
ghost use Rattle.hpr_order.specs.Numbers.{ArePartsOf, AreItemsOf};
ghost use Rattle.hpr_order.specs.Limits.{AreOrdersOf, IsWithinLimits};
ghost use Rattle.hpr_order.specs.Ordered.{AreAskedSiblings, AreChoices};
ghost use Rattle.hpr_order.specs.Lifting.{AreLevels, IsBelow, parent_in};
ghost use Rattle.hpr_order.specs.Tables.{AreChildRows, AreLatest, AreLifted, AreListed, AreSiblingRows, AreTablesOf, AreWithFirst, IsAskedAt, IsFirstOf};

use crate::item::Item;
use crate::levels::levels_of;
use crate::lift::{Lift, lifted, parent_of};
use crate::numbers::{asked_pairs, no_places};
use hpr_forest::Blocks;
use hpr_graph::{Graph, NoMemory};
use hpr_search::{Digraph, Rows};
use std::alloc::Global;

/// The tables by which the items may stand one behind the other in arrangements; none where no order of them
/// is that of an arrangement.
pub(crate) fn choices_of(
    alloc: Global,
    graph: &Graph,
    numbers: &[usize],
    items: &[Item],
) -> Result<Option<Blocks>, NoMemory>
    requires numbers { ArePartsOf graph.now numbers.now }
    requires items { AreItemsOf graph.now numbers.now items.now }
    ensures { IfOk result (λ o. AreChoices (graph_in graph.now) items.now o) }
{
    let Some(mut asked) = asked_siblings(alloc, graph, numbers, items)? else {
        return Ok(None);
    };
    let blocks = blocks_of(alloc, items, &mut asked)?;
    Ok(Some(blocks))
}

/// For each item the siblings that must come before it; none where no order is that of an arrangement.
fn asked_siblings(
    alloc: Global,
    graph: &Graph,
    numbers: &[usize],
    items: &[Item],
) -> Result<Option<Rows>, NoMemory>
    requires numbers { ArePartsOf graph.now numbers.now }
    requires items { AreItemsOf graph.now numbers.now items.now }
    ensures limits { IfOk result (λ o. IfSome o (λ _. IsWithinLimits items.now)) }
    ensures asked { IfOk result (λ o. IfSome o (λ asked. AreAskedSiblings (graph_in graph.now) items.now asked)) }
    ensures never { IfOk result (λ o. IfNone o (AreOrdersOf (graph_in graph.now) items.now [])) }
{
    let pairs = asked_pairs(alloc, graph, numbers)?;
    siblings_by(alloc, items, &pairs)
}

/// The same, by the pairs of items of which the first must stand to the left of the second; none where the
/// items are not within the limits of programs, or an item must stand to the left of one under which it stands.
fn siblings_by(
    alloc: Global,
    items: &[Item],
    pairs: &[(usize, usize)],
) -> Result<Option<Rows>, NoMemory>
    requires slots { AreSlots items.now }
    requires within { (s t : ℕ) → Contains pairs.now (s, t) → (s < length items.now) × (t < length items.now) }
    ensures limits { IfOk result (λ o. IfSome o (λ _. IsWithinLimits items.now)) }
    ensures lifted { IfOk result (λ o. IfSome o (λ asked. AreLifted items.now pairs.now asked)) }
    ensures never { IfOk result (λ o. IfNone o (IsWithinLimits items.now → (s t : ℕ) × Contains pairs.now (s, t)
        × IsBelow items.now t s)) }
{
    let Some(levels) = levels_of(alloc, items)? else {
        return Ok(None);
    };
    lifted_pairs(alloc, items, &levels, pairs)
}

/// For each item the siblings that must come before it; none where an item must stand to the left of one
/// under which it stands.
fn lifted_pairs(
    alloc: Global,
    items: &[Item],
    levels: &[usize],
    pairs: &[(usize, usize)],
) -> Result<Option<Rows>, NoMemory>
    requires slots { AreSlots items.now }
    requires levels { AreLevels items.now levels.now }
    requires within { (s t : ℕ) → Contains pairs.now (s, t) → (s < length items.now) × (t < length items.now) }
    ensures lifted { IfOk result (λ o. IfSome o (λ asked. AreLifted items.now pairs.now asked)) }
    ensures never { IfOk result (λ o. IfNone o ((s t : ℕ) × Contains pairs.now (s, t) × IsBelow items.now t s)) }
{
    let mut latest = no_places(alloc, items.len())?;
    let mut asked = Rows::blank(alloc, items.len())?;
    if push_pairs(items, levels, pairs, &mut latest, &mut asked)? {
        Ok(Some(asked))
    } else {
        Ok(None)
    }
}

/// Adds what the pairs say of siblings; false where an item must stand to the left of one under which it
/// stands. The rows are empty before.
fn push_pairs(
    items: &[Item],
    levels: &[usize],
    pairs: &[(usize, usize)],
    latest: &mut Vec<Option<usize>>,
    asked: &mut Rows,
) -> Result<bool, NoMemory>
    requires slots { AreSlots items.now }
    requires levels { AreLevels items.now levels.now }
    requires within { (s t : ℕ) → Contains pairs.now (s, t) → (s < length items.now) × (t < length items.now) }
    requires latest { AreLatest asked.old latest.old.items }
    requires count { length asked.old ≡ length items.now }
    requires none { (x d : ℕ) → ¬ IsAskedAt asked.old x d }
    ensures lifted { IfOk result (λ whole. IsTrue whole → AreLifted items.now pairs.now asked.new) }
    ensures never { IfOk result (λ whole. whole ≡ false → (s t : ℕ) × Contains pairs.now (s, t)
        × IsBelow items.now t s) }
{
    for (source, target) in pairs {
        match lifted(items, levels, *source, *target) {
            Lift::Always => continue,
            Lift::Never => return Ok(false),
            Lift::Siblings(first, second) => push_sibling(latest, asked, first, second)?,
        }
    }
    Ok(true)
}

/// Adds that the sibling `first` must come before `second`, unless that was the latest said of `first`.
///
/// The pairs come target by target, so this leaves few repeats, and a row is about as long as there are
/// siblings.
fn push_sibling(
    latest: &mut Vec<Option<usize>>,
    asked: &mut Rows,
    first: usize,
    second: usize,
) -> Result<(), NoMemory>
    requires latest { AreLatest asked.old latest.old.items }
    requires first { first < length asked.old }
    requires second { second < length asked.old }
    ensures latest { OnOk result (AreLatest asked.new latest.new.items) }
    ensures count { length asked.new ≡ length asked.old }
    ensures pushed { OnOk result (IsPushed asked.old second first asked.new) }
{
    if latest[first] == Some(second) {
        return Ok(());
    }
    asked.push(second, first)?;
    latest[first] = Some(second);
    Ok(())
}

/// The tables of the items. The rows get what must come before an item by its block.
fn blocks_of(alloc: Global, items: &[Item], asked: &mut Rows) -> Result<Blocks, NoMemory>
    requires slots { AreSlots items.now }
    requires siblings { AreSiblingRows items.now asked.old }
    ensures { IfOk result (λ b. AreTablesOf items.now asked.old b) }
{
    let children = child_rows(alloc, items)?;
    push_first_blocks(items, &children, asked)?;
    let before = lists_of(alloc, asked)?;
    let parents = parents_of(alloc, items)?;
    Ok(Blocks::new(parents, children, before))
}

/// For each item the one under which it stands.
fn parents_of(alloc: Global, items: &[Item]) -> Result<Vec<Option<usize>>, NoMemory>
    ensures count { IfOk result (λ ps. vec_len ps ≡ length items.now) }
    ensures parents { IfOk result (λ ps. (k : ℕ) → k < length items.now
        → slice_get ps.items k ≡ Some (parent_in items.now k)) }
{
    let mut parents = Vec::new(alloc);
    for item in 0..items.len() {
        parents.push(parent_of(items, item))?;
    }
    Ok(parents)
}

/// For each item those that stand under it.
fn child_rows(alloc: Global, items: &[Item]) -> Result<Vec<Vec<usize>>, NoMemory>
    requires { AreSlots items.now }
    ensures { IfOk result (λ rows. AreChildRows items.now rows.items) }
{
    let children = children_of(alloc, items)?;
    lists_of(alloc, &children)
}

/// The same as rows.
fn children_of(alloc: Global, items: &[Item]) -> Result<Rows, NoMemory>
    requires { AreSlots items.now }
    ensures count { IfOk result (λ rows. length rows ≡ length items.now) }
    ensures children { IfOk result (λ rows. (k x : ℕ) → Contains (numbers_at rows k) x
        ↔ ((x < length items.now) × (parent_in items.now x ≡ Some k))) }
{
    let mut rows = Rows::blank(alloc, items.len())?;
    for child in 0..items.len() {
        let Some(parent) = parent_of(items, child) else {
            continue;
        };
        rows.push(parent, child)?;
    }
    Ok(rows)
}

/// The rows as lists.
fn lists_of(alloc: Global, rows: &Rows) -> Result<Vec<Vec<usize>>, NoMemory>
    ensures { IfOk result (λ lists. AreListed rows.now lists.items) }
{
    let mut lists = Vec::new(alloc);
    for at in 0..rows.point_count() {
        lists.push(list_of(alloc, rows, at)?)?;
    }
    Ok(lists)
}

/// A row as a list.
fn list_of(alloc: Global, rows: &Rows, at: usize) -> Result<Vec<usize>, NoMemory>
    requires { at < length rows.now }
    ensures { IfOk result (λ list. list.items ≡ numbers_at rows.now at) }
{
    let mut list = Vec::new(alloc);
    rows.push_steps(at, &mut list)?;
    Ok(list)
}

/// Adds to the row of each item of a second block the items of the first block.
fn push_first_blocks(
    items: &[Item],
    children: &[Vec<usize>],
    before: &mut Rows,
) -> Result<(), NoMemory>
    requires slots { AreSlots items.now }
    requires children { AreChildRows items.now children.now }
    requires count { length before.old ≡ length items.now }
    ensures count { length before.new ≡ length before.old }
    ensures rows { OnOk result (AreWithFirst items.now (length items.now) before.old before.new) }
{
    for item in 0..items.len() {
        let Some(part) = second_of(items[item].slot) else {
            continue;
        };
        push_first_block(items, &children[part], item, before)?;
    }
    Ok(())
}

/// Adds to the row of an item of a second block the items of the first block, among these.
fn push_first_block(
    items: &[Item],
    siblings: &[usize],
    item: usize,
    before: &mut Rows,
) -> Result<(), NoMemory>
    requires siblings { All (λ d. d < length items.now) siblings.now }
    requires item { item < length items.now }
    requires count { length before.old ≡ length items.now }
    ensures count { length before.new ≡ length before.old }
    ensures rows { OnOk result ((x d : ℕ) → Contains (numbers_at before.new x) d
        ↔ (Contains (numbers_at before.old x) d
        ⊎ ((x ≡ item) × Contains siblings.now d × IsFirstOf (slot_at items.now d) (slot_at items.now item)))) }
{
    for other in siblings {
        if !stands_first(items[*other].slot, items[item].slot) {
            continue;
        }
        before.push(item, *other)?;
    }
    Ok(())
}

/// The item whose second block the slot is, if it is one.
fn second_of(slot: Option<(usize, bool)>) -> Option<usize>
    ensures some { IfSome result (λ part. slot ≡ Some (part, false)) }
    ensures none { IfNone result ((part : ℕ) → ¬ (slot ≡ Some (part, false))) }
{
    match slot {
        Some((part, false)) => Some(part),
        _ => None,
    }
}

/// Whether the first slot is the first block, and the second slot the second block, of one item.
fn stands_first(first: Option<(usize, bool)>, second: Option<(usize, bool)>) -> bool
    ensures { IsTrue result ↔ IsFirstOf first second }
{
    match (first, second) {
        (Some((a, true)), Some((b, false))) => a == b,
        _ => false,
    }
}
