//! What the order that is asked of two items says of the siblings under which they stand.
ghost use Rattle.std.specs.Prelude.{◌≡◌, ℕ, ◌<◌, ◌≤◌, length, slice_get, Some, IfSome, IfNone, get_or};
ghost use Rattle.hpr_order.specs.Items.{AreSlots, slot_at};
ghost use Rattle.hpr_order.specs.Lifting.{AreLevels, IsUnder, IsLift, IsPairOver, level_of, parent_in};

use crate::item::Item;

/// What must be so where one item must stand to the left of another.
#[derive(Clone, Copy)]
pub enum Lift {
    /// It always is: the one is the other, or the other stands under it.
    Always,
    /// It never is: the one stands under the other.
    Never,
    /// The first sibling must come before the second.
    Siblings(usize, usize),
}

/// The item under which the item stands.
pub(crate) fn parent_of(items: &[Item], item: usize) -> Option<usize>
    requires { item < length items.now }
    ensures { result ≡ parent_in items.now item }
{
    let (parent, _) = items[item].slot?;
    Some(parent)
}

/// The item of this level under which the item stands, or the item itself.
fn climbed(items: &[Item], levels: &[usize], item: usize, level: usize) -> usize
    requires slots { AreSlots items.now }
    requires levels { AreLevels items.now levels.now }
    requires item { item < length items.now }
    requires level { level ≤ level_of levels.now item }
    ensures within { result < length items.now }
    ensures level { level_of levels.now result ≡ level }
    ensures under { IsUnder items.now result item }
{
    let mut at = item;
    'climb: while levels[at] > level {
        match parent_of(items, at) {
            Some(parent) => at = parent,
            None => unreachable!(),
        }
    }
    at
}

/// The siblings under which two different items of one level stand.
fn siblings(items: &[Item], levels: &[usize], first: usize, second: usize) -> (usize, usize)
    requires slots { AreSlots items.now }
    requires levels { AreLevels items.now levels.now }
    requires first { first < length items.now }
    requires second { second < length items.now }
    requires level { level_of levels.now first ≡ level_of levels.now second }
    requires differ { ¬ (first ≡ second) }
    ensures { IsPairOver items.now result.0 result.1 first second }
{
    let mut a = first;
    let mut b = second;
    'climb: while parent_of(items, a) != parent_of(items, b) {
        match (parent_of(items, a), parent_of(items, b)) {
            (Some(over_a), Some(over_b)) => {
                a = over_a;
                b = over_b;
            }
            _ => unreachable!(),
        }
    }
    (a, b)
}

/// What must be so where the item `source` must stand to the left of `target`.
pub(crate) fn lifted(items: &[Item], levels: &[usize], source: usize, target: usize) -> Lift
    requires slots { AreSlots items.now }
    requires levels { AreLevels items.now levels.now }
    requires source { source < length items.now }
    requires target { target < length items.now }
    ensures { IsLift items.now source target result }
{
    if levels[source] < levels[target] {
        let over = climbed(items, levels, target, levels[source]);
        if over == source {
            return Lift::Always;
        }
        let (first, second) = siblings(items, levels, source, over);
        return Lift::Siblings(first, second);
    }
    let over = climbed(items, levels, source, levels[target]);
    if over == target {
        return if source == target {
            Lift::Always
        } else {
            Lift::Never
        };
    }
    let (first, second) = siblings(items, levels, over, target);
    Lift::Siblings(first, second)
}
