//! The order between definitions of one name.
ghost use Rattle.std.specs.Prelude.{◌≡◌, ℕ, ◌<◌, ◌≤◌, ◌↔◌, ◌⊎◌, Some, length, slice_index, All, Contains};
ghost use Rattle.std.specs.Prelude.{OnOk, IfOk, IfSome, IfNone};
ghost use Rattle.std.specs.List.{slice_get};
ghost use Rattle.std.specs.List.Sorted.{IsStrictlyIncreasing};
ghost use Rattle.hpr_build.specs.declared.orders.Ordered.{Ordered};
ghost use Rattle.hpr_graph.specs.Graphs.{IsOnce};
ghost use Rattle.hpr_build.specs.Places.{others_at, IsAmong};
ghost use Rattle.hpr_build.specs.Orders.{IsBefore};

use crate::places::{Place, Span};
use hpr_terms::NoMemory;
use std::alloc::Global;

/// Two definitions, the left one first.
#[derive(Clone, Copy)]
pub(crate) struct Ordered {
    pub(crate) left: usize,
    pub(crate) right: usize,
}

/// The end of one of the spans that have the point, if one has it.
fn end_around(spans: &[Span], point: usize) -> Option<usize>
    ensures some { IfSome result (λ end. (s : Span) × Contains spans.now s × (s.from ≤ point) × (point < s.to)
        × (s.to ≡ end)) }
    ensures none { IfNone result (¬ IsAmong spans.now point) }
{
    for span in spans {
        if span.from <= point && point < span.to {
            return Some(span.to);
        }
    }
    None
}

/// The place of the first of the numbers, which ascend, that isn't below the bound.
fn place_from(numbers: &[usize], bound: usize) -> usize
    requires { IsStrictlyIncreasing numbers.now }
    ensures within { result ≤ length numbers.now }
    ensures below { (k : ℕ) → k < result → slice_index numbers.now k < bound }
    ensures above { (k : ℕ) → result ≤ k → k < length numbers.now → bound ≤ slice_index numbers.now k }
{
    match numbers.binary_search(&bound) {
        Ok(at) => at,
        Err(at) => at,
    }
}

/// The place of the first of the points, which ascend, from this place on that is in none of the spans. Passes over all
/// points in a span at once.
fn place_outside(spans: &[Span], points: &[usize], start: usize) -> usize
    requires points { IsStrictlyIncreasing points.now }
    requires start { start ≤ length points.now }
    ensures from { start ≤ result }
    ensures within { result ≤ length points.now }
    ensures passed { (k : ℕ) → start ≤ k → k < result → IsAmong spans.now (slice_index points.now k) }
    ensures here { result < length points.now → ¬ IsAmong spans.now (slice_index points.now result) }
{
    let mut at = start;
    while at < points.len() {
        match end_around(spans, points[at]) {
            Some(end) => at = place_from(points, end),
            None => return at,
        }
    }
    at
}

/// The second branches of the conditionals that have the part in their first.
fn others_of(places: &[Place], part: usize) -> &[Span]
    requires first { 0 < part }
    requires last { part ≤ length places.now }
    ensures { result.now ≡ others_at places.now part }
{
    let place = &places[part - 1];
    &place.others
}

/// Puts the pairs with this left definition, which stands at this place, behind the others. Looks at no pair that
/// conditionals have in different branches.
fn push_after(
    places: &[Place],
    definitions: &[usize],
    left: usize,
    at: usize,
    into: &mut Vec<Ordered>,
) -> Result<(), NoMemory>
    requires definitions { IsStrictlyIncreasing definitions.now }
    requires at { slice_get definitions.now at ≡ Some left }
    requires first { 0 < left }
    requires last { left ≤ length places.now }
    ensures exact { OnOk result ((o : Ordered) → Contains into.new.items o
        ↔ (Contains into.old.items o ⊎ ((o.left ≡ left) × Contains definitions.now o.right
        × IsBefore places.now left o.right))) }
    ensures once { OnOk result (IsOnce into.old.items
        → ((o : Ordered) → Contains into.old.items o → o.left ≡ left → ⊥) → IsOnce into.new.items) }
{
    let others = others_of(places, left);
    let mut next = place_outside(others, definitions, at + 1);
    while next < definitions.len() {
        into.push(Ordered {
            left,
            right: definitions[next],
        })?;
        next = place_outside(others, definitions, next + 1);
    }
    Ok(())
}

/// The pairs of definitions of one name between which the order matters to a use that both flow to:
/// the left one stands to the left, and no conditional has them in different branches (the
/// def-order edges of Horwitz, Prins and Reps 1989).
///
/// The definitions are points of parts, ascending. Takes time for each pair, and for each definition and each
/// conditional that has it in its first branch.
pub(crate) fn order_of(
    alloc: Global,
    places: &[Place],
    definitions: &[usize],
) -> Result<Vec<Ordered>, NoMemory>
    requires ascending { IsStrictlyIncreasing definitions.now }
    requires parts { All (λ p. (0 < p) × (p ≤ length places.now)) definitions.now }
    ensures exact { IfOk result (λ pairs. (o : Ordered) → Contains pairs.items o
        ↔ (Contains definitions.now o.left × Contains definitions.now o.right × IsBefore places.now o.left o.right)) }
    ensures once { IfOk result (λ pairs. IsOnce pairs.items) }
{
    let mut pairs = Vec::new(alloc);
    for (at, left) in definitions.iter().enumerate() {
        push_after(places, definitions, *left, at, &mut pairs)?;
    }
    Ok(pairs)
}
