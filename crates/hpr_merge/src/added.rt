//! The least links that slices got, of up to 64 slices at once: each bit of a word stands for one of them.
ghost use Rattle.std.specs.Prelude.{◌≡◌, ◌↔◌, ◌<◌, ◌≤◌, ℕ, Some, None, Option, IfOk};
ghost use Rattle.std.specs.Prelude.{length, replicate, slice_get, slice_index};
ghost use Rattle.std.specs.List.Sorted.{IsSorted};
ghost use Rattle.hpr_graph.specs.Inside.{IsInside};
ghost use Rattle.hpr_graph.specs.Numbered.{row_of};
ghost use Rattle.hpr_merge.specs.Added.{AddedEach, ArePast, IsFirstAdded, MoreEach};
ghost use Rattle.hpr_merge.specs.Words.{HasBit, column};

use hpr_graph::links::has_sorted;
use hpr_graph::{Graph, Link, LinkKind, NoMemory};
use std::alloc::Global;

/// The first link that the merged graph adds to each of so many slices, with the number of its target, by
/// the words of the slices in both graphs. Both have the same vertices by the same numbers. Looks at each
/// edge into a vertex of the own slices once, and looks it up among the own links there.
pub(crate) fn first_added(
    alloc: Global,
    merged: &Graph,
    variant: &Graph,
    grown: &[u64],
    own: &[u64],
    count: usize,
) -> Result<Vec<Option<(usize, Link)>>, NoMemory>
    requires vertices { variant.now.vertices ≡ merged.now.vertices }
    requires few { count ≤ 64 }
    ensures count { IfOk result (λ firsts. length firsts.items ≡ count) }
    ensures each { IfOk result (λ firsts. (i : ℕ) (o : Option (ℕ × Link)) → slice_get firsts.items i ≡ Some o
        → IsFirstAdded merged.now variant.now (column grown.now i) (column own.now i) o) }
{
    let mut firsts = no_firsts(alloc, count)?;
    let mut waiting = u64::MAX;
    for to in 0..merged.vertices().len() {
        waiting = past_vertex(merged, variant, grown, own, to, waiting, &mut firsts);
    }
    Ok(firsts)
}

/// So many slices, of none of which a link is known.
pub(crate) fn no_firsts(alloc: Global, count: usize) -> Result<Vec<Option<(usize, Link)>>, NoMemory>
    ensures { IfOk result (λ firsts. firsts.items ≡ replicate count None) }
{
    let mut firsts = Vec::with_capacity(alloc, count)?;
    for _ in 0..count {
        firsts.push(None)?;
    }
    Ok(firsts)
}

/// Puts the first link into the vertex `to` that is added to each slice that waits, where there is one, and says
/// which slices wait on.
fn past_vertex(
    merged: &Graph,
    variant: &Graph,
    grown: &[u64],
    own: &[u64],
    to: usize,
    waiting: u64,
    firsts: &mut Vec<Option<(usize, Link)>>,
) -> u64
    requires to { to < length merged.now.vertices }
    requires vertices { variant.now.vertices ≡ merged.now.vertices }
    requires few { length firsts.old.items ≤ 64 }
    ensures count { length firsts.new.items ≡ length firsts.old.items }
    ensures past { (i : ℕ) → i < length firsts.old.items → ArePast (AddedEach variant.now grown.now own.now to)
        (row_of merged.now to) to waiting result firsts.old.items firsts.new.items i }
{
    let here = waiting & word_at(grown, to) & word_at(own, to);
    if here == 0 {
        return waiting;
    }
    let links = merged.edges_into(to);
    let own_links = variant.edges_into(to);
    let left = past_links(links, own_links, grown, own, to, here, firsts);
    (waiting & !here) | left
}

/// Puts the first of the links into the vertex `to` that is more than the own links, which are sorted, for
/// each slice that waits, where there is one, and says which slices wait on.
fn past_links(
    links: &[Link],
    own_links: &[Link],
    grown: &[u64],
    own: &[u64],
    to: usize,
    waiting: u64,
    firsts: &mut Vec<Option<(usize, Link)>>,
) -> u64
    requires sorted { IsSorted ⟦<Link as Ord>⟧.cmp own_links.now }
    requires few { length firsts.old.items ≤ 64 }
    ensures count { length firsts.new.items ≡ length firsts.old.items }
    ensures past { (i : ℕ) → i < length firsts.old.items → ArePast (MoreEach grown.now own.now own_links.now)
        links.now to waiting result firsts.old.items firsts.new.items i }
{
    let mut next = 0;
    let mut left = waiting;
    for link in links {
        if left == 0 {
            return left;
        }
        let more = more_word(*link, own_links, grown, own, left, &mut next);
        left = past_link(*link, to, more, left, firsts);
    }
    left
}

/// Puts the link into the vertex `to` for each slice whose bit is set in `more`, and says which wait on.
fn past_link(
    link: Link,
    to: usize,
    more: u64,
    waiting: u64,
    firsts: &mut Vec<Option<(usize, Link)>>,
) -> u64
    requires few { length firsts.old.items ≤ 64 }
    ensures count { length firsts.new.items ≡ length firsts.old.items }
    ensures kept { (i : ℕ) → ¬ HasBit more i → slice_get firsts.new.items i ≡ slice_get firsts.old.items i }
    ensures put { (i : ℕ) → i < length firsts.old.items → HasBit more i
        → slice_get firsts.new.items i ≡ Some (Some (to, link)) }
    ensures left { (i : ℕ) → i < 64 → HasBit result i ↔ (HasBit waiting i × ¬ HasBit more i) }
{
    if more != 0 {
        put_first((to, link), more, firsts);
    }
    waiting & !more
}

/// Puts the link with its target for each slice whose bit is set.
fn put_first(first: (usize, Link), bits: u64, firsts: &mut Vec<Option<(usize, Link)>>)
    requires few { length firsts.old.items ≤ 64 }
    ensures count { length firsts.new.items ≡ length firsts.old.items }
    ensures kept { (i : ℕ) → ¬ HasBit bits i → slice_get firsts.new.items i ≡ slice_get firsts.old.items i }
    ensures put { (i : ℕ) → i < length firsts.old.items → HasBit bits i
        → slice_get firsts.new.items i ≡ Some (Some first) }
{
    for at in 0..firsts.len() {
        put_at(first, bits, at, firsts);
    }
}

/// Puts the link with its target for the slice with the number `at`, if its bit is set.
fn put_at(first: (usize, Link), bits: u64, at: usize, firsts: &mut Vec<Option<(usize, Link)>>)
    requires at { at < length firsts.old.items }
    requires few { at < 64 }
    ensures count { length firsts.new.items ≡ length firsts.old.items }
    ensures others { (i : ℕ) → (i ≡ at → ⊥) → slice_get firsts.new.items i ≡ slice_get firsts.old.items i }
    ensures kept { ¬ HasBit bits at → firsts.new.items ≡ firsts.old.items }
    ensures put { HasBit bits at → slice_get firsts.new.items at ≡ Some (Some first) }
{
    if (bits >> at) & 1 == 1 {
        firsts[at] = Some(first);
    }
}

/// In which of the waiting slices the link is inside the grown one, but isn't one of the own links, which are
/// sorted, inside the own one.
fn more_word(
    link: Link,
    own_links: &[Link],
    grown: &[u64],
    own: &[u64],
    waiting: u64,
    next: &mut usize,
) -> u64
    requires { IsSorted ⟦<Link as Ord>⟧.cmp own_links.now }
    ensures { (i : ℕ) → i < 64 → HasBit result i
        ↔ (HasBit waiting i × MoreEach grown.now own.now own_links.now i link) }
{
    let inside = waiting & inside_word(link, grown);
    if inside == 0 {
        return inside;
    }
    if !has_sorted(own_links, link, next) {
        return inside;
    }
    inside & !inside_word(link, own)
}

/// In which slices the source of the link is, and its loop or shared use too.
fn inside_word(link: Link, words: &[u64]) -> u64
    ensures { (i : ℕ) → HasBit result i ↔ IsInside (column words.now i) link }
{
    let source = word_at(words, link.from);
    match link.kind {
        LinkKind::Control(_) | LinkKind::Independent => source,
        LinkKind::Carried(w) => source & word_at(words, w),
        LinkKind::Order(u) => source & word_at(words, u),
    }
}

/// The word of the vertex with this number, without bits where there is none.
fn word_at(words: &[u64], at: usize) -> u64
    ensures { result ≡ slice_index words.now at }
{
    if at < words.len() { words[at] } else { 0 }
}
