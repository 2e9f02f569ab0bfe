//! Links by the numbers that their vertices have in another graph, links whose vertices are marked, and lists
//! of links that ascend.
ghost use Rattle.std.specs.Prelude.{◌≡◌, ◌↔◌, Some, Contains, IsTrue, slice_get};
ghost use Rattle.std.specs.List.Sorted.{IsSorted};
ghost use Rattle.hpr_graph.specs.declared.link.Link.{Link};
ghost use Rattle.hpr_graph.specs.Inside.{IsInside};
ghost use Rattle.hpr_graph.specs.Moves.{moved, moved_kind, number_at};

use crate::{Link, LinkKind};
use hpr_search::is_marked;

/// The number there of the vertex with the number `at`, or none where it has none there. The definitions
/// know vertices, and no numbers.
pub fn number_at(numbers: &[Option<usize>], at: usize) -> Option<usize>
    ensures { result ≡ number_at numbers.now at }
{
    if at < numbers.len() {
        numbers[at]
    } else {
        None
    }
}

/// The link by the numbers there, or none where one of its vertices has none there.
pub fn moved(link: Link, numbers: &[Option<usize>]) -> Option<Link>
    ensures { result ≡ moved numbers.now link }
{
    let from = number_at(numbers, link.from)?;
    let kind = moved_kind(link.kind, numbers)?;
    Some(Link { from, kind })
}

fn moved_kind(kind: LinkKind, numbers: &[Option<usize>]) -> Option<LinkKind>
    ensures { result ≡ moved_kind numbers.now kind }
{
    match kind {
        LinkKind::Control(label) => Some(LinkKind::Control(label)),
        LinkKind::Independent => Some(LinkKind::Independent),
        LinkKind::Carried(w) => Some(LinkKind::Carried(number_at(numbers, w)?)),
        LinkKind::Order(u) => Some(LinkKind::Order(number_at(numbers, u)?)),
    }
}

/// Whether the source of the link is marked, and its loop or shared use too.
pub fn is_inside(link: Link, marks: &[bool]) -> bool
    ensures { IsTrue result ↔ IsInside marks.now link }
{
    if !is_marked(marks, link.from) {
        return false;
    }
    match link.kind {
        LinkKind::Control(_) | LinkKind::Independent => true,
        LinkKind::Carried(w) => is_marked(marks, w),
        LinkKind::Order(u) => is_marked(marks, u),
    }
}

/// Whether the link is one of these, which ascend. It is looked for first at the place `next`, which then
/// is the place behind it, wherever `next` was: so links that are asked for in their order take a look each.
pub fn has_sorted(links: &[Link], link: Link, next: &mut usize) -> bool
    requires { IsSorted ⟦<Link as Ord>⟧.cmp links.now }
    ensures { IsTrue result ↔ Contains links.now link }
{
    if is_at(links, *next, link) {
        *next += 1;
        return true;
    }
    match links.binary_search(&link) {
        Ok(at) => {
            *next = at + 1;
            true
        }
        Err(_) => false,
    }
}

/// Whether the link stands at this place.
fn is_at(links: &[Link], at: usize, link: Link) -> bool
    ensures { IsTrue result ↔ (slice_get links.now at ≡ Some link) }
{
    match links.get(at) {
        Some(there) => *there == link,
        None => false,
    }
}
