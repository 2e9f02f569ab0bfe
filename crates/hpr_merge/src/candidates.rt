//! Which links may be added to slices, whatever the point.
ghost use Rattle.std.specs.Prelude.{◌≡◌, ◌↔◌, ◌⊎◌, ℕ, Contains, IfOk, IsTrue, OnOk};
ghost use Rattle.std.specs.List.Sorted.{IsSorted};
ghost use Rattle.hpr_graph.specs.declared.link.Link.{Link};
ghost use Rattle.hpr_slice.specs.Neighbours.{Follows, follows};
ghost use Rattle.hpr_merge.specs.Added.{IsFirst};
ghost use Rattle.hpr_merge.specs.Candidates.{AreCandidates, AreNewSources, HasFollowed, IsNewFrom, IsSettled};
ghost use Rattle.hpr_merge.specs.Candidates.{KeepsSteps, MayBeNew, with_first};

use hpr_graph::links::has_sorted;
use hpr_graph::{Graph, Link, LinkKind, NoMemory};
use hpr_search::is_marked;
use std::alloc::Global;

/// Whether the merged graph has each of the variant's control and flow edges into a marked vertex. Both have
/// the same vertices by the same numbers. Looks each such edge up once.
pub(crate) fn keeps_steps(merged: &Graph, variant: &Graph, near: &[bool]) -> bool
    requires { variant.now.vertices ≡ merged.now.vertices }
    ensures { IsTrue result ↔ KeepsSteps merged.now variant.now near.now }
{
    for to in 0..variant.vertices().len() {
        if is_marked(near, to) && !has_followed(variant.edges_into(to), merged.edges_into(to)) {
            return false;
        }
    }
    true
}

/// Whether the known links, which are sorted, have each of the links that a slice follows.
fn has_followed(links: &[Link], known: &[Link]) -> bool
    requires { IsSorted ⟦<Link as Ord>⟧.cmp known.now }
    ensures { IsTrue result ↔ HasFollowed links.now known.now }
{
    let mut next = 0;
    for link in links {
        if is_followed(link.kind) && !has_sorted(known, *link, &mut next) {
            return false;
        }
    }
    true
}

/// Whether a slice follows links of this kind.
pub(crate) fn is_followed(kind: LinkKind) -> bool
    ensures { result ≡ follows kind }
{
    match kind {
        LinkKind::Order(_) => false,
        _ => true,
    }
}

/// The sources of the merged graph's control and flow edges into a marked vertex that the variant lacks; one
/// may stand more than once. Looks each control and flow edge into a marked vertex up once.
pub(crate) fn new_sources(
    alloc: Global,
    merged: &Graph,
    variant: &Graph,
    near: &[bool],
) -> Result<Vec<usize>, NoMemory>
    requires { variant.now.vertices ≡ merged.now.vertices }
    ensures { IfOk result (λ sources. AreNewSources merged.now variant.now near.now sources.items) }
{
    let _vertices = variant.vertices();
    let mut sources = Vec::new(alloc);
    for to in 0..merged.vertices().len() {
        if is_marked(near, to) {
            push_new(merged.edges_into(to), variant.edges_into(to), &mut sources)?;
        }
    }
    Ok(sources)
}

/// Puts the sources of those of the links that a slice follows and that aren't known behind the others. The
/// known ones are sorted.
fn push_new(links: &[Link], known: &[Link], into: &mut Vec<usize>) -> Result<(), NoMemory>
    requires { IsSorted ⟦<Link as Ord>⟧.cmp known.now }
    ensures kept { OnOk result ((s : ℕ) → Contains into.old.items s → Contains into.new.items s) }
    ensures only { OnOk result ((s : ℕ) → Contains into.new.items s
        → Contains into.old.items s ⊎ IsNewFrom links.now known.now s) }
    ensures all { OnOk result ((l : Link) → Contains links.now l → Follows l.kind
        → Contains known.now l ⊎ Contains into.new.items l.from) }
{
    let mut next = 0;
    for link in links {
        if is_followed(link.kind) && !has_sorted(known, *link, &mut next) {
            into.push(link.from)?;
        }
    }
    Ok(())
}

/// For each marked vertex the first link into it in the merged graph that may be added to slices of the
/// variant, if there is one, with the vertex; these ascend. Looks each link into a marked vertex up at most
/// once.
pub(crate) fn candidates(
    alloc: Global,
    merged: &Graph,
    variant: &Graph,
    near: &[bool],
    far: &[bool],
) -> Result<Vec<(usize, Link)>, NoMemory>
    requires { variant.now.vertices ≡ merged.now.vertices }
    ensures { IfOk result (λ links. AreCandidates merged.now variant.now near.now far.now links.items) }
{
    let _vertices = variant.vertices();
    let mut found = Vec::new(alloc);
    for to in 0..merged.vertices().len() {
        if is_marked(near, to) {
            let first = first_new(merged.edges_into(to), variant.edges_into(to), far);
            push_first(to, first, &mut found)?;
        }
    }
    Ok(found)
}

/// Puts the link with its target behind the others, if there is one.
fn push_first(to: usize, first: Option<Link>, into: &mut Vec<(usize, Link)>) -> Result<(), NoMemory>
    ensures { OnOk result (into.new.items ≡ with_first to first into.old.items) }
{
    if let Some(link) = first {
        into.push((to, link))?;
    }
    Ok(())
}

/// The first of the links that isn't known or not settled. The known ones are sorted.
fn first_new(links: &[Link], known: &[Link], far: &[bool]) -> Option<Link>
    requires { IsSorted ⟦<Link as Ord>⟧.cmp known.now }
    ensures { IsFirst (MayBeNew known.now far.now) links.now result }
{
    let mut next = 0;
    for link in links {
        if !has_sorted(known, *link, &mut next) || !is_settled(*link, far) {
            return Some(*link);
        }
    }
    None
}

/// Whether a slice follows the link, or neither its source nor its shared use is marked.
fn is_settled(link: Link, far: &[bool]) -> bool
    ensures { IsTrue result ↔ IsSettled far.now link.from link.kind }
{
    match link.kind {
        LinkKind::Order(u) => !is_marked(far, link.from) && !is_marked(far, u),
        _ => true,
    }
}
