//! Which least links are known, and which are found otherwise.
ghost use Rattle.std.specs.Prelude.{◌≡◌, ◌↔◌, ◌<◌, ℕ, Option, Some, All, Contains, IfOk, IsSome, IsTrue};
ghost use Rattle.std.specs.Prelude.{length, slice_get};
ghost use Rattle.std.specs.Ordering.{nat_cmp};
ghost use Rattle.hpr_graph.specs.declared.link.Link.{Link};
ghost use Rattle.hpr_graph.specs.InOrder.{Ascends};
ghost use Rattle.hpr_merge.specs.Known.{AreUnknown, IsKnown, IsLinkOf};

use crate::candidates::is_followed;
use hpr_graph::{Link, NoMemory};
use std::alloc::Global;

/// Those of the numbers, which ascend, at which the least link isn't known.
pub(crate) fn unknown_numbers(
    alloc: Global,
    numbers: &[usize],
    firsts: &[Option<(usize, Link)>],
) -> Result<Vec<usize>, NoMemory>
    requires numbers { Ascends nat_cmp numbers.now }
    requires within { All (λ n. n < length firsts.now) numbers.now }
    ensures { IfOk result (λ ns. AreUnknown numbers.now firsts.now ns.items) }
{
    let mut unknown = Vec::new(alloc);
    for number in numbers {
        if !is_known(firsts[*number]) {
            unknown.push(*number)?;
        }
    }
    Ok(unknown)
}

/// Whether the first link that may be added is the least one: there is none, or a slice follows it.
fn is_known(first: Option<(usize, Link)>) -> bool
    ensures { IsTrue result ↔ IsKnown first }
{
    match first {
        Some((_, link)) => is_followed(link.kind),
        None => true,
    }
}

/// At each of these numbers the link that is known, or else the one found at the unknown ones, which ascend.
pub(crate) fn known_links(
    alloc: Global,
    numbers: &[usize],
    firsts: &[Option<(usize, Link)>],
    unknown: &[usize],
    found: &[Option<(usize, Link)>],
) -> Result<Vec<Option<(usize, Link)>>, NoMemory>
    requires within { All (λ n. n < length firsts.now) numbers.now }
    requires unknown { Ascends nat_cmp unknown.now }
    requires count { length found.now ≡ length unknown.now }
    ensures count { IfOk result (λ links. length links.items ≡ length numbers.now) }
    ensures each { IfOk result (λ links. (i n : ℕ) (o : Option (ℕ × Link)) → slice_get numbers.now i ≡ Some n
        → slice_get links.items i ≡ Some o → IsLinkOf firsts.now unknown.now found.now n o) }
{
    let mut links = Vec::with_capacity(alloc, numbers.len())?;
    for number in numbers {
        let link = known_link(firsts[*number], unknown, found, *number);
        links.push(link)?;
    }
    Ok(links)
}

/// The first link, if it is known to be the least one, or else the one found at the number.
fn known_link(
    first: Option<(usize, Link)>,
    unknown: &[usize],
    found: &[Option<(usize, Link)>],
    number: usize,
) -> Option<(usize, Link)>
    requires unknown { Ascends nat_cmp unknown.now }
    requires count { length found.now ≡ length unknown.now }
    ensures known { IsKnown first → result ≡ first }
    ensures found { (i : ℕ) → (¬ IsKnown first) → slice_get unknown.now i ≡ Some number
        → slice_get found.now i ≡ Some result }
{
    if is_known(first) {
        first
    } else {
        link_at(unknown, found, number)
    }
}

/// The link beside the number in these lists, of which that of the numbers ascends, if the number is there.
pub(crate) fn link_at(
    numbers: &[usize],
    links: &[Option<(usize, Link)>],
    number: usize,
) -> Option<(usize, Link)>
    requires numbers { Ascends nat_cmp numbers.now }
    requires count { length links.now ≡ length numbers.now }
    ensures beside { (i : ℕ) → slice_get numbers.now i ≡ Some number → slice_get links.now i ≡ Some result }
    ensures there { IsSome result → Contains numbers.now number }
{
    match numbers.binary_search(&number) {
        Ok(at) => links[at],
        Err(_) => None,
    }
}
