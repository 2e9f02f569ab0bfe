//! For each vertex the first of some links from whose target steps lead to it.
ghost use Rattle.std.specs.Prelude.{◌≡◌, ◌↔◌, ◌<◌, ◌∷◌, [], ℕ, All, Contains, IfOk, OnOk, length};
ghost use Rattle.hpr_graph.specs.declared.link.Link.{Link};
ghost use Rattle.hpr_search.specs.Rows.{numbers_at};
ghost use Rattle.hpr_slice.specs.Steps.{AreStepsWithin};
ghost use Rattle.hpr_merge.specs.Firsts.{AreFirstsFrom, ArePut, HasOne, IsClosedUnder, IsPutAt, Leads};

use crate::added::no_firsts;
use hpr_graph::{Link, NoMemory};
use hpr_search::{Digraph, Rows};
use std::alloc::Global;

/// For each of so many vertices a row of those to which a step leads from it.
pub(crate) fn rows_of(
    alloc: Global,
    steps: &[(usize, usize)],
    count: usize,
) -> Result<Rows, NoMemory>
    requires { AreStepsWithin count steps.now }
    ensures count { IfOk result (λ rows. length rows ≡ count) }
    ensures rows { IfOk result (λ rows. (from to : ℕ) → Contains (numbers_at rows from) to
        ↔ Contains steps.now (from, to)) }
{
    let mut rows = Rows::blank(alloc, count)?;
    for step in steps {
        rows.push(step.0, step.1)?;
    }
    Ok(rows)
}

/// For each vertex the first of these links, told with their targets, from whose target steps lead to it, if
/// there is one. Looks at each step once.
pub(crate) fn firsts_from(
    alloc: Global,
    rows: &Rows,
    links: &[(usize, Link)],
) -> Result<Vec<Option<(usize, Link)>>, NoMemory>
    requires { (c : ℕ × Link) → Contains links.now c → c.0 < length rows.now }
    ensures count { IfOk result (λ firsts. length firsts.items ≡ length rows.now) }
    ensures firsts { IfOk result (λ firsts. AreFirstsFrom (numbers_at rows.now) links.now firsts.items) }
{
    let mut firsts = no_firsts(alloc, rows.point_count())?;
    for link in links {
        put_from(alloc, rows, *link, &mut firsts)?;
    }
    Ok(firsts)
}

/// Puts the link at each vertex to which steps lead from its target and that has none. From those that have
/// one, steps lead only to such.
fn put_from(
    alloc: Global,
    rows: &Rows,
    link: (usize, Link),
    firsts: &mut Vec<Option<(usize, Link)>>,
) -> Result<(), NoMemory>
    requires target { link.0 < length rows.now }
    requires count { length firsts.old.items ≡ length rows.now }
    requires closed { IsClosedUnder (numbers_at rows.now) firsts.old.items }
    ensures put { OnOk result (IsPutAt (Leads (numbers_at rows.now) link.0) link
        firsts.old.items firsts.new.items) }
    ensures closed { OnOk result (IsClosedUnder (numbers_at rows.now) firsts.new.items) }
    ensures there { OnOk result (HasOne firsts.new.items link.0) }
{
    let mut waiting = Vec::new(alloc);
    let mut steps = Vec::new(alloc);
    put_one(link, link.0, firsts, &mut waiting)?;
    while let Some(point) = waiting.pop() {
        steps.clear();
        rows.push_steps(point, &mut steps)?;
        put_all(link, &steps, firsts, &mut waiting)?;
    }
    Ok(())
}

/// Puts the link at those of the points that have none, and these behind the waiting ones.
fn put_all(
    link: (usize, Link),
    points: &[usize],
    firsts: &mut Vec<Option<(usize, Link)>>,
    waiting: &mut Vec<usize>,
) -> Result<(), NoMemory>
    requires { All (λ p. p < length firsts.old.items) points.now }
    ensures { OnOk result (ArePut points.now link firsts.old.items firsts.new.items
        waiting.old.items waiting.new.items) }
{
    for point in points {
        put_one(link, *point, firsts, waiting)?;
    }
    Ok(())
}

/// Puts the link at the point, if it has none, and the point then behind the waiting ones.
fn put_one(
    link: (usize, Link),
    point: usize,
    firsts: &mut Vec<Option<(usize, Link)>>,
    waiting: &mut Vec<usize>,
) -> Result<(), NoMemory>
    requires { point < length firsts.old.items }
    ensures { OnOk result (ArePut (point ∷ []) link firsts.old.items firsts.new.items
        waiting.old.items waiting.new.items) }
{
    if firsts[point].is_some() {
        return Ok(());
    }
    firsts[point] = Some(link);
    waiting.push(point)?;
    Ok(())
}
