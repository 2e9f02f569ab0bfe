//! The rank of the parts of a base and its variants.
ghost use Rattle.std.specs.Prelude.{◌≡◌, ◌≤◌, ◌∷◌, [], IfOk, length};
ghost use Rattle.hpr_graph.specs.Graphs.{IsOnce};
ghost use Rattle.hpr_graph.specs.Rank.{parts_of, IsJoined, AreJoined, IsFirstChanged, IsRank, IsRankOf};

use crate::joining::join;
use crate::preorder::parts;
use hpr_graph::{NoMemory, Vertex};
use hpr_syntax::Program;
use std::alloc::Global;

/// The parts of three programs in the order of their rank: A's parts in preorder, then those of B that
/// aren't listed, from B's end on each right before the one that follows it in B's preorder, or at the
/// end; then so those of the base. Where A is the base, A and B change places. Each part comes once: a
/// part whose content changed under a kept tag is another one.
///
/// Looks each part up by hash, at most twice; linear. Horwitz, Prins and Reps 1989 have no rank.
pub fn rank(
    alloc: Global,
    a: &Program,
    b: &Program,
    base: &Program,
) -> Result<Vec<Vertex>, NoMemory>
    ensures { IfOk result (λ v. IsRank a.now b.now base.now v.items) }
{
    if a.is_same(base) {
        rank_of(alloc, b, a, base)
    } else {
        rank_of(alloc, a, b, base)
    }
}

/// The parts of a base and of any number of its variants in the order of their rank: the parts of the first
/// variant that isn't the base in preorder (where each is the base, those of the last, which are the same);
/// then those of each variant in turn that aren't listed, from its end on each right before the one that
/// follows it in the variant's preorder, or at the end; then so those of the base. Each part comes once: a
/// part whose content changed under a kept tag is another one. There is at least one variant, and no limit on
/// their number; of two it is [`rank`].
///
/// Refuses for want of memory alone. For each variant, and for the base, looks each of its parts and each
/// part listed so far up by hash once. Horwitz, Prins and Reps 1989 have no rank.
pub fn rank_of_all(
    alloc: Global,
    base: &Program,
    variants: &[Program],
) -> Result<Vec<Vertex>, NoMemory>
    requires { 1 ≤ length variants.now }
    ensures { IfOk result (λ v. IsRankOf base.now variants.now v.items) }
{
    let mut list = parts_once(alloc, first_changed(base, variants))?;
    for variant in variants {
        list = join_program(alloc, list, variant)?;
    }
    join_program(alloc, list, base)
}

/// The first of the variants that isn't the base; the last where each is.
fn first_changed<'a>(base: &Program, variants: &'a [Program]) -> &'a Program
    requires { 1 ≤ length variants.now }
    ensures { IsFirstChanged base.now variants.now result.now }
{
    for variant in variants {
        if !variant.is_same(base) {
            return variant;
        }
    }
    &variants[variants.len() - 1]
}

/// The first program's parts in preorder, with those of the two others put in.
fn rank_of(
    alloc: Global,
    first: &Program,
    second: &Program,
    base: &Program,
) -> Result<Vec<Vertex>, NoMemory>
    ensures { IfOk result (λ v. AreJoined (parts_of second.now ∷ parts_of base.now ∷ []) (parts_of first.now) v.items) }
{
    let list = parts_once(alloc, first)?;
    let list = join_program(alloc, list, second)?;
    join_program(alloc, list, base)
}

/// Puts in what the list lacks of the parts of a program.
fn join_program(
    alloc: Global,
    list: Vec<Vertex>,
    program: &Program,
) -> Result<Vec<Vertex>, NoMemory>
    requires { IsOnce list.items }
    ensures joined { IfOk result (λ v. IsJoined (parts_of program.now) list.items v.items) }
    ensures once { IfOk result (λ v. IsOnce v.items) }
{
    let parts = parts_once(alloc, program)?;
    join(alloc, list, parts)
}

/// The parts of a program in preorder, each of which stands once.
fn parts_once(alloc: Global, program: &Program) -> Result<Vec<Vertex>, NoMemory>
    ensures parts { IfOk result (λ v. v.items ≡ parts_of program.now) }
    ensures once { IfOk result (λ v. IsOnce v.items) }
{
    let _body = program.body();
    parts(alloc, program)
}
