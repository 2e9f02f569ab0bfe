//! Where a program uses names, in the order of the names.
ghost use Rattle.std.specs.Prelude.{◌≡◌, ◌↔◌, ◌⊎◌, ◌++◌, ◌∷◌, ◌+◌, ◌<◌, ◌≤◌, ◌^◌, [], ℕ, List, Contains, IfOk, OnOk, length};
ghost use Rattle.std.specs.List.Sorted.{IsStrictlySortedBy};
ghost use Rattle.std.specs.Cmp.Lexicographic.{slice_cmp};
ghost use Rattle.std.specs.Ordering.{nat_cmp};
ghost use Rattle.hpr_paths.specs.Spots.{UsesAt};
ghost use Rattle.hpr_paths.specs.Successors.{spots};
ghost use Rattle.hpr_graph.specs.Graphs.{IsOnce};
ghost use Rattle.hpr_build.specs.declared.uses.Use.{Use};
ghost use Rattle.hpr_build.specs.Uses.{AreUses, IsEnd};

use hpr_paths::{Name, NoMemory, Succ};
use hpr_syntax::Program;
use hpr_terms::names::in_order;
use std::alloc::Global;

/// A use of a name, with the number of the vertex that uses it. Uses are in the order of their names, and those of one
/// name in that of the vertices.
#[derive(PartialEq, Eq, PartialOrd, Ord)]
pub(crate) struct Use {
    pub(crate) name: Name,
    pub(crate) number: usize,
}

/// A use is dropped in one call.
impl Drop for Use {
    fn drop(self) {
        let Use { name: _, number: _ } = self;
    }
}

/// Puts a use behind the others.
fn push_use(alloc: Global, name: &Name, number: usize, into: &mut Vec<Use>) -> Result<(), NoMemory>
    ensures { OnOk result (into.new.items ≡ into.old.items ++ record { name = name.now; number = number } ∷ []) }
{
    into.push(Use {
        name: name.copy(alloc)?,
        number,
    })?;
    Ok(())
}

/// Puts a use of each of these names, which are in order, by the vertex with this number behind the others.
fn push_names(
    alloc: Global,
    names: &[Name],
    number: usize,
    into: &mut Vec<Use>,
) -> Result<(), NoMemory>
    requires { IsStrictlySortedBy (slice_cmp nat_cmp) names.now }
    ensures exact { OnOk result ((u : Use) → Contains into.new.items u
        ↔ (Contains into.old.items u ⊎ (Contains names.now u.name × (number ≡ u.number)))) }
    ensures once { OnOk result (IsOnce into.old.items → ((u : Use) → Contains into.old.items u → u.number < number)
        → IsOnce into.new.items) }
{
    for name in names {
        push_use(alloc, name, number, into)?;
    }
    Ok(())
}

/// The names in order, each once. One name alone is so already.
fn each_once(names: Vec<Name>) -> Result<Vec<Name>, NoMemory>
    ensures ascending { IfOk result (λ v. IsStrictlySortedBy (slice_cmp nat_cmp) v.items) }
    ensures same { IfOk result (λ v. (x : List ℕ) → Contains v.items x ↔ Contains names.items x) }
{
    if names.len() < 2 {
        return Ok(names);
    }
    in_order(names)
}

/// Puts the uses of names by the part at the point behind the others.
fn push_point(alloc: Global, succ: &Succ, point: usize, into: &mut Vec<Use>) -> Result<(), NoMemory>
    requires { point < length succ.now }
    ensures exact { OnOk result ((u : Use) → Contains into.new.items u
        ↔ (Contains into.old.items u ⊎ (UsesAt succ.now point u.name × (point ≡ u.number)))) }
    ensures once { OnOk result (IsOnce into.old.items → ((u : Use) → Contains into.old.items u → u.number < point)
        → IsOnce into.new.items) }
{
    let used = each_once(succ.used_names(point)?)?;
    push_names(alloc, &used, point, into)?;
    Ok(())
}

/// The uses of names by the points before Exit.
fn part_uses(alloc: Global, succ: &Succ, exit: usize) -> Result<Vec<Use>, NoMemory>
    requires { exit ≤ length succ.now }
    ensures exact { IfOk result (λ uses. (u : Use) → Contains uses.items u
        ↔ ((u.number < exit) × UsesAt succ.now u.number u.name)) }
    ensures once { IfOk result (λ uses. IsOnce uses.items) }
{
    let mut uses = Vec::new(alloc);
    for point in 0..exit {
        push_point(alloc, succ, point, &mut uses)?;
    }
    Ok(uses)
}

/// Puts the uses of the names of `end` by their vertices, of which the first has this number, behind the others.
fn push_ends(
    alloc: Global,
    exit: usize,
    finals: &[Name],
    into: &mut Vec<Use>,
) -> Result<(), NoMemory>
    requires { exit + length finals.now < 2 ^ 64 }
    ensures exact { OnOk result ((u : Use) → Contains into.new.items u
        ↔ (Contains into.old.items u ⊎ IsEnd exit finals.now u)) }
    ensures once { OnOk result (IsOnce into.old.items → ((u : Use) → Contains into.old.items u → u.number < exit)
        → IsOnce into.new.items) }
{
    for (at, name) in finals.iter().enumerate() {
        push_use(alloc, name, exit + at, into)?;
    }
    Ok(())
}

/// The uses of names by the vertices of the program, in order. Sorts them once.
pub(crate) fn uses_of(alloc: Global, program: &Program, succ: &Succ) -> Result<Vec<Use>, NoMemory>
    requires { succ.now ≡ spots program.now }
    ensures exact { IfOk result (λ uses. AreUses program.now uses.items) }
    ensures once { IfOk result (λ uses. IsOnce uses.items) }
{
    let exit = program.part_count() + 1;
    let mut uses = part_uses(alloc, succ, exit)?;
    push_ends(alloc, exit, program.finals(), &mut uses)?;
    uses.sort()?;
    Ok(uses)
}
