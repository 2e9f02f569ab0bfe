//! The names of a program with the points that define and use them.
ghost use Rattle.std.specs.Prelude.{◌≡◌, ◌↔◌, ◌⊎◌, ◌+◌, ◌<◌, ◌++◌, ◌∷◌, [], ℕ, List, Contains, Some, length, vec_len};
ghost use Rattle.std.specs.Prelude.{IfOk, OnOk, IfSome, IfNone, IsTrue};
ghost use Rattle.std.specs.List.{slice_get};
ghost use Rattle.std.specs.List.Sorted.{IsStrictlySortedBy};
ghost use Rattle.std.specs.Cmp.Lexicographic.{slice_cmp};
ghost use Rattle.std.specs.Ordering.{nat_cmp};
ghost use Rattle.hpr_paths.specs.Spots.{defined_at, UsesAt};
ghost use Rattle.hpr_paths.specs.Successors.{spots};
ghost use Rattle.hpr_graph.specs.Graphs.{IsOnce};
ghost use Rattle.hpr_build.specs.declared.uses.Use.{Use};
ghost use Rattle.hpr_build.specs.Links.{exit_of};
ghost use Rattle.hpr_build.specs.Uses.{AreUses, AreApart, AreUsersBy, point_of};
ghost use Rattle.hpr_build.specs.Variables.{points_at, AreUsers, AreDefinitions};

use crate::uses::Use;
use hpr_paths::{Name, NoMemory, Succ};
use hpr_syntax::Program;
use hpr_terms::names::{in_order, place_of};
use std::alloc::Global;

/// The names that points use, in order, each with the points that define it and those that use it,
/// ascending.
pub(crate) struct Variables {
    pub(crate) names: Vec<Name>,
    pub(crate) definitions: Vec<Vec<usize>>,
    pub(crate) users: Vec<Vec<usize>>,
}

/// The names and both tables are dropped in one call.
impl Drop for Variables {
    fn drop(self) {
        let Variables {
            names: _,
            definitions: _,
            users: _,
        } = self;
    }
}

/// Puts the point behind the row at the place.
pub(crate) fn push_at(rows: &mut Vec<Vec<usize>>, at: usize, point: usize) -> Result<(), NoMemory>
    requires { at < vec_len rows.old }
    ensures len { vec_len rows.new ≡ vec_len rows.old }
    ensures here { OnOk result (points_at rows.new.items at ≡ points_at rows.old.items at ++ point ∷ []) }
    ensures others { OnOk result ((i : ℕ) → ¬ (i ≡ at) → points_at rows.new.items i ≡ points_at rows.old.items i) }
{
    let row = &mut rows[at];
    row.push(point)?;
    Ok(())
}

/// Whether the name stands at this place.
fn is_at(names: &[Name], at: usize, name: &Name) -> bool
    ensures { IsTrue result ↔ (slice_get names.now at ≡ Some name.now) }
{
    match names.get(at) {
        Some(there) => there.is_same(name),
        None => false,
    }
}

/// The place of the name among these, which are in order, if it is one of them. It is looked for first at the place
/// `near` and behind it, so names that are asked for in their order take a look or two each.
pub(crate) fn place_near(names: &[Name], name: &Name, near: usize) -> Option<usize>
    requires { IsStrictlySortedBy (slice_cmp nat_cmp) names.now }
    ensures some { IfSome result (λ i. slice_get names.now i ≡ Some name.now) }
    ensures none { IfNone result (¬ Contains names.now name.now) }
{
    let behind = near.saturating_add(1);
    if is_at(names, near, name) {
        return Some(near);
    }
    if is_at(names, behind, name) {
        return Some(behind);
    }
    place_of(names, name)
}

/// Puts the point behind the row of the name, if it has one, and tells the place of the row. It is looked for first at
/// the place `near`, which is told where the name has none.
fn push_for(
    names: &[Name],
    name: &Name,
    near: usize,
    point: usize,
    rows: &mut Vec<Vec<usize>>,
) -> Result<usize, NoMemory>
    requires names { IsStrictlySortedBy (slice_cmp nat_cmp) names.now }
    requires len { vec_len rows.old ≡ length names.now }
    ensures len { vec_len rows.new ≡ vec_len rows.old }
    ensures rows { OnOk result ((i : ℕ) (x : List ℕ) → slice_get names.now i ≡ Some x → (p : ℕ)
        → Contains (points_at rows.new.items i) p ↔ (Contains (points_at rows.old.items i) p
        ⊎ ((name.now ≡ x) × (point ≡ p)))) }
    ensures once { OnOk result ((i : ℕ) (x : List ℕ) → slice_get names.now i ≡ Some x
        → IsOnce (points_at rows.old.items i) → (name.now ≡ x → ¬ Contains (points_at rows.old.items i) point)
        → IsOnce (points_at rows.new.items i)) }
{
    match place_near(names, name, near) {
        Some(at) => {
            push_at(rows, at, point)?;
            Ok(at)
        }
        None => Ok(near),
    }
}

/// Puts the point behind the row of the name that it defines, if it defines one.
fn push_defined(
    succ: &Succ,
    point: usize,
    names: &[Name],
    rows: &mut Vec<Vec<usize>>,
) -> Result<(), NoMemory>
    requires point { point < length succ.now }
    requires names { IsStrictlySortedBy (slice_cmp nat_cmp) names.now }
    requires len { vec_len rows.old ≡ length names.now }
    ensures len { vec_len rows.new ≡ vec_len rows.old }
    ensures rows { OnOk result ((i : ℕ) (x : List ℕ) → slice_get names.now i ≡ Some x → (p : ℕ)
        → Contains (points_at rows.new.items i) p ↔ (Contains (points_at rows.old.items i) p
        ⊎ ((defined_at succ.now point ≡ Some x) × (point ≡ p)))) }
    ensures once { OnOk result ((i : ℕ) (x : List ℕ) → slice_get names.now i ≡ Some x
        → IsOnce (points_at rows.old.items i) → ¬ Contains (points_at rows.old.items i) point
        → IsOnce (points_at rows.new.items i)) }
{
    match succ.defines(point) {
        Some(name) => {
            push_for(names, name, 0, point, rows)?;
            Ok(())
        }
        None => Ok(()),
    }
}

/// So many rows without points.
pub(crate) fn no_rows(alloc: Global, count: usize) -> Result<Vec<Vec<usize>>, NoMemory>
    ensures len { IfOk result (λ rows. vec_len rows ≡ count) }
    ensures none { IfOk result (λ rows. (i : ℕ) → points_at rows.items i ≡ []) }
{
    let mut rows = Vec::with_capacity(alloc, count)?;
    for _ in 0..count {
        rows.push(Vec::new(alloc))?;
    }
    Ok(rows)
}

/// For each of the names, which are in order, the points that define it.
fn definitions_of(alloc: Global, succ: &Succ, names: &[Name]) -> Result<Vec<Vec<usize>>, NoMemory>
    requires { IsStrictlySortedBy (slice_cmp nat_cmp) names.now }
    ensures len { IfOk result (λ rows. vec_len rows ≡ length names.now) }
    ensures exact { IfOk result (λ rows. AreDefinitions succ.now names.now rows.items) }
{
    let mut rows = no_rows(alloc, names.len())?;
    for point in 0..succ.points() {
        push_defined(succ, point, names, &mut rows)?;
    }
    Ok(rows)
}

/// The point of the vertex with this number that uses a name: a part's is its number, and Exit that of a name of `end`.
fn point_of(exit: usize, number: usize) -> usize
    ensures { result ≡ point_of exit number }
{
    if number < exit { number } else { exit }
}

/// For each of the names, which are in order, the points at which it is used.
fn users_of(
    alloc: Global,
    exit: usize,
    uses: &[Use],
    names: &[Name],
) -> Result<Vec<Vec<usize>>, NoMemory>
    requires names { IsStrictlySortedBy (slice_cmp nat_cmp) names.now }
    requires once { IsOnce uses.now }
    requires apart { AreApart exit uses.now }
    ensures len { IfOk result (λ rows. vec_len rows ≡ length names.now) }
    ensures exact { IfOk result (λ rows. AreUsersBy exit uses.now names.now rows.items) }
{
    let mut rows = no_rows(alloc, names.len())?;
    let mut near = 0;
    for one in uses {
        let point = point_of(exit, one.number);
        near = push_for(names, &one.name, near, point, &mut rows)?;
    }
    Ok(rows)
}

/// The names of the uses as they come.
fn all_names(alloc: Global, uses: &[Use]) -> Result<Vec<Name>, NoMemory>
    ensures { IfOk result (λ names. (x : List ℕ) → Contains names.items x ↔ ((u : Use) × Contains uses.now u × (u.name ≡ x))) }
{
    let mut names = Vec::with_capacity(alloc, uses.len())?;
    for one in uses {
        push_name(alloc, &one.name, &mut names)?;
    }
    Ok(names)
}

/// Puts a copy of the name behind the others.
fn push_name(alloc: Global, name: &Name, into: &mut Vec<Name>) -> Result<(), NoMemory>
    ensures { OnOk result (into.new.items ≡ into.old.items ++ name.now ∷ []) }
{
    into.push(name.copy(alloc)?)?;
    Ok(())
}

/// The names that the program uses, by its uses, with the points that define and use them.
///
/// Takes time for each name that stands somewhere, and not for each name and point.
pub(crate) fn variables_of(
    alloc: Global,
    program: &Program,
    succ: &Succ,
    uses: &[Use],
) -> Result<Variables, NoMemory>
    requires succ { succ.now ≡ spots program.now }
    requires uses { AreUses program.now uses.now }
    requires once { IsOnce uses.now }
    ensures ascending { IfOk result (λ v. IsStrictlySortedBy (slice_cmp nat_cmp) v.names.items) }
    ensures names { IfOk result (λ v. (x : List ℕ) → Contains v.names.items x ↔ ((p : ℕ) × UsesAt succ.now p x)) }
    ensures definition_rows { IfOk result (λ v. vec_len v.definitions ≡ vec_len v.names) }
    ensures definitions { IfOk result (λ v. AreDefinitions succ.now v.names.items v.definitions.items) }
    ensures user_rows { IfOk result (λ v. vec_len v.users ≡ vec_len v.names) }
    ensures users { IfOk result (λ v. AreUsers succ.now v.names.items v.users.items) }
{
    let _body = program.body();
    let exit = program.part_count() + 1;
    let names = in_order(all_names(alloc, uses)?)?;
    let definitions = definitions_of(alloc, succ, &names)?;
    let users = users_of(alloc, exit, uses, &names)?;
    Ok(Variables {
        names,
        definitions,
        users,
    })
}
