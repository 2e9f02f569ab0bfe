//! Names whose value from before the program is used.
ghost use Rattle.std.specs.Prelude.{◌≡◌, ◌↔◌, ◌⊎◌, ◌<◌, ◌≤◌, ◌++◌, ℕ, Some, List, [], ◌∷◌};
ghost use Rattle.std.specs.Prelude.{Contains, IfOk, OnOk, IsTrue, length};
ghost use Rattle.std.specs.List.{slice_get};
ghost use Rattle.std.specs.List.Sorted.{IsStrictlySortedBy};
ghost use Rattle.std.specs.Cmp.Lexicographic.{slice_cmp};
ghost use Rattle.std.specs.Ordering.{nat_cmp};
ghost use Rattle.hpr_search.specs.Marks.{IsMarked};
ghost use Rattle.hpr_search.specs.Rows.{numbers_at};
ghost use Rattle.hpr_paths.specs.Spots.{defined_at, UsesAt};
ghost use Rattle.hpr_reach.specs.Live.{AreUsersOf, Below, IsDefined, IsLive, IsUsedAfterAll};

use crate::bits::BitRow;
use crate::search::{reach, reach_past};
use hpr_paths::{Name, NoMemory, Succ};
use hpr_search::{Digraph, Rows};
use hpr_terms::names::{in_order, is_among, place_of};
use std::alloc::Global;

/// Puts a copy of the name behind the names.
fn push_copy(alloc: Global, name: &Name, into: &mut Vec<Name>) -> Result<(), NoMemory>
    ensures { OnOk result (into.new.items ≡ into.old.items ++ name.now ∷ []) }
{
    into.push(name.copy(alloc)?)?;
    Ok(())
}

/// Puts a copy of the name behind the names where the test holds.
fn push_if(alloc: Global, test: bool, name: &Name, into: &mut Vec<Name>) -> Result<(), NoMemory>
    ensures { OnOk result ((x : List ℕ) → Contains into.new.items x
        ↔ (Contains into.old.items x ⊎ (IsTrue test × (name.now ≡ x)))) }
{
    if test {
        push_copy(alloc, name, into)
    } else {
        Ok(())
    }
}

/// Puts the name that the point defines behind the names, if it defines one.
fn push_defined(
    alloc: Global,
    succ: &Succ,
    point: usize,
    into: &mut Vec<Name>,
) -> Result<(), NoMemory>
    requires { point < length succ.now }
    ensures { OnOk result ((x : List ℕ) → Contains into.new.items x
        ↔ (Contains into.old.items x ⊎ (defined_at succ.now point ≡ Some x))) }
{
    match succ.defines(point) {
        Some(name) => push_if(alloc, true, name, into),
        None => Ok(()),
    }
}

/// The names that points define, in order.
fn defined_names(alloc: Global, succ: &Succ) -> Result<Vec<Name>, NoMemory>
    ensures ascending { IfOk result (λ v. IsStrictlySortedBy (slice_cmp nat_cmp) v.items) }
    ensures exact { IfOk result (λ v. (x : List ℕ) → Contains v.items x ↔ IsDefined succ.now x) }
    ensures entered { 0 < length succ.now }
{
    let mut names = Vec::new(alloc);
    for point in 0..succ.points() {
        push_defined(alloc, succ, point, &mut names)?;
    }
    in_order(names)
}

/// Puts those of the names behind the others that aren't among the defined ones.
fn push_others(
    alloc: Global,
    names: &[Name],
    defined: &[Name],
    into: &mut Vec<Name>,
) -> Result<(), NoMemory>
    requires { IsStrictlySortedBy (slice_cmp nat_cmp) defined.now }
    ensures { OnOk result ((x : List ℕ) → Contains into.new.items x
        ↔ (Contains into.old.items x ⊎ (Contains names.now x × ¬ Contains defined.now x))) }
{
    for name in names {
        push_if(alloc, !is_among(defined, name), name, into)?;
    }
    Ok(())
}

/// Puts the names that the point uses, but for the defined ones, behind the others.
fn push_undefined(
    alloc: Global,
    succ: &Succ,
    point: usize,
    defined: &[Name],
    into: &mut Vec<Name>,
) -> Result<(), NoMemory>
    requires point { point < length succ.now }
    requires defined { IsStrictlySortedBy (slice_cmp nat_cmp) defined.now }
    ensures { OnOk result ((x : List ℕ) → Contains into.new.items x
        ↔ (Contains into.old.items x ⊎ (UsesAt succ.now point x × ¬ Contains defined.now x))) }
{
    let used = succ.used_names(point)?;
    push_others(alloc, used.as_slice(), defined, into)
}

/// The same of each marked point.
fn push_marked(
    alloc: Global,
    succ: &Succ,
    row: &BitRow,
    defined: &[Name],
    into: &mut Vec<Name>,
) -> Result<(), NoMemory>
    requires none { into.old.items ≡ [] }
    requires defined { IsStrictlySortedBy (slice_cmp nat_cmp) defined.now }
    ensures { OnOk result ((x : List ℕ) → Contains into.new.items x
        ↔ Below (λ p. IsMarked row.now p × UsesAt succ.now p x × ¬ Contains defined.now x) (length succ.now)) }
{
    for point in 0..succ.points() {
        if row.has(point) {
            push_undefined(alloc, succ, point, defined, into)?;
        }
    }
    Ok(())
}

/// The names that no point defines, and that a point uses to which some path from Enter goes. One
/// search serves them all.
fn undefined_names(alloc: Global, succ: &Succ, defined: &[Name]) -> Result<Vec<Name>, NoMemory>
    requires entered { 0 < length succ.now }
    requires defined { IsStrictlySortedBy (slice_cmp nat_cmp) defined.now }
    ensures { IfOk result (λ v. (x : List ℕ) → Contains v.items x
        ↔ (IsUsedAfterAll succ.now x × ¬ Contains defined.now x)) }
{
    let row = reach_past(alloc, succ, 0, None, &[])?;
    let mut names = Vec::new(alloc);
    push_marked(alloc, succ, &row, defined, &mut names)?;
    Ok(names)
}

/// Puts the point into the row of the name, if it has one.
fn push_for(names: &[Name], name: &Name, point: usize, rows: &mut Rows) -> Result<(), NoMemory>
    requires names { IsStrictlySortedBy (slice_cmp nat_cmp) names.now }
    requires count { length names.now ≤ length rows.old }
    requires point { point < length rows.old }
    ensures count { length rows.new ≡ length rows.old }
    ensures rows { OnOk result ((i : ℕ) (x : List ℕ) → slice_get names.now i ≡ Some x → (p : ℕ)
        → Contains (numbers_at rows.new i) p ↔ (Contains (numbers_at rows.old i) p ⊎ ((name.now ≡ x) × (point ≡ p)))) }
{
    match place_of(names, name) {
        Some(at) => {
            rows.push(at, point)?;
            Ok(())
        }
        None => Ok(()),
    }
}

/// Puts the point into the rows of the names that it uses.
fn push_users(succ: &Succ, point: usize, names: &[Name], rows: &mut Rows) -> Result<(), NoMemory>
    requires point { point < length succ.now }
    requires names { IsStrictlySortedBy (slice_cmp nat_cmp) names.now }
    requires count { length names.now ≤ length rows.old }
    requires points { length succ.now ≤ length rows.old }
    ensures count { length rows.new ≡ length rows.old }
    ensures rows { OnOk result ((i : ℕ) (x : List ℕ) → slice_get names.now i ≡ Some x → (p : ℕ)
        → Contains (numbers_at rows.new i) p ↔ (Contains (numbers_at rows.old i) p
        ⊎ (UsesAt succ.now point x × (point ≡ p)))) }
{
    let used = succ.used_names(point)?;
    for name in &used {
        push_for(names, name, point, rows)?;
    }
    Ok(())
}

/// For each of the names, which are in order, the points that use it.
fn users_of(alloc: Global, succ: &Succ, names: &[Name]) -> Result<Rows, NoMemory>
    requires { IsStrictlySortedBy (slice_cmp nat_cmp) names.now }
    ensures { IfOk result (AreUsersOf succ.now names.now) }
{
    let mut rows = Rows::blank(alloc, succ.points().max(names.len()))?;
    for point in 0..succ.points() {
        push_users(succ, point, names, &mut rows)?;
    }
    Ok(rows)
}

/// Whether the name at this place among the names is live at Enter.
fn is_live(
    alloc: Global,
    succ: &Succ,
    name: &Name,
    users: &Rows,
    at: usize,
) -> Result<bool, NoMemory>
    requires entered { 0 < length succ.now }
    requires at { at < length users.now }
    requires users { (p : ℕ) → Contains (numbers_at users.now at) p ↔ UsesAt succ.now p name.now }
    ensures { IfOk result (λ live. IsTrue live ↔ IsLive succ.now name.now) }
{
    let row = reach(alloc, succ, 0, name, 0)?;
    let mut points = Vec::new(alloc);
    users.push_steps(at, &mut points)?;
    Ok(row.has_any(&points))
}

/// Puts those of the names that are live at Enter behind the others.
fn push_live(
    alloc: Global,
    succ: &Succ,
    names: &[Name],
    users: &Rows,
    into: &mut Vec<Name>,
) -> Result<(), NoMemory>
    requires entered { 0 < length succ.now }
    requires users { AreUsersOf succ.now names.now users.now }
    ensures { OnOk result ((x : List ℕ) → Contains into.new.items x
        ↔ (Contains into.old.items x ⊎ (Contains names.now x × IsLive succ.now x))) }
{
    for (at, name) in names.iter().enumerate() {
        push_if(alloc, is_live(alloc, succ, name, users, at)?, name, into)?;
    }
    Ok(())
}

/// The names that are live at Enter, ascending, each once: those that a program uses with the value
/// from before it, since some undisturbed path for the name goes from Enter to a point that uses it
/// (the initial definitions of Horwitz, Prins and Reps 1989).
///
/// Takes one search for all names that no part defines, and one for each that some part defines; and looks at each
/// name that stands somewhere once.
pub fn live_at_entry(alloc: Global, succ: &Succ) -> Result<Vec<Name>, NoMemory>
    ensures ascending { IfOk result (λ v. IsStrictlySortedBy (slice_cmp nat_cmp) v.items) }
    ensures sound { IfOk result (λ v. (x : List ℕ) → Contains v.items x → IsLive succ.now x) }
    ensures complete { IfOk result (λ v. (x : List ℕ) → IsLive succ.now x → Contains v.items x) }
{
    let defined = defined_names(alloc, succ)?;
    let mut live = undefined_names(alloc, succ, defined.as_slice())?;
    let users = users_of(alloc, succ, defined.as_slice())?;
    push_live(alloc, succ, defined.as_slice(), &users, &mut live)?;
    in_order(live)
}
