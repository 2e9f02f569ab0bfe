//! The names whose value from before the program is used.
ghost use Rattle.std.specs.Prelude.{◌≡◌, ◌↔◌, ◌⊎◌, ◌<◌, ℕ, Some, List, Contains, IfOk, IfSome, IsTrue, OnOk, length, vec_len};
ghost use Rattle.std.specs.List.Sorted.{IsStrictlySortedBy};
ghost use Rattle.std.specs.Cmp.Lexicographic.{slice_cmp};
ghost use Rattle.std.specs.Ordering.{nat_cmp};
ghost use Rattle.hpr_search.specs.Marks.{IsMarked};
ghost use Rattle.hpr_paths.specs.Spots.{UsesAt, defined_at};
ghost use Rattle.hpr_reach.specs.Live.{IsLive};
ghost use Rattle.hpr_build.specs.Variables.{AreDefinitions, AreUsers, IsFreeRow};

use crate::tables::row_at;
use crate::variables::Variables;
use hpr_paths::{Name, NoMemory, Succ};
use hpr_reach::{BitRow, reach};
use hpr_terms::names::in_order;
use std::alloc::Global;

/// What a used name that no point defines reaches from Enter, the same for each; none where there is no such
/// name.
pub(crate) fn free_row(
    alloc: Global,
    succ: &Succ,
    variables: &Variables,
) -> Result<Option<BitRow>, NoMemory>
    requires entered { 0 < length succ.now }
    requires rows { vec_len variables.now.definitions ≡ vec_len variables.now.names }
    requires definitions { AreDefinitions succ.now variables.now.names.items variables.now.definitions.items }
    ensures { IfOk result (λ free. IfSome free (IsFreeRow succ.now)) }
{
    for (at, name) in variables.names.iter().enumerate() {
        if row_at(&variables.definitions, at).is_empty() {
            return Ok(Some(reach(alloc, succ, 0, name, 0)?));
        }
    }
    Ok(None)
}

/// Whether the name, which these points use, is live at Enter.
fn is_live_by(alloc: Global, succ: &Succ, name: &Name, users: &[usize]) -> Result<bool, NoMemory>
    requires entered { 0 < length succ.now }
    requires users { (p : ℕ) → Contains users.now p ↔ UsesAt succ.now p name.now }
    ensures { IfOk result (λ live. IsTrue live ↔ IsLive succ.now name.now) }
{
    let row = reach(alloc, succ, 0, name, 0)?;
    Ok(row.has_any(users))
}

/// Whether the name, which has these points that define it and that use it, is live at Enter. A name that no
/// point defines takes no search of its own, where there is a row for all of them.
fn is_live(
    alloc: Global,
    succ: &Succ,
    name: &Name,
    definitions: &[usize],
    users: &[usize],
    free: &Option<BitRow>,
) -> Result<bool, NoMemory>
    requires entered { 0 < length succ.now }
    requires definitions { (p : ℕ) → Contains definitions.now p ↔ (defined_at succ.now p ≡ Some name.now) }
    requires users { (p : ℕ) → Contains users.now p ↔ UsesAt succ.now p name.now }
    requires free { IfSome free.now (IsFreeRow succ.now) }
    ensures { IfOk result (λ live. IsTrue live ↔ IsLive succ.now name.now) }
{
    if definitions.is_empty() {
        if let Some(row) = free {
            return Ok(row.has_any(users));
        }
    }
    is_live_by(alloc, succ, name, users)
}

/// Puts a copy of the name behind the names where the test holds.
fn push_if(alloc: Global, test: bool, name: &Name, into: &mut Vec<Name>) -> Result<(), NoMemory>
    ensures { OnOk result ((x : List ℕ) → Contains into.new.items x
        ↔ (Contains into.old.items x ⊎ (IsTrue test × (name.now ≡ x)))) }
{
    if test {
        into.push(name.copy(alloc)?)?;
    }
    Ok(())
}

/// Puts those of the used names that are live at Enter behind the others.
fn push_live(
    alloc: Global,
    succ: &Succ,
    variables: &Variables,
    free: &Option<BitRow>,
    into: &mut Vec<Name>,
) -> Result<(), NoMemory>
    requires entered { 0 < length succ.now }
    requires definition_rows { vec_len variables.now.definitions ≡ vec_len variables.now.names }
    requires definitions { AreDefinitions succ.now variables.now.names.items variables.now.definitions.items }
    requires user_rows { vec_len variables.now.users ≡ vec_len variables.now.names }
    requires users { AreUsers succ.now variables.now.names.items variables.now.users.items }
    requires free { IfSome free.now (IsFreeRow succ.now) }
    ensures { OnOk result ((x : List ℕ) → Contains into.new.items x
        ↔ (Contains into.old.items x ⊎ (Contains variables.now.names.items x × IsLive succ.now x))) }
{
    for (at, name) in variables.names.iter().enumerate() {
        let definitions = row_at(&variables.definitions, at);
        let users = row_at(&variables.users, at);
        let live = is_live(alloc, succ, name, definitions, users, free)?;
        push_if(alloc, live, name, into)?;
    }
    Ok(())
}

/// The used names that are live at Enter, ascending: those that the program uses with the value from before it
/// (the initial definitions of Horwitz, Prins and Reps 1989).
///
/// Takes one search for each name that some part defines, and none for the others, where there is a row for all of
/// them.
pub(crate) fn live_names(
    alloc: Global,
    succ: &Succ,
    variables: &Variables,
    free: &Option<BitRow>,
) -> Result<Vec<Name>, NoMemory>
    requires entered { 0 < length succ.now }
    requires definition_rows { vec_len variables.now.definitions ≡ vec_len variables.now.names }
    requires definitions { AreDefinitions succ.now variables.now.names.items variables.now.definitions.items }
    requires user_rows { vec_len variables.now.users ≡ vec_len variables.now.names }
    requires users { AreUsers succ.now variables.now.names.items variables.now.users.items }
    requires free { IfSome free.now (IsFreeRow succ.now) }
    ensures ascending { IfOk result (λ v. IsStrictlySortedBy (slice_cmp nat_cmp) v.items) }
    ensures exact { IfOk result (λ v. (x : List ℕ) → Contains v.items x
        ↔ (Contains variables.now.names.items x × IsLive succ.now x)) }
{
    let mut live = Vec::new(alloc);
    push_live(alloc, succ, variables, free, &mut live)?;
    in_order(live)
}
