//! The search for the first whole list that fits.

ghost use Rattle.std.specs.Prelude.{◌≡◌, ◌-◌, ◌<◌, ◌≤◌, [], IfOk};
ghost use Rattle.hpr_forest.specs.Choices.{IsBacktrackFree};
ghost use Rattle.hpr_forest.specs.Cuts.{AreSoMany, FindsFirst, FindsNone, FindsSpent, IsAmongFirst, IsLive};
ghost use Rattle.hpr_forest.specs.Finds.{IfFirst, IfNoneFits};

use crate::Backtracking;
use std::alloc::AllocError;

/// What a search found, and with how many tries.
#[derive(Clone, Copy)]
pub enum Found {
    /// The first whole list that fits, which is placed, and the number of its leaf, from 1.
    First(u64),
    /// No whole list fits; and how many leaves there are.
    NoneFits(u64),
    /// The tries are spent: there are more leaves than tries, and none of the first that many fits.
    Spent,
}

/// Searches for the first whole list that fits, in lexicographic order, and leaves it placed.
///
/// A try is a whole list that was judged, or a front that was given up. A leaf is a whole list cut behind its first number that clashes
/// with those before it; many whole lists share one. Each try is on the next leaf, so with `tries` of them no leaf behind the first `tries` is
/// looked at: what is found is one of these, and where none fits there are no more. The search gives up no list that fits.
///
/// Each other clause holds of the leaves by each test that rules out less than the one for clashes: so of the whole lists too, which are
/// the leaves where nothing clashes. With exactly as many leaves as tries all are judged. An error is want of memory.
pub fn first_fitting<T: Backtracking>(search: &mut T, tries: u64) -> Result<Found, AllocError>
    requires sound { T.is_sound search.old }
    requires choices { IsBacktrackFree (T.can search.old) (T.size search.old) }
    requires live { IsLive (T.can search.old) (T.size search.old) }
    requires first { T.placed search.old ≡ [] }
    ensures first { IfOk result (λ f. IfFirst f (λ _.
        FindsFirst (T.can search.old) (T.fits search.old) (T.size search.old) (T.clash search.old) (T.placed search.new))) }
    ensures first_within { IfOk result (λ f. IfFirst f (λ n.
        IsAmongFirst (T.can search.old) (T.size search.old) (T.clash search.old) n (T.placed search.new))) }
    ensures first_least { IfOk result (λ f. IfFirst f (λ n.
        FindsSpent (T.can search.old) (T.fits search.old) (T.size search.old) (T.clash search.old) (n - 1))) }
    ensures first_tries { IfOk result (λ f. IfFirst f (λ n. n ≤ tries)) }
    ensures none { IfOk result (λ f. IfNoneFits f (λ _.
        FindsNone (T.can search.old) (T.fits search.old) (T.size search.old) (T.clash search.old))) }
    ensures none_all { IfOk result (λ f. IfNoneFits f (λ n.
        AreSoMany (T.can search.old) (T.size search.old) (T.clash search.old) n)) }
    ensures none_tries { IfOk result (λ f. IfNoneFits f (λ n. n ≤ tries)) }
    ensures spent { IfOk result (λ f. f ≡ Found.Spent
        → FindsSpent (T.can search.old) (T.fits search.old) (T.size search.old) (T.clash search.old) tries) }
    ensures same { T.is_same search.old search.new }
{
    if search.size() == 0 {
        return judge_empty(search, tries);
    }
    walk_to_first(search, tries)
}

/// The search where a whole list has no number: the empty list is the one leaf.
fn judge_empty<T: Backtracking>(search: &T, tries: u64) -> Result<Found, AllocError>
    requires sound { T.is_sound search.now }
    requires size { T.size search.now ≡ 0 }
    requires first { T.placed search.now ≡ [] }
    ensures first { IfOk result (λ f. IfFirst f (λ _.
        FindsFirst (T.can search.now) (T.fits search.now) (T.size search.now) (T.clash search.now) (T.placed search.now))) }
    ensures first_within { IfOk result (λ f. IfFirst f (λ n.
        IsAmongFirst (T.can search.now) (T.size search.now) (T.clash search.now) n (T.placed search.now))) }
    ensures first_least { IfOk result (λ f. IfFirst f (λ n.
        FindsSpent (T.can search.now) (T.fits search.now) (T.size search.now) (T.clash search.now) (n - 1))) }
    ensures first_tries { IfOk result (λ f. IfFirst f (λ n. n ≤ tries)) }
    ensures none { IfOk result (λ f. IfNoneFits f (λ _.
        FindsNone (T.can search.now) (T.fits search.now) (T.size search.now) (T.clash search.now))) }
    ensures none_all { IfOk result (λ f. IfNoneFits f (λ n.
        AreSoMany (T.can search.now) (T.size search.now) (T.clash search.now) n)) }
    ensures none_tries { IfOk result (λ f. IfNoneFits f (λ n. n ≤ tries)) }
    ensures spent { IfOk result (λ f. f ≡ Found.Spent
        → FindsSpent (T.can search.now) (T.fits search.now) (T.size search.now) (T.clash search.now) tries) }
{
    if tries == 0 {
        return Ok(Found::Spent);
    }
    if search.judge()? {
        Ok(Found::First(1))
    } else {
        Ok(Found::NoneFits(1))
    }
}

/// The search where a whole list has a number at least.
fn walk_to_first<T: Backtracking>(search: &mut T, tries: u64) -> Result<Found, AllocError>
    requires sound { T.is_sound search.old }
    requires choices { IsBacktrackFree (T.can search.old) (T.size search.old) }
    requires live { IsLive (T.can search.old) (T.size search.old) }
    requires first { T.placed search.old ≡ [] }
    requires size { 0 < T.size search.old }
    ensures first { IfOk result (λ f. IfFirst f (λ _.
        FindsFirst (T.can search.old) (T.fits search.old) (T.size search.old) (T.clash search.old) (T.placed search.new))) }
    ensures first_within { IfOk result (λ f. IfFirst f (λ n.
        IsAmongFirst (T.can search.old) (T.size search.old) (T.clash search.old) n (T.placed search.new))) }
    ensures first_least { IfOk result (λ f. IfFirst f (λ n.
        FindsSpent (T.can search.old) (T.fits search.old) (T.size search.old) (T.clash search.old) (n - 1))) }
    ensures first_tries { IfOk result (λ f. IfFirst f (λ n. n ≤ tries)) }
    ensures none { IfOk result (λ f. IfNoneFits f (λ _.
        FindsNone (T.can search.old) (T.fits search.old) (T.size search.old) (T.clash search.old))) }
    ensures none_all { IfOk result (λ f. IfNoneFits f (λ n.
        AreSoMany (T.can search.old) (T.size search.old) (T.clash search.old) n)) }
    ensures none_tries { IfOk result (λ f. IfNoneFits f (λ n. n ≤ tries)) }
    ensures spent { IfOk result (λ f. f ≡ Found.Spent
        → FindsSpent (T.can search.old) (T.fits search.old) (T.size search.old) (T.clash search.old) tries) }
    ensures same { T.is_same search.old search.new }
{
    let size = search.size();
    let mut left = tries;
    let mut from = 0;
    'walk: loop {
        let Some(child) = search.next_ready(from) else {
            let Some(last) = search.take_back() else {
                return Ok(Found::NoneFits(tries - left));
            };
            from = last + 1;
            continue;
        };
        if left == 0 {
            return Ok(Found::Spent);
        }
        if !search.admissible(child) {
            left -= 1;
            from = child + 1;
            continue;
        }
        search.place(child);
        if search.count() < size {
            from = 0;
            continue;
        }
        if search.judge()? {
            return Ok(Found::First(tries - left + 1));
        }
        search.take_back();
        left -= 1;
        from = child + 1;
    }
}
