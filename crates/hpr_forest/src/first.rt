//! The first leaf of a search.

ghost use Rattle.std.specs.Prelude.{◌≡◌, ◌<◌, true, [], IfNone, IfSome};
ghost use Rattle.hpr_forest.specs.Choices.{IsBacktrackFree};
ghost use Rattle.hpr_forest.specs.Cuts.{IsFirstClear, IsFirstLeafAt, IsLive};

use crate::Backtracking;

/// Places the numbers of the first leaf but for its last one, where that clashes with those before it, and answers
/// this one; `None` where no number of the first leaf clashes, or there is no leaf. So it follows the least choice
/// at each step, and takes nothing back. Takes no memory.
pub fn first_clash<T: Backtracking>(search: &mut T) -> Option<usize>
    requires sound { T.is_sound search.old }
    requires choices { IsBacktrackFree (T.can search.old) (T.size search.old) }
    requires live { IsLive (T.can search.old) (T.size search.old) }
    requires first { T.placed search.old ≡ [] }
    ensures leaf { IfSome result (λ c.
        IsFirstLeafAt (T.can search.old) (T.size search.old) (T.clash search.old) (T.placed search.new) c) }
    ensures clashes { IfSome result (λ c. T.clash search.old (T.placed search.new) c ≡ true) }
    ensures none { IfNone result (IsFirstClear (T.can search.old) (T.size search.old) (T.clash search.old)) }
    ensures same { T.is_same search.old search.new }
{
    if search.size() == 0 {
        return None;
    }
    walk_to_clash(search)
}

/// The same where a whole list has a number at least.
fn walk_to_clash<T: Backtracking>(search: &mut T) -> Option<usize>
    requires sound { T.is_sound search.old }
    requires choices { IsBacktrackFree (T.can search.old) (T.size search.old) }
    requires live { IsLive (T.can search.old) (T.size search.old) }
    requires first { T.placed search.old ≡ [] }
    requires size { 0 < T.size search.old }
    ensures leaf { IfSome result (λ c.
        IsFirstLeafAt (T.can search.old) (T.size search.old) (T.clash search.old) (T.placed search.new) c) }
    ensures clashes { IfSome result (λ c. T.clash search.old (T.placed search.new) c ≡ true) }
    ensures none { IfNone result (IsFirstClear (T.can search.old) (T.size search.old) (T.clash search.old)) }
    ensures same { T.is_same search.old search.new }
{
    let size = search.size();
    'walk: loop {
        let Some(child) = search.next_ready(0) else {
            return None;
        };
        if !search.admissible(child) {
            return Some(child);
        }
        search.place(child);
        if search.count() == size {
            return None;
        }
    }
}
