//! The walk from each whole list to the next.

ghost use Rattle.std.specs.Prelude.{◌≡◌, ℕ, ◌≤◌, List, [], ◌∷◌, vec_len, vec_capacity, IsTrue, IsFalse};
ghost use Rattle.hpr_forest.specs.Choices.{Follows, IsWhole, IsBacktrackFree};
ghost use Rattle.hpr_forest.specs.Marks.{IsMarksOf};
ghost use Rattle.hpr_forest.specs.Leaves.{after, from_here};

use crate::Choices;

/// Goes on to the first whole list that begins with the placed front; false where there is no whole list at all.
///
/// Asks for one number a level and never goes back. Takes no memory: `placed` has room for a whole list.
pub fn first_order<T: Choices>(choices: &T, marks: &mut Vec<bool>, placed: &mut Vec<usize>) -> bool
    requires row { vec_len marks.old ≡ T.size choices.now }
    requires marks { IsMarksOf marks.old.items placed.old.items }
    requires choices { IsBacktrackFree (T.can choices.now) (T.size choices.now) }
    requires front { Follows (T.can choices.now) [] placed.old.items }
    requires len { vec_len placed.old ≤ T.size choices.now }
    requires room { T.size choices.now ≤ vec_capacity placed.old }
    ensures whole { IsTrue result → IsWhole (T.can choices.now) (T.size choices.now) placed.new.items }
    ensures same { IsTrue result → from_here (T.can choices.now) (T.size choices.now) placed.new.items
        ≡ from_here (T.can choices.now) (T.size choices.now) placed.old.items }
    ensures dead { IsFalse result → (l : List ℕ) → IsWhole (T.can choices.now) (T.size choices.now) l → ⊥ }
    ensures room { vec_capacity placed.new ≡ vec_capacity placed.old }
    ensures row { vec_len marks.new ≡ vec_len marks.old }
    ensures marks { IsMarksOf marks.new.items placed.new.items }
{
    while placed.len() < choices.size() {
        match choices.next_child(marks, placed, 0) {
            Some(child) => {
                placed.push_reserved(child);
                marks[child] = true;
            }
            None => return false,
        }
    }
    true
}

/// Goes on from a whole list to the next one in lexicographic order; false where it was the last.
///
/// Takes numbers off the end until one can be replaced by a greater one, then descends. Takes no memory.
pub fn next_order<T: Choices>(choices: &T, marks: &mut Vec<bool>, placed: &mut Vec<usize>) -> bool
    requires row { vec_len marks.old ≡ T.size choices.now }
    requires marks { IsMarksOf marks.old.items placed.old.items }
    requires choices { IsBacktrackFree (T.can choices.now) (T.size choices.now) }
    requires whole { IsWhole (T.can choices.now) (T.size choices.now) placed.old.items }
    requires room { T.size choices.now ≤ vec_capacity placed.old }
    ensures whole { IsTrue result → IsWhole (T.can choices.now) (T.size choices.now) placed.new.items }
    ensures next { IsTrue result → after (T.can choices.now) (T.size choices.now) placed.old.items
        ≡ placed.new.items ∷ after (T.can choices.now) (T.size choices.now) placed.new.items }
    ensures last { IsFalse result → after (T.can choices.now) (T.size choices.now) placed.old.items ≡ [] }
    ensures room { vec_capacity placed.new ≡ vec_capacity placed.old }
    ensures row { vec_len marks.new ≡ vec_len marks.old }
    ensures marks { IsMarksOf marks.new.items placed.new.items }
{
    while let Some(last) = placed.pop() {
        marks[last] = false;
        if let Some(child) = choices.next_child(marks, placed, last + 1) {
            placed.push_reserved(child);
            marks[child] = true;
            return first_order(choices, marks, placed);
        }
    }
    false
}
