//! The points of a program.
ghost use Rattle.std.specs.Prelude.{◌≡◌, ◌↔◌, ◌<◌, ◌+◌, ◌⊎◌, None, IfOk, IsTrue, List, ℕ, All, Contains, length};
ghost use Rattle.std.specs.Option.{option_copied};
ghost use Rattle.hpr_paths.specs.Spots.{Spot, next_at, nest_at, tag_at, defined_at, UsesAt, used_at};
ghost use Rattle.hpr_paths.specs.Successors.{AreSpots};

use crate::spot::{Role, Spot, Step};
use crate::used::names_of;
use hpr_terms::{Name, NoMemory, Tag};
use std::marker::Model;

/// The points of a program, numbered from 0: Enter, the parts in preorder, Exit. A conditional or a
/// loop stands for its predicate.
///
/// A contract sees them as the list of what is known of each.
#[derive(Drop)]
pub struct Succ {
    spots: Vec<Spot>,
}

impl Model for Succ {
    ghost use Rattle.std.specs.Prelude.{List};
    ghost use Rattle.hpr_paths.specs.Spots.{Spot};
    ghost use Rattle.hpr_paths.specs.Successors.{AreSpots};
    ghost use Rattle.std.specs.Coded.{coded_list};
    ghost use Rattle.hpr_paths.specs.Private.SpotCode.{spot_coded};

    ghost Value = { List Spot };

    ghost coded = { coded_list spot_coded };

    ghost view = { λ s. s.spots.items };

    ghost invariant = { λ s. AreSpots s.spots.items };
}

impl Succ {
    pub(crate) fn new(spots: Vec<Spot>) -> Succ
        requires { AreSpots spots.items }
        ensures { result ≡ spots.items }
    {
        Succ { spots }
    }

    /// How many points there are: the parts, Enter and Exit.
    pub fn points(&self) -> usize
        ensures points { result ≡ length self.now }
        ensures sound { AreSpots self.now }
    {
        self.spots.len()
    }

    /// The steps from the point, which is below `points`: one from Enter, one from a part without
    /// blocks, two from a conditional (into its branches, the first block first) and from a loop (into
    /// its body, and on), none from Exit. A step into an empty block leads to what follows it.
    pub fn next(&self, point: usize) -> &[Step]
        requires { point < length self.now }
        ensures next { result.now ≡ next_at self.now point }
        ensures within { All (λ s. s.to < length self.now) result.now }
    {
        let spot = &self.spots[point];
        &spot.next
    }

    /// The loops that enclose the point, which is below `points`, from the outermost on. A loop's
    /// predicate has its own loop as the last.
    pub fn nest(&self, point: usize) -> &[usize]
        requires { point < length self.now }
        ensures nest { result.now ≡ nest_at self.now point }
        ensures within { All (λ w. w < length self.now) result.now }
        ensures sound { AreSpots self.now }
    {
        let spot = &self.spots[point];
        &spot.nest
    }

    /// The tag of the part at the point, which is below `points`: none exactly at Enter and at Exit.
    pub fn tag(&self, point: usize) -> Option<Tag>
        requires { point < length self.now }
        ensures tag { result ≡ tag_at self.now point }
        ensures none { (result ≡ None) ↔ ((point ≡ 0) ⊎ (point + 1 ≡ length self.now)) }
    {
        let spot = &self.spots[point];
        match &spot.role {
            Role::Enter => None,
            Role::Part(tag, _) => Some(*tag),
            Role::Exit(_) => None,
        }
    }

    /// The name that the part at the point, which is below `points`, defines: none exactly at
    /// predicates, at Enter and at Exit.
    pub fn defines(&self, point: usize) -> Option<&Name>
        requires { point < length self.now }
        ensures { option_copied result ≡ defined_at self.now point }
    {
        let spot = &self.spots[point];
        match &spot.role {
            Role::Part(_, content) => content.assigned(),
            _ => None,
        }
    }

    /// Whether the part at the point, which is below `points`, uses the name.
    /// Exit uses the names of `end`, and Enter none.
    pub fn uses(&self, point: usize, name: &Name) -> bool
        requires { point < length self.now }
        ensures { IsTrue result ↔ UsesAt self.now point name.now }
    {
        let spot = &self.spots[point];
        match &spot.role {
            Role::Enter => false,
            Role::Part(_, content) => content.uses(name),
            Role::Exit(finals) => has_name(finals, name),
        }
    }

    /// The names that the point, which is below `points`, uses, from left to right, each as often as
    /// it stands there, and behind them the stream where the point is a write, or the array where it is a
    /// store. Its one error is want of memory.
    pub fn used_names(&self, point: usize) -> Result<Vec<Name>, NoMemory>
        requires { point < length self.now }
        ensures names { IfOk result (λ names. names.items ≡ used_at self.now point) }
        ensures uses { IfOk result (λ names. (x : List ℕ) → Contains names.items x ↔ UsesAt self.now point x) }
    {
        let spot = &self.spots[point];
        names_of(*self.spots.allocator(), &spot.role)
    }
}

/// Whether the name is one of these.
fn has_name(names: &[Name], name: &Name) -> bool
    ensures { IsTrue result ↔ Contains names.now name.now }
{
    for one in names {
        if one.is_same(name) {
            return true;
        }
    }
    false
}
