//! The tables of a forest.

ghost use Rattle.std.specs.Prelude.{◌≡◌, ℕ, ◌<◌, List, vec_len, slice_get};
ghost use Rattle.hpr_forest.specs.Forest.{IsForest, can};
ghost use Rattle.hpr_forest.specs.Blocks.{forest_in, row_at, parent_at};

use crate::Choices;

/// A forest of items, numbered from 0, by tables: what each stands under, what stands under it, and which of its
/// siblings must come before it.
pub struct Blocks {
    pub parents: Vec<Option<usize>>,
    pub children: Vec<Vec<usize>>,
    pub before: Vec<Vec<usize>>,
    ghost rows: { vec_len children ≡ vec_len parents },
    ghost befores: { vec_len before ≡ vec_len parents },
    ghost forest: { IsForest (forest_in parents.items children.items before.items) },
}

// By hand, so that each way out of a function that holds a forest is one call.
impl Drop for Blocks {
    fn drop(self) {
        let Blocks {
            parents: _,
            children: _,
            before: _,
        } = self;
    }
}

impl Blocks {
    /// The forest that the tables give, each with a row for each item. Takes no memory.
    pub fn new(
        parents: Vec<Option<usize>>,
        children: Vec<Vec<usize>>,
        before: Vec<Vec<usize>>,
    ) -> Blocks
        requires rows { vec_len children ≡ vec_len parents }
        requires befores { vec_len before ≡ vec_len parents }
        requires forest { IsForest (forest_in parents.items children.items before.items) }
        ensures parents { result.parents ≡ parents }
        ensures children { result.children ≡ children }
        ensures before { result.before ≡ before }
    {
        Blocks {
            parents,
            children,
            before,
        }
    }

    /// What stands under the item.
    pub fn children_of(&self, item: usize) -> &[usize]
        requires { item < vec_len self.now.parents }
        ensures row { result.now ≡ row_at (slice_get self.now.children.items item) }
    {
        &self.children[item]
    }

    /// The siblings that must come before the item.
    pub fn before_of(&self, item: usize) -> &[usize]
        requires { item < vec_len self.now.parents }
        ensures row { result.now ≡ row_at (slice_get self.now.before.items item) }
    {
        &self.before[item]
    }

    /// What the item stands under; `None` at the top.
    pub fn parent_of(&self, item: usize) -> Option<usize>
        requires { item < vec_len self.now.parents }
        ensures { result ≡ parent_at (slice_get self.now.parents.items item) }
    {
        self.parents[item]
    }
}

impl Choices for Blocks {
    ghost size = { λ b. vec_len b.parents };

    ghost can = { λ b. can (forest_in b.parents.items b.children.items b.before.items) };

    fn size(&self) -> usize {
        self.parents.len()
    }

    fn next_child(&self, marks: &[bool], placed: &[usize], from: usize) -> Option<usize> {
        self.next_open(marks, placed, from)
    }
}
