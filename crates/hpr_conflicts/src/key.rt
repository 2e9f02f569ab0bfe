//! What the conflicts of one group have in common, to be looked up by hash.
ghost use Rattle.std.specs.Prelude.{◌≡◌, IfOk};
ghost use Rattle.hpr_conflicts.specs.Private.Keys.{key_of, sort_of};

use hpr_graph::{Kind, ManyConflict, Name, NoMemory, Vertex};
use std::alloc::Global;
use std::hash::{Hash, Hasher};

/// The number of a variant and an edge.
#[derive(PartialEq, Eq)]
pub(crate) struct Key {
    variant: usize,
    to: Vertex,
    from: Vertex,
    sort: Sort,
}

/// The kind of an edge.
#[derive(PartialEq, Eq)]
pub(crate) enum Sort {
    Control(bool),
    Independent(Name),
    Carried(Name, Vertex),
    Order(Vertex),
}

/// A key is dropped in one call.
impl Drop for Key {
    fn drop(self) {
        let Key {
            variant: _,
            to: _,
            from: _,
            sort: _,
        } = self;
    }
}

/// A kind is dropped in one call.
impl Drop for Sort {
    fn drop(self) {
        match self {
            Sort::Control(_) => {}
            Sort::Independent(_) => {}
            Sort::Carried(_, _) => {}
            Sort::Order(_) => {}
        }
    }
}

/// A key is hashed by the number of the variant, the edge's ends, and its loop or shared use.
impl Hash for Key {
    ghost use Rattle.hpr_conflicts.specs.Private.Hashed.{hash_input, same_input};

    ghost hash_input = { hash_input };

    ghost respects_eq = { same_input };

    fn hash<H: Hasher>(&self, state: &mut H) {
        state.write_usize(self.variant);
        self.to.hash(state);
        self.from.hash(state);
        match &self.sort {
            Sort::Control(_) | Sort::Independent(_) => {}
            Sort::Carried(_, third) | Sort::Order(third) => third.hash(state),
        }
    }
}

/// The key of a conflict's group.
pub(crate) fn key_of(alloc: Global, conflict: &ManyConflict) -> Result<Key, NoMemory>
    ensures { IfOk result (λ k. k ≡ key_of conflict.now) }
{
    let edge = &conflict.edge;
    Ok(Key {
        variant: conflict.variant,
        to: edge.to.copy(alloc)?,
        from: edge.from.copy(alloc)?,
        sort: sort_of(alloc, &edge.kind)?,
    })
}

fn sort_of(alloc: Global, kind: &Kind) -> Result<Sort, NoMemory>
    ensures { IfOk result (λ s. s ≡ sort_of kind.now) }
{
    match kind {
        Kind::Control(label) => Ok(Sort::Control(*label)),
        Kind::Independent(name) => Ok(Sort::Independent(name.copy(alloc)?)),
        Kind::Carried(name, by) => Ok(Sort::Carried(name.copy(alloc)?, by.copy(alloc)?)),
        Kind::Order(used) => Ok(Sort::Order(used.copy(alloc)?)),
    }
}
