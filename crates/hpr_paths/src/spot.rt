//! Points with what is known of them.
use hpr_syntax::Content;
use hpr_terms::{Name, Tag};
use std::marker::Model;

/// A step from a point: where it leads, and whether it is the back edge of a loop.
///
/// A back edge leads to the predicate of the loop.
#[derive(Clone, Copy)]
pub struct Step {
    pub to: usize,
    pub back: bool,
}

/// What stands at a point.
#[derive(Drop)]
pub(crate) enum Role {
    Enter,
    Part(Tag, Content),
    /// The names of `end`.
    Exit(Vec<Name>),
}

/// A point: its steps, the loops that enclose it from the outermost on, and what stands there.
pub(crate) struct Spot {
    pub(crate) next: Vec<Step>,
    pub(crate) nest: Vec<usize>,
    pub(crate) role: Role,
}

// By hand, so that each way out of a function that holds a point is one call.
impl Drop for Spot {
    fn drop(self) {
        let Spot {
            next: _,
            nest: _,
            role: _,
        } = self;
    }
}

impl Model for Spot {
    ghost use Rattle.hpr_paths.specs.Spots as spots;
    ghost use Rattle.hpr_paths.specs.Private.SpotCode.{spot_coded};

    ghost Value = { spots.Spot };

    ghost coded = { spot_coded };

    ghost use Rattle.hpr_paths.specs.Roles.{role_of};

    ghost view = { λ s. record { next = s.next.items; nest = s.nest.items; role = role_of s.role } };
}
