//! The conflicts of an integration.
use crate::{Edge, Vertex};

/// One of the two variants.
#[derive(Clone, Copy)]
pub enum Side {
    A,
    B,
}

/// An affected point of one variant that hasn't its slice in the merged graph (Horwitz, Prins and Reps
/// 1989), with an edge that shows it: the least edge that the merged graph adds to the slice and that
/// ends in one of its vertices (they name none).
pub struct Conflict {
    pub side: Side,
    pub point: Vertex,
    pub edge: Edge,
}

/// A conflict is dropped in one call.
impl Drop for Conflict {
    fn drop(self) {
        let Conflict {
            side: _,
            point: _,
            edge: _,
        } = self;
    }
}

/// The same of one of any number of variants, which is told by its number.
pub struct ManyConflict {
    /// The number of the variant, from 1.
    pub variant: usize,
    pub point: Vertex,
    pub edge: Edge,
}

/// A conflict is dropped in one call.
impl Drop for ManyConflict {
    fn drop(self) {
        let ManyConflict {
            variant: _,
            point: _,
            edge: _,
        } = self;
    }
}
