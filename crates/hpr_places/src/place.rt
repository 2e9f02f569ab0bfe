//! Places of parts.

use hpr_terms::Tag;

/// Some bytes of a text, one behind the other.
#[derive(Clone, Copy, Debug, PartialEq, Eq)]
pub struct Place {
    /// The first of them, counted from 0.
    pub first: usize,
    /// How many there are.
    pub length: usize,
}

/// A part and where it stands.
#[derive(Clone, Copy, Debug, PartialEq, Eq)]
pub struct Placed {
    pub tag: Tag,
    pub place: Place,
}
