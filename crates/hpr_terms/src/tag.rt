//! Tags.

use std::fmt;

/// The lasting tag of a part: who made it, and the number under which that author issued it.
///
/// Author 0 is kept for the product. A serial in a program is at least 1.
#[derive(Clone, Copy, Debug, PartialEq, Eq, PartialOrd, Ord)]
pub struct Tag {
    pub author: u32,
    pub serial: u32,
}

/// A tag is written as its author, a dot and its serial: `1.2`.
impl fmt::Display for Tag {
    ghost use Rattle.std.specs.Prelude.{Some};
    ghost use Rattle.hpr_terms.specs.Texts.{tag_text};

    ghost output = { λ t. Some (tag_text t) };

    #[tactic(auto, unfolding(crate::specs::Texts::tag_text))]
    fn fmt<W: fmt::Write>(&self, f: &mut fmt::Formatter<W>) -> fmt::Result {
        let author = self.author;
        let serial = self.serial;
        write!(f, "{author}.{serial}")
    }
}
