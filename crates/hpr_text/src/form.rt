//! Which texts are read.

/// Which texts are read.
#[derive(Clone, Copy)]
pub enum Mode {
    /// Each part has its tag, and there may be a header.
    Tagged,
    /// There are no tags and no header: the parts get the tags of this author from 1 on, in
    /// preorder. The author is at least 1.
    Untagged(u32),
}
