//! Laws of texts.
ghost use Rattle.hpr_text.specs.Contents.{OneContent};
ghost use Rattle.hpr_text.specs.Spelled.{OneTree, TagsInOrder};

/// Bytes spell at most one tree in one form.
pub fn one_tree()
    ensures { OneTree }
{}

/// The parts of an untagged text have the author's tags from 1 on, in preorder, and the issued
/// numbers are the author with the number of parts, or none where there are no parts.
pub fn tags_in_order()
    ensures { TagsInOrder }
{}

/// Bytes are the text of at most one content.
pub fn one_content()
    ensures { OneContent }
{}
