//! Laws of the tags that a text gets.
ghost use Rattle.hpr_tagging.specs.Gaps.{FilledGaps};
ghost use Rattle.hpr_tagging.specs.Laws.{ChangesInOrder, NewSerials, TaggedStays};

/// What is put into a text, and the number of the header that gives way, stand in the order of the text,
/// one behind the other, and within it.
pub fn changes_in_order()
    ensures { ChangesInOrder }
{}

/// The tags that are put in have the serials behind the greatest that the author has in the text, one for
/// each part without a tag, in the order of the text.
pub fn new_serials()
    ensures { NewSerials }
{}

/// A text without such a part stays as it is.
pub fn tagged_stays()
    ensures { TaggedStays }
{}

/// Where a part has no tag is told by three lexemes: in parts of the grammar in which tags may be left out, a
/// tag is put in exactly where one is left out, the serials follow one another in preorder, and the tokens
/// that come out spell the parts in the tagged form. Every other token stays.
pub fn filled_gaps()
    ensures { FilledGaps }
{}
