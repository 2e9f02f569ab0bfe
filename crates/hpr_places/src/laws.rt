//! Laws of places.
ghost use Rattle.hpr_places.specs.Laws.{TokensStand};

/// Where the tokens of a text have places, they are the tokens of the text, and the bytes at the place of each
/// spell it.
pub fn tokens_stand()
    ensures { TokensStand }
{}
