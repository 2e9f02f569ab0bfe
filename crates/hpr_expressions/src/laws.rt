//! The laws of readings.
ghost use Rattle.hpr_expressions.specs.Read.{ReadAsSpelled, ReadAsSpelledAfter};

/// The tokens that lead from the start to a reading that can end with an expression are exactly
/// those that the grammar spells that expression with.
pub fn read_as_spelled()
    ensures { ReadAsSpelled }
{}

/// The same where operators stand before the expression that count together with its own, at most
/// 256 of them in all. A reading that can end counts them all.
pub fn read_as_spelled_after()
    ensures { ReadAsSpelledAfter }
{}
