//! Laws of calls.
ghost use Rattle.hpr_decisions.specs.Outcome.{OneDecision, HasDecision};

/// The words and the files make one decision, but that a search may go on past its budget of tries or
/// not. So how a call ends is determined by them, but for that choice, for reads and writes that fail
/// and for want of memory.
pub fn one_decision()
    ensures { OneDecision }
{}

/// Whatever the words and the files are, it can't be refuted that they make a decision: the definition of
/// outcomes leaves no case out, where the numbers of a request are in range, as they are in each that is
/// taken. It is a relation, and the logic is constructive, so it is said in this form.
pub fn has_decision()
    ensures { HasDecision }
{}
