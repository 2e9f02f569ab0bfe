//! Laws of what is told.
ghost use Rattle.hpr_data.specs.Printed.{DecidedIsFound, FoundIsDecided};

/// What comes of one of the five commands is what hpr decides on it, conflict for conflict, unless a text that
/// it comes to read isn't there.
pub fn found_is_decided()
    ensures { FoundIsDecided }
{}

/// What hpr decides on one of the five commands comes of it, where all texts that it names are there.
pub fn decided_is_found()
    ensures { DecidedIsFound }
{}
