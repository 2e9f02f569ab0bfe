//! Laws of refusals.
ghost use Rattle.hpr_refusals.specs.Refusals.{OneReading};

/// A file either spells one program or is refused with one message, and so in the untagged form of
/// any author; a file either spells one script or is refused with one message.
pub fn one_reading()
    ensures { OneReading }
{}
