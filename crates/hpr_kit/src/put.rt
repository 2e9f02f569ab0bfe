//! Puts bytes at the end of a text.
ghost use Rattle.std.specs.Prelude.{◌≡◌, ◌++◌, OnOk, map, replicate};
ghost use Rattle.hpr_kit.specs.Shown as spec;

use hpr_syntax::NoMemory;

/// Puts the bytes at the end.
pub(crate) fn put(text: &mut Vec<u8>, bytes: &[u8]) -> Result<(), NoMemory>
    ensures { OnOk result (text.new.items ≡ text.old.items ++ bytes.now) }
{
    text.extend_from_slice(bytes)?;
    Ok(())
}

/// Puts so many blanks at the end.
pub(crate) fn put_blanks(text: &mut Vec<u8>, count: usize) -> Result<(), NoMemory>
    ensures { OnOk result (text.new.items ≡ text.old.items ++ replicate count 32) }
{
    for _ in 0..count {
        put(text, b" ")?;
    }
    Ok(())
}

/// Puts the bytes at the end as they are shown.
pub(crate) fn put_shown(text: &mut Vec<u8>, bytes: &[u8]) -> Result<(), NoMemory>
    ensures { OnOk result (text.new.items ≡ text.old.items ++ map spec.shown bytes.now) }
{
    for byte in bytes {
        put(text, &[shown(*byte)])?;
    }
    Ok(())
}

/// A byte as it is shown: a blank for a control byte, and `?` for one that is not of ASCII.
fn shown(byte: u8) -> u8
    ensures { result ≡ spec.shown byte }
{
    if byte < 32 {
        b' '
    } else if byte < 127 {
        byte
    } else {
        b'?'
    }
}
