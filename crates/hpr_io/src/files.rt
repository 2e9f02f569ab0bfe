//! Looking a file up by its name, and copying its front.
ghost use Rattle.std.specs.Prelude.{◌≡◌, take, IfOk, IsOkUnless};
ghost use Rattle.std.specs.Option.{option_copied};
ghost use Rattle.hpr_io.specs.Files.{files_in, lookup};

use crate::FetchError;
use std::alloc::Global;

/// The bytes of the first file with this name.
pub fn file_bytes<'a>(files: &'a [(String, Vec<u8>)], name: &str) -> Option<&'a [u8]>
    ensures { option_copied result ≡ lookup (files_in files.entry.now) name.now }
{
    for (known, bytes) in files {
        if known.as_str() == name {
            return Some(bytes.as_slice());
        }
    }
    None
}

/// The first `most` bytes, or all where there are fewer.
pub fn front_of(alloc: Global, bytes: &[u8], most: usize) -> Result<Vec<u8>, FetchError>
    ensures front { IfOk result (λ v. v.items ≡ take most bytes.now) }
    ensures memory { IsOkUnless result FetchError.Memory }
{
    let front = &bytes[..most.min(bytes.len())];
    match Vec::from_slice(alloc, front) {
        Ok(bytes) => Ok(bytes),
        Err(_) => Err(FetchError::Memory),
    }
}
