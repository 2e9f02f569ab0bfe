//! Real files beside a stream that is read as a file, as standard input is.
ghost use Rattle.std.specs.Prelude.{◌≡◌, ◌≤◌, ◌↔◌, true, None, codes, take, vec_len, IfOk, IfSome, IsErrOf, IsTrue};

use crate::{read_file, read_front};
use hpr_io::{FetchError, Shelf};
use std::alloc::Global;
use std::io::Read;
use std::rt::Files;

/// The files of the system, each by its path, and a stream under the name `-`. It serves every name. What was read of
/// the stream isn't there a second time.
#[derive(Drop)]
pub struct InputShelf<'a, R: Files, I: Read> {
    rt: &'a R,
    input: I,
    faults: u64,
}

impl<'a, R: Files, I: Read> InputShelf<'a, R, I> {
    /// A shelf that has not failed yet.
    pub fn new(rt: &'a R, input: I) -> Self
        ensures { result.faults ≡ 0 }
    {
        InputShelf {
            rt,
            input,
            faults: 0,
        }
    }
}

impl<R: Files, I: Read> Shelf for InputShelf<'_, R, I> {
    ghost files = { λ _. None };

    ghost serves = { λ _ _. true };

    ghost faults = { λ s. s.faults };

    fn fetch(&mut self, alloc: Global, name: &str, most: usize) -> Result<Vec<u8>, FetchError> {
        let answer = read_named(self.rt, &mut self.input, alloc, name, most);
        if has_failed(&answer) {
            self.faults = self.faults.saturating_add(1);
        }
        answer
    }
}

/// The front of the stream where the name is `-`, and else of the file at this path.
fn read_named<R: Files, I: Read>(
    rt: &R,
    input: &mut I,
    alloc: Global,
    name: &str,
    most: usize,
) -> Result<Vec<u8>, FetchError>
    ensures short { IfOk result (λ v. vec_len v ≤ most) }
    ensures stream { name.now ≡ codes "-" → IfOk result (λ v.
        IfSome (I.remaining input.old) (λ xs. v.items ≡ take most xs)) }
{
    if name == "-" {
        return read_front(input, alloc, most);
    }
    read_file(rt, alloc, name, most)
}

/// Whether a read failed, and not for want of memory.
fn has_failed(answer: &Result<Vec<u8>, FetchError>) -> bool
    ensures { IsTrue result ↔ IsErrOf answer.now FetchError.Failed }
{
    match answer {
        Ok(_) => false,
        Err(FetchError::Failed) => true,
        Err(FetchError::Memory) => false,
    }
}
