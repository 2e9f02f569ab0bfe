//! Real files and streams, which tell nothing of their content. Nothing is proved of what the system itself does.
#![tactic(auto)]

ghost use Rattle.std.specs.Prelude.{◌≡◌, ◌<◌, ◌≤◌, ◌↔◌, true, None, length, take, vec_len, IfOk, IfErr, IfSome, IsErr, IsErrOf, IsTrue};
ghost use Rattle.std.specs.IoError.{error_kind};
ghost use Rattle.hpr_io.specs.Counts.{Counted};
ghost use Rattle.std.specs.Io.KnownBytes.{ReadConsumes, WriteAppends};

use hpr_io::{FetchError, PutError, Shelf, Sink};
use std::alloc::Global;
use std::io::{ErrorKind, Read, Write};
use std::marker::Model;
use std::rt::Files;
use std::{fs, io};

mod input;
#[cfg(test)]
mod tests;

pub use input::InputShelf;

// How often a call that a signal interrupts is made, the first time included.
const TRIES: u32 = 64;

// How many bytes a read asks for at most.
const BUFFER: usize = 4096;

/// The files of the system, each by its path. It serves every name. A contract sees it as the number of its failures.
#[derive(Drop)]
pub struct FileShelf<'a, R: Files> {
    rt: &'a R,
    faults: u64,
}

impl<'a, R: Files> Model for FileShelf<'a, R> {
    ghost use Rattle.std.specs.Prelude.{ℕ};

    ghost Value = { ℕ };

    ghost view = { λ s. s.faults };
}

impl<'a, R: Files> FileShelf<'a, R> {
    /// A shelf that has not failed yet.
    pub fn new(rt: &'a R) -> Self
        ensures { result ≡ 0 }
    {
        FileShelf { rt, faults: 0 }
    }
}

impl<R: Files> Shelf for FileShelf<'_, R> {
    ghost files = { λ _. None };

    ghost serves = { λ _ _. true };

    ghost faults = { λ s. s };

    fn fetch(&mut self, alloc: Global, name: &str, most: usize) -> Result<Vec<u8>, FetchError> {
        match read_file(self.rt, alloc, name, most) {
            Ok(bytes) => Ok(bytes),
            Err(FetchError::Memory) => Err(FetchError::Memory),
            Err(FetchError::Failed) => {
                self.faults = self.faults.saturating_add(1);
                Err(FetchError::Failed)
            }
        }
    }
}

// The front of the file at this path.
fn read_file<R: Files>(
    rt: &R,
    alloc: Global,
    name: &str,
    most: usize,
) -> Result<Vec<u8>, FetchError>
    ensures { IfOk result (λ v. vec_len v ≤ most) }
{
    read_opened(fs::open(rt, name), alloc, most)
}

/// The first `most` bytes of what was opened, or all where it has fewer. What was not opened is not read as empty.
fn read_opened<R: Read + Drop>(
    opened: io::Result<R>,
    alloc: Global,
    most: usize,
) -> Result<Vec<u8>, FetchError>
    ensures short { IfOk result (λ v. vec_len v ≤ most) }
    ensures front { IfOk opened (λ file. IfOk result (λ v. IfSome (R.remaining file) (λ xs. v.items ≡ take most xs))) }
    ensures unopened { IfErr opened (λ _. IsErr result) }
    ensures cause { IfErr opened (λ error. IsErrOf result FetchError.Memory
        ↔ (error_kind error ≡ ErrorKind.OutOfMemory)) }
{
    match opened {
        Ok(mut file) => read_front(&mut file, alloc, most),
        Err(error) => Err(cause_of(&error)),
    }
}

/// The first `most` bytes that the reader has left, or all where it has fewer.
fn read_front<R: Read>(reader: &mut R, alloc: Global, most: usize) -> Result<Vec<u8>, FetchError>
    ensures short { IfOk result (λ v. vec_len v ≤ most) }
    ensures front { IfOk result (λ v. IfSome (R.remaining reader.old) (λ xs. v.items ≡ take most xs)) }
{
    let mut bytes = Vec::new(alloc);
    let mut buffer = [0u8; BUFFER];
    while bytes.len() < most {
        let want = buffer.len().min(most - bytes.len());
        let count = match read_some(reader, &mut buffer[..want]) {
            Ok(count) => count,
            Err(error) => return Err(cause_of(&error)),
        };
        if count == 0 {
            return Ok(bytes);
        }
        if bytes.extend_from_slice(&buffer[..count]).is_err() {
            return Err(FetchError::Memory);
        }
    }
    Ok(bytes)
}

// A read, made again where it is interrupted.
fn read_some<R: Read>(reader: &mut R, buffer: &mut [u8]) -> io::Result<usize>
    ensures within { IfOk result (λ n. n ≤ length buffer.new) }
    ensures bytes { ReadConsumes (R.remaining reader.old) (R.remaining reader.new) result buffer.new }
{
    for _ in 1..TRIES {
        let answer = reader.read(buffer);
        if !is_interrupted(&answer) {
            return answer;
        }
    }
    reader.read(buffer)
}

// Whether a read or a write failed by an interruption, so that it is made again.
fn is_interrupted(answer: &io::Result<usize>) -> bool
    ensures { IsTrue result → IsErr answer.now }
{
    match answer {
        Ok(_) => false,
        Err(error) => error.kind() == ErrorKind::Interrupted,
    }
}

// Want of memory in the system is want of memory here, and every other error is a failed read.
fn cause_of(error: &io::Error) -> FetchError
    ensures { (result ≡ FetchError.Memory) ↔ (error_kind error.now ≡ ErrorKind.OutOfMemory) }
{
    match error.kind() {
        ErrorKind::OutOfMemory => FetchError::Memory,
        _ => FetchError::Failed,
    }
}

/// A stream of the system, with the number of its failures.
#[derive(Drop)]
pub struct StdSink<W: Write> {
    stream: W,
    faults: u64,
}

impl<W: Write> StdSink<W> {
    /// A sink that has not failed yet.
    pub fn new(stream: W) -> Self
        ensures stream { result.stream ≡ stream }
        ensures faults { result.faults ≡ 0 }
    {
        StdSink { stream, faults: 0 }
    }
}

impl<W: Write> Sink for StdSink<W> {
    ghost taken = { λ _. None };

    ghost faults = { λ s. s.faults };

    // What the stream holds of the piece is what the answer tells, where the stream tells what it holds.
    fn put(&mut self, piece: &[u8]) -> Result<usize, PutError>
        ensures within { IfOk result (λ n. n ≤ length piece.now) }
        ensures moves { IfOk result (λ n. 0 < length piece.now → 0 < n) }
        ensures bytes { WriteAppends (W.contents self.old.stream) (W.contents self.new.stream) result piece.now }
        ensures count { Counted self.old.faults self.new.faults (IsErr result) }
    {
        let answer = put_on(&mut self.stream, piece);
        if answer.is_err() {
            self.faults = self.faults.saturating_add(1);
        }
        answer
    }
}

/// Writes bytes from the front of the piece, and answers how many the stream took: at least one where the piece is not
/// empty. A write that takes none of them has failed, as has one that is interrupted each time.
fn put_on<W: Write>(stream: &mut W, piece: &[u8]) -> Result<usize, PutError>
    ensures within { IfOk result (λ n. n ≤ length piece.now) }
    ensures moves { IfOk result (λ n. 0 < length piece.now → 0 < n) }
    ensures bytes { WriteAppends (W.contents stream.old) (W.contents stream.new) result piece.now }
{
    match write_some(stream, piece) {
        Ok(count) if count > 0 || piece.is_empty() => Ok(count),
        _ => Err(PutError::Failed),
    }
}

// A write, made again where it is interrupted.
fn write_some<W: Write>(stream: &mut W, piece: &[u8]) -> io::Result<usize>
    ensures within { IfOk result (λ n. n ≤ length piece.now) }
    ensures bytes { WriteAppends (W.contents stream.old) (W.contents stream.new) result piece.now }
{
    for _ in 1..TRIES {
        let answer = stream.write(piece);
        if !is_interrupted(&answer) {
            return answer;
        }
    }
    stream.write(piece)
}
