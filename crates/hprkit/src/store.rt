//! The files of the system, of which each gets other bytes by a new file that takes its place, so that no moment has
//! neither. Nothing is proved of what the system itself does.
ghost use Rattle.std.specs.Prelude.{◌≡◌, ◌↔◌, None, IsErrOf, IsTrue};

use hpr_io::{FetchError, Shelf};
use hpr_kit::{RewriteError, Store};
use hpr_system::FileShelf;
use std::alloc::Global;
use std::fs::{self, File, OpenFile, Permissions};
use std::io::{self, ErrorKind, Write};
use std::rt::Files;

// How many names are tried for a new file.
const NAMES: u32 = 64;

/// The files of the system, each by its path. A path that is a link means the file to which it leads. A file keeps its
/// permissions; what gets no bytes keeps its own.
#[derive(Drop)]
pub struct FileStore<'a, R: Files> {
    rt: &'a R,
    faults: u64,
}

impl<'a, R: Files> FileStore<'a, R> {
    /// A store that has not failed yet.
    pub fn new(rt: &'a R) -> Self
        ensures { result.faults ≡ 0 }
    {
        FileStore { rt, faults: 0 }
    }
}

impl<R: Files> Store for FileStore<'_, R> {
    ghost rewritten = { λ _. None };

    ghost faults = { λ s. s.faults };

    fn rewrite(
        &mut self,
        alloc: Global,
        name: &str,
        had: &[u8],
        bytes: &[u8],
    ) -> Result<(), RewriteError> {
        let answer = told(&replace(self.rt, alloc, name, had, bytes));
        if has_failed(&answer) {
            self.faults = self.faults.saturating_add(1);
        }
        answer
    }
}

// Want of memory in the system is want of memory here, and every other error is a failed write.
fn told(answer: &io::Result<()>) -> Result<(), RewriteError> {
    match answer {
        Ok(()) => Ok(()),
        Err(error) if error.kind() == ErrorKind::OutOfMemory => Err(RewriteError::Memory),
        Err(_) => Err(RewriteError::Failed),
    }
}

fn has_failed(answer: &Result<(), RewriteError>) -> bool
    ensures { IsTrue result ↔ IsErrOf answer.now RewriteError.Failed }
{
    match answer {
        Ok(()) => false,
        Err(RewriteError::Failed) => true,
        Err(RewriteError::Memory) => false,
    }
}

// Gives the file at this path other bytes than it had.
fn replace<R: Files>(
    rt: &R,
    alloc: Global,
    name: &str,
    had: &[u8],
    bytes: &[u8],
) -> io::Result<()> {
    let path = rt.canonicalize(alloc, name)?;
    let kept = fs::metadata(rt, path.as_str())?;
    if !kept.is_file() {
        return Err(io::Error::from(ErrorKind::InvalidInput));
    }
    let (beside, file) = create_beside(rt, alloc, path.as_str())?;
    let filled = fill::<R>(file, bytes, kept.permissions());
    let moved = match filled {
        Ok(()) => move_over(rt, alloc, beside.as_str(), path.as_str(), had),
        Err(error) => Err(error),
    };
    if moved.is_err() {
        let _removed = fs::remove_file(rt, beside.as_str());
    }
    moved
}

// A new file beside the one at this path, and its path.
fn create_beside<R: Files>(rt: &R, alloc: Global, path: &str) -> io::Result<(String, R::File)> {
    for number in 0..NAMES {
        let beside = format!(in alloc; "{path}.hprkit{number}")?;
        match File::create_new(rt, beside.as_str()) {
            Ok(file) => return Ok((beside, file)),
            Err(error) if error.kind() == ErrorKind::AlreadyExists => {}
            Err(error) => return Err(error),
        }
    }
    Err(io::Error::from(ErrorKind::AlreadyExists))
}

// Writes the bytes of a new file, and waits until the system has them.
fn fill<R: Files>(mut file: R::File, bytes: &[u8], permissions: Permissions) -> io::Result<()> {
    file.set_permissions(permissions)?;
    file.write_all(bytes)?;
    file.sync_all()
}

// Puts a file in the place of another one that still has these bytes.
fn move_over<R: Files>(rt: &R, alloc: Global, from: &str, to: &str, had: &[u8]) -> io::Result<()> {
    match FileShelf::new(rt).fetch(alloc, to, had.len().saturating_add(1)) {
        Ok(bytes) if bytes.as_slice() == had => fs::rename(rt, from, to),
        Ok(_) => Err(io::Error::from(ErrorKind::Other)),
        Err(FetchError::Failed) => Err(io::Error::from(ErrorKind::Other)),
        Err(FetchError::Memory) => Err(io::Error::from(ErrorKind::OutOfMemory)),
    }
}
