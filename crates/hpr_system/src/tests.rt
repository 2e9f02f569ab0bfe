//! The edges on real files, and on a reader and a writer that are interrupted and fail in mid-stream.
ghost use Rattle.std.specs.Prelude.{◌≤◌, IfOk};

use super::{FileShelf, StdSink, read_front};
use hpr_io::{FetchError, PutError, Shelf, Sink, put_all};
use std::io::{ErrorKind, Read, Write};
use std::test::Fail;
use std::{fs, io};

// Whether these bytes are fetched of a real file with this name that holds `hello`.
fn fetches(rt: &HostRuntime, name: &str, most: usize, front: &[u8]) -> Result<bool, Fail> {
    fs::write(rt, name, "hello")?;
    let is_front = match FileShelf::new(rt).fetch(rt.alloc(), name, most) {
        Ok(bytes) => bytes.as_slice() == front,
        Err(_) => false,
    };
    fs::remove_file(rt, name)?;
    Ok(is_front)
}

#[test]
fn fetches_a_whole_file(rt: HostRuntime) -> Result<(), Fail> {
    assert!(rt; fetches(&rt, "hpr_whole_test.tmp", 9, b"hello")?);
    Ok(())
}

#[test]
fn fetches_the_front_of_a_file(rt: HostRuntime) -> Result<(), Fail> {
    assert!(rt; fetches(&rt, "hpr_front_test.tmp", 2, b"he")?);
    Ok(())
}

// Whether a fetch of this file fails.
fn fails(rt: &HostRuntime, shelf: &mut FileShelf<'_, HostRuntime>, name: &str) -> bool {
    matches!(shelf.fetch(rt.alloc(), name, 9), Err(FetchError::Failed))
}

#[test]
fn counts_failed_fetches(rt: HostRuntime) {
    let mut shelf = FileShelf::new(&rt);
    assert!(rt; fails(&rt, &mut shelf, "hpr_absent_test.tmp"));
    assert!(rt; fails(&rt, &mut shelf, "."));
    assert_eq!(rt; shelf.faults, 2);
}

// Whether a new file of this name takes two pieces.
fn takes_two(rt: &HostRuntime, name: &str) -> io::Result<bool> {
    let mut sink = StdSink::new(fs::create(rt, name)?);
    let done = put_all(&mut sink, b"hel").is_ok() && put_all(&mut sink, b"lo").is_ok();
    Ok(done && sink.faults == 0)
}

#[test]
fn puts_to_a_real_file(rt: HostRuntime) -> Result<(), Fail> {
    let name = "hpr_put_test.tmp";
    assert!(rt; takes_two(&rt, name)?);
    let text = fs::read_to_string(&rt, name)?;
    fs::remove_file(&rt, name)?;
    assert_eq!(rt; text.as_str(), "hello");
    Ok(())
}

// Whether a put to this file, which is open to be read, fails and is counted.
fn counts_put(rt: &HostRuntime, name: &str) -> io::Result<bool> {
    let mut closed = StdSink::new(fs::open(rt, name)?);
    let refused = closed.put(b"x");
    Ok(refused == Err(PutError::Failed) && closed.faults == 1)
}

#[test]
fn counts_a_failed_put(rt: HostRuntime) -> Result<(), Fail> {
    let name = "hpr_closed_test.tmp";
    fs::write(&rt, name, "")?;
    let is_counted = counts_put(&rt, name)?;
    fs::remove_file(&rt, name)?;
    assert!(rt; is_counted);
    Ok(())
}

// Gives and takes two bytes at every second call, and is interrupted at the others. The call `fails` fails, and no other.
#[derive(Drop)]
struct Rough {
    calls: u32,
    fails: u32,
}

impl Rough {
    fn failing(fails: u32) -> Rough {
        Rough { calls: 0, fails }
    }

    fn step(&mut self, room: usize) -> io::Result<usize>
        ensures { IfOk result (λ n. n ≤ room) }
    {
        self.calls = self.calls.saturating_add(1);
        if self.calls == self.fails {
            return Err(io::Error::from(ErrorKind::Other));
        }
        if self.calls % 2 == 1 {
            return Err(io::Error::from(ErrorKind::Interrupted));
        }
        Ok(room.min(2))
    }
}

impl Read for Rough {
    fn read(&mut self, buffer: &mut [u8]) -> io::Result<usize> {
        self.step(buffer.len())
    }
}

impl Write for Rough {
    fn write(&mut self, piece: &[u8]) -> io::Result<usize> {
        self.step(piece.len())
    }

    fn flush(&mut self) -> io::Result<()> {
        Ok(())
    }
}

#[test]
fn reads_on_after_an_interruption(rt: HostRuntime) -> Result<(), Fail> {
    let bytes = read_front(&mut Rough::failing(100), rt.alloc(), 5)?;
    assert_eq!(rt; bytes.len(), 5);
    Ok(())
}

#[test]
fn stops_at_a_failed_read(rt: HostRuntime) {
    let cause = read_front(&mut Rough::failing(4), rt.alloc(), 5).err();
    assert!(rt; cause == Some(FetchError::Failed));
}

#[test]
fn stops_at_a_failed_write(rt: HostRuntime) {
    let mut sink = StdSink::new(Rough::failing(4));
    let answer = put_all(&mut sink, b"abc");
    assert!(rt; answer == Err(PutError::Failed) && sink.faults == 1);
}
