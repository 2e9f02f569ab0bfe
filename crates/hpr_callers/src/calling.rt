//! Two calls of the program on one shelf.
ghost use Rattle.std.specs.Prelude.{◌≡◌, ℕ, List, All, IsTrue};
ghost use Rattle.hpr_decisions.specs.Asked.{Took, WhereAsked, asked_by};
ghost use Rattle.hpr_decisions.specs.Reads.{files_of_taken};
ghost use Rattle.hpr_decisions.specs.Theorem.{KeepsMeaning};

use hpr_app::{Status, hpr};
use hpr_io::{MemoryShelf, MemorySink, Shelf, Sink, SteadySink};
use std::alloc::Global;

/// Makes two calls on one shelf, each with an output of its own. What either prints as a merge keeps the meaning of the
/// programs in the files that the shelf told before the first.
fn call_twice<S: Shelf, O: Sink, E: Sink>(
    alloc: Global,
    first: &[String],
    second: &[String],
    shelf: &mut S,
    first_out: &mut O,
    second_out: &mut O,
    err: &mut E,
) -> (Status, Status)
    requires first { All (λ name. IsTrue (S.serves shelf.old name)) (files_of_taken (asked_by first.now)) }
    requires second { All (λ name. IsTrue (S.serves shelf.old name)) (files_of_taken (asked_by second.now)) }
    ensures first { WhereAsked first.now (S.files shelf.old) (λ asked files. result.0 ≡ Status.Done
        → Took (O.taken first_out.old) (O.taken first_out.new) (KeepsMeaning asked files)) }
    ensures second { WhereAsked second.now (S.files shelf.old) (λ asked files. result.1 ≡ Status.Done
        → Took (O.taken second_out.old) (O.taken second_out.new) (KeepsMeaning asked files)) }
    ensures same_files { S.files shelf.new ≡ S.files shelf.old }
    ensures same_names { (n : List ℕ) → S.serves shelf.new n ≡ S.serves shelf.old n }
{
    let first_status = hpr(alloc, first, shelf, first_out, err);
    let second_status = hpr(alloc, second, shelf, second_out, err);
    (first_status, second_status)
}

/// What is printed of base and both variants from files in memory, with the variants in their order and in the other.
pub(crate) fn merged_both_ways(
    alloc: Global,
    base: &[u8],
    a: &[u8],
    b: &[u8],
) -> Option<(MemorySink, MemorySink)> {
    let mut shelf = shelf_of(alloc, &[("BASE", base), ("A", a), ("B", b)])?;
    let first = words_of(alloc, "integrate BASE A B")?;
    let second = words_of(alloc, "integrate BASE B A")?;
    let mut first_out = sink(alloc)?;
    let mut second_out = sink(alloc)?;
    call_twice(
        alloc,
        first.as_slice(),
        second.as_slice(),
        &mut shelf,
        &mut first_out,
        &mut second_out,
        &mut SteadySink::new(),
    );
    Some((first_out, second_out))
}

// A shelf of these files.
fn shelf_of(alloc: Global, files: &[(&str, &[u8])]) -> Option<MemoryShelf> {
    let mut copies = Vec::new(alloc);
    for (name, bytes) in files {
        copies.push(copy_of(alloc, name, bytes)?).ok()?;
    }
    Some(MemoryShelf::new(copies, Vec::new(alloc)))
}

fn copy_of(alloc: Global, name: &str, bytes: &[u8]) -> Option<(String, Vec<u8>)> {
    let name = String::from_str(alloc, name).ok()?;
    let bytes = Vec::from_slice(alloc, bytes).ok()?;
    Some((name, bytes))
}

// The words of a line.
fn words_of(alloc: Global, line: &str) -> Option<Vec<String>> {
    let mut words = Vec::new(alloc);
    for piece in line.split_whitespace() {
        words.push(String::from_str(alloc, piece).ok()?).ok()?;
    }
    Some(words)
}

// A sink that takes all of a text.
fn sink(alloc: Global) -> Option<MemorySink> {
    MemorySink::new(alloc, 4096, 65536, Vec::new(alloc)).ok()
}
