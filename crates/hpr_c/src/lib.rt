//! The top call for callers in C and in languages that call C, and what tells its answers as data: words and
//! files are handed in as bytes, and the texts go into rooms of the caller. No file, no stream and no state of
//! the process is touched.
//!
//! Nothing is asked of the bytes, lengths and names. What a caller owes beside that, of pointers and of
//! memory, stands in c/hpr.h.
#![tactic(auto)]

mod call;
mod kept_sink;
mod line;
mod packed;
mod parts;

ghost use Rattle.std.specs.Prelude.{◌≡◌, ◌≤◌, ◌⊎◌, ℕ, List, [], Some, length, map, string_bytes, IfOk, IsErrOf};
ghost use Rattle.hpr_io.specs.Files.{Files, files_in};
ghost use Rattle.hpr_words.specs.Request.{Request, Text};
ghost use Rattle.hpr_words.specs.Taken.{taken};
ghost use Rattle.hpr_decisions.specs.Statuses.{DoesIntegrate};
ghost use Rattle.hpr_decisions.specs.Theorem.{IsMergedText};
ghost use Rattle.hpr_data.specs.Told.{TellsKept};
ghost use Rattle.hpr_c.specs.Call.{HandsOut, Puts, Tells, TellsNothing, TellsOver, put_front};
ghost use Rattle.hpr_c.specs.Data.{HandsOne, TellsData, TellsNoData};
ghost use Rattle.hpr_c.specs.Integrate.{HasTheirGraph, IsInterfering, IsOverBudget, IsRefused, IsWithoutProgram};
ghost use Rattle.hpr_c.specs.Integrate.{integrate_words, three};
ghost use Rattle.hpr_c.specs.Packed.{IsCall, IsNoCall};
ghost use Rattle.hpr_c.specs.Places.{TellsPlaces, TellsRefusal};

use crate::call::{MEMORY, Told, tell};
use crate::line::Line;
use crate::packed::{File, GivenError, files_of, three_files, three_words, words_of};
use crate::parts::tell_places;
use hpr_data::data;
use hpr_io::{MemoryShelf, SteadyShelf};
use std::alloc::Global;

/// The number of a call that is not of the form that is asked for.
const FORM: u32 = 64;

/// The version of hpr, two digits each for its second and third number.
const VERSION: u32 = 1_00_00;

/// How many bytes the two texts of a call have.
#[repr(C)]
#[derive(Clone, Copy)]
pub struct HprSizes {
    pub out: usize,
    pub err: usize,
}

/// The version of hpr: 10,000 for 1.0.0, two digits each for the second and third number.
#[unsafe(no_mangle)]
pub extern "C" fn hpr_version() -> u32
    ensures { result ≡ 10000 }
{
    VERSION
}

/// Runs one command, and answers its exit status. Each word and each name is UTF-8 and ends with a zero
/// byte, there are as many lengths as names, and the files' bytes stand one after another. Of two files
/// with one name the first counts.
///
/// A room takes the first bytes of its text, as many as it holds, and its other bytes stay; `sizes` tells
/// how long the texts are. So a call with more room follows where one was short. What is no such form
/// answers 64, with two empty texts; where memory runs out it answers 8, and `out` is empty.
#[unsafe(no_mangle)]
pub extern "C" fn hpr_call(
    alloc: Global,
    words: &[u8],
    names: &[u8],
    lengths: &[usize],
    bytes: &[u8],
    out: &mut [u8],
    err: &mut [u8],
    sizes: &mut HprSizes,
) -> u32
    // With whatever words over whatever files it is a call, it does what the top call does with these.
    ensures does { (texts : List Text) (files : Files)
        → IsCall words.now names.now lengths.now bytes.now texts files
        → HandsOut sizes.new out.old out.new err.old err.new (TellsOver texts files result) }

    // 64 comes only where there are no such words and files; then nothing is told.
    ensures form { result ≡ 64 → IsNoCall words.now names.now lengths.now bytes.now }
    ensures no_call { IsNoCall words.now names.now lengths.now bytes.now
        → HandsOut sizes.new out.old out.new err.old err.new (TellsNothing result) }
{
    let told = tell_given(alloc, words, names, lengths, bytes);
    hand_out(&told, out, err, sizes)
}

/// Integrates two variants with their base, which messages name `base`, `a` and `b`, and answers the exit
/// status of the command: 0 to 4, or 8. Rooms and sizes are as those of `hpr_call`.
#[unsafe(no_mangle)]
pub extern "C" fn hpr_integrate(
    alloc: Global,
    base: &[u8],
    a: &[u8],
    b: &[u8],
    out: &mut [u8],
    err: &mut [u8],
    sizes: &mut HprSizes,
) -> u32
    // It does what the top call does with these words over these three files, of which no read fails.
    ensures does { HandsOut sizes.new out.old out.new err.old err.new
        (Tells integrate_words (Some (three base.now a.now b.now)) 0 0 result) }
    ensures status { (result ≤ 4) ⊎ (result ≡ 8) }

    // 0: the text that `out` took the front of spells a program that keeps the meaning of both variants, and
    // that has the merged graph.
    ensures keeps { result ≡ 0 → HandsOut sizes.new out.old out.new err.old err.new
        (λ out _. IsMergedText base.now a.now b.now out) }
    ensures merged { result ≡ 0 → HandsOut sizes.new out.old out.new err.old err.new
        (λ out _. HasTheirGraph base.now a.now b.now out) }

    // 1: the variants interfere, and it is the text of all conflicts.
    ensures interferes { result ≡ 1 → HandsOut sizes.new out.old out.new err.old err.new
        (λ out _. IsInterfering base.now a.now b.now out) }

    // 2 and 3: no program has the merged graph, or the budget of tries is spent.
    ensures no_program { result ≡ 2 → HandsOut sizes.new out.old out.new err.old err.new
        (λ out _. IsWithoutProgram base.now a.now b.now out) }
    ensures spent { result ≡ 3 → HandsOut sizes.new out.old out.new err.old err.new
        (λ out _. IsOverBudget base.now a.now b.now out) }

    // 4: one of the three is refused with this message. In these last two cases `out` is empty.
    ensures refused { result ≡ 4 → HandsOut sizes.new out.old out.new err.old err.new
        (λ _ err. IsRefused base.now a.now b.now err) }
    ensures empty { 4 ≤ result → HandsOut sizes.new out.old out.new err.old err.new (λ out _. out ≡ []) }
{
    let told = tell_three(alloc, base, a, b);
    hand_out(&told, out, err, sizes)
}

/// Tells what `integrate`, `affected`, `graph`, `run` or `verify` comes to as data: an object of JSON in compact text,
/// and a newline.
/// Words and files are handed in as to `hpr_call`. The number is that of the status of the call, and 7 for
/// another command.
///
/// The room takes the first bytes of the text, as many as it holds, and its other bytes stay; `size` tells how
/// long the text is. It is empty where the number is 64, for what is no such form, or 8, where memory ran out.
#[unsafe(no_mangle)]
pub extern "C" fn hpr_data(
    alloc: Global,
    words: &[u8],
    names: &[u8],
    lengths: &[usize],
    bytes: &[u8],
    out: &mut [u8],
    size: &mut usize,
) -> u32
    // With whatever words over whatever files it is a call, it tells what comes of these.
    ensures does { (texts : List Text) (files : Files)
        → IsCall words.now names.now lengths.now bytes.now texts files
        → HandsOne size.new out.old out.new (TellsData texts files result) }

    // A program that it tells keeps the meaning of all variants.
    ensures keeps { (texts : List Text) (files : Files) (request : Request)
        → IsCall words.now names.now lengths.now bytes.now texts files
        → taken texts ≡ Some request → DoesIntegrate request → result ≡ 0
        → HandsOne size.new out.old out.new (TellsKept request files) }

    // 64 comes only where there are no such words and files; then nothing is told.
    ensures form { result ≡ 64 → IsNoCall words.now names.now lengths.now bytes.now }
    ensures no_call { IsNoCall words.now names.now lengths.now bytes.now
        → HandsOne size.new out.old out.new (TellsNoData result) }
{
    let line = data_given(alloc, words, names, lengths, bytes);
    hand_line(&line, out, size)
}

/// Tells where the parts of a program stand in its text: an array of JSON in compact text, with an object for
/// each part, in preorder, and a newline. `byte` is the place of its first byte, from 0, `length` how many
/// bytes it has, and `tag` its tag. Room and size are as those of `hpr_data`.
#[unsafe(no_mangle)]
pub extern "C" fn hpr_places(alloc: Global, text: &[u8], out: &mut [u8], size: &mut usize) -> u32
    ensures status { (result ≡ 0) ⊎ (result ≡ 4) ⊎ (result ≡ 8) }

    // 0: the text that `out` took the front of tells where the parts stand.
    ensures places { result ≡ 0 → HandsOne size.new out.old out.new (TellsPlaces text.now) }

    // 4: it tells why the text is refused. 8: there was no memory.
    ensures refused { result ≡ 4 → HandsOne size.new out.old out.new (TellsRefusal text.now) }
    ensures memory { result ≡ 8 → HandsOne size.new out.old out.new (λ told. told ≡ []) }
{
    let line = tell_places(alloc, text);
    hand_line(&line, out, size)
}

fn call_of(
    alloc: Global,
    words: &[u8],
    names: &[u8],
    lengths: &[usize],
    bytes: &[u8],
) -> Result<(Vec<String>, Vec<File>), GivenError>
    ensures call { IfOk result (λ call. IsCall words.now names.now lengths.now bytes.now
        (map string_bytes call.0.items) (files_in call.1.items)) }
    ensures form { IsErrOf result GivenError.Form → IsNoCall words.now names.now lengths.now bytes.now }
{
    let words = words_of(alloc, words)?;
    let files = files_of(alloc, names, lengths, bytes)?;
    Ok((words, files))
}

fn tell_given(alloc: Global, words: &[u8], names: &[u8], lengths: &[usize], bytes: &[u8]) -> Told
    ensures does { (texts : List Text) (files : Files)
        → IsCall words.now names.now lengths.now bytes.now texts files
        → TellsOver texts files result.number result.out.items result.err.items }
    ensures form { result.number ≡ 64 → IsNoCall words.now names.now lengths.now bytes.now }
    ensures no_call { IsNoCall words.now names.now lengths.now bytes.now
        → TellsNothing result.number result.out.items result.err.items }
{
    match call_of(alloc, words, names, lengths, bytes) {
        Ok((words, files)) => tell_over(alloc, words.as_slice(), files),
        Err(GivenError::Form) => Told::without_text(alloc, FORM),
        Err(GivenError::Memory) => Told::without_text(alloc, MEMORY),
    }
}

fn tell_over(alloc: Global, words: &[String], files: Vec<File>) -> Told
    ensures { TellsOver (map string_bytes words.now) (files_in files.items)
        result.number result.out.items result.err.items }
{
    let mut shelf = MemoryShelf::new(files, Vec::new(alloc));
    tell(alloc, words, &mut shelf)
}

fn data_given(alloc: Global, words: &[u8], names: &[u8], lengths: &[usize], bytes: &[u8]) -> Line
    ensures does { (texts : List Text) (files : Files)
        → IsCall words.now names.now lengths.now bytes.now texts files
        → TellsData texts files result.number result.text.items }
    ensures keeps { (texts : List Text) (files : Files) (request : Request)
        → IsCall words.now names.now lengths.now bytes.now texts files
        → taken texts ≡ Some request → DoesIntegrate request → result.number ≡ 0
        → TellsKept request files result.text.items }
    ensures form { result.number ≡ 64 → IsNoCall words.now names.now lengths.now bytes.now }
    ensures no_call { IsNoCall words.now names.now lengths.now bytes.now
        → TellsNoData result.number result.text.items }
{
    match call_of(alloc, words, names, lengths, bytes) {
        Ok((words, files)) => data_over(alloc, words.as_slice(), files.as_slice()),
        Err(GivenError::Form) => Line::empty(alloc, FORM),
        Err(GivenError::Memory) => Line::empty(alloc, MEMORY),
    }
}

fn data_over(alloc: Global, words: &[String], files: &[File]) -> Line
    ensures does { TellsData (map string_bytes words.now) (files_in files.now)
        result.number result.text.items }
    ensures keeps { (request : Request) → taken (map string_bytes words.now) ≡ Some request
        → DoesIntegrate request → result.number ≡ 0
        → TellsKept request (files_in files.now) result.text.items }
{
    match data(alloc, words, files) {
        Ok(reply) => Line {
            number: u32::from(reply.status.number()),
            text: reply.text,
        },
        Err(_) => Line::empty(alloc, MEMORY),
    }
}

fn three_of(
    alloc: Global,
    base: &[u8],
    a: &[u8],
    b: &[u8],
) -> Result<(Vec<String>, Vec<File>), GivenError>
    ensures words { IfOk result (λ call. map string_bytes call.0.items ≡ integrate_words) }
    ensures files { IfOk result (λ call. files_in call.1.items ≡ three base.now a.now b.now) }
{
    let words = three_words(alloc)?;
    let files = three_files(alloc, base, a, b)?;
    Ok((words, files))
}

fn tell_three(alloc: Global, base: &[u8], a: &[u8], b: &[u8]) -> Told
    ensures { Tells integrate_words (Some (three base.now a.now b.now)) 0 0
        result.number result.out.items result.err.items }
{
    match three_of(alloc, base, a, b) {
        Ok((words, files)) => {
            let mut shelf = SteadyShelf::new(files);
            tell(alloc, words.as_slice(), &mut shelf)
        }
        Err(_) => Told::without_text(alloc, MEMORY),
    }
}

/// Puts as much of a text into the room as it has room for.
fn put_front(text: &[u8], room: &mut [u8])
    ensures { room.new ≡ put_front text.now room.old }
{
    let count = text.len().min(room.len());
    room[..count].copy_from_slice(&text[..count]);
}

/// Puts the two texts into their rooms, and tells their sizes.
fn hand_out(told: &Told, out: &mut [u8], err: &mut [u8], sizes: &mut HprSizes) -> u32
    ensures number { result ≡ told.now.number }
    ensures out { Puts told.now.out.items sizes.new.out out.old out.new }
    ensures err { Puts told.now.err.items sizes.new.err err.old err.new }
{
    put_front(told.out.as_slice(), out);
    put_front(told.err.as_slice(), err);
    *sizes = HprSizes {
        out: told.out.len(),
        err: told.err.len(),
    };
    told.number
}

/// Puts a text into its room, and tells its size.
fn hand_line(line: &Line, out: &mut [u8], size: &mut usize) -> u32
    ensures number { result ≡ line.now.number }
    ensures out { Puts line.now.text.items size.new out.old out.new }
{
    put_front(line.text.as_slice(), out);
    *size = line.text.len();
    line.number
}
