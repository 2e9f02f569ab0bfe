//! Files that spell programs, with where the parts of these stand.
ghost use Rattle.std.specs.Prelude.{◌≡◌, ◌≤◌, ◌++◌, ◌∷◌, [], ℕ, List, All, IfOk, IsTrue, OnOk, length, map};
ghost use Rattle.hpr_terms.specs.declared.limits.TheConstants.{MAX_FILE};
ghost use Rattle.hpr_located.specs.Sources.{standing_of};
ghost use Rattle.hpr_kit.specs.Private.Graphs.{Settles};
ghost use Rattle.hpr_kit.specs.Private.Loads.{Judges, Loads, LoadsAll, Locates, ReadsSource};

use crate::fetch::fetch;
use crate::program::{Unread, program_of};
use crate::refused::refused;
use crate::reply::{Reply, Stop};
use hpr_io::Shelf;
use hpr_located::{Located, Source, locate};
use hpr_refusals::Refusal;
use hpr_syntax::{NoMemory, Program};
use hpr_text::TextError;
use std::alloc::Global;

/// Why there are no programs to speak of.
#[derive(Drop)]
pub(crate) enum Halt {
    /// A file is refused.
    Refused(Reply),
    /// There is no answer.
    Stop(Stop),
}

impl From<NoMemory> for Halt {
    ghost use Rattle.std.specs.Prelude.{◌≡◌};
    ghost use Rattle.hpr_kit.specs.declared.load.Halt.TheVariants as halt;
    ghost use Rattle.hpr_kit.specs.declared.reply.Stop.TheVariants.{Memory};

    ghost from_gives = { λ _ made. made ≡ halt.Stop Memory };

    fn from(_error: NoMemory) -> Halt {
        Halt::Stop(Stop::Memory)
    }
}

impl From<Stop> for Halt {
    ghost use Rattle.std.specs.Prelude.{◌≡◌};
    ghost use Rattle.hpr_kit.specs.declared.load.Halt.TheVariants as halt;

    ghost from_gives = { λ stop made. made ≡ halt.Stop stop };

    fn from(stop: Stop) -> Halt {
        Halt::Stop(stop)
    }
}

/// The reply, also where it is a refusal.
pub(crate) fn settle(told: Result<Reply, Halt>) -> Result<Reply, Stop>
    ensures { Settles told result }
{
    match told {
        Ok(reply) => Ok(reply),
        Err(Halt::Refused(reply)) => Ok(reply),
        Err(Halt::Stop(stop)) => Err(stop),
    }
}

/// Several files.
#[derive(Drop)]
pub(crate) struct Loaded {
    /// The programs that they spell.
    pub(crate) programs: Vec<Program>,
    /// Where the parts of each stand.
    pub(crate) sources: Vec<Source>,
}

/// The programs that these files spell, and where their parts stand, in their order. Each file is judged before the
/// next one is fetched.
pub(crate) fn load_all<S: Shelf>(
    alloc: Global,
    files: &[&str],
    shelf: &mut S,
) -> Result<Loaded, Halt>
    requires { All (λ name. IsTrue (S.serves shelf.old name)) (map (λ s. s.now) files.now) }
    ensures loads { LoadsAll (S.files shelf.old) (map (λ s. s.now) files.now) (S.faults shelf.old)
        (S.faults shelf.new) result }
    ensures programs { IfOk result (λ loaded. length loaded.programs.items ≡ length files.now) }
    ensures sources { IfOk result (λ loaded. length loaded.sources.items ≡ length files.now) }
    ensures same_files { S.files shelf.new ≡ S.files shelf.old }
    ensures same_names { (n : List ℕ) → S.serves shelf.new n ≡ S.serves shelf.old n }
{
    let mut programs = Vec::new(alloc);
    let mut sources = Vec::new(alloc);
    for file in files {
        let (_, program, source) = load(alloc, file, shelf)?;
        push_one(&mut programs, program)?;
        push_one(&mut sources, source)?;
    }
    Ok(Loaded { programs, sources })
}

/// Puts one behind others.
pub(crate) fn push_one<T: Drop>(all: &mut Vec<T>, one: T) -> Result<(), NoMemory>
    ensures { OnOk result (all.new.items ≡ all.old.items ++ one ∷ []) }
{
    all.push(one)?;
    Ok(())
}

/// What is read of a file, the program that it spells, and where its parts stand.
pub(crate) fn load<S: Shelf>(
    alloc: Global,
    file: &str,
    shelf: &mut S,
) -> Result<(Vec<u8>, Program, Source), Halt>
    requires { IsTrue (S.serves shelf.old file.now) }
    ensures loads { Loads (S.files shelf.old) file.now (S.faults shelf.old) (S.faults shelf.new) result }
    ensures same_files { S.files shelf.new ≡ S.files shelf.old }
    ensures same_names { (n : List ℕ) → S.serves shelf.new n ≡ S.serves shelf.old n }
{
    match fetch(alloc, file, shelf) {
        Ok(bytes) => judge(alloc, file, bytes),
        Err(stop) => Err(Halt::Stop(stop)),
    }
}

/// The same of a file with these bytes.
fn judge(alloc: Global, file: &str, bytes: Vec<u8>) -> Result<(Vec<u8>, Program, Source), Halt>
    ensures { Judges file.now bytes.items result }
{
    match read_source(alloc, file, bytes.as_slice()) {
        Ok((program, source)) => Ok((bytes, program, source)),
        Err(Unread::Refused(why)) => {
            let reply = refused(alloc, file, bytes.as_slice(), &why)?;
            Err(Halt::Refused(reply))
        }
        Err(Unread::Memory) => Err(Halt::Stop(Stop::Memory)),
    }
}

/// The program that the bytes of a file spell, and where its parts stand.
fn read_source(alloc: Global, file: &str, bytes: &[u8]) -> Result<(Program, Source), Unread>
    ensures { ReadsSource file.now bytes.now result }
{
    let program = program_of(alloc, bytes)?;
    let located = locate_parts(alloc, bytes)?;
    let source = Source::new(alloc, file, &program, located.as_slice())?;
    Ok((program, source))
}

/// Where the parts of the program stand that the bytes spell, which aren't too many.
fn locate_parts(alloc: Global, bytes: &[u8]) -> Result<Vec<Located>, Unread>
    requires { length bytes.now ≤ MAX_FILE }
    ensures { Locates bytes.now result }
{
    match locate(alloc, bytes) {
        Ok(located) => Ok(located),
        Err(TextError::Syntax { place }) => Err(Unread::Refused(Refusal::Syntax { place })),
        Err(TextError::Shape(error)) => Err(Unread::Refused(Refusal::Shape(error))),
        Err(TextError::Memory) => Err(Unread::Memory),
    }
}
