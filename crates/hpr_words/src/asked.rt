//! What words ask for.
ghost use Rattle.std.specs.Prelude.{◌≡◌, IfOk, IsErrOf, Some, None, map, string_bytes};
ghost use Rattle.hpr_words.specs.Asked.{request};
ghost use Rattle.hpr_words.specs.Request.{IsInRange};
ghost use Rattle.hpr_words.specs.Taken.{taken};

use crate::arguments::parse;
use crate::commands::CommandName;
use clap::error::ErrorKind;
use std::alloc::{AllocError, Global};

/// What the words of a command line ask for.
#[derive(Drop)]
pub enum Asked<'a> {
    /// `integrate BASE V1 V2 [--tries N]`: integrate two variants with their base, as Horwitz, Prins
    /// and Reps (1989) do, within a number of tries from 1 to 1,000,000,000, by default 10,000. The
    /// names are those of files.
    Integrate {
        base: &'a str,
        a: &'a str,
        b: &'a str,
        tries: u64,
    },
    /// `integrate BASE V1 V2 V3.. [--tries N]`: integrate three to sixteen variants with their base,
    /// within as many tries. The variants stand in the order of their words. Horwitz, Prins and Reps
    /// (1989) have no more than two.
    IntegrateMany {
        base: &'a str,
        variants: Vec<&'a str>,
        tries: u64,
    },
    /// `run FILE [STATE..] [--steps N] [--trace]`: run the program of a file from the state that the
    /// words tell, which nothing has read yet, for at most a number of steps from 1 to
    /// 1,000,000,000, by default 1,000,000, and show its trace where the flag is given.
    Run {
        file: &'a str,
        states: Vec<&'a str>,
        steps: u64,
        trace: bool,
    },
    /// `graph FILE [--json]`: show the graph of the program of a file, as JSON or as text.
    Graph {
        file: &'a str,
        json: bool,
    },
    /// `slice FILE POINT.. [--program]`: show the slice of the graph of the program of a file for at
    /// least one point, as the program that is left of it or as a graph. The words of the points,
    /// which nothing has read yet, stand in their order.
    Slice {
        file: &'a str,
        points: Vec<&'a str>,
        program: bool,
    },
    /// `affected BASE A`: show the affected points of a variant of base.
    Affected {
        base: &'a str,
        a: &'a str,
    },
    /// `trial BASE A B [STATE..] [--steps N]`: run base and two variants from the state that the
    /// words tell, which nothing has read yet, each for at most a number of steps from 1 to
    /// 1,000,000,000, by default 1,000,000, and run their integration as well.
    Trial {
        base: &'a str,
        a: &'a str,
        b: &'a str,
        states: Vec<&'a str>,
        steps: u64,
    },
    /// `edit FILE SCRIPT --author N`: apply the commands of a script, itself a file, to the program
    /// of a file, as the author of a number from 1 to 4,294,967,295.
    Edit {
        file: &'a str,
        script: &'a str,
        author: u32,
    },
    /// `tag FILE --author N`: tag the untagged program of a file, as the author of a number from 1
    /// to 4,294,967,295.
    Tag {
        file: &'a str,
        author: u32,
    },
    /// `sample SEED PARTS`: make the programs of a seed, any number of 64 bits, the base of so many
    /// parts, from 1 to 3,998, and integrate them.
    Sample {
        seed: u64,
        parts: usize,
    },
    /// `verify BASE A B M`: judge the merged program of a file that was made elsewhere, by base and
    /// its two variants.
    Verify {
        base: &'a str,
        a: &'a str,
        b: &'a str,
        offered: &'a str,
    },
}

/// Why words are not read.
#[derive(Clone, Copy, PartialEq, Eq, Debug)]
pub enum WordsError {
    /// The first word is no command, or the command doesn't take the words. Words that ask for help
    /// are among them.
    Refused,
    /// Memory ran out.
    Memory,
}

impl From<AllocError> for WordsError {
    ghost use Rattle.std.specs.Prelude.{◌≡◌};
    ghost use Rattle.hpr_words.specs.declared.asked.WordsError.TheVariants.{Memory};

    ghost from_gives = { λ _ e. e ≡ Memory };

    fn from(_error: AllocError) -> WordsError {
        WordsError::Memory
    }
}

impl From<clap::Error> for WordsError {
    ghost use Rattle.std.specs.Prelude.{◌≡◌};
    ghost use Rattle.clap.specs.Words.{kind_of};
    ghost use Rattle.clap.specs.declared.error.kind.ErrorKind.TheVariants.{OutOfMemory};
    ghost use Rattle.hpr_words.specs.declared.asked.WordsError.TheVariants.{Refused};

    ghost from_gives = { λ error e. e ≡ Refused → ¬ (kind_of error ≡ OutOfMemory) };

    fn from(error: clap::Error) -> WordsError {
        if error.kind() == ErrorKind::OutOfMemory {
            return WordsError::Memory;
        }
        WordsError::Refused
    }
}

/// What the words ask for, without the program's name. The first one picks the command, which takes
/// the words as `clap` does: `--tries=7` and `+7` too, and any name behind `--`.
///
/// # Errors
///
/// `Refused` exactly where the words are not taken, and `Memory` where memory ran out.
pub fn read_words<'a>(alloc: Global, words: &'a [String]) -> Result<Asked<'a>, WordsError>
    ensures taken { IfOk result (λ a. taken (map string_bytes words.entry.now) ≡ Some (request a)) }
    ensures in_range { IfOk result (λ a. IsInRange (request a)) }
    ensures refused { IsErrOf result WordsError.Refused → taken (map string_bytes words.entry.now) ≡ None }
{
    let name = words.first().ok_or(WordsError::Refused)?.as_str();
    let command = CommandName::named(name).ok_or(WordsError::Refused)?;
    let matches = parse(alloc, name, command.arguments(), words)?;
    command.asked(alloc, &matches)
}
