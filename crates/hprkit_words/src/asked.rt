//! What words ask for.
ghost use Rattle.std.specs.Prelude.{◌≡◌, IfOk, IsErrOf, Some, None, map, string_bytes};
ghost use Rattle.hprkit_words.specs.Ask.{IsInRange};
ghost use Rattle.hprkit_words.specs.Asked.{ask_of};
ghost use Rattle.hprkit_words.specs.Taken.{asks_help, asks_version, commanded, taken};

use crate::commands::CommandName;
use crate::forms::{FormatForm, GraphForm, ImpactForm};
use hpr_words::{WordsError, parse};
use std::alloc::Global;

/// What the words of a call ask for.
#[derive(Drop)]
pub enum Asked<'a> {
    /// `--help`: tell the commands.
    Help,
    /// `--version`: tell the version.
    Version,
    /// `fmt FILE [--check | --in-place]`: print the canonical text of the program of a file, tell whether the file has
    /// it, or put it into the file, which isn't `-`.
    Format {
        file: &'a str,
        form: FormatForm,
    },
    /// `at FILE BYTE`: tell the line and the column of a byte of a file, which is counted from 0 and is any number of
    /// 64 bits.
    At {
        file: &'a str,
        byte: u64,
    },
    /// `tag FILE --author N [--keep]`: put the next serials of an author, of a number from 1 to 4,294,967,295, on the
    /// parts of a file that have no tag, and print the canonical text of its program, or the text as it was written.
    Tag {
        file: &'a str,
        author: u32,
        keep: bool,
    },
    /// `graph FILE --json` or `graph FILE --dot [--no-control] [--no-flow] [--no-order]`: tell the dependence graph of
    /// the program of a file.
    Graph {
        file: &'a str,
        form: GraphForm,
    },
    /// `impact FILE POINT.. [--json | --marks]`: tell what a change at some points of the program of a file, at least
    /// one, can reach. The words of the points stand in their order, and nothing has read them yet.
    Impact {
        file: &'a str,
        points: Vec<&'a str>,
        form: ImpactForm,
    },
    /// `affected BASE V`: tell the affected points of a variant of base, each with its reason.
    Affected {
        base: &'a str,
        variant: &'a str,
    },
    /// `conflicts BASE V1 V2..`: tell what interferes in an integration of two to sixteen variants of base. The variants
    /// stand in the order of their words.
    Conflicts {
        base: &'a str,
        variants: Vec<&'a str>,
    },
    /// `merge BASE V1 V2.. [--tries N]`: integrate two to sixteen variants of base, within a number of tries from 1 to
    /// 1,000,000,000, by default 10,000. The variants stand in the order of their words.
    Merge {
        base: &'a str,
        variants: Vec<&'a str>,
        tries: u64,
    },
}

/// Whether one of the words is `--help`.
fn asks_help(words: &[String]) -> bool
    ensures { result ≡ asks_help (map string_bytes words.now) }
{
    for word in words {
        if word.as_str() == "--help" {
            return true;
        }
    }
    false
}

/// Whether the only word is `--version`.
fn asks_version(words: &[String]) -> bool
    ensures { result ≡ asks_version (map string_bytes words.now) }
{
    match words {
        [word] => word.as_str() == "--version",
        _ => false,
    }
}

/// What the words ask for, without the program's name. Where they ask for neither the help nor the version, the first
/// one picks the command, which takes the words as `clap` does: `+7` too, and any name behind `--`.
///
/// # Errors
///
/// `Refused` exactly where the words are not taken, and `Memory` where memory ran out.
pub fn read_words<'a>(alloc: Global, words: &'a [String]) -> Result<Asked<'a>, WordsError>
    ensures taken { IfOk result (λ a. taken (map string_bytes words.entry.now) ≡ Some (ask_of a)) }
    ensures in_range { IfOk result (λ a. IsInRange (ask_of a)) }
    ensures refused { IsErrOf result WordsError.Refused → taken (map string_bytes words.entry.now) ≡ None }
{
    if asks_help(words) {
        return Ok(Asked::Help);
    }
    if asks_version(words) {
        return Ok(Asked::Version);
    }
    read_command(alloc, words)
}

/// What the words ask of the command that the first of them names.
fn read_command<'a>(alloc: Global, words: &'a [String]) -> Result<Asked<'a>, WordsError>
    ensures taken { IfOk result (λ a. commanded (map string_bytes words.entry.now) ≡ Some (ask_of a)) }
    ensures in_range { IfOk result (λ a. IsInRange (ask_of a)) }
    ensures refused { IsErrOf result WordsError.Refused
        → commanded (map string_bytes words.entry.now) ≡ None }
{
    let name = words.first().ok_or(WordsError::Refused)?.as_str();
    let command = CommandName::named(name).ok_or(WordsError::Refused)?;
    let matches = parse(alloc, name, command.arguments(), words)?;
    command.asked(alloc, &matches)
}
