//! The arguments that commands have, and what `clap` finds of them in the words.
ghost use Rattle.std.specs.Prelude.{◌≡◌, [], false, true, map, string_bytes, IfOk, IsErrOf};
ghost use Rattle.hpr_words.specs.Arguments.{app_with, rule_of_argument};
ghost use Rattle.clap.specs.Walk.{is_empty};
ghost use Rattle.clap.specs.Words.{app_of, fault_of, found_of, is_simple_and_free, rule_of, matches_of, rows_of};
ghost use Rattle.clap.specs.declared.builder.value_parser.ValueParser.TheVariants.{Unsigned};

use crate::asked::WordsError;
use clap::builder::ValueParser;
use clap::{Arg, ArgAction, ArgMatches, Command};
use std::alloc::{AllocError, Global};

/// An argument of a command.
#[derive(Clone, Copy)]
pub enum Argument {
    /// One word in its place, which must be given.
    Word(&'static str),
    /// Any number of words in their place.
    List {
        name: &'static str,
        is_needed: bool,
    },
    /// A number from 1 to `most`, behind `--NAME`.
    Number {
        name: &'static str,
        most: u32,
        is_needed: bool,
    },
    /// The flag `--NAME`.
    Flag(&'static str),
}

/// What the command of this name and these arguments finds in the words, of which the first is the
/// command's name.
///
/// # Errors
///
/// `Refused` only where the command doesn't take the words, and `Memory` where memory ran out.
pub fn parse<'a>(
    alloc: Global,
    name: &'a str,
    arguments: &[Argument],
    words: &'a [String],
) -> Result<ArgMatches<'a>, WordsError>
    requires { is_simple_and_free (app_with name.now arguments.now) ≡ true }
    ensures ok { IfOk result (λ m. (fault_of (app_with name.entry.now arguments.entry.now)
        (map string_bytes words.entry.now) ≡ [])
        × (rows_of (found_of m) ≡ matches_of (app_with name.entry.now arguments.entry.now)
        (map string_bytes words.entry.now))) }
    ensures refused { IsErrOf result WordsError.Refused → is_empty
        (fault_of (app_with name.entry.now arguments.entry.now) (map string_bytes words.entry.now)) ≡ false }
{
    Ok(command_of(alloc, name, arguments)?.try_get_matches_from(words)?)
}

/// The command of this name and these arguments.
fn command_of<'a>(
    alloc: Global,
    name: &'a str,
    arguments: &[Argument],
) -> Result<Command<'a>, AllocError>
    ensures { IfOk result (λ command. app_of command ≡ app_with name.entry.now arguments.entry.now) }
{
    let mut command = Command::new(alloc, name);
    for argument in arguments {
        command = command.arg(arg_of(alloc, *argument))?;
    }
    Ok(command)
}

/// The argument, as `clap` has it.
fn arg_of<'a>(alloc: Global, argument: Argument) -> Arg<'a>
    ensures rule { rule_of result ≡ rule_of_argument argument }
    ensures local { result.global ≡ false }
{
    match argument {
        Argument::Word(name) => Arg::new(alloc, name).required(true),
        Argument::List { name, is_needed } => Arg::new(alloc, name)
            .required(is_needed)
            .action(ArgAction::Append),
        Argument::Number {
            name,
            most,
            is_needed,
        } => Arg::new(alloc, name)
            .required(is_needed)
            .long(name)
            .value_parser(number_to(most)),
        Argument::Flag(name) => Arg::new(alloc, name).long(name).action(ArgAction::SetTrue),
    }
}

/// A number from 1 to `most`, as `clap` has it.
fn number_to<'a>(most: u32) -> ValueParser<'a>
    ensures { result ≡ Unsigned 1 most }
{
    clap::value_parser!(u64).range(1..=i64::from(most))
}
