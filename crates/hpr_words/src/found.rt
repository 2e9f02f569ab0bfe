//! What the arguments of a command are given.
ghost use Rattle.std.specs.Prelude.{◌≡◌, map, IfOk, Some, None, option_and_then, option_map};
ghost use Rattle.std.specs.Result.{result_ok};
ghost use Rattle.hpr_words.specs.Taken as spec;
ghost use Rattle.hpr_words.specs.Commands.{author, number_within, steps};
ghost use Rattle.hpr_words.specs.Taken.{flag_in, list_in, number_in, number_or};
ghost use Rattle.clap.specs.Words.{first_of, found_of, rows_of};

use crate::asked::WordsError;
use clap::ArgMatches;
use hpr_terms::limits::{DEFAULT_STEPS, MAX_STEPS, MAX_TAG_NUMBER};
use std::alloc::{AllocError, Global};

/// The word of a positional of one word.
pub fn name_from<'a>(matches: &ArgMatches<'a>, id: &str) -> Result<&'a str, WordsError>
    ensures { option_map (λ s. s.now) (result_ok result) ≡ first_of id.now (rows_of (found_of matches.now)) }
{
    text_from(matches, id).ok_or(WordsError::Refused)
}

/// The words of a positional of any number of words.
pub fn list_from<'a>(
    alloc: Global,
    matches: &ArgMatches<'a>,
    id: &str,
) -> Result<Vec<&'a str>, AllocError>
    ensures { IfOk result (λ v. map (λ s. s.now) v.items ≡ list_in id.now (rows_of (found_of matches.now))) }
{
    match matches.get_strs(id) {
        Some(words) => {
            let mut list = Vec::new(alloc);
            list.extend_from_slice(words)?;
            Ok(list)
        }
        None => Ok(Vec::new(alloc)),
    }
}

/// The number of an option, or `default` where it isn't given.
pub fn number_from(
    matches: &ArgMatches<'_>,
    id: &str,
    most: u32,
    default: u64,
) -> Result<u64, WordsError>
    ensures { result_ok result ≡ number_or (Some default) most (first_of id.now (rows_of (found_of matches.now))) }
{
    match text_from(matches, id) {
        Some(text) => number_of(text, most).ok_or(WordsError::Refused),
        None => Ok(default),
    }
}

/// The number of the steps.
pub fn steps_from(matches: &ArgMatches<'_>) -> Result<u64, WordsError>
    ensures { result_ok result ≡ number_in steps (rows_of (found_of matches.now)) }
{
    number_from(matches, "steps", MAX_STEPS, DEFAULT_STEPS)
}

/// The number of the author.
pub fn author_from(matches: &ArgMatches<'_>) -> Result<u32, WordsError>
    ensures { result_ok result ≡ number_in author (rows_of (found_of matches.now)) }
{
    let text = name_from(matches, "author")?;
    let number = number_of(text, MAX_TAG_NUMBER).ok_or(WordsError::Refused)?;
    u32::try_from(number).map_err(|_| WordsError::Refused)
}

/// Whether a flag is given.
pub fn flag_from(matches: &ArgMatches<'_>, id: &str) -> bool
    ensures { result ≡ flag_in id.now (rows_of (found_of matches.now)) }
{
    match text_from(matches, id) {
        Some(text) => text == "true",
        None => false,
    }
}

/// The number from `least` to `most` that the word of a positional spells.
pub fn word_number_from(
    matches: &ArgMatches<'_>,
    id: &str,
    least: u64,
    most: u64,
) -> Result<u64, WordsError>
    ensures { result_ok result ≡ option_and_then (number_within least most)
        (first_of id.now (rows_of (found_of matches.now))) }
{
    let text = name_from(matches, id)?;
    number_within(text, least, most).ok_or(WordsError::Refused)
}

/// The number from 1 to `most` that the text spells.
fn number_of(text: &str, most: u32) -> Option<u64>
    ensures { result ≡ spec.number_of most text.now }
{
    number_within(text, 1, u64::from(most))
}

/// The number from `least` to `most` that the text spells.
fn number_within(text: &str, least: u64, most: u64) -> Option<u64>
    ensures { result ≡ number_within least most text.now }
{
    match text.parse::<u64>() {
        Ok(number) => {
            if number < least || most < number {
                return None;
            }
            Some(number)
        }
        Err(_) => None,
    }
}

/// The first word that an argument is given.
fn text_from<'a>(matches: &ArgMatches<'a>, id: &str) -> Option<&'a str>
    ensures { option_map (λ s. s.now) result ≡ first_of id.now (rows_of (found_of matches.now)) }
{
    matches.get_str(id)
}
