//! The commands: what each is called, which arguments it has, and what it asks for.
ghost use Rattle.std.specs.Prelude.{◌≡◌, [], ◌∷◌, map, option_map};
ghost use Rattle.hpr_words.specs.Commands.{affected_form, edit_form, form_app, form_named, graph_form, integrate_form, integrate_of, run_form, sample_form, slice_form, tag_form, trial_form, verify_form};
ghost use Rattle.hpr_words.specs.Arguments.{app_with};
ghost use Rattle.hpr_words.specs.Private.Commands.{Reads, form_of};
ghost use Rattle.hpr_words.specs.Taken.{asked_in};
ghost use Rattle.clap.specs.Words.{found_of, rows_of};

use crate::arguments::Argument;
use crate::asked::{Asked, WordsError};
use crate::found::{
    author_from, flag_from, list_from, name_from, number_from, steps_from, word_number_from,
};
use clap::ArgMatches;
use hpr_terms::limits::{
    DEFAULT_TRIES, MAX_PARTS, MAX_STEPS, MAX_TAG_NUMBER, MAX_TRIES, MAX_VARIANTS,
};
use std::alloc::Global;

const BASE: Argument = Argument::Word("base");

const A: Argument = Argument::Word("a");

const B: Argument = Argument::Word("b");

const OFFERED: Argument = Argument::Word("offered");

const FILE: Argument = Argument::Word("file");

const SCRIPT: Argument = Argument::Word("script");

const SEED: Argument = Argument::Word("seed");

const PARTS: Argument = Argument::Word("parts");

const STATES: Argument = Argument::List {
    name: "state",
    is_needed: false,
};

const POINTS: Argument = Argument::List {
    name: "point",
    is_needed: true,
};

const VARIANTS: Argument = Argument::List {
    name: "variant",
    is_needed: true,
};

const TRIES: Argument = Argument::Number {
    name: "tries",
    most: MAX_TRIES,
    is_needed: false,
};

const STEPS: Argument = Argument::Number {
    name: "steps",
    most: MAX_STEPS,
    is_needed: false,
};

const AUTHOR: Argument = Argument::Number {
    name: "author",
    most: MAX_TAG_NUMBER,
    is_needed: true,
};

const TRACE: Argument = Argument::Flag("trace");

const JSON: Argument = Argument::Flag("json");

const PROGRAM: Argument = Argument::Flag("program");

/// The commands by their names.
#[derive(Clone, Copy)]
pub enum CommandName {
    Integrate,
    Run,
    Graph,
    Slice,
    Affected,
    Trial,
    Edit,
    Tag,
    Sample,
    Verify,
}

impl CommandName {
    /// The command of this name, if there is one.
    pub fn named(name: &str) -> Option<CommandName>
        ensures { option_map form_of result ≡ form_named name.now }
    {
        match name {
            "integrate" => Some(CommandName::Integrate),
            "run" => Some(CommandName::Run),
            "graph" => Some(CommandName::Graph),
            "slice" => Some(CommandName::Slice),
            "affected" => Some(CommandName::Affected),
            "trial" => Some(CommandName::Trial),
            "edit" => Some(CommandName::Edit),
            "tag" => Some(CommandName::Tag),
            "sample" => Some(CommandName::Sample),
            "verify" => Some(CommandName::Verify),
            _ => None,
        }
    }

    /// The arguments of the command.
    pub fn arguments(self) -> &'static [Argument]
        ensures { app_with (form_of self).name result.now ≡ form_app (form_of self) }
    {
        match self {
            CommandName::Integrate => &[BASE, VARIANTS, TRIES],
            CommandName::Run => &[FILE, STATES, STEPS, TRACE],
            CommandName::Graph => &[FILE, JSON],
            CommandName::Slice => &[FILE, POINTS, PROGRAM],
            CommandName::Affected => &[BASE, A],
            CommandName::Trial => &[BASE, A, B, STATES, STEPS],
            CommandName::Edit => &[FILE, SCRIPT, AUTHOR],
            CommandName::Tag => &[FILE, AUTHOR],
            CommandName::Sample => &[SEED, PARTS],
            CommandName::Verify => &[BASE, A, B, OFFERED],
        }
    }

    /// What the command asks for, by what its arguments are given.
    pub fn asked<'a>(self, alloc: Global, matches: &ArgMatches<'a>) -> Result<Asked<'a>, WordsError>
        ensures { Reads (asked_in (form_of self) (rows_of (found_of matches.now))) result }
    {
        match self {
            CommandName::Integrate => integrate_from(alloc, matches),
            CommandName::Run => run_from(alloc, matches),
            CommandName::Graph => graph_from(matches),
            CommandName::Slice => slice_from(alloc, matches),
            CommandName::Affected => affected_from(matches),
            CommandName::Trial => trial_from(alloc, matches),
            CommandName::Edit => edit_from(matches),
            CommandName::Tag => tag_from(matches),
            CommandName::Sample => sample_from(matches),
            CommandName::Verify => verify_from(matches),
        }
    }
}

fn integrate_from<'a>(alloc: Global, matches: &ArgMatches<'a>) -> Result<Asked<'a>, WordsError>
    ensures { Reads (asked_in integrate_form (rows_of (found_of matches.now))) result }
{
    let base = name_from(matches, "base")?;
    let tries = number_from(matches, "tries", MAX_TRIES, DEFAULT_TRIES)?;
    integration_of(base, list_from(alloc, matches, "variant")?, tries)
}

/// The integration of the variants, of which there must be 2 to 16.
fn integration_of<'a>(
    base: &'a str,
    variants: Vec<&'a str>,
    tries: u64,
) -> Result<Asked<'a>, WordsError>
    ensures { Reads (integrate_of (base.entry.now ∷ []) (map (λ s. s.now) variants.entry.items) (tries ∷ []) [])
        result }
{
    match variants.as_slice() {
        [a, b] => Ok(Asked::Integrate { base, a, b, tries }),
        [_, _, _, ..] if variants.len() <= MAX_VARIANTS => {
            Ok(Asked::IntegrateMany {
                base,
                variants,
                tries,
            })
        }
        _ => Err(WordsError::Refused),
    }
}

fn run_from<'a>(alloc: Global, matches: &ArgMatches<'a>) -> Result<Asked<'a>, WordsError>
    ensures { Reads (asked_in run_form (rows_of (found_of matches.now))) result }
{
    Ok(Asked::Run {
        file: name_from(matches, "file")?,
        steps: steps_from(matches)?,
        trace: flag_from(matches, "trace"),
        states: list_from(alloc, matches, "state")?,
    })
}

fn graph_from<'a>(matches: &ArgMatches<'a>) -> Result<Asked<'a>, WordsError>
    ensures { Reads (asked_in graph_form (rows_of (found_of matches.now))) result }
{
    Ok(Asked::Graph {
        file: name_from(matches, "file")?,
        json: flag_from(matches, "json"),
    })
}

fn slice_from<'a>(alloc: Global, matches: &ArgMatches<'a>) -> Result<Asked<'a>, WordsError>
    ensures { Reads (asked_in slice_form (rows_of (found_of matches.now))) result }
{
    let file = name_from(matches, "file")?;
    let points = list_from(alloc, matches, "point")?;
    if points.is_empty() {
        return Err(WordsError::Refused);
    }
    Ok(Asked::Slice {
        file,
        points,
        program: flag_from(matches, "program"),
    })
}

fn affected_from<'a>(matches: &ArgMatches<'a>) -> Result<Asked<'a>, WordsError>
    ensures { Reads (asked_in affected_form (rows_of (found_of matches.now))) result }
{
    Ok(Asked::Affected {
        base: name_from(matches, "base")?,
        a: name_from(matches, "a")?,
    })
}

fn trial_from<'a>(alloc: Global, matches: &ArgMatches<'a>) -> Result<Asked<'a>, WordsError>
    ensures { Reads (asked_in trial_form (rows_of (found_of matches.now))) result }
{
    Ok(Asked::Trial {
        base: name_from(matches, "base")?,
        a: name_from(matches, "a")?,
        b: name_from(matches, "b")?,
        steps: steps_from(matches)?,
        states: list_from(alloc, matches, "state")?,
    })
}

fn edit_from<'a>(matches: &ArgMatches<'a>) -> Result<Asked<'a>, WordsError>
    ensures { Reads (asked_in edit_form (rows_of (found_of matches.now))) result }
{
    Ok(Asked::Edit {
        file: name_from(matches, "file")?,
        script: name_from(matches, "script")?,
        author: author_from(matches)?,
    })
}

fn tag_from<'a>(matches: &ArgMatches<'a>) -> Result<Asked<'a>, WordsError>
    ensures { Reads (asked_in tag_form (rows_of (found_of matches.now))) result }
{
    Ok(Asked::Tag {
        file: name_from(matches, "file")?,
        author: author_from(matches)?,
    })
}

fn sample_from<'a>(matches: &ArgMatches<'a>) -> Result<Asked<'a>, WordsError>
    ensures { Reads (asked_in sample_form (rows_of (found_of matches.now))) result }
{
    let seed = word_number_from(matches, "seed", 0, u64::MAX)?;
    let parts = word_number_from(matches, "parts", 1, MAX_PARTS as u64 - 2)?;
    Ok(Asked::Sample {
        seed,
        parts: parts as usize,
    })
}

fn verify_from<'a>(matches: &ArgMatches<'a>) -> Result<Asked<'a>, WordsError>
    ensures { Reads (asked_in verify_form (rows_of (found_of matches.now))) result }
{
    Ok(Asked::Verify {
        base: name_from(matches, "base")?,
        a: name_from(matches, "a")?,
        b: name_from(matches, "b")?,
        offered: name_from(matches, "offered")?,
    })
}
