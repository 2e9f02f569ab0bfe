//! The commands: what each is called, which arguments it has, and what it asks for.
ghost use Rattle.std.specs.Prelude.{◌≡◌, ◌∷◌, [], map, option_map};
ghost use Rattle.std.specs.Result.{result_ok};
ghost use Rattle.clap.specs.Words.{found_of, rows_of};
ghost use Rattle.hpr_words.specs.Arguments.{app_with};
ghost use Rattle.hpr_words.specs.Commands.{author, tries};
ghost use Rattle.hpr_words.specs.Taken.{number_in};
ghost use Rattle.hprkit_words.specs.Commands.{affected_form, at_form, conflicts_form, conflicts_of, form_app, form_named, format_form, format_of, graph_form, graph_of, impact_form, impact_of, merge_form, merge_of, tag_form};
ghost use Rattle.hprkit_words.specs.Private.Commands.{Reads, form_of};
ghost use Rattle.hprkit_words.specs.Taken.{asked_in};

use crate::asked::Asked;
use crate::forms::{FormatForm, GraphForm, ImpactForm, LeftOut};
use clap::ArgMatches;
use hpr_terms::limits::{DEFAULT_TRIES, MAX_TAG_NUMBER, MAX_TRIES, MAX_VARIANTS};
use hpr_words::{Argument, WordsError, flag_from, list_from, name_from, word_number_from};
use std::alloc::Global;

const FILE: Argument = Argument::Word("file");

const BYTE: Argument = Argument::Word("byte");

const CHECK: Argument = Argument::Flag("check");

const IN_PLACE: Argument = Argument::Flag("in-place");

const AUTHOR: Argument = Argument::Number {
    name: "author",
    most: MAX_TAG_NUMBER,
    is_needed: true,
};

const KEEP: Argument = Argument::Flag("keep");

const BASE: Argument = Argument::Word("base");

const VARIANT: Argument = Argument::Word("variant");

const VARIANTS: Argument = Argument::List {
    name: "variant",
    is_needed: true,
};

const TRIES: Argument = Argument::Number {
    name: "tries",
    most: MAX_TRIES,
    is_needed: false,
};

const POINTS: Argument = Argument::List {
    name: "point",
    is_needed: true,
};

const JSON: Argument = Argument::Flag("json");

const DOT: Argument = Argument::Flag("dot");

const NO_CONTROL: Argument = Argument::Flag("no-control");

const NO_FLOW: Argument = Argument::Flag("no-flow");

const NO_ORDER: Argument = Argument::Flag("no-order");

const MARKS: Argument = Argument::Flag("marks");

/// The commands by their names.
#[derive(Clone, Copy)]
pub enum CommandName {
    Format,
    At,
    Tag,
    Graph,
    Impact,
    Affected,
    Conflicts,
    Merge,
}

impl CommandName {
    /// The command of this name, if there is one.
    pub fn named(name: &str) -> Option<CommandName>
        ensures { option_map form_of result ≡ form_named name.now }
    {
        match name {
            "fmt" => Some(CommandName::Format),
            "at" => Some(CommandName::At),
            "tag" => Some(CommandName::Tag),
            "graph" => Some(CommandName::Graph),
            "impact" => Some(CommandName::Impact),
            "affected" => Some(CommandName::Affected),
            "conflicts" => Some(CommandName::Conflicts),
            "merge" => Some(CommandName::Merge),
            _ => None,
        }
    }

    /// The arguments of the command.
    pub fn arguments(self) -> &'static [Argument]
        ensures { app_with (form_of self).name result.now ≡ form_app (form_of self) }
    {
        match self {
            CommandName::Format => &[FILE, CHECK, IN_PLACE],
            CommandName::At => &[FILE, BYTE],
            CommandName::Tag => &[FILE, AUTHOR, KEEP],
            CommandName::Graph => &[FILE, JSON, DOT, NO_CONTROL, NO_FLOW, NO_ORDER],
            CommandName::Impact => &[FILE, POINTS, JSON, MARKS],
            CommandName::Affected => &[BASE, VARIANT],
            CommandName::Conflicts => &[BASE, VARIANTS],
            CommandName::Merge => &[BASE, VARIANTS, TRIES],
        }
    }

    /// What the command asks for, by what its arguments are given.
    pub fn asked<'a>(self, alloc: Global, matches: &ArgMatches<'a>) -> Result<Asked<'a>, WordsError>
        ensures { Reads (asked_in (form_of self) (rows_of (found_of matches.now))) result }
    {
        match self {
            CommandName::Format => format_from(matches),
            CommandName::At => at_from(matches),
            CommandName::Tag => tag_from(matches),
            CommandName::Graph => graph_from(matches),
            CommandName::Impact => impact_from(alloc, matches),
            CommandName::Affected => affected_from(matches),
            CommandName::Conflicts => conflicts_from(alloc, matches),
            CommandName::Merge => merge_from(alloc, matches),
        }
    }
}

fn format_from<'a>(matches: &ArgMatches<'a>) -> Result<Asked<'a>, WordsError>
    ensures { Reads (asked_in format_form (rows_of (found_of matches.now))) result }
{
    let file = name_from(matches, "file")?;
    format_told(
        file,
        flag_from(matches, "check"),
        flag_from(matches, "in-place"),
    )
}

/// What is done with the canonical text of a file, by at most one of the flags. The stream `-` gets no text.
fn format_told<'a>(file: &'a str, check: bool, in_place: bool) -> Result<Asked<'a>, WordsError>
    ensures { Reads (format_of (file.entry.now ∷ []) [] [] (check ∷ in_place ∷ [])) result }
{
    let form = match (check, in_place) {
        (false, false) => FormatForm::Print,
        (true, false) => FormatForm::Check,
        (false, true) if file != "-" => FormatForm::InPlace,
        _ => return Err(WordsError::Refused),
    };
    Ok(Asked::Format { file, form })
}

fn at_from<'a>(matches: &ArgMatches<'a>) -> Result<Asked<'a>, WordsError>
    ensures { Reads (asked_in at_form (rows_of (found_of matches.now))) result }
{
    let file = name_from(matches, "file")?;
    let byte = word_number_from(matches, "byte", 0, u64::MAX)?;
    Ok(Asked::At { file, byte })
}

fn tag_from<'a>(matches: &ArgMatches<'a>) -> Result<Asked<'a>, WordsError>
    ensures { Reads (asked_in tag_form (rows_of (found_of matches.now))) result }
{
    Ok(Asked::Tag {
        file: name_from(matches, "file")?,
        author: author_from(matches)?,
        keep: flag_from(matches, "keep"),
    })
}

/// The number of the author.
fn author_from(matches: &ArgMatches<'_>) -> Result<u32, WordsError>
    ensures { result_ok result ≡ number_in author (rows_of (found_of matches.now)) }
{
    let number = word_number_from(matches, "author", 1, u64::from(MAX_TAG_NUMBER))?;
    u32::try_from(number).map_err(|_| WordsError::Refused)
}

fn graph_from<'a>(matches: &ArgMatches<'a>) -> Result<Asked<'a>, WordsError>
    ensures { Reads (asked_in graph_form (rows_of (found_of matches.now))) result }
{
    let file = name_from(matches, "file")?;
    let without = LeftOut {
        control: flag_from(matches, "no-control"),
        flow: flag_from(matches, "no-flow"),
        order: flag_from(matches, "no-order"),
    };
    graph_told(
        file,
        flag_from(matches, "json"),
        flag_from(matches, "dot"),
        without,
    )
}

/// The graph of a file, told in the form of one of the two flags. JSON has all edges.
fn graph_told<'a>(
    file: &'a str,
    json: bool,
    dot: bool,
    without: LeftOut,
) -> Result<Asked<'a>, WordsError>
    ensures { Reads (graph_of (file.entry.now ∷ []) [] []
        (json ∷ dot ∷ without.control ∷ without.flow ∷ without.order ∷ [])) result }
{
    let all = !without.control && !without.flow && !without.order;
    match (json, dot) {
        (true, false) if all => Ok(Asked::Graph {
            file,
            form: GraphForm::Json,
        }),
        (false, true) => Ok(Asked::Graph {
            file,
            form: GraphForm::Dot(without),
        }),
        _ => Err(WordsError::Refused),
    }
}

fn impact_from<'a>(alloc: Global, matches: &ArgMatches<'a>) -> Result<Asked<'a>, WordsError>
    ensures { Reads (asked_in impact_form (rows_of (found_of matches.now))) result }
{
    let file = name_from(matches, "file")?;
    let points = list_from(alloc, matches, "point")?;
    impact_told(
        file,
        points,
        flag_from(matches, "json"),
        flag_from(matches, "marks"),
    )
}

/// What a change at the points of a file can reach, told in the form of a flag, of which at most one is given.
fn impact_told<'a>(
    file: &'a str,
    points: Vec<&'a str>,
    json: bool,
    marks: bool,
) -> Result<Asked<'a>, WordsError>
    ensures { Reads (impact_of (file.entry.now ∷ []) (map (λ s. s.now) points.entry.items) []
        (json ∷ marks ∷ [])) result }
{
    let form = match (json, marks) {
        (false, false) => ImpactForm::Points,
        (true, false) => ImpactForm::Json,
        (false, true) => ImpactForm::Marks,
        (true, true) => return Err(WordsError::Refused),
    };
    Ok(Asked::Impact { file, points, form })
}

fn affected_from<'a>(matches: &ArgMatches<'a>) -> Result<Asked<'a>, WordsError>
    ensures { Reads (asked_in affected_form (rows_of (found_of matches.now))) result }
{
    Ok(Asked::Affected {
        base: name_from(matches, "base")?,
        variant: name_from(matches, "variant")?,
    })
}

fn conflicts_from<'a>(alloc: Global, matches: &ArgMatches<'a>) -> Result<Asked<'a>, WordsError>
    ensures { Reads (asked_in conflicts_form (rows_of (found_of matches.now))) result }
{
    let base = name_from(matches, "base")?;
    conflicts_told(base, list_from(alloc, matches, "variant")?)
}

/// The conflicts of the variants, of which there must be 2 to 16.
fn conflicts_told<'a>(base: &'a str, variants: Vec<&'a str>) -> Result<Asked<'a>, WordsError>
    ensures { Reads (conflicts_of (base.entry.now ∷ []) (map (λ s. s.now) variants.entry.items) [] []) result }
{
    match variants.as_slice() {
        [_, _, ..] if variants.len() <= MAX_VARIANTS => Ok(Asked::Conflicts { base, variants }),
        _ => Err(WordsError::Refused),
    }
}

fn merge_from<'a>(alloc: Global, matches: &ArgMatches<'a>) -> Result<Asked<'a>, WordsError>
    ensures { Reads (asked_in merge_form (rows_of (found_of matches.now))) result }
{
    let base = name_from(matches, "base")?;
    let tries = tries_from(matches)?;
    merge_told(base, list_from(alloc, matches, "variant")?, tries)
}

/// The number of tries, which has a default.
fn tries_from(matches: &ArgMatches<'_>) -> Result<u64, WordsError>
    ensures { result_ok result ≡ number_in tries (rows_of (found_of matches.now)) }
{
    match matches.get_str("tries") {
        Some(_) => word_number_from(matches, "tries", 1, u64::from(MAX_TRIES)),
        None => Ok(DEFAULT_TRIES),
    }
}

/// The integration of the variants, of which there must be 2 to 16.
fn merge_told<'a>(
    base: &'a str,
    variants: Vec<&'a str>,
    tries: u64,
) -> Result<Asked<'a>, WordsError>
    ensures { Reads (merge_of (base.entry.now ∷ []) (map (λ s. s.now) variants.entry.items) (tries ∷ []) [])
        result }
{
    match variants.as_slice() {
        [_, _, ..] if variants.len() <= MAX_VARIANTS => {
            Ok(Asked::Merge {
                base,
                variants,
                tries,
            })
        }
        _ => Err(WordsError::Refused),
    }
}
