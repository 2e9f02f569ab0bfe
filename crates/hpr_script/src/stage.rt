//! The places of the grammar at which a script can stand.
ghost use Rattle.std.specs.Prelude.{◌≡◌, is_some};
ghost use Rattle.hpr_script.specs.Stages as stages;

use crate::word::ScriptWord;
use hpr_edit::Place;
use hpr_terms::Tag;
use hpr_terms::limits::TAG_NUMBERS;

/// What is to stand at a place.
#[derive(Clone, Copy)]
pub enum Placed {
    /// A new part.
    New,
    /// The part with this tag.
    Part(Tag),
}

/// What a tag is read for.
#[derive(Clone, Copy)]
pub enum Asked {
    /// The part to be deleted.
    Delete,
    /// The part to be moved.
    Move,
    /// The part that is to say something else.
    Set,
    /// The part to be wrapped.
    Wrap,
    /// The part to be unwrapped.
    Unwrap,
    /// The part in whose block something is to stand.
    Parent(Placed),
}

/// What a content is read for.
#[derive(Clone, Copy)]
pub enum Holder {
    /// A new part at this place.
    Insert(Place),
    /// The part with this tag.
    Set(Tag),
    /// A new part around the one with this tag.
    Wrap(Tag),
}

/// A command without a content, before its `;`. The variables of `finals` are kept apart.
#[derive(Clone, Copy)]
pub enum Plain {
    Delete(Tag),
    Move(Tag, Place),
    Unwrap(Tag),
    Finals,
}

/// What was read last.
#[derive(Clone, Copy)]
pub enum Stage {
    /// Nothing, or a command and its `;`.
    AtCommand,
    /// A word that a tag follows.
    AtTag(Asked),
    /// The author of a tag.
    AfterAuthor(Asked, u32),
    /// The dot of a tag.
    AfterDot(Asked, u32),
    /// What stands before `at`.
    AtPlace(Placed),
    /// `at`.
    AfterAt(Placed),
    /// The tag of a place.
    AfterParent(Placed, Tag),
    /// The block of a place.
    AtCount(Placed, Option<(Tag, bool)>),
    /// `finals`.
    AtNames,
    /// The opening bracket of `finals`.
    AfterOpen,
    /// A name of `finals`, which is a variable of it unless `[` follows.
    AfterName,
    /// Such a name and `[`.
    AfterNameOpen,
    /// The stream or an array of `finals`.
    AfterFinal,
    /// A comma between two variables of `finals`.
    AfterComma,
    /// A whole command but for its `;`.
    AtEnd(Plain),
}

/// What comes next.
#[derive(Clone, Copy)]
pub enum Turn {
    /// A token of this place.
    Head(Stage),
    /// A content.
    Content(Holder),
}

fn is_count(number: u64) -> bool
    ensures { result ≡ stages.is_count number }
{
    number < TAG_NUMBERS
}

fn is_serial(number: u64) -> bool
    ensures { result ≡ stages.is_serial number }
{
    1 <= number && is_count(number)
}

fn tagged(asked: Asked, tag: Tag) -> Turn
    ensures { result ≡ stages.tagged asked tag }
{
    match asked {
        Asked::Delete => Turn::Head(Stage::AtEnd(Plain::Delete(tag))),
        Asked::Move => Turn::Head(Stage::AtPlace(Placed::Part(tag))),
        Asked::Set => Turn::Content(Holder::Set(tag)),
        Asked::Wrap => Turn::Content(Holder::Wrap(tag)),
        Asked::Unwrap => Turn::Head(Stage::AtEnd(Plain::Unwrap(tag))),
        Asked::Parent(placed) => Turn::Head(Stage::AfterParent(placed, tag)),
    }
}

fn at_place(placed: Placed, place: Place) -> Turn
    ensures { result ≡ stages.at_place placed place }
{
    match placed {
        Placed::New => Turn::Content(Holder::Insert(place)),
        Placed::Part(tag) => Turn::Head(Stage::AtEnd(Plain::Move(tag, place))),
    }
}

fn command_stage(word: ScriptWord) -> Option<Stage>
    ensures { result ≡ stages.command_stage word }
{
    match word {
        ScriptWord::Insert => Some(Stage::AtPlace(Placed::New)),
        ScriptWord::Delete => Some(Stage::AtTag(Asked::Delete)),
        ScriptWord::Move => Some(Stage::AtTag(Asked::Move)),
        ScriptWord::Set => Some(Stage::AtTag(Asked::Set)),
        ScriptWord::Wrap => Some(Stage::AtTag(Asked::Wrap)),
        ScriptWord::Unwrap => Some(Stage::AtTag(Asked::Unwrap)),
        ScriptWord::Finals => Some(Stage::AtNames),
        _ => None,
    }
}

fn block_stage(placed: Placed, tag: Tag, word: ScriptWord) -> Option<Stage>
    ensures { result ≡ stages.block_stage placed tag word }
{
    match word {
        ScriptWord::True => Some(Stage::AtCount(placed, Some((tag, true)))),
        ScriptWord::False => Some(Stage::AtCount(placed, Some((tag, false)))),
        _ => None,
    }
}

impl Stage {
    /// Where a word of scripts leads, if it can stand here.
    #[tactic(auto, unfolding(crate::specs::Stages::word_stage))]
    pub fn word(self, word: ScriptWord) -> Option<Stage>
        ensures { result ≡ stages.word_stage self word }
    {
        match (self, word) {
            (Stage::AtCommand, word) => command_stage(word),
            (Stage::AtPlace(placed), ScriptWord::At) => Some(Stage::AfterAt(placed)),
            (Stage::AfterAt(placed), ScriptWord::Top) => Some(Stage::AtCount(placed, None)),
            (Stage::AfterParent(placed, tag), word) => block_stage(placed, tag, word),
            _ => None,
        }
    }

    /// Where a number leads, if it can stand here.
    #[tactic(auto, unfolding(crate::specs::Stages::number_turn))]
    pub fn number(self, number: u64) -> Option<Turn>
        ensures { result ≡ stages.number_turn self number }
    {
        match self {
            Stage::AtTag(asked) if is_count(number) => {
                Some(Turn::Head(Stage::AfterAuthor(asked, number as u32)))
            }
            Stage::AfterAt(placed) if is_count(number) => {
                let asked = Asked::Parent(placed);
                Some(Turn::Head(Stage::AfterAuthor(asked, number as u32)))
            }
            Stage::AfterDot(asked, author) if is_serial(number) => Some(tagged(
                asked,
                Tag {
                    author,
                    serial: number as u32,
                },
            )),
            Stage::AtCount(placed, parent) if is_count(number) => Some(at_place(
                placed,
                Place {
                    parent,
                    at: number as usize,
                },
            )),
            _ => None,
        }
    }

    /// Whether a word of scripts stands here, and no other name does.
    #[tactic(auto, unfolding(crate::specs::Stages::wants_word))]
    pub fn wants_word(self) -> bool
        ensures { result ≡ stages.wants_word self }
    {
        matches!(
            self,
            Stage::AtCommand | Stage::AtPlace(_) | Stage::AfterAt(_) | Stage::AfterParent(_, _)
        )
    }

    /// Whether a variable can stand here that may be any.
    #[tactic(auto, unfolding(crate::specs::Stages::takes_name))]
    pub fn takes_name(self) -> bool
        ensures { result ≡ stages.takes_name self }
    {
        matches!(self, Stage::AfterOpen | Stage::AfterComma)
    }
}
