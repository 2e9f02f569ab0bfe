//! Finds the tokens of a command's head in bytes, one byte at a time.
ghost use Rattle.std.specs.Prelude.{◌≡◌, ℕ, ◌++◌, ◌∷◌, [], ◌||◌, is_some, IsTrue, nat_eq, if◌then◌else◌};
ghost use Rattle.std.specs.List.{list_any};
ghost use Rattle.hpr_terms.specs.Names.{is_name_byte, is_name};
ghost use Rattle.hpr_scan.specs.Words.{value_after};
ghost use Rattle.hpr_terms.specs.Tokens.{is_blank};
ghost use Rattle.hpr_scan.specs.Steps.{and_then, Steps};
ghost use Rattle.hpr_script.specs.Machine as machine;
ghost use Rattle.hpr_script.specs.Reading as reading;
ghost use Rattle.hpr_script.specs.Stages as stages;
ghost use Rattle.hpr_script.specs.declared.scanner.Begun.TheVariants as begun;

use crate::found::Found;
use crate::stage::{Plain, Stage, Turn};
use crate::word::{SCRIPT_WORDS, ScriptWord};
use hpr_scan::Fault;
use hpr_scan::word::{Letters, is_numeral, value};
use hpr_terms::{Keyword, Name, NameError, is_name, is_name_byte, is_name_like};
use std::alloc::Global;

/// What has begun before the next byte.
#[derive(Drop)]
pub enum Begun {
    /// Nothing.
    Gap,
    /// A comment.
    Comment,
    /// A word, so far with these letters.
    InWord(Letters),
}

/// A place in a script outside of a content: what has begun there, and what was read before it.
#[derive(Drop)]
pub struct Reader {
    pub begun: Begun,
    pub found: Found,
    pub stage: Stage,
}

#[tactic(auto, unfolding(hpr_terms::specs::Tokens::is_blank))]
fn is_blank(byte: u8) -> bool
    ensures { result ≡ is_blank byte }
{
    byte == b' ' || byte == b'\t' || byte == b'\r' || byte == b'\n'
}

fn begins_word(stage: Stage, word: &[u8], script_word: ScriptWord) -> bool
    ensures { result ≡ reading.begins_word stage word.now script_word }
{
    stage.word(script_word).is_some() && script_word.text().starts_with(word)
}

fn begins_word_of(stage: Stage, word: &[u8], script_words: &[ScriptWord]) -> bool
    ensures { result ≡ list_any (reading.begins_word stage word.now) script_words.now }
{
    for script_word in script_words {
        if begins_word(stage, word, *script_word) {
            return true;
        }
    }
    false
}

fn takes_value(stage: Stage, word: &[u8]) -> bool
    ensures { result ≡ is_some (stages.number_turn stage (value_after 0 word.now)) }
{
    match value(word) {
        None => false,
        Some(number) => stage.number(number).is_some(),
    }
}

fn begins_number(stage: Stage, word: &[u8]) -> bool
    ensures { result ≡ reading.begins_number stage word.now }
{
    is_numeral(word) && takes_value(stage, word)
}

/// Whether the letters are the front of a word that can stand next.
#[tactic(auto, unfolding(crate::specs::Reading::begins))]
fn begins(stage: Stage, letters: &Letters) -> bool
    ensures { result ≡ reading.begins stage letters.now }
{
    let word = letters.text().as_bytes();
    (stage.takes_name() && is_name_like(word))
        || begins_number(stage, word)
        || begins_word_of(stage, word, &SCRIPT_WORDS)
}

fn grow(found: Found, stage: Stage, letters: Letters, byte: u8) -> Result<Reader, Fault>
    requires { IsTrue (is_name_byte byte) }
    ensures { Steps (reading.grown found stage (letters ++ byte ∷ [])) result }
{
    let mut letters = letters;
    letters.push(byte)?;
    if begins(stage, &letters) {
        Ok(Reader {
            begun: Begun::InWord(letters),
            found,
            stage,
        })
    } else {
        Err(Fault::Refused)
    }
}

fn dot(stage: Stage) -> Option<Stage>
    ensures { result ≡ machine.dot_stage stage }
{
    match stage {
        Stage::AfterAuthor(asked, author) => Some(Stage::AfterDot(asked, author)),
        _ => None,
    }
}

fn close_square(stage: Stage) -> Option<Stage>
    ensures { result ≡ machine.close_square_stage stage }
{
    match stage {
        Stage::AfterNameOpen => Some(Stage::AfterFinal),
        _ => None,
    }
}

fn at(found: Found, stage: Option<Stage>) -> Result<Reader, Fault>
    ensures { Steps (reading.settled (machine.found_at found stage)) result }
{
    match stage {
        None => Err(Fault::Refused),
        Some(stage) => Ok(Reader {
            begun: Begun::Gap,
            found,
            stage,
        }),
    }
}

fn open(alloc: Global, found: Found, stage: Stage) -> Result<Reader, Fault>
    ensures { Steps (reading.settled (machine.opened found stage)) result }
{
    match stage {
        Stage::AtNames => Ok(Reader {
            begun: Begun::Gap,
            found: found.without_names(alloc),
            stage: Stage::AfterOpen,
        }),
        _ => Err(Fault::Refused),
    }
}

/// The last variable of `finals` has ended, and this place follows.
fn last_ended(found: Found, stage: Stage) -> Result<Reader, Fault>
    ensures { Steps (reading.settled (machine.last_ended found stage)) result }
{
    Ok(Reader {
        begun: Begun::Gap,
        found: found.with_last_ended()?,
        stage,
    })
}

fn comma(found: Found, stage: Stage) -> Result<Reader, Fault>
    ensures { Steps (reading.settled (machine.comma_after found stage)) result }
{
    match stage {
        Stage::AfterName => last_ended(found, Stage::AfterComma),
        Stage::AfterFinal => last_ended(found, Stage::AfterComma),
        _ => Err(Fault::Refused),
    }
}

fn close(found: Found, stage: Stage) -> Result<Reader, Fault>
    ensures { Steps (reading.settled (machine.close_after found stage)) result }
{
    match stage {
        Stage::AfterOpen => at(found, Some(Stage::AtEnd(Plain::Finals))),
        Stage::AfterName => last_ended(found, Stage::AtEnd(Plain::Finals)),
        Stage::AfterFinal => last_ended(found, Stage::AtEnd(Plain::Finals)),
        _ => Err(Fault::Refused),
    }
}

fn open_square(alloc: Global, found: Found, stage: Stage) -> Result<Reader, Fault>
    ensures { Steps (reading.settled (machine.square_opened found stage)) result }
{
    match stage {
        Stage::AfterName => Ok(Reader {
            begun: Begun::Gap,
            found: found.with_array(alloc)?,
            stage: Stage::AfterNameOpen,
        }),
        _ => Err(Fault::Refused),
    }
}

fn end(alloc: Global, found: Found, stage: Stage) -> Result<Reader, Fault>
    ensures { Steps (reading.settled (machine.ended found stage)) result }
{
    match stage {
        Stage::AtEnd(plain) => Ok(Reader {
            begun: Begun::Gap,
            found: found.with_plain(alloc, plain)?,
            stage: Stage::AtCommand,
        }),
        _ => Err(Fault::Refused),
    }
}

#[tactic(auto, unfolding(crate::specs::Reading::signed, crate::specs::Machine::sign_after, hpr_scan::specs::Scanner::sign_of))]
fn sign(alloc: Global, found: Found, stage: Stage, byte: u8) -> Result<Reader, Fault>
    ensures { Steps (reading.settled (reading.signed found stage byte)) result }
{
    match byte {
        b'.' => at(found, dot(stage)),
        b',' => comma(found, stage),
        b'(' => open(alloc, found, stage),
        b')' => close(found, stage),
        b'[' => open_square(alloc, found, stage),
        b']' => at(found, close_square(stage)),
        b';' => end(alloc, found, stage),
        _ => Err(Fault::Refused),
    }
}

/// The place after the byte, where nothing has begun.
#[tactic(auto, unfolding(crate::specs::Reading::gap_next))]
pub fn feed_gap(alloc: Global, found: Found, stage: Stage, byte: u8) -> Result<Reader, Fault>
    ensures { Steps (reading.gap_next found stage byte) result }
{
    if is_blank(byte) {
        return Ok(Reader {
            begun: Begun::Gap,
            found,
            stage,
        });
    }
    if byte == b'#' {
        return Ok(Reader {
            begun: Begun::Comment,
            found,
            stage,
        });
    }
    if is_name_byte(byte) {
        return grow(found, stage, Letters::new(alloc), byte);
    }
    sign(alloc, found, stage, byte)
}

fn feed_comment(found: Found, stage: Stage, byte: u8) -> Reader
    ensures { result ≡ reading.reader (if nat_eq byte 10 then begun.Gap else begun.Comment) found stage }
{
    let begun = if byte == b'\n' {
        Begun::Gap
    } else {
        Begun::Comment
    };
    Reader {
        begun,
        found,
        stage,
    }
}

/// The place after the byte, which doesn't end a word.
pub fn feed_inner(
    alloc: Global,
    begun: Begun,
    found: Found,
    stage: Stage,
    byte: u8,
) -> Result<Reader, Fault>
    requires { reading.IsInner begun byte }
    ensures { Steps (reading.inner begun found stage byte) result }
{
    match begun {
        Begun::Gap => feed_gap(alloc, found, stage, byte),
        Begun::Comment => Ok(feed_comment(found, stage, byte)),
        Begun::InWord(letters) => grow(found, stage, letters, byte),
    }
}

fn after_word(found: Found, stage: Stage, word: &[u8]) -> Result<(Found, Turn), Fault>
    ensures { Steps (machine.word_turn found stage word.now) result }
{
    match ScriptWord::of(word) {
        None => Err(Fault::Refused),
        Some(script_word) => match stage.word(script_word) {
            None => Err(Fault::Refused),
            Some(stage) => Ok((found, Turn::Head(stage))),
        },
    }
}

fn after_any_name(
    alloc: Global,
    found: Found,
    stage: Stage,
    word: &str,
) -> Result<(Found, Turn), Fault>
    requires { IsTrue (is_name word.now) }
    ensures { Steps (machine.variable_turn found stage word.now Stage.AfterName) result }
{
    if !stage.takes_name() {
        return Err(Fault::Refused);
    }
    match Name::new(alloc, word) {
        Ok(name) => Ok((found.with_last(name), Turn::Head(Stage::AfterName))),
        Err(NameError::NotAName) => Err(Fault::Refused),
        Err(NameError::Memory) => Err(Fault::Memory),
    }
}

#[tactic(auto, unfolding(crate::specs::Machine::name_turn))]
fn after_name(alloc: Global, found: Found, stage: Stage, word: &str) -> Result<(Found, Turn), Fault>
    requires { IsTrue (is_name word.now) }
    ensures { Steps (machine.name_turn found stage word.now) result }
{
    if stage.wants_word() {
        after_word(found, stage, word.as_bytes())
    } else {
        after_any_name(alloc, found, stage, word)
    }
}

#[tactic(auto, unfolding(crate::specs::Machine::number_after))]
fn after_number(found: Found, stage: Stage, word: &[u8]) -> Result<(Found, Turn), Fault>
    ensures { Steps (machine.number_after found stage (value_after 0 word.now)) result }
{
    match value(word) {
        None => Err(Fault::Refused),
        Some(number) => match stage.number(number) {
            None => Err(Fault::Refused),
            Some(turn) => Ok((found, turn)),
        },
    }
}

fn other(alloc: Global, found: Found, stage: Stage, word: &str) -> Result<(Found, Turn), Fault>
    ensures { Steps (reading.other_finished found stage word.now) result }
{
    if is_name(word.as_bytes()) {
        after_name(alloc, found, stage, word)
    } else if is_numeral(word.as_bytes()) {
        after_number(found, stage, word.as_bytes())
    } else {
        Err(Fault::Refused)
    }
}

#[tactic(auto, unfolding(crate::specs::Machine::keyword_turn))]
fn after_keyword(
    alloc: Global,
    found: Found,
    stage: Stage,
    keyword: Keyword,
) -> Result<(Found, Turn), Fault>
    ensures { Steps (machine.keyword_turn found stage keyword) result }
{
    match keyword {
        Keyword::Out if stage.takes_name() => {
            let stream = Name::stream(alloc)?;
            Ok((found.with_last(stream), Turn::Head(Stage::AfterFinal)))
        }
        _ => Err(Fault::Refused),
    }
}

/// What comes next behind the word with these letters.
#[tactic(auto, unfolding(crate::specs::Reading::finished))]
pub fn finish(
    alloc: Global,
    found: Found,
    stage: Stage,
    letters: &Letters,
) -> Result<(Found, Turn), Fault>
    ensures { Steps (reading.finished found stage letters.now) result }
{
    let word = letters.text();
    match Keyword::of(word.as_bytes()) {
        Some(keyword) => after_keyword(alloc, found, stage, keyword),
        None => other(alloc, found, stage, word),
    }
}
