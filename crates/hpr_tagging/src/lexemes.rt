//! Cuts bytes into words and signs.
ghost use Rattle.std.specs.Prelude.{◌≡◌, ◌++◌, ◌+◌, ◌^◌, ◌<◌, ◌≤◌, length, IfOk, OnOk};
ghost use Rattle.std.specs.List.{prefix_len};
ghost use Rattle.hpr_terms.specs.Keywords.{keyword_of};
ghost use Rattle.hpr_terms.specs.Names.{is_name_byte, begins_with_digit};
ghost use Rattle.hpr_terms.specs.Tokens.{is_blank};
ghost use Rattle.hpr_tagging.specs.declared.lexemes.Begun.TheVariants.{Nothing};
ghost use Rattle.hpr_tagging.specs.Lexemes.{beside, after, word, small_kind, number_kind, keyword_kind, named_kind, sign_kind, word_at, sign_at, lexeme_by, some_of, lexemes};

use hpr_scan::word::{is_numeral, value};
use hpr_terms::limits::TAG_NUMBERS;
use hpr_terms::{Keyword, NoMemory, is_name_byte};
use std::alloc::Global;

/// What a word or a sign is, as far as tags are concerned.
#[derive(Clone, Copy)]
pub enum Kind {
    /// `program`, `then`, `else`, `do`, `fi`, `od` or `;`: a part may stand behind it.
    Opens,
    /// `if`, `while`, `write`, or a word that is no keyword and doesn't begin with a digit: so a part
    /// begins behind its tag.
    Begins,
    /// `issued`.
    Issued,
    /// A number below 4,294,967,296.
    Number(u32),
    /// `.`.
    Dot,
    /// `:`, also that of `:=`.
    Colon,
    /// Any other.
    Other,
}

/// A word, or one byte of a sign.
#[derive(Clone, Copy)]
pub struct Lexeme {
    /// Its first byte, counted from 0.
    pub first: usize,
    /// The byte behind it.
    pub end: usize,
    pub kind: Kind,
}

/// What has begun before a byte.
#[derive(Clone, Copy)]
pub enum Begun {
    Nothing,
    Comment,
    InWord,
}

#[tactic(auto, unfolding(hpr_terms::specs::Tokens::is_blank))]
fn is_blank(byte: u8) -> bool
    ensures { result ≡ is_blank byte }
{
    byte == b' ' || byte == b'\t' || byte == b'\r' || byte == b'\n'
}

fn beside(byte: u8) -> Begun
    ensures { result ≡ beside byte }
{
    if byte == b'#' {
        Begun::Comment
    } else if is_name_byte(byte) {
        Begun::InWord
    } else {
        Begun::Nothing
    }
}

fn after(begun: Begun, byte: u8) -> Begun
    ensures { result ≡ after begun byte }
{
    match begun {
        Begun::Comment => {
            if byte == b'\n' {
                Begun::Nothing
            } else {
                Begun::Comment
            }
        }
        _ => beside(byte),
    }
}

fn word_len(bytes: &[u8]) -> usize
    ensures count { result ≡ prefix_len is_name_byte bytes.now }
    ensures within { result ≤ length bytes.now }
{
    for (place, byte) in bytes.iter().enumerate() {
        if !is_name_byte(*byte) {
            return place;
        }
    }
    bytes.len()
}

/// The bytes of words at the front.
fn word(bytes: &[u8]) -> &[u8]
    ensures word { result.now ≡ word bytes.now }
    ensures within { length result.now ≤ length bytes.now }
{
    &bytes[..word_len(bytes)]
}

fn small_kind(number: u64) -> Kind
    ensures { result ≡ small_kind number }
{
    if number < TAG_NUMBERS {
        Kind::Number(number as u32)
    } else {
        Kind::Other
    }
}

fn number_kind(word: &[u8]) -> Kind
    ensures { result ≡ number_kind word.now }
{
    if !is_numeral(word) {
        return Kind::Other;
    }
    match value(word) {
        Some(number) => small_kind(number),
        None => Kind::Other,
    }
}

fn keyword_kind(keyword: Keyword) -> Kind
    ensures { result ≡ keyword_kind keyword }
{
    match keyword {
        Keyword::Program
        | Keyword::Then
        | Keyword::Else
        | Keyword::Do
        | Keyword::Fi
        | Keyword::Od => Kind::Opens,
        Keyword::If | Keyword::While | Keyword::Write => Kind::Begins,
        Keyword::Issued => Kind::Issued,
        Keyword::End | Keyword::And | Keyword::Or | Keyword::Not | Keyword::Out => Kind::Other,
    }
}

fn begins_with_digit(word: &[u8]) -> bool
    ensures { result ≡ begins_with_digit word.now }
{
    match word {
        [] => false,
        [first, ..] => first.is_ascii_digit(),
    }
}

fn word_kind(word: &[u8]) -> Kind
    ensures { result ≡ named_kind (keyword_of word.now) word.now }
{
    match Keyword::of(word) {
        Some(keyword) => keyword_kind(keyword),
        None => {
            if begins_with_digit(word) {
                number_kind(word)
            } else {
                Kind::Begins
            }
        }
    }
}

fn sign_kind(byte: u8) -> Kind
    ensures { result ≡ sign_kind byte }
{
    match byte {
        b';' => Kind::Opens,
        b'.' => Kind::Dot,
        b':' => Kind::Colon,
        _ => Kind::Other,
    }
}

#[tactic(auto, unfolding(crate::specs::Lexemes::word_at))]
fn word_at(place: usize, word: &[u8]) -> Lexeme
    requires { place + length word.now < 2 ^ 64 }
    ensures { result ≡ word_at place word.now }
{
    Lexeme {
        first: place,
        end: place + word.len(),
        kind: word_kind(word),
    }
}

fn sign_at(place: usize, byte: u8) -> Option<Lexeme>
    requires { place + 1 < 2 ^ 64 }
    ensures { result ≡ sign_at place byte }
{
    if is_blank(byte) || byte == b'#' {
        return None;
    }
    Some(Lexeme {
        first: place,
        end: place + 1,
        kind: sign_kind(byte),
    })
}

/// The word or the sign that begins with the byte, of which the rest of the bytes has more.
fn lexeme_by(begun: Begun, place: usize, byte: u8, rest: &[u8]) -> Option<Lexeme>
    requires { place + 1 + length rest.now < 2 ^ 64 }
    ensures { result ≡ lexeme_by begun place byte rest.now }
{
    match begun {
        Begun::Comment => None,
        Begun::InWord => {
            if is_name_byte(byte) {
                None
            } else {
                sign_at(place, byte)
            }
        }
        Begun::Nothing => {
            if is_name_byte(byte) {
                Some(word_at(place, word(rest)))
            } else {
                sign_at(place, byte)
            }
        }
    }
}

/// Puts the item at the end, if there is one.
pub fn push_some<T: Drop>(items: &mut Vec<T>, item: Option<T>) -> Result<(), NoMemory>
    ensures { OnOk result (items.new.items ≡ items.old.items ++ some_of item) }
{
    if let Some(item) = item {
        items.push(item)?;
    }
    Ok(())
}

/// The words and signs of the bytes, in their order, without blanks and comments. A sign of two bytes is two.
pub fn lexemes(alloc: Global, bytes: &[u8]) -> Result<Vec<Lexeme>, NoMemory>
    ensures { IfOk result (λ found. found.items ≡ lexemes Nothing 0 bytes.now) }
{
    let mut found = Vec::new(alloc);
    let mut begun = Begun::Nothing;
    for (place, byte) in bytes.iter().enumerate() {
        push_some(&mut found, lexeme_by(begun, place, *byte, &bytes[place..]))?;
        begun = after(begun, *byte);
    }
    Ok(found)
}
