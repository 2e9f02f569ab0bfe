//! Counts an author's serials in a text, and the parts without a tag.
ghost use Rattle.std.specs.Prelude.{◌≡◌, ◌≤◌, ◌<◌, length, IfSome, IfNone};
ghost use Rattle.hpr_terms.specs.declared.limits.TheConstants.{TAG_NUMBERS};
ghost use Rattle.hpr_tagging.specs.declared.lexemes.Kind.TheVariants.{Other};
ghost use Rattle.hpr_tagging.specs.Tagging.{is_number, is_any_number, is_colon, begins_part, lacks_tag, lacking, is_pair, serial_behind, serial_in, greatest_in, untagged, has_pair, last_serial, numbering_of};

use crate::lexemes::{Kind, Lexeme};
use hpr_terms::limits::TAG_NUMBERS;

/// Whose tags are put into a text, and with which serials.
#[derive(Clone, Copy)]
pub struct Numbering {
    pub author: u32,
    /// The greatest serial of the author that the text has, or 0.
    pub greatest: u32,
    /// The last serial that is put in: that of the last part without a tag.
    pub last: u32,
    /// Whether the header has a pair of the author.
    pub is_listed: bool,
}

fn is_number(author: u32, kind: Kind) -> bool
    ensures { result ≡ is_number author kind }
{
    match kind {
        Kind::Number(number) => number == author,
        _ => false,
    }
}

/// Whether it is a number.
pub fn is_any_number(kind: Kind) -> bool
    ensures { result ≡ is_any_number kind }
{
    matches!(kind, Kind::Number(_))
}

fn is_colon(kind: Kind) -> bool
    ensures { result ≡ is_colon kind }
{
    matches!(kind, Kind::Colon)
}

fn begins_part(kind: Kind) -> bool
    ensures { result ≡ begins_part kind }
{
    matches!(kind, Kind::Begins)
}

/// Whether a part without a tag begins here: behind what opens, or behind the last pair of a header.
pub fn lacks_tag(two_before: Kind, before: Kind, kind: Kind) -> bool
    ensures { result ≡ lacks_tag two_before before kind }
{
    match before {
        Kind::Opens => begins_part(kind),
        Kind::Number(_) => is_colon(two_before) && begins_part(kind),
        _ => false,
    }
}

/// How many parts without a tag begin here: 1 or 0.
pub fn lacking(two_before: Kind, before: Kind, kind: Kind) -> u32
    ensures { result ≡ lacking two_before before kind }
{
    if lacks_tag(two_before, before, kind) {
        1
    } else {
        0
    }
}

/// Whether here is the number of the author's pair in a header: behind the author and a colon.
pub fn is_pair(author: u32, two_before: Kind, before: Kind, kind: Kind) -> bool
    ensures { result ≡ is_pair author two_before before kind }
{
    match before {
        Kind::Colon => is_any_number(kind) && is_number(author, two_before),
        _ => false,
    }
}

fn serial_behind(author: u32, two_before: Kind, kind: Kind) -> u32
    ensures { result ≡ serial_behind author two_before kind }
{
    match kind {
        Kind::Number(number) => {
            if is_number(author, two_before) {
                number
            } else {
                0
            }
        }
        _ => 0,
    }
}

/// The author's serial that stands here: a number behind the author and a dot or a colon. Else 0.
fn serial_in(author: u32, two_before: Kind, before: Kind, kind: Kind) -> u32
    ensures { result ≡ serial_in author two_before before kind }
{
    match before {
        Kind::Dot | Kind::Colon => serial_behind(author, two_before, kind),
        _ => 0,
    }
}

fn greatest_in(author: u32, lexemes: &[Lexeme]) -> u32
    ensures { result ≡ greatest_in author Other Other lexemes.now }
{
    let mut most = 0;
    let mut two_before = Kind::Other;
    let mut before = Kind::Other;
    for lexeme in lexemes {
        most = serial_in(author, two_before, before, lexeme.kind).max(most);
        two_before = before;
        before = lexeme.kind;
    }
    most
}

fn untagged(lexemes: &[Lexeme]) -> u64
    ensures count { result ≡ untagged Other Other lexemes.now }
    ensures most { result ≤ length lexemes.now }
{
    let mut count = 0u64;
    let mut two_before = Kind::Other;
    let mut before = Kind::Other;
    for lexeme in lexemes {
        count += u64::from(lacking(two_before, before, lexeme.kind));
        two_before = before;
        before = lexeme.kind;
    }
    count
}

fn has_pair(author: u32, lexemes: &[Lexeme]) -> bool
    ensures { result ≡ has_pair author Other Other lexemes.now }
{
    let mut two_before = Kind::Other;
    let mut before = Kind::Other;
    for lexeme in lexemes {
        if is_pair(author, two_before, before, lexeme.kind) {
            return true;
        }
        two_before = before;
        before = lexeme.kind;
    }
    false
}

/// How the parts without a tag are numbered, or none where the author's serials don't suffice.
pub fn numbering_of(author: u32, lexemes: &[Lexeme]) -> Option<Numbering>
    ensures numbering { IfSome result (λ numbering. numbering ≡ numbering_of author lexemes.now) }
    ensures suffice { IfSome result (λ _. last_serial author lexemes.now < TAG_NUMBERS) }
    ensures spent { IfNone result (TAG_NUMBERS ≤ last_serial author lexemes.now) }
{
    let greatest = greatest_in(author, lexemes);
    let last = u64::from(greatest) + untagged(lexemes);
    if last >= TAG_NUMBERS {
        return None;
    }
    Some(Numbering {
        author,
        greatest,
        last: last as u32,
        is_listed: has_pair(author, lexemes),
    })
}
