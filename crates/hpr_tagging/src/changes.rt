//! Says what is put into a text.
ghost use Rattle.std.specs.Prelude.{◌≡◌, ◌+◌, ◌^◌, ◌<◌, IfOk};
ghost use Rattle.hpr_tagging.specs.declared.lexemes.Kind.TheVariants.{Other};
ghost use Rattle.hpr_tagging.specs.Tagging.{lacking, untagged, opens_header, put_at, replaced, change_by, changes, changes_of};

use crate::counts::{Numbering, is_any_number, is_pair, lacking, lacks_tag};
use crate::lexemes::{Kind, Lexeme, push_some};
use hpr_terms::NoMemory;
use std::alloc::Global;

/// What is put into a text.
#[derive(Clone, Copy)]
pub enum Put {
    /// The author's tag with this serial, in front of a part.
    Label(u32),
    /// This number, in place of that of the author's pair in the header.
    Raised(u32),
    /// The author's pair with this number, in front of the first pair of the header.
    Pair(u32),
}

/// What is put in place of some bytes, of which there may be none.
#[derive(Clone, Copy)]
pub struct Change {
    /// The first of these bytes, counted from 0.
    pub first: usize,
    /// The byte behind them.
    pub end: usize,
    pub put: Put,
}

/// Whether here is the first number of a header.
fn opens_header(before: Kind, kind: Kind) -> bool
    ensures { result ≡ opens_header before kind }
{
    match before {
        Kind::Issued => is_any_number(kind),
        _ => false,
    }
}

/// What is put in here, if anything is; the serial is the last one so far.
fn put_at(
    numbering: Numbering,
    serial: u32,
    two_before: Kind,
    before: Kind,
    kind: Kind,
) -> Option<Put>
    requires { serial + lacking two_before before kind < 2 ^ 32 }
    ensures { result ≡ put_at numbering serial two_before before kind }
{
    if lacks_tag(two_before, before, kind) {
        return Some(Put::Label(serial + 1));
    }
    if is_pair(numbering.author, two_before, before, kind) {
        return Some(Put::Raised(numbering.last));
    }
    if !numbering.is_listed && opens_header(before, kind) {
        return Some(Put::Pair(numbering.last));
    }
    None
}

/// The byte behind those in whose place it is put.
fn replaced(put: Put, lexeme: Lexeme) -> usize
    ensures { result ≡ replaced put lexeme }
{
    match put {
        Put::Raised(_) => lexeme.end,
        Put::Label(_) | Put::Pair(_) => lexeme.first,
    }
}

fn change_by(put: Option<Put>, lexeme: Lexeme) -> Option<Change>
    ensures { result ≡ change_by put lexeme }
{
    match put {
        None => None,
        Some(put) => Some(Change {
            first: lexeme.first,
            end: replaced(put, lexeme),
            put,
        }),
    }
}

fn changes(alloc: Global, numbering: Numbering, lexemes: &[Lexeme]) -> Result<Vec<Change>, NoMemory>
    requires { numbering.greatest + untagged Other Other lexemes.now < 2 ^ 32 }
    ensures { IfOk result (λ found. found.items
        ≡ changes numbering numbering.greatest Other Other lexemes.now) }
{
    let mut found = Vec::new(alloc);
    let mut serial = numbering.greatest;
    let mut two_before = Kind::Other;
    let mut before = Kind::Other;
    for lexeme in lexemes {
        let put = put_at(numbering, serial, two_before, before, lexeme.kind);
        push_some(&mut found, change_by(put, *lexeme))?;
        serial += lacking(two_before, before, lexeme.kind);
        two_before = before;
        before = lexeme.kind;
    }
    Ok(found)
}

/// What is put into a text with these words and signs: nothing where each part has its tag.
pub fn changes_of(
    alloc: Global,
    numbering: Numbering,
    lexemes: &[Lexeme],
) -> Result<Vec<Change>, NoMemory>
    requires { numbering.greatest + untagged Other Other lexemes.now < 2 ^ 32 }
    ensures { IfOk result (λ found. found.items ≡ changes_of numbering lexemes.now) }
{
    if numbering.greatest == numbering.last {
        return Ok(Vec::new(alloc));
    }
    changes(alloc, numbering, lexemes)
}
