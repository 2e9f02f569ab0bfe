//! Counts the bytes of a text up to the next token, of a word, and of what a part says.
ghost use Rattle.std.specs.Prelude.{◌≡◌, ◌≤◌, ◌<◌, length, false};
ghost use Rattle.std.specs.List.{prefix_len};
ghost use Rattle.hpr_terms.specs.Names.{is_name_byte};
ghost use Rattle.hpr_terms.specs.Tokens.{is_blank};
ghost use Rattle.hpr_places.specs.declared.scan.Before.TheVariants.{Gap};
ghost use Rattle.hpr_places.specs.Private.Walk.{gap_next, gap_len, word, sign_len, ends_content, closer_len, beside, after, content_len};

use hpr_terms::is_name_byte;

/// What stands before a byte.
#[derive(Clone, Copy)]
pub enum Before {
    /// Nothing that goes on.
    Gap,
    /// A comment.
    Comment,
    /// A word.
    InWord,
}

#[tactic(auto, unfolding(hpr_terms::specs::Tokens::is_blank))]
fn is_blank(byte: u8) -> bool
    ensures { result ≡ is_blank byte }
{
    byte == b' ' || byte == b'\t' || byte == b'\r' || byte == b'\n'
}

/// Whether a comment goes on behind the byte, or none where the byte is a token's.
fn gap_next(comment: bool, byte: u8) -> Option<bool>
    ensures { result ≡ gap_next comment byte }
{
    if comment {
        return Some(byte != b'\n');
    }
    if byte == b'#' {
        return Some(true);
    }
    is_blank(byte).then_some(false)
}

/// How many bytes stand before the next token.
pub fn gap_len(bytes: &[u8]) -> usize
    ensures count { result ≡ gap_len false bytes.now }
    ensures within { result ≤ length bytes.now }
{
    let mut comment = false;
    for (place, byte) in bytes.iter().enumerate() {
        match gap_next(comment, *byte) {
            None => return place,
            Some(goes_on) => comment = goes_on,
        }
    }
    bytes.len()
}

/// How many bytes of words the bytes begin with.
pub fn word_len(bytes: &[u8]) -> usize
    ensures count { result ≡ prefix_len is_name_byte bytes.now }
    ensures within { result ≤ length bytes.now }
{
    for (place, byte) in bytes.iter().enumerate() {
        if !is_name_byte(*byte) {
            return place;
        }
    }
    bytes.len()
}

/// The bytes of words that the bytes begin with.
pub fn word(bytes: &[u8]) -> &[u8]
    ensures { result.now ≡ word bytes.now }
{
    &bytes[..word_len(bytes)]
}

fn sign_len(bytes: &[u8]) -> usize
    ensures { result ≡ sign_len bytes.now }
{
    match bytes {
        [b';', ..] => 1,
        _ => 0,
    }
}

fn ends_content(word: &[u8]) -> bool
    ensures { result ≡ ends_content word.now }
{
    word == b"then".as_slice() || word == b"do".as_slice()
}

/// How many bytes the token has that begins here and ends what a part says: a semicolon, `then` or `do`; else 0.
fn closer_len(before: Before, bytes: &[u8]) -> usize
    ensures count { result ≡ closer_len before bytes.now }
    ensures within { result ≤ length bytes.now }
{
    match before {
        Before::Comment => 0,
        Before::InWord => sign_len(bytes),
        Before::Gap => {
            let word = word(bytes);
            if ends_content(word) {
                word.len()
            } else {
                sign_len(bytes)
            }
        }
    }
}

fn beside(byte: u8) -> Before
    ensures { result ≡ beside byte }
{
    if byte == b'#' {
        Before::Comment
    } else if is_name_byte(byte) {
        Before::InWord
    } else {
        Before::Gap
    }
}

fn after(before: Before, byte: u8) -> Before
    ensures { result ≡ after before byte }
{
    match before {
        Before::Comment => {
            if byte == b'\n' {
                Before::Gap
            } else {
                Before::Comment
            }
        }
        _ => beside(byte),
    }
}

/// How many bytes there are up to the semicolon, `then` or `do` that ends what a part says, with it.
pub fn content_len(bytes: &[u8]) -> usize
    ensures count { result ≡ content_len Gap bytes.now }
    ensures within { result ≤ length bytes.now }
{
    let mut before = Before::Gap;
    for (place, byte) in bytes.iter().enumerate() {
        let closer = closer_len(before, &bytes[place..]);
        if closer > 0 {
            return place + closer;
        }
        before = after(before, *byte);
    }
    bytes.len()
}
