//! Finds the parts of a block in a text, along the tree.
ghost use Rattle.std.specs.Prelude.{◌≡◌, ◌++◌, ◌≤◌, ◌<◌, length, slice_index, IfOk, OnOk, IsTrue, codes};
ghost use Rattle.hpr_syntax.specs.BodyOf.{before};
ghost use Rattle.hpr_syntax.specs.Body.{done};
ghost use Rattle.hpr_places.specs.Private.Walk.{skip, opened, closed, signed, next_is, after_pair, has_comma, PairsEnd, IsHeaderEnd, if_else, walk, inside};

use crate::place::{Place, Placed};
use crate::scan::{content_len, gap_len, word, word_len};
use hpr_syntax::{Block, Stmt};
use hpr_terms::NoMemory;

/// The first byte of the next token.
#[tactic(auto, unfolding(crate::specs::Private::Walk::skip))]
fn skip(bytes: &[u8], at: usize) -> usize
    requires { at ≤ length bytes.now }
    ensures place { result ≡ skip bytes.now at }
    ensures grows { at ≤ result }
    ensures within { result ≤ length bytes.now }
{
    at + gap_len(&bytes[at..])
}

/// The byte behind what the next part says: behind its semicolon, `then` or `do`.
#[tactic(auto, unfolding(crate::specs::Private::Walk::opened))]
fn opened(bytes: &[u8], at: usize) -> usize
    requires { at ≤ length bytes.now }
    ensures place { result ≡ opened bytes.now at }
    ensures grows { skip bytes.now at ≤ result }
    ensures within { result ≤ length bytes.now }
{
    let first = skip(bytes, at);
    first + content_len(&bytes[first..])
}

/// The byte behind the next word.
#[tactic(auto, unfolding(crate::specs::Private::Walk::closed))]
fn closed(bytes: &[u8], at: usize) -> usize
    requires { at ≤ length bytes.now }
    ensures place { result ≡ closed bytes.now at }
    ensures grows { at ≤ result }
    ensures within { result ≤ length bytes.now }
{
    let first = skip(bytes, at);
    first + word_len(&bytes[first..])
}

/// The byte behind the next sign, which has one byte.
#[tactic(auto, unfolding(crate::specs::Private::Walk::signed))]
fn signed(bytes: &[u8], at: usize) -> usize
    requires { at ≤ length bytes.now }
    ensures place { result ≡ signed bytes.now at }
    ensures grows { at ≤ result }
    ensures passes { skip bytes.now at < length bytes.now → at < result }
    ensures within { result ≤ length bytes.now }
{
    let first = skip(bytes, at);
    if first < bytes.len() {
        first + 1
    } else {
        first
    }
}

/// Whether the next word is this one.
#[tactic(auto, unfolding(crate::specs::Private::Walk::next_is))]
fn next_is(bytes: &[u8], at: usize, expected: &[u8]) -> bool
    requires { at ≤ length bytes.now }
    ensures { result ≡ next_is bytes.now at expected.now }
{
    let first = skip(bytes, at);
    word(&bytes[first..]) == expected
}

#[tactic(auto, unfolding(crate::specs::Private::Walk::after_pair))]
fn after_pair(bytes: &[u8], at: usize) -> usize
    requires { at ≤ length bytes.now }
    ensures place { result ≡ after_pair bytes.now at }
    ensures grows { at ≤ result }
    ensures within { result ≤ length bytes.now }
{
    let author = closed(bytes, at);
    let colon = signed(bytes, author);
    closed(bytes, colon)
}

#[tactic(auto, unfolding(crate::specs::Private::Walk::has_comma))]
fn has_comma(bytes: &[u8], at: usize) -> bool
    requires { at ≤ length bytes.now }
    ensures comma { result ≡ has_comma bytes.now at }
    ensures within { IsTrue result → skip bytes.now at < length bytes.now }
{
    let first = skip(bytes, at);
    first < bytes.len() && bytes[first] == b','
}

/// The byte behind the last of the pairs that follow the one before the byte.
fn pairs_end(bytes: &[u8], mut at: usize) -> usize
    requires { at ≤ length bytes.now }
    ensures pairs { PairsEnd bytes.now at result }
    ensures within { result ≤ length bytes.now }
{
    while has_comma(bytes, at) {
        let comma = signed(bytes, at);
        at = after_pair(bytes, comma);
    }
    at
}

/// The byte behind the header.
#[tactic(auto, unfolding(crate::specs::Private::Walk::IsHeaderEnd))]
pub fn header_end(bytes: &[u8]) -> usize
    ensures header { IsHeaderEnd bytes.now result }
    ensures within { result ≤ length bytes.now }
{
    let at = closed(bytes, 0);
    if next_is(bytes, at, b"issued") {
        let first = after_pair(bytes, closed(bytes, at));
        pairs_end(bytes, first)
    } else {
        at
    }
}

/// Finds the parts of a block whose text begins at the byte: the byte behind them.
#[cycle(walk)]
pub fn walk_block(
    bytes: &[u8],
    at: usize,
    block: &Block,
    found: &mut Vec<Placed>,
) -> Result<usize, NoMemory>
    requires { at ≤ length bytes.now }
    ensures end { IfOk result (λ end. end ≡ (walk bytes.now block.now at).end) }
    ensures grows { IfOk result (λ end. at ≤ end) }
    ensures within { IfOk result (λ end. end ≤ length bytes.now) }
    ensures found { OnOk result (found.new.items ≡ found.old.items ++ (walk bytes.now block.now at).places) }
{
    let mut end = at;
    for stmt in &block.stmts {
        end = walk_part(bytes, end, stmt, found)?;
    }
    Ok(end)
}

/// Finds a part and what stands in it.
#[cycle(walk)]
fn walk_part(
    bytes: &[u8],
    at: usize,
    stmt: &Stmt,
    found: &mut Vec<Placed>,
) -> Result<usize, NoMemory>
    requires { at ≤ length bytes.now }
    ensures end { IfOk result (λ end. end ≡ (walk bytes.now (before stmt.now done) at).end) }
    ensures grows { IfOk result (λ end. at ≤ end) }
    ensures within { IfOk result (λ end. end ≤ length bytes.now) }
    ensures found { OnOk result (found.new.items
        ≡ found.old.items ++ (walk bytes.now (before stmt.now done) at).places) }
{
    let tag = stmt.tag();
    let first = skip(bytes, at);
    let index = found.len();
    let begun = Place { first, length: 0 };
    found.push(Placed { tag, place: begun })?;
    let end = walk_inside(bytes, at, stmt, found)?;
    let length = end - first;
    found[index] = Placed {
        tag,
        place: Place { first, length },
    };
    Ok(end)
}

/// Finds what stands in a part whose text begins at the byte: the byte behind the part.
#[cycle(walk)]
fn walk_inside(
    bytes: &[u8],
    at: usize,
    stmt: &Stmt,
    found: &mut Vec<Placed>,
) -> Result<usize, NoMemory>
    requires { at ≤ length bytes.now }
    ensures end { IfOk result (λ end. end ≡ (inside bytes.now stmt.now at).end) }
    ensures grows { IfOk result (λ end. skip bytes.now at ≤ end) }
    ensures within { IfOk result (λ end. end ≤ length bytes.now) }
    ensures found { OnOk result (found.new.items ≡ found.old.items ++ (inside bytes.now stmt.now at).places) }
{
    let start = opened(bytes, at);
    match stmt {
        Stmt::If(_, _, yes, no) => {
            let end = walk_block(bytes, start, yes, found)?;
            let end = walk_else(bytes, end, no, found)?;
            Ok(closed(bytes, end))
        }
        Stmt::While(_, _, body) => {
            let end = walk_block(bytes, start, body, found)?;
            Ok(closed(bytes, end))
        }
        _ => Ok(start),
    }
}

/// Finds the parts of the second block of a conditional, if `else` comes next.
#[cycle(walk)]
fn walk_else(
    bytes: &[u8],
    at: usize,
    block: &Block,
    found: &mut Vec<Placed>,
) -> Result<usize, NoMemory>
    requires { at ≤ length bytes.now }
    ensures end { IfOk result (λ end. end ≡ (if_else bytes.now (walk bytes.now block.now) at).end) }
    ensures grows { IfOk result (λ end. at ≤ end) }
    ensures within { IfOk result (λ end. end ≤ length bytes.now) }
    ensures found { OnOk result (found.new.items
        ≡ found.old.items ++ (if_else bytes.now (walk bytes.now block.now) at).places) }
{
    if next_is(bytes, at, b"else") {
        walk_block(bytes, closed(bytes, at), block, found)
    } else {
        Ok(at)
    }
}
