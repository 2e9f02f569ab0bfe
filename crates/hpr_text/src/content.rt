//! Reads the text of a content, and the `;` behind it.
ghost use Rattle.std.specs.Prelude.{◌≡◌, ℕ, ◌+◌, ◌≤◌, ◌<◌, length, slice_index, slice_range, IfOk, true, Some};
ghost use Rattle.hpr_terms.specs.declared.token.Token.TheVariants as tokens;
ghost use Rattle.hpr_scan.specs.Place.{BeginsWith};
ghost use Rattle.hpr_scan.specs.Steps.{Steps};
ghost use Rattle.hpr_text.specs.Answers.{IfSyntax, IfShape};
ghost use Rattle.hpr_text.specs.Contents.{IsContentText, HasContent, IsPlaceFrom};
ghost use Rattle.hpr_text.specs.ContentMachine as machine;
ghost use Rattle.hpr_expressions.specs.Expression as expression;

use crate::boxed::BoxedReader;
use crate::reader::TextError;
use hpr_scan::{Fault, FrontMachine, Refusal, TokenMachine, read_front};
use hpr_syntax::Content;
use hpr_terms::{Expr, Keyword, Name, NoMemory, Sign, Token};
use std::alloc::Global;
use std::mem;

/// What the expression of a content is read for.
#[derive(Drop)]
pub enum Aim {
    /// The value of an assignment.
    Assign(Name),
    /// The test of a conditional.
    Test,
    /// The test of a loop.
    Guard,
    /// The number that is written.
    Output,
    /// The number that is stored. With the array and the index.
    Store(Name, Expr),
}

/// How far a content was read.
pub enum ContentState {
    /// Nothing was read.
    Start,
    /// The name that is assigned to, or of whose array an element is changed.
    AfterTarget(Name),
    /// A front of the index of a store. With the array.
    InIndex(Name, BoxedReader),
    /// The index of a store and its closing bracket. With the array, the index and how many operators it has.
    AfterIndex(Name, Expr, usize),
    /// A front of another expression.
    InExpression(Aim, BoxedReader),
    /// The content and its `;`.
    Ended(Content),
}

/// All of it is dropped in one call.
impl Drop for ContentState {
    fn drop(self) {
        match self {
            ContentState::Start => {}
            ContentState::AfterTarget(_) => {}
            ContentState::InIndex(_, _) => {}
            ContentState::AfterIndex(_, _, _) => {}
            ContentState::InExpression(_, _) => {}
            ContentState::Ended(_) => {}
        }
    }
}

fn content(alloc: Global, aim: Aim, value: Expr) -> Result<Content, NoMemory>
    ensures { IfOk result (λ c. c ≡ machine.content_of aim value) }
{
    match aim {
        Aim::Assign(name) => Ok(Content::Assign(name, value)),
        Aim::Test => Ok(Content::If(value)),
        Aim::Guard => Ok(Content::While(value)),
        Aim::Output => Ok(Content::Write(Name::stream(alloc)?, value)),
        Aim::Store(array, index) => Ok(Content::Store(array, index, value)),
    }
}

fn begin_next(alloc: Global, token: Token) -> Result<ContentState, Fault>
    ensures { Steps (machine.begin_next token) result }
{
    match token {
        Token::Name(name) => Ok(ContentState::AfterTarget(name)),
        Token::Word(Keyword::If) => {
            Ok(ContentState::InExpression(Aim::Test, BoxedReader::start(alloc)?))
        }
        Token::Word(Keyword::While) => {
            Ok(ContentState::InExpression(Aim::Guard, BoxedReader::start(alloc)?))
        }
        Token::Word(Keyword::Write) => {
            Ok(ContentState::InExpression(Aim::Output, BoxedReader::start(alloc)?))
        }
        _ => Err(Fault::Refused),
    }
}

fn index_begins(alloc: Global, name: Name) -> Result<ContentState, Fault>
    ensures { Steps (machine.content_index_begins name) result }
{
    if !name.is_plain() {
        return Err(Fault::Refused);
    }
    let array = Name::array(alloc, &name)?;
    Ok(ContentState::InIndex(array, BoxedReader::start(alloc)?))
}

fn target_next(alloc: Global, name: Name, token: Token) -> Result<ContentState, Fault>
    ensures { Steps (machine.target_next name token) result }
{
    match token {
        Token::Mark(Sign::Becomes) => {
            Ok(ContentState::InExpression(Aim::Assign(name), BoxedReader::start(alloc)?))
        }
        Token::Mark(Sign::OpenSquare) => index_begins(alloc, name),
        _ => Err(Fault::Refused),
    }
}

fn index_ends(alloc: Global, array: Name, reading: BoxedReader) -> Result<ContentState, Fault>
    ensures { Steps (machine.content_index_ends array (expression.counted_in reading)
        (expression.ended reading)) result }
{
    let operators = reading.reader().operators();
    let index = reading.ended(alloc)?;
    Ok(ContentState::AfterIndex(array, index, operators))
}

fn index_goes_on(
    alloc: Global,
    array: Name,
    mut reading: BoxedReader,
    token: Token,
) -> Result<ContentState, Fault>
    ensures { Steps (machine.content_goes_on (ContentState.InIndex array)
        (expression.read reading token)) result }
{
    reading.step(alloc, token)?;
    Ok(ContentState::InIndex(array, reading))
}

fn index_closes(alloc: Global, array: Name, reading: BoxedReader) -> Result<ContentState, Fault>
    ensures { Steps (machine.in_index_next array reading (tokens.Mark Sign.CloseSquare)) result }
{
    // it closes an element of the index where one is open
    if reading.reader().can_end() {
        index_ends(alloc, array, reading)
    } else {
        index_goes_on(alloc, array, reading, Token::Mark(Sign::CloseSquare))
    }
}

fn in_index_next(
    alloc: Global,
    array: Name,
    reading: BoxedReader,
    token: Token,
) -> Result<ContentState, Fault>
    ensures { Steps (machine.in_index_next array reading token) result }
{
    match token {
        Token::Mark(Sign::CloseSquare) => index_closes(alloc, array, reading),
        _ => index_goes_on(alloc, array, reading, token),
    }
}

fn index_next(
    alloc: Global,
    array: Name,
    index: Expr,
    operators: usize,
    token: Token,
) -> Result<ContentState, Fault>
    ensures { Steps (machine.index_next array index operators token) result }
{
    match token {
        Token::Mark(Sign::Becomes) => Ok(ContentState::InExpression(
            Aim::Store(array, index),
            BoxedReader::start_after(alloc, operators)?,
        )),
        _ => Err(Fault::Refused),
    }
}

fn ends(alloc: Global, aim: Aim, reading: BoxedReader) -> Result<ContentState, Fault>
    ensures { Steps (machine.content_ends aim (expression.ended reading)) result }
{
    let value = reading.ended(alloc)?;
    Ok(ContentState::Ended(content(alloc, aim, value)?))
}

fn goes_on(
    alloc: Global,
    aim: Aim,
    mut reading: BoxedReader,
    token: Token,
) -> Result<ContentState, Fault>
    ensures { Steps (machine.content_goes_on (ContentState.InExpression aim)
        (expression.read reading token)) result }
{
    reading.step(alloc, token)?;
    Ok(ContentState::InExpression(aim, reading))
}

fn inside_next(
    alloc: Global,
    aim: Aim,
    reading: BoxedReader,
    token: Token,
) -> Result<ContentState, Fault>
    ensures { Steps (machine.inside_next aim reading token) result }
{
    match token {
        Token::Mark(Sign::Semicolon) => ends(alloc, aim, reading),
        _ => goes_on(alloc, aim, reading, token),
    }
}

impl TokenMachine for ContentState {
    ghost use Rattle.hpr_text.specs.ContentMachine as machine;
    ghost use Rattle.hpr_text.specs.ContentLaws.{content_is_token_machine, content_live};

    ghost next = { machine.content_next };

    ghost may_end = { machine.content_may_end };

    ghost laws = { content_is_token_machine };

    ghost live = { content_live };

    fn step(&mut self, alloc: Global, token: Token) -> Result<(), Fault> {
        *self = mem::replace(self, ContentState::Start).after(alloc, token)?;
        Ok(())
    }

    #[tactic(auto, unfolding(crate::specs::ContentMachine::content_next), using(crate::proofs::ContentGoing::content_goes_on_is_some))]
    fn takes_keyword(&self, keyword: Keyword) -> bool {
        match self {
            ContentState::Start => {
                matches!(keyword, Keyword::If | Keyword::While | Keyword::Write)
            }
            ContentState::InIndex(_, reading) => reading.reader().takes_keyword(keyword),
            ContentState::InExpression(_, reading) => reading.reader().takes_keyword(keyword),
            _ => false,
        }
    }

    #[tactic(auto, unfolding(crate::specs::ContentMachine::content_next), using(crate::proofs::ContentGoing::content_goes_on_is_some))]
    fn takes_name(&self) -> bool {
        match self {
            ContentState::Start => true,
            ContentState::InIndex(_, reading) => reading.reader().takes_name(),
            ContentState::InExpression(_, reading) => reading.reader().takes_name(),
            _ => false,
        }
    }

    #[tactic(auto, unfolding(crate::specs::ContentMachine::content_next), using(crate::proofs::ContentGoing::content_goes_on_is_some))]
    fn takes_number(&self, number: u64) -> bool {
        match self {
            ContentState::InIndex(_, reading) => reading.reader().takes_number(number),
            ContentState::InExpression(_, reading) => reading.reader().takes_number(number),
            _ => false,
        }
    }

    #[tactic(auto, unfolding(crate::specs::ContentMachine::content_next), using(crate::proofs::ContentGoing::content_goes_on_is_some, crate::proofs::ContentGoing::content_ends_is_some, crate::proofs::ContentGoing::content_index_ends_is_some))]
    fn takes_sign(&self, sign: Sign) -> bool {
        match self {
            ContentState::AfterTarget(name) => match sign {
                Sign::Becomes => true,
                Sign::OpenSquare => name.is_plain(),
                _ => false,
            },
            ContentState::InIndex(_, reading) => match sign {
                Sign::CloseSquare => reading.reader().can_end()
                    || reading.reader().takes_sign(sign),
                _ => reading.reader().takes_sign(sign),
            },
            ContentState::AfterIndex(_, _, _) => matches!(sign, Sign::Becomes),
            ContentState::InExpression(_, reading) => match sign {
                Sign::Semicolon => reading.reader().can_end(),
                _ => reading.reader().takes_sign(sign),
            },
            _ => false,
        }
    }

    fn can_end(&self) -> bool {
        matches!(self, ContentState::Ended(_))
    }
}

impl FrontMachine for ContentState {
    ghost use Rattle.hpr_text.specs.ContentLaws.{content_ends_at_once};

    ghost ends_at_once = { content_ends_at_once };
}

impl ContentState {
    /// How far a content was read with the token, which can stand next, or else is refused.
    #[tactic(auto, unfolding(crate::specs::ContentMachine::content_next))]
    fn after(self, alloc: Global, token: Token) -> Result<ContentState, Fault>
        ensures { Steps (machine.content_next self token) result }
    {
        match self {
            ContentState::Start => begin_next(alloc, token),
            ContentState::AfterTarget(name) => target_next(alloc, name, token),
            ContentState::InIndex(array, reading) => in_index_next(alloc, array, reading, token),
            ContentState::AfterIndex(array, index, operators) => index_next(
                alloc, array, index, operators, token,
            ),
            ContentState::InExpression(aim, reading) => inside_next(alloc, aim, reading, token),
            ContentState::Ended(_) => Err(Fault::Refused),
        }
    }

    /// The content, whose `;` was read.
    fn ended(self) -> Content
        requires { machine.content_may_end self ≡ true }
        ensures { machine.content_read self ≡ Some result }
    {
        match self {
            ContentState::Ended(content) => content,
            _ => unreachable!(),
        }
    }
}

/// The content at `start`, which `;` follows, and the place of that `;`. Places are counted in bytes
/// from the start of all bytes, and `start` is at most their length.
///
/// What follows the `;` is not read. A content is what a part says without its tag and its blocks:
/// `name := expr`, `name[expr] := expr`, `write expr`, `if expr` or `while expr`, with the limits of
/// an expression, where the operators of an index and of the number that is stored count together.
/// `Syntax` comes exactly where the bytes from `start` on begin with no content and `;`; its place is
/// `start` and the length of the longest front of the bytes from there on that some further bytes
/// complete. `Shape` never comes; `Memory` where memory ran out.
pub fn read_content(
    alloc: Global,
    bytes: &[u8],
    start: usize,
) -> Result<(Content, usize), TextError>
    requires { start ≤ length bytes.now }
    ensures within { IfOk result (λ (_, at). (start ≤ at) × (at < length bytes.now)) }
    ensures content { IfOk result (λ (content, at). IsContentText (slice_range bytes.now start (at + 1)) content) }
    ensures sign { IfOk result (λ (_, at). slice_index bytes.now at ≡ 59) }
    ensures first { IfOk result (λ (_, at). (n : ℕ) → n ≤ at → HasContent (slice_range bytes.now start n) → ⊥) }
    ensures syntax { IfSyntax result (λ n. IsPlaceFrom start (BeginsWith HasContent) bytes.now n) }
    ensures no_shape { IfShape result (λ _. ⊥) }
{
    match read_front(alloc, ContentState::Start, &bytes[start..]) {
        Ok((state, at)) => Ok((state.ended(), start + at)),
        Err(Refusal::Stuck { place }) => Err(TextError::Syntax {
            place: start + place,
        }),
        Err(Refusal::Memory) => Err(TextError::Memory),
    }
}
