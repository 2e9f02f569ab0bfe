//! The places of the grammar at which a text can stand.
ghost use Rattle.std.specs.Prelude.{◌≡◌};
ghost use Rattle.hpr_text.specs.Machine as machine;
ghost use Rattle.hpr_text.specs.Private.EndsAt.{ends_at};

use crate::boxed::BoxedReader;
use crate::form::Mode;
use crate::found::Found;
use hpr_terms::{Expr, Keyword, Name, Sign, Tag, Token};
use std::alloc::Global;

/// What an expression is read for.
#[derive(Drop)]
pub enum Purpose {
    /// The value of an assignment.
    Assign(Tag, Name),
    /// The test of a conditional.
    Test(Tag),
    /// The test of a loop.
    Guard(Tag),
    /// The number that is written.
    Output(Tag),
    /// The number that is stored. With the array and the index.
    Store(Tag, Name, Expr),
}

impl Purpose {
    /// Whether an expression that is read for this ends before the token.
    pub fn ends_at(&self, token: &Token) -> bool
        ensures { result ≡ ends_at self.now token.now }
    {
        match self {
            Purpose::Assign(_, _) => matches!(token, Token::Mark(Sign::Semicolon)),
            Purpose::Test(_) => matches!(token, Token::Word(Keyword::Then)),
            Purpose::Guard(_) => matches!(token, Token::Word(Keyword::Do)),
            Purpose::Output(_) => matches!(token, Token::Mark(Sign::Semicolon)),
            Purpose::Store(_, _, _) => matches!(token, Token::Mark(Sign::Semicolon)),
        }
    }
}

/// What was read last.
#[derive(Drop)]
pub enum Place {
    /// Nothing.
    Start,
    /// `program`.
    AfterProgram,
    /// `issued`, or the comma between two pairs.
    BeforePair,
    /// The author of a pair.
    AfterPairAuthor(u32),
    /// The colon of a pair.
    AfterPairColon(u32),
    /// A pair.
    AfterPair,
    /// A part.
    AtPart,
    /// The author of a tag.
    AfterAuthor(u32),
    /// The dot of a tag.
    AfterDot(u32),
    /// A tag.
    AfterSerial(Tag),
    /// The colon of a tag.
    AfterColon(Tag),
    /// The name that a part assigns to, or of whose array it changes an element.
    AfterTarget(Tag, Name),
    /// A front of the index of a store. With the array.
    InIndex(Tag, Name, BoxedReader),
    /// The index of a store and its closing bracket. With the array, the index and how many operators it has.
    AfterIndex(Tag, Name, Expr, usize),
    /// A front of another expression.
    InExpression(Purpose, BoxedReader),
    /// `end`.
    AfterEnd,
    /// The opening bracket of `end`.
    AfterOpen,
    /// A name of `end`, which is a variable of `end` unless `[` follows.
    AfterName(Name),
    /// Such a name and `[`. With the name's array.
    AfterNameOpen(Name),
    /// The stream or an array of `end`.
    AfterFinal,
    /// A comma between two names of `end`.
    AfterComma,
    /// The whole program.
    AtEnd,
}

/// A reader of the tokens of a program.
#[derive(Drop)]
pub struct State {
    pub found: Found,
    pub place: Place,
}

impl State {
    /// Nothing was read.
    pub fn new(alloc: Global, mode: Mode) -> State
        ensures { result ≡ machine.initially mode }
    {
        State {
            found: Found::new(alloc, mode),
            place: Place::Start,
        }
    }

    /// What was read so far.
    pub fn into_found(self) -> Found
        ensures { result ≡ self.found }
    {
        let State { found, place: _ } = self;
        found
    }
}
