//! Tokens.
ghost use Rattle.std.specs.Prelude.{◌≡◌};
ghost use Rattle.hpr_terms.specs.Tokens.{sign_text};

use crate::keyword::Keyword;
use crate::name::Name;

/// A sign of one or two bytes.
#[derive(Clone, Copy)]
pub enum Sign {
    Colon,
    Becomes,
    Dot,
    Comma,
    Semicolon,
    Open,
    Close,
    OpenSquare,
    CloseSquare,
    Plus,
    Minus,
    Star,
    Slash,
    Percent,
    Equal,
    Differ,
    Less,
    LessEqual,
    Greater,
    GreaterEqual,
}

impl Sign {
    /// The sign as it stands in a text.
    pub fn text(&self) -> &'static [u8]
        ensures { result.now ≡ sign_text self.now }
    {
        match self {
            Sign::Colon => b":",
            Sign::Becomes => b":=",
            Sign::Dot => b".",
            Sign::Comma => b",",
            Sign::Semicolon => b";",
            Sign::Open => b"(",
            Sign::Close => b")",
            Sign::OpenSquare => b"[",
            Sign::CloseSquare => b"]",
            Sign::Plus => b"+",
            Sign::Minus => b"-",
            Sign::Star => b"*",
            Sign::Slash => b"/",
            Sign::Percent => b"%",
            Sign::Equal => b"=",
            Sign::Differ => b"<>",
            Sign::Less => b"<",
            Sign::LessEqual => b"<=",
            Sign::Greater => b">",
            Sign::GreaterEqual => b">=",
        }
    }
}

/// A token of a text: a keyword, a name, a number or a sign.
#[derive(Drop)]
pub enum Token {
    Word(Keyword),
    Name(Name),
    Number(u64),
    Mark(Sign),
}
