//! Keywords.
ghost use Rattle.std.specs.Prelude.{◌≡◌, ℕ, nat_eq, length, find};
ghost use Rattle.std.specs.List.{filter};
ghost use Rattle.std.specs.Str.{bytes_eq};
ghost use Rattle.hpr_terms.specs.Keywords.{keyword_text, keywords, keyword_of};

/// A word that no name may be.
#[derive(Clone, Copy)]
pub enum Keyword {
    Program,
    Issued,
    If,
    Then,
    Else,
    Fi,
    While,
    Do,
    Od,
    End,
    And,
    Or,
    Not,
    Write,
    Out,
}

fn find_in(keywords: &[Keyword], text: &[u8]) -> Option<Keyword>
    ensures { result ≡ find (λ k. bytes_eq (keyword_text k) text.now) keywords.now }
{
    for keyword in keywords {
        if keyword.text() == text {
            return Some(*keyword);
        }
    }
    None
}

/// The keywords with so many letters, in the declared order.
fn of_length(letters: usize) -> &'static [Keyword]
    ensures { result.now ≡ filter (λ k. nat_eq (length (keyword_text k)) letters) keywords }
{
    match letters {
        2 => &[
            Keyword::If,
            Keyword::Fi,
            Keyword::Do,
            Keyword::Od,
            Keyword::Or,
        ],
        3 => &[Keyword::End, Keyword::And, Keyword::Not, Keyword::Out],
        4 => &[Keyword::Then, Keyword::Else],
        5 => &[Keyword::While, Keyword::Write],
        6 => &[Keyword::Issued],
        7 => &[Keyword::Program],
        _ => &[],
    }
}

impl Keyword {
    /// All keywords, in the declared order.
    pub fn all() -> &'static [Keyword]
        ensures { result.now ≡ keywords }
    {
        &[
            Keyword::Program,
            Keyword::Issued,
            Keyword::If,
            Keyword::Then,
            Keyword::Else,
            Keyword::Fi,
            Keyword::While,
            Keyword::Do,
            Keyword::Od,
            Keyword::End,
            Keyword::And,
            Keyword::Or,
            Keyword::Not,
            Keyword::Write,
            Keyword::Out,
        ]
    }

    /// The keyword with this text, if it is one.
    pub fn of(text: &[u8]) -> Option<Keyword>
        ensures { result ≡ keyword_of text.now }
    {
        find_in(of_length(text.len()), text)
    }

    /// The keyword as it stands in a text.
    pub fn text(&self) -> &'static [u8]
        ensures { result.now ≡ keyword_text self.now }
    {
        match self {
            Keyword::Program => b"program",
            Keyword::Issued => b"issued",
            Keyword::If => b"if",
            Keyword::Then => b"then",
            Keyword::Else => b"else",
            Keyword::Fi => b"fi",
            Keyword::While => b"while",
            Keyword::Do => b"do",
            Keyword::Od => b"od",
            Keyword::End => b"end",
            Keyword::And => b"and",
            Keyword::Or => b"or",
            Keyword::Not => b"not",
            Keyword::Write => b"write",
            Keyword::Out => b"out",
        }
    }
}
