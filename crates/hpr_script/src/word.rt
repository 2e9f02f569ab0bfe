//! The words of scripts.
ghost use Rattle.std.specs.Prelude.{◌≡◌, find};
ghost use Rattle.std.specs.Str.{bytes_eq};
ghost use Rattle.hpr_script.specs.ScriptWords.{script_text, script_word};

/// A word that a script has at some places. It is not reserved: a name may be any of them.
#[derive(Clone, Copy)]
pub enum ScriptWord {
    Insert,
    Delete,
    Move,
    Set,
    Wrap,
    Unwrap,
    Finals,
    At,
    Top,
    True,
    False,
}

/// All of them, in the declared order.
pub const SCRIPT_WORDS: [ScriptWord; 11] = [
    ScriptWord::Insert,
    ScriptWord::Delete,
    ScriptWord::Move,
    ScriptWord::Set,
    ScriptWord::Wrap,
    ScriptWord::Unwrap,
    ScriptWord::Finals,
    ScriptWord::At,
    ScriptWord::Top,
    ScriptWord::True,
    ScriptWord::False,
];

fn find_in(words: &[ScriptWord], text: &[u8]) -> Option<ScriptWord>
    ensures { result ≡ find (λ k. bytes_eq (script_text k) text.now) words.now }
{
    for word in words {
        if word.text() == text {
            return Some(*word);
        }
    }
    None
}

impl ScriptWord {
    /// The word with this text, if it is one.
    #[tactic(auto, unfolding(crate::specs::ScriptWords::script_word))]
    pub fn of(text: &[u8]) -> Option<ScriptWord>
        ensures { result ≡ script_word text.now }
    {
        find_in(&SCRIPT_WORDS, text)
    }

    /// The word as it stands in a script.
    pub fn text(&self) -> &'static [u8]
        ensures { result.now ≡ script_text self.now }
    {
        match self {
            ScriptWord::Insert => b"insert",
            ScriptWord::Delete => b"delete",
            ScriptWord::Move => b"move",
            ScriptWord::Set => b"set",
            ScriptWord::Wrap => b"wrap",
            ScriptWord::Unwrap => b"unwrap",
            ScriptWord::Finals => b"finals",
            ScriptWord::At => b"at",
            ScriptWord::Top => b"top",
            ScriptWord::True => b"true",
            ScriptWord::False => b"false",
        }
    }
}
