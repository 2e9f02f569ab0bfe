//! The state that words tell.
ghost use Rattle.std.specs.Prelude.{◌≡◌, map, IfOk, string_bytes};
ghost use Rattle.hpr_inputs.specs.States as spec;
ghost use Rattle.hpr_inputs.specs.ReadsState.{ReadsState, TakesWord};

use crate::answer::Stop;
use hpr_refusals::about;
use hpr_run::State;
use hpr_syntax::{Name, NameError, NoMemory};
use std::alloc::{AllocError, Global};

/// Why a state word is refused.
#[derive(Clone, Copy)]
pub enum WordRefusal {
    /// It is no plain name with `=` and a number behind it.
    Malformed,
    /// An earlier word gives its variable a number.
    GivenTwice,
}

impl WordRefusal {
    /// The message on a word.
    fn message(self, alloc: Global, word: &str) -> Result<String, AllocError>
        ensures { IfOk result (λ text. string_bytes text ≡ spec.refused_word_text
            (record { word = word.now; why = self })) }
    {
        about(alloc, word, self.reason())
    }

    fn reason(self) -> &'static str
        ensures { result.now ≡ spec.word_reason self }
    {
        match self {
            WordRefusal::Malformed => "no state word",
            WordRefusal::GivenTwice => "variable given twice",
        }
    }
}

/// The state in which each word's variable has the word's number. The first word that is refused,
/// from the left, is what the message names.
pub fn read_state(alloc: Global, words: &[&str]) -> Result<State, Stop>
    ensures { ReadsState (map (λ w. w.now) words.now) result }
{
    let mut state = State::new(alloc);
    for word in words {
        take_word(alloc, &mut state, word)?;
    }
    Ok(state)
}

/// Takes one more word into the state that the words before it tell.
fn take_word(alloc: Global, state: &mut State, word: &str) -> Result<(), Stop>
    ensures { TakesWord state.old word.now state.new result }
{
    match read_assignment(alloc, word)? {
        Some((name, value)) => {
            if state.lists(&name) {
                let message = WordRefusal::GivenTwice.message(alloc, word)?;
                return Err(Stop::Refused(message));
            }
            state.set(name, value)?;
            Ok(())
        }
        None => {
            let message = WordRefusal::Malformed.message(alloc, word)?;
            Err(Stop::Refused(message))
        }
    }
}

/// The plain name and the number of a word `name=value`.
fn read_assignment(alloc: Global, word: &str) -> Result<Option<(Name, i64)>, NoMemory>
    ensures { IfOk result (λ given. given ≡ spec.assignment word.now) }
{
    match word.split_once('=') {
        Some((name, text)) => match read_value(text) {
            Some(value) => match Name::new(alloc, name) {
                Ok(name) => Ok(Some((name, value))),
                Err(NameError::NotAName) => Ok(None),
                Err(NameError::Memory) => Err(NoMemory),
            },
            None => Ok(None),
        },
        None => Ok(None),
    }
}

/// The number that an optional `-` and decimal digits spell.
fn read_value(text: &str) -> Option<i64>
    ensures { result ≡ spec.value_of text.now }
{
    if text.starts_with('+') {
        return None;
    }
    text.parse::<i64>().ok()
}
