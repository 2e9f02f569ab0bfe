//! Words: names, keywords and numbers.
ghost use Rattle.std.specs.Prelude.{◌≡◌, ◌^◌, ◌+◌, ◌*◌, ◌-◌, ◌<◌, ◌≤◌, ◌++◌, ◌∷◌, [], IfOk, IfSome, OnErr, IsTrue, MatchOption, Some, is_some};
ghost use Rattle.std.specs.List.{list_all, list_any, prefix_len};
ghost use Rattle.hpr_terms.specs.declared.token.Token.TheVariants as tokens;
ghost use Rattle.hpr_terms.specs.Keywords.{keywords, keyword_of};
ghost use Rattle.hpr_terms.specs.Names.{begins_with_digit, is_name_byte, is_name_like};
ghost use Rattle.hpr_scan.specs.Words.{is_digit, is_numeral, value_after, number_token, word_token, IsNoToken, ReadsWord, begins_name, begins_number, begins_keyword, begins};
ghost use Rattle.hpr_scan.specs.Private.Advance.{keyword_or_number, IsNextWord};

use crate::machine::{Fault, TokenMachine};
use hpr_terms::{Keyword, Name, NameError, Token, is_name_byte, is_name_like};
use std::alloc::{AllocError, Global};
use std::marker::Model;
use std::str;

/// The letters of a word that has begun. A contract sees them as a list of bytes.
#[derive(Drop)]
pub struct Letters {
    text: String,
}

impl Model for Letters {
    ghost use Rattle.std.specs.Prelude.{List, ℕ, string_bytes};

    ghost Value = { List ℕ };

    ghost view = { λ l. string_bytes l.text };
}

impl Letters {
    /// No letters.
    pub fn new(alloc: Global) -> Letters
        ensures { result ≡ [] }
    {
        Letters {
            text: String::new(alloc),
        }
    }

    /// One letter more. After want of memory the letters are as they were.
    #[tactic(auto, unfolding(hpr_terms::specs::Names::is_name_byte))]
    pub fn push(&mut self, byte: u8) -> Result<(), AllocError>
        requires { IsTrue (is_name_byte byte) }
        ensures pushed { IfOk result (λ _. self.new ≡ self.old ++ byte ∷ []) }
        ensures unchanged { OnErr result (self.new ≡ self.old) }
    {
        self.text.push(char::from(byte))
    }

    /// The letters as a text.
    pub fn text(&self) -> &str
        ensures { result.now ≡ self.now }
    {
        self.text.as_str()
    }
}

#[tactic(auto, unfolding(crate::specs::Words::is_digit))]
fn is_digit(byte: u8) -> bool
    ensures { result ≡ is_digit byte }
{
    byte.is_ascii_digit()
}

fn has_digits(bytes: &[u8]) -> bool
    ensures { result ≡ list_all is_digit bytes.now }
{
    bytes.iter().all(|byte| is_digit(*byte))
}

/// Whether the word is `0`, or a digit 1 to 9 followed by digits.
pub fn is_numeral(word: &[u8]) -> bool
    ensures { result ≡ is_numeral word.now }
{
    match word {
        [] => false,
        [only] => is_digit(*only),
        [first, rest @ ..] => is_digit(*first) && *first > b'0' && has_digits(rest),
    }
}

/// The number that the digits write, where it is below 2 ^ 64.
pub fn value(word: &[u8]) -> Option<u64>
    ensures { let number = value_after 0 word.now in
        MatchOption result (2 ^ 64 ≤ number) (λ n. n ≡ number) }
{
    let mut sum = 0u64;
    for byte in word {
        let digit = u64::from(byte.saturating_sub(b'0'));
        if sum > (u64::MAX - digit) / 10 {
            return None;
        }
        sum = 10 * sum + digit;
    }
    Some(sum)
}

fn number_token(word: &[u8]) -> Option<Token>
    ensures { let token = number_token word.now in
        MatchOption result (IsNoToken token) (λ t. token ≡ Some t) }
{
    if is_numeral(word) {
        return value(word).map(Token::Number);
    }
    None
}

// The number whose text the word is.
fn numeral(word: &[u8]) -> Result<Token, Fault>
    ensures { ReadsWord (number_token word.now) result }
{
    match number_token(word) {
        Some(token) => Ok(token),
        None => Err(Fault::Refused),
    }
}

fn begins_with_digit(word: &[u8]) -> bool
    ensures { result ≡ begins_with_digit word.now }
{
    match word {
        [] => false,
        [first, ..] => first.is_ascii_digit(),
    }
}

// The keyword or the number whose text the word is.
fn keyword_or_number(word: &[u8]) -> Result<Token, Fault>
    ensures { ReadsWord (keyword_or_number (keyword_of word.now) word.now) result }
{
    match Keyword::of(word) {
        Some(keyword) => Ok(Token::Word(keyword)),
        None => numeral(word),
    }
}

/// The token whose text the word is.
///
/// `Refused` comes where there is none, or a number from 2 ^ 64 on.
#[tactic(auto, using(crate::proofs::Words::digit_word, crate::proofs::Words::named_word))]
pub(crate) fn word_token(alloc: Global, word: &str) -> Result<Token, Fault>
    ensures { ReadsWord (word_token word.now) result }
{
    if begins_with_digit(word.as_bytes()) {
        return numeral(word.as_bytes());
    }
    match Name::new(alloc, word) {
        Ok(name) => Ok(Token::Name(name)),
        Err(NameError::NotAName) => keyword_or_number(word.as_bytes()),
        Err(NameError::Memory) => Err(Fault::Memory),
    }
}

fn begins_keyword<M: TokenMachine>(machine: &M, word: &[u8], keyword: Keyword) -> bool
    ensures { result ≡ begins_keyword M.next machine.now word.now keyword }
{
    machine.takes_keyword(keyword) && keyword.text().starts_with(word)
}

fn begins_keyword_of<M: TokenMachine>(machine: &M, word: &[u8], keywords: &[Keyword]) -> bool
    ensures { result ≡ list_any (begins_keyword M.next machine.now word.now) keywords.now }
{
    for keyword in keywords {
        if begins_keyword(machine, word, *keyword) {
            return true;
        }
    }
    false
}

fn begins_name<M: TokenMachine>(machine: &M, word: &[u8]) -> bool
    ensures { result ≡ begins_name M.next machine.now word.now }
{
    is_name_like(word) && machine.takes_name()
}

fn takes_value<M: TokenMachine>(machine: &M, word: &[u8]) -> bool
    ensures { result ≡ is_some (M.next machine.now (tokens.Number (value_after 0 word.now))) }
{
    match value(word) {
        None => false,
        Some(number) => machine.takes_number(number),
    }
}

fn begins_number<M: TokenMachine>(machine: &M, word: &[u8]) -> bool
    ensures { result ≡ begins_number M.next machine.now word.now }
{
    is_numeral(word) && takes_value(machine, word)
}

/// Whether the word is the front of one that can stand next.
#[tactic(auto, unfolding(crate::specs::Words::begins))]
pub(crate) fn begins<M: TokenMachine>(machine: &M, word: &[u8]) -> bool
    ensures { result ≡ begins M.next machine.now word.now }
{
    begins_name(machine, word)
        || begins_number(machine, word)
        || begins_keyword_of(machine, word, Keyword::all())
}

fn count_letters(bytes: &[u8]) -> usize
    ensures { result ≡ prefix_len is_name_byte bytes.now }
{
    for (place, byte) in bytes.iter().enumerate() {
        if !is_name_byte(*byte) {
            return place;
        }
    }
    bytes.len()
}

/// The word at the front of the bytes, where one begins there that can stand next, and another byte
/// stands behind it.
pub(crate) fn next_word<'a, M: TokenMachine>(machine: &M, bytes: &'a [u8]) -> Option<&'a str>
    ensures { IfSome result (λ w. IsNextWord M.next machine.now bytes.now w.now) }
{
    let length = count_letters(bytes);
    if length == 0 || length == bytes.len() {
        return None;
    }
    match str::from_utf8(&bytes[..length]) {
        Ok(word) => {
            if begins(machine, word.as_bytes()) {
                Some(word)
            } else {
                None
            }
        }
        Err(_) => None,
    }
}
