//! Finds the tokens in bytes, from one byte to the next.
ghost use Rattle.std.specs.Prelude.{◌≡◌, ◌++◌, ◌∷◌, [], ◌||◌, is_some, IsTrue, ◌==◌, if◌then◌else◌, ◌≤◌, length, take, Some, IfSome, false};
ghost use Rattle.std.specs.List.{prefix_len};
ghost use Rattle.hpr_terms.specs.declared.token.Token.TheVariants as tokens;
ghost use Rattle.hpr_terms.specs.declared.token.Sign.TheVariants as signs;
ghost use Rattle.hpr_terms.specs.Names.{is_name_byte};
ghost use Rattle.hpr_terms.specs.Tokens.{is_blank};
ghost use Rattle.hpr_scan.specs.Steps.{and_then, Moves, Steps};
ghost use Rattle.hpr_scan.specs.Words.{word_token};
ghost use Rattle.hpr_scan.specs.declared.scanner.Lex.TheVariants.{Gap, Comment, InWord};
ghost use Rattle.hpr_scan.specs.Scanner.{at, sign_of, longer, after_sign, waiting, feed_sign, grown, feed_gap, finish, feed_half, feed, feeds, goes_on_comment, Waits};
ghost use Rattle.hpr_scan.specs.Private.Advance.{IsNextWord, advanced, Advances};

use crate::machine::{Fault, TokenMachine};
use crate::word::{Letters, begins, next_word, word_token};
use hpr_terms::{Sign, Token, is_name_byte};
use std::alloc::Global;
use std::mem;

/// What has begun before the next byte.
#[derive(Drop)]
pub enum Lex {
    /// Nothing.
    Gap,
    /// A comment.
    Comment,
    /// A word, so far with these letters.
    InWord(Letters),
    /// A sign that may be the front of a longer one.
    Half(Sign),
}

/// How a scanner went on over bytes.
pub enum Advance {
    /// It passed over so many of them, at least one, and its machine waits.
    Passed(usize),
    /// It passed over so many, and took the next.
    Took(usize),
    /// It passed over so many, and the next cannot stand there, or memory ran out.
    Failed(usize, Fault),
}

/// A place in a text: what has begun there, and the machine before it.
#[derive(Drop)]
pub struct Scanner<M> {
    pub lex: Lex,
    pub machine: M,
}

#[tactic(auto, unfolding(hpr_terms::specs::Tokens::is_blank))]
fn is_blank(byte: u8) -> bool
    ensures { result ≡ is_blank byte }
{
    byte == b' ' || byte == b'\t' || byte == b'\r' || byte == b'\n'
}

#[tactic(auto, unfolding(crate::specs::Scanner::sign_of))]
fn sign_of(byte: u8) -> Option<Sign>
    ensures { result ≡ sign_of byte }
{
    match byte {
        b':' => Some(Sign::Colon),
        b'.' => Some(Sign::Dot),
        b',' => Some(Sign::Comma),
        b';' => Some(Sign::Semicolon),
        b'(' => Some(Sign::Open),
        b')' => Some(Sign::Close),
        b'[' => Some(Sign::OpenSquare),
        b']' => Some(Sign::CloseSquare),
        b'+' => Some(Sign::Plus),
        b'-' => Some(Sign::Minus),
        b'*' => Some(Sign::Star),
        b'/' => Some(Sign::Slash),
        b'%' => Some(Sign::Percent),
        b'=' => Some(Sign::Equal),
        b'<' => Some(Sign::Less),
        b'>' => Some(Sign::Greater),
        _ => None,
    }
}

fn longer(sign: Sign, byte: u8) -> Option<Sign>
    ensures { result ≡ longer sign byte }
{
    match sign {
        Sign::Colon => (byte == b'=').then_some(Sign::Becomes),
        Sign::Less => match byte {
            b'=' => Some(Sign::LessEqual),
            b'>' => Some(Sign::Differ),
            _ => None,
        },
        Sign::Greater => (byte == b'=').then_some(Sign::GreaterEqual),
        _ => None,
    }
}

fn count_blanks(bytes: &[u8]) -> usize
    ensures { result ≡ prefix_len is_blank bytes.now }
{
    for (place, byte) in bytes.iter().enumerate() {
        if !is_blank(*byte) {
            return place;
        }
    }
    bytes.len()
}

fn count_comment(bytes: &[u8]) -> usize
    ensures { result ≡ prefix_len goes_on_comment bytes.now }
{
    for (place, byte) in bytes.iter().enumerate() {
        if *byte == b'\n' {
            return place;
        }
    }
    bytes.len()
}

// How a scanner went on that passed over so many bytes, and has this answer of the next one.
fn advanced(count: usize, step: Result<(), Fault>) -> Advance
    ensures { result ≡ advanced count step }
{
    match step {
        Ok(()) => Advance::Took(count),
        Err(fault) => Advance::Failed(count, fault),
    }
}

fn take_word<M: TokenMachine>(alloc: Global, word: &str, machine: &mut M) -> Result<(), Fault>
    ensures { Moves (and_then (word_token word.now) (M.next machine.old)) machine.new result }
{
    let token = word_token(alloc, word)?;
    machine.step(alloc, token)
}

#[tactic(auto, unfolding(crate::specs::Scanner::finish))]
fn finish<M: TokenMachine>(alloc: Global, lex: Lex, machine: &mut M) -> Result<(), Fault>
    ensures { Moves (finish M.next lex machine.old) machine.new result }
{
    match lex {
        Lex::Gap | Lex::Comment => Ok(()),
        Lex::InWord(letters) => take_word(alloc, letters.text(), machine),
        Lex::Half(sign) => machine.step(alloc, Token::Mark(sign)),
    }
}

// Each of these goes on in place, from what its machine is; what has begun before it doesn't matter. What a refusal
// leaves is of no use.
impl<M: TokenMachine + Drop> Scanner<M> {
    fn take_sign(&mut self, alloc: Global, sign: Sign) -> Result<(), Fault>
        ensures { Moves (after_sign (M.next self.old.machine (tokens.Mark sign))) self.new result }
    {
        self.machine.step(alloc, Token::Mark(sign))?;
        self.lex = Lex::Gap;
        Ok(())
    }

    fn wait(&mut self, sign: Sign, can: bool) -> Result<(), Fault>
        ensures { Moves (waiting self.old.machine sign can) self.new result }
    {
        if !can {
            return Err(Fault::Refused);
        }
        self.lex = Lex::Half(sign);
        Ok(())
    }

    fn feed_sign(&mut self, alloc: Global, sign: Sign) -> Result<(), Fault>
        ensures { Moves (feed_sign M.next self.old.machine sign) self.new result }
    {
        match sign {
            Sign::Colon => {
                let can = self.machine.takes_sign(Sign::Colon)
                    || self.machine.takes_sign(Sign::Becomes);
                self.wait(sign, can)
            }
            Sign::Less => {
                let can = self.machine.takes_sign(Sign::Less)
                    || self.machine.takes_sign(Sign::LessEqual)
                    || self.machine.takes_sign(Sign::Differ);
                self.wait(sign, can)
            }
            Sign::Greater => {
                let can = self.machine.takes_sign(Sign::Greater)
                    || self.machine.takes_sign(Sign::GreaterEqual);
                self.wait(sign, can)
            }
            _ => self.take_sign(alloc, sign),
        }
    }

    fn grow(&mut self, mut letters: Letters, byte: u8) -> Result<(), Fault>
        requires { IsTrue (is_name_byte byte) }
        ensures { Moves (grown M.next self.old.machine (letters ++ byte ∷ [])) self.new result }
    {
        letters.push(byte)?;
        if !begins(&self.machine, letters.text().as_bytes()) {
            return Err(Fault::Refused);
        }
        self.lex = Lex::InWord(letters);
        Ok(())
    }

    fn begin_sign(&mut self, alloc: Global, byte: u8) -> Result<(), Fault>
        ensures { Moves (and_then (sign_of byte) (feed_sign M.next self.old.machine)) self.new result }
    {
        match sign_of(byte) {
            None => Err(Fault::Refused),
            Some(sign) => self.feed_sign(alloc, sign),
        }
    }

    #[tactic(auto, unfolding(crate::specs::Scanner::feed_gap))]
    fn feed_gap(&mut self, alloc: Global, byte: u8) -> Result<(), Fault>
        ensures { Moves (feed_gap M.next self.old.machine byte) self.new result }
    {
        if is_blank(byte) {
            self.lex = Lex::Gap;
            return Ok(());
        }
        if byte == b'#' {
            self.lex = Lex::Comment;
            return Ok(());
        }
        if is_name_byte(byte) {
            return self.grow(Letters::new(alloc), byte);
        }
        self.begin_sign(alloc, byte)
    }

    fn feed_comment(&mut self, byte: u8)
        ensures { self.new ≡ at (if byte == 10 then Gap else Comment) self.old.machine }
    {
        self.lex = if byte == b'\n' {
            Lex::Gap
        } else {
            Lex::Comment
        };
    }

    fn finish_by(&mut self, alloc: Global, lex: Lex, byte: u8) -> Result<(), Fault>
        ensures { Moves (and_then (finish M.next lex self.old.machine) (λ n. feed_gap M.next n byte)) self.new result }
    {
        finish(alloc, lex, &mut self.machine)?;
        self.feed_gap(alloc, byte)
    }

    fn feed_half(&mut self, alloc: Global, sign: Sign, byte: u8) -> Result<(), Fault>
        ensures { Moves (feed_half M.next (longer sign byte) sign self.old.machine byte) self.new result }
    {
        match longer(sign, byte) {
            Some(long) => self.take_sign(alloc, long),
            None => self.finish_by(alloc, Lex::Half(sign), byte),
        }
    }
}

impl<M: TokenMachine + Drop> Scanner<M> {
    /// The start of a text.
    pub fn new(machine: M) -> Scanner<M>
        ensures { result ≡ at Gap machine }
    {
        Scanner {
            lex: Lex::Gap,
            machine,
        }
    }

    /// How many bytes at the front of these can be passed over, since what has begun stays as it is: a
    /// run of blanks, or the rest of a comment.
    fn count_waiting(&self, bytes: &[u8]) -> usize
        ensures within { result ≤ length bytes.now }
        ensures fed { feeds M.next self.now.lex self.now.machine (take result bytes.now) ≡ Some self.now }
        ensures waits { Waits M.next self.now.lex self.now.machine (take result bytes.now) }
    {
        match self.lex {
            Lex::Gap => count_blanks(bytes),
            Lex::Comment => count_comment(bytes),
            _ => 0,
        }
    }

    /// The word at the front of the bytes, where nothing has begun, and such a word can stand next.
    fn next_word<'a>(&self, bytes: &'a [u8]) -> Option<&'a str>
        ensures gap { IfSome result (λ _. self.now.lex ≡ Gap) }
        ensures word { IfSome result (λ w. IsNextWord M.next self.now.machine bytes.now w.now) }
    {
        match self.lex {
            Lex::Gap => next_word(&self.machine, bytes),
            _ => None,
        }
    }

    /// Takes the word, which is whole, and the byte behind it.
    #[tactic(auto, unfolding(crate::specs::Scanner::feed, crate::specs::Scanner::finish))]
    fn feed_word(&mut self, alloc: Global, word: &str, byte: u8) -> Result<(), Fault>
        requires { is_name_byte byte ≡ false }
        ensures { Moves (feed M.next (InWord word.now) self.old.machine byte) self.new result }
    {
        take_word(alloc, word, &mut self.machine)?;
        self.feed_gap(alloc, byte)
    }

    /// Goes on over the bytes, at least by one. After a failure the place is of no use.
    pub fn advance(&mut self, alloc: Global, bytes: &[u8]) -> Advance
        requires { 1 ≤ length bytes.now }
        ensures { Advances M.next self.old bytes.now self.new result }
    {
        if let Some(word) = self.next_word(bytes) {
            let count = word.len();
            let step = self.feed_word(alloc, word, bytes[count]);
            return advanced(count, step);
        }
        let count = self.count_waiting(bytes);
        if count > 0 {
            return Advance::Passed(count);
        }
        let step = self.feed(alloc, bytes[0]);
        advanced(0, step)
    }

    /// Takes the byte, in place. `Refused` comes exactly where the byte cannot stand here. After an
    /// `Err` the place is of no use.
    #[tactic(auto, unfolding(crate::specs::Scanner::feed))]
    fn feed(&mut self, alloc: Global, byte: u8) -> Result<(), Fault>
        ensures { Moves (feed M.next self.old.lex self.old.machine byte) self.new result }
    {
        match mem::replace(&mut self.lex, Lex::Gap) {
            Lex::Gap => self.feed_gap(alloc, byte),
            Lex::Comment => {
                self.feed_comment(byte);
                Ok(())
            }
            Lex::InWord(letters) => {
                if is_name_byte(byte) {
                    self.grow(letters, byte)
                } else {
                    self.finish_by(alloc, Lex::InWord(letters), byte)
                }
            }
            Lex::Half(sign) => self.feed_half(alloc, sign, byte),
        }
    }

    /// The machine after all tokens, where the text ends here.
    pub fn end(self, alloc: Global) -> Result<M, Fault>
        ensures { Steps (finish M.next self.lex self.machine) result }
    {
        let Scanner { lex, mut machine } = self;
        finish(alloc, lex, &mut machine)?;
        Ok(machine)
    }
}
