//! A row: the words of its call, and the texts that they name.
use hpr_syntax::Program;
use hpr_terms::{Name, Tag};
use hpr_text::{Mode, parse};
use std::alloc::Global;

/// A text with its name.
#[derive(Drop)]
pub struct Text {
    pub name: String,
    pub bytes: Vec<u8>,
}

/// A call's words, and the texts of its row.
#[derive(Clone, Copy)]
pub struct Row<'a> {
    pub alloc: Global,
    pub words: &'a [String],
    pub texts: &'a [Text],
}

impl<'a> Row<'a> {
    /// The word at this place.
    pub fn word(self, at: usize) -> Option<&'a str> {
        Some(self.words.get(at)?.as_str())
    }

    /// The words from this place on.
    pub fn rest(self, at: usize) -> &'a [String] {
        match self.words.get(at..) {
            Some(rest) => rest,
            None => &[],
        }
    }

    /// The number that stands at this place.
    pub fn number(self, at: usize) -> Option<usize> {
        self.word(at)?.parse().ok()
    }

    /// The count of tries or steps that stands at this place.
    pub fn count(self, at: usize) -> Option<u64> {
        self.word(at)?.parse().ok()
    }

    /// The author that stands at this place.
    pub fn author(self, at: usize) -> Option<u32> {
        self.word(at)?.parse().ok()
    }

    /// The tag that stands at this place.
    pub fn tag(self, at: usize) -> Option<Tag> {
        tag_of(self.word(at)?)
    }

    /// The name that stands at this place.
    pub fn name(self, at: usize) -> Option<Name> {
        name_of(self.alloc, self.word(at)?)
    }

    /// The last text with this name.
    pub fn named(self, name: &str) -> Option<&'a [u8]> {
        let mut found = None;
        for text in self.texts {
            if text.name.as_str() == name {
                found = Some(text.bytes.as_slice());
            }
        }
        found
    }

    /// The bytes of the text that the word at this place names.
    pub fn bytes(self, at: usize) -> Option<&'a [u8]> {
        self.named(self.word(at)?)
    }

    /// The text that the word at this place names.
    pub fn text(self, at: usize) -> Option<&'a str> {
        std::str::from_utf8(self.bytes(at)?).ok()
    }

    /// The program that the text spells which the word at this place names.
    pub fn program(self, at: usize) -> Option<Program> {
        parse(self.alloc, self.bytes(at)?, Mode::Tagged).ok()
    }

    /// The programs of the words from one place up to another.
    pub fn programs(self, from: usize, to: usize) -> Option<Vec<Program>> {
        let mut programs = Vec::new(self.alloc);
        for at in from..to {
            self.push_program(&mut programs, at)?;
        }
        Some(programs)
    }

    fn push_program(self, programs: &mut Vec<Program>, at: usize) -> Option<()> {
        programs.push(self.program(at)?).ok()
    }
}

/// The name that a word spells: the stream's, an array's, or a plain one.
pub fn name_of(alloc: Global, word: &str) -> Option<Name> {
    if word == "out" {
        return Name::stream(alloc).ok();
    }
    match word.strip_suffix("[]") {
        Some(base) => array_of(alloc, base),
        None => Name::new(alloc, word).ok(),
    }
}

/// The name of the array that is written with this plain name.
pub fn array_of(alloc: Global, base: &str) -> Option<Name> {
    let base = Name::new(alloc, base).ok()?;
    Name::array(alloc, &base).ok()
}

/// The tag that a word spells.
pub fn tag_of(word: &str) -> Option<Tag> {
    let (author, serial) = word.split_once('.')?;
    let author = author.parse().ok()?;
    let serial = serial.parse().ok()?;
    Some(Tag { author, serial })
}
