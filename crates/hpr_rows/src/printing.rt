//! Puts answers at the end of what is printed.
ghost use Rattle.std.specs.Prelude.{◌≡◌, codes, if◌then◌else◌};

use hpr_print::{content_text, text_of};
use hpr_syntax::{Content, Program};
use hpr_terms::{Name, NoMemory, Tag};
use std::alloc::{AllocError, Global};
use std::cmp::Ordering;

/// What is printed. It is cut where memory runs out.
#[derive(Drop)]
pub struct Out {
    text: String,
    is_cut: bool,
}

impl Out {
    /// Nothing yet.
    pub fn new(alloc: Global) -> Out {
        Out {
            text: String::new(alloc),
            is_cut: false,
        }
    }

    /// The text.
    pub fn text(&self) -> &str {
        self.text.as_str()
    }

    /// Whether memory ran out.
    pub fn is_cut(&self) -> bool {
        self.is_cut
    }

    /// Notes that memory ran out.
    pub fn cut(&mut self) {
        self.is_cut = true;
    }

    fn note(&mut self, told: Result<(), AllocError>) {
        if told.is_err() {
            self.cut();
        }
    }

    /// Puts the piece.
    pub fn put_piece(&mut self, piece: &str) {
        let told = self.text.push_str(piece);
        self.note(told);
    }

    /// Puts the number.
    pub fn put_number(&mut self, number: u64) {
        let told = write!(self.text, "{number}");
        self.note(told);
    }

    /// Puts the value.
    pub fn put_value(&mut self, value: i64) {
        let told = write!(self.text, "{value}");
        self.note(told);
    }
}

/// Puts the pieces, one after the other.
pub fn put(out: &mut Out, pieces: &[&str]) {
    for piece in pieces {
        out.put_piece(piece);
    }
}

/// Puts bytes that are UTF-8.
pub fn put_bytes(out: &mut Out, bytes: &[u8]) {
    match std::str::from_utf8(bytes) {
        Ok(text) => out.put_piece(text),
        Err(_) => out.put_piece("no text"),
    }
}

/// Puts a text that was made.
pub fn put_made(out: &mut Out, made: Result<Vec<u8>, NoMemory>) {
    match made {
        Ok(bytes) => put_bytes(out, &bytes),
        Err(_) => out.cut(),
    }
}

/// Puts a message that was made.
pub fn put_message(out: &mut Out, made: Result<String, AllocError>) {
    match made {
        Ok(message) => out.put_piece(message.as_str()),
        Err(_) => out.cut(),
    }
}

/// Puts the number behind a text.
pub fn put_counted(out: &mut Out, title: &str, number: usize) {
    out.put_piece(title);
    out.put_number(number as u64);
}

/// Puts the number behind a text, and ends the line.
pub fn put_count(out: &mut Out, title: &str, number: u64) {
    out.put_piece(title);
    out.put_number(number);
    out.put_piece("\n");
}

/// Puts the title and the numbers, a blank before each, in a line.
pub fn put_numbers(out: &mut Out, title: &str, numbers: &[usize]) {
    out.put_piece(title);
    for number in numbers {
        put_counted(out, " ", *number);
    }
    out.put_piece("\n");
}

/// Puts the title and the names, a blank before each, in a line.
pub fn put_names(out: &mut Out, title: &str, names: &[Name]) {
    out.put_piece(title);
    for name in names {
        put(out, &[" ", name.text()]);
    }
    out.put_piece("\n");
}

/// Puts the title and the numbers of the marks, a blank before each, in a line.
pub fn put_marked(out: &mut Out, title: &str, marks: &[bool]) {
    out.put_piece(title);
    for (at, mark) in marks.iter().enumerate() {
        if *mark {
            put_counted(out, " ", at);
        }
    }
    out.put_piece("\n");
}

/// Puts a tag.
pub fn put_tag(out: &mut Out, tag: Tag) {
    let told = write!(out.text, "{tag}");
    out.note(told);
}

/// A truth value as a word.
pub fn truth(value: bool) -> &'static str
    ensures { result.now ≡ (if value then codes "true" else codes "false") }
{
    if value { "true" } else { "false" }
}

/// An ordering as a word.
pub fn order_word(order: Ordering) -> &'static str {
    match order {
        Ordering::Less => "less",
        Ordering::Equal => "equal",
        Ordering::Greater => "greater",
    }
}

/// Puts how two values stand to each other, and whether a copy of the first one is the same.
pub fn put_comparison(out: &mut Out, order: Ordering, same: bool, copied: bool) {
    let order = order_word(order);
    put(
        out,
        &[
            order,
            ", same ",
            truth(same),
            ", copied ",
            truth(copied),
            "\n",
        ],
    );
}

/// Puts the canonical text of a program.
pub fn put_program(alloc: Global, out: &mut Out, program: &Program) {
    put_made(out, text_of(alloc, program));
}

/// Puts what a content says.
pub fn put_content(alloc: Global, out: &mut Out, content: &Content) {
    put_made(out, content_text(alloc, content));
}
