//! The lines of rows.
use crate::comparing::Sheet;
use crate::lines::take_line;
use crate::printing::Out;
use crate::words::{Row, Text};
use std::alloc::Global;

/// The calls that rows may make.
pub trait Calls {
    /// Puts what the call of a row answers. There is no answer where the words are no call.
    fn answer(row: Row<'_>, out: &mut Out) -> Option<()>;
}

fn push_word(alloc: Global, words: &mut Vec<String>, word: &str) -> Option<()> {
    words.push(String::from_str(alloc, word).ok()?).ok()
}

fn words_of(alloc: Global, line: &str) -> Option<Vec<String>> {
    let mut words = Vec::new(alloc);
    for word in line.split(' ') {
        push_word(alloc, &mut words, word)?;
    }
    Some(words)
}

fn answer_line<C: Calls>(alloc: Global, texts: &[Text], out: &mut Out, line: &str) -> Option<()> {
    let words = words_of(alloc, line)?;
    let row = Row {
        alloc,
        words: &words,
        texts,
    };
    C::answer(row, out)
}

/// Takes a line: a title, a line that spells texts, a call, or a line that it is to print. There is no answer where it is
/// none of them.
pub fn take<C: Calls>(
    alloc: Global,
    texts: &mut Vec<Text>,
    sheet: &mut Sheet,
    line: &str,
) -> Option<()> {
    if let Some(title) = line.strip_prefix("# ") {
        *texts = Vec::new(alloc);
        sheet.begin(alloc, title);
        return Some(());
    }
    if sheet.takes(line) {
        return Some(());
    }
    match line.strip_prefix("$ ") {
        Some(words) => answer_line::<C>(alloc, texts, sheet.told(), words),
        None => take_line(alloc, texts, line),
    }
}
