//! The lines that spell texts.
use crate::words::Text;
use std::alloc::Global;

// The byte that a letter behind `\` stands for.
fn byte_for(letter: u8) -> u8 {
    match letter {
        b'n' => b'\n',
        b't' => b'\t',
        b'r' => b'\r',
        b'f' => 12,
        b'0' => 0,
        b'x' => 255,
        other => other,
    }
}

// Adds what a piece of a line spells, with these digits in place of each `%`: behind `\` stand `n`, `t`,
// `r`, `f`, `0` or `x` for the bytes 10, 9, 13, 12, 0 and 255, and anything else for itself.
fn add_piece(bytes: &mut Vec<u8>, piece: &str, digits: &str) -> Option<()> {
    let mut escaped = false;
    for byte in piece.as_bytes() {
        if escaped {
            bytes.push(byte_for(*byte)).ok()?;
            escaped = false;
        } else if *byte == b'\\' {
            escaped = true;
        } else if *byte == b'%' {
            bytes.extend_from_slice(digits.as_bytes()).ok()?;
        } else {
            bytes.push(*byte).ok()?;
        }
    }
    Some(())
}

fn add_plain(bytes: &mut Vec<u8>, piece: &str) -> Option<()> {
    add_piece(bytes, piece, "%")
}

// Adds a piece, with the number in place of each `%`.
fn add_numbered(alloc: Global, bytes: &mut Vec<u8>, piece: &str, number: u32) -> Option<()> {
    let digits = number.to_string(alloc).ok()?;
    add_piece(bytes, piece, digits.as_str())
}

// Adds a piece so many times, with the numbers from 1 on.
fn add_times(alloc: Global, bytes: &mut Vec<u8>, times: u32, piece: &str) -> Option<()> {
    for number in 1..=times {
        add_numbered(alloc, bytes, piece, number)?;
    }
    Some(())
}

// Adds a text with this name that begins with the piece.
fn add_text(alloc: Global, texts: &mut Vec<Text>, name: &str, piece: &str) -> Option<()> {
    let name = String::from_str(alloc, name).ok()?;
    let bytes = Vec::new(alloc);
    texts.push(Text { name, bytes }).ok()?;
    add_plain(&mut texts.last_mut()?.bytes, piece)
}

// Begins a text: its name, and behind a blank what it begins with.
fn begin(alloc: Global, texts: &mut Vec<Text>, line: &str) -> Option<()> {
    match line.split_once(' ') {
        Some((name, piece)) => add_text(alloc, texts, name, piece),
        None => add_text(alloc, texts, line, ""),
    }
}

// Adds a line to the last text.
fn add_line(texts: &mut Vec<Text>, piece: &str) -> Option<()> {
    let text = texts.last_mut()?;
    add_plain(&mut text.bytes, piece)?;
    text.bytes.push(b'\n').ok()
}

// Adds to the last text a piece so many times: the number, and behind a blank the piece, in which `%` is
// the number of the time.
fn add_repeated(alloc: Global, texts: &mut Vec<Text>, line: &str) -> Option<()> {
    let (times, piece) = line.split_once(' ')?;
    let times = times.parse().ok()?;
    add_times(alloc, &mut texts.last_mut()?.bytes, times, piece)
}

/// Takes a line that spells texts.
pub fn take_line(alloc: Global, texts: &mut Vec<Text>, line: &str) -> Option<()> {
    let (mark, rest) = line.split_once(' ')?;
    match mark {
        "@" => begin(alloc, texts, rest),
        "+" => add_line(texts, rest),
        "*" => add_repeated(alloc, texts, rest),
        _ => None,
    }
}
