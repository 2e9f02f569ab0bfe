//! The bytes and numbers that lines spell.
use std::alloc::{AllocError, Global};

fn digit(byte: u8) -> u8 {
    match byte {
        b'0'..=b'9' => byte - b'0',
        b'a'..=b'f' => byte - b'a' + 10,
        _ => 0,
    }
}

/// The bytes of the text, where `\HH` is one byte. A `\` at the end is none.
pub(crate) fn unescaped(alloc: Global, text: &str) -> Result<Vec<u8>, AllocError> {
    let mut bytes = Vec::new(alloc);
    let mut left: u8 = 0;
    let mut value: u8 = 0;
    for byte in text.as_bytes() {
        if left > 0 {
            left -= 1;
            value = value.wrapping_mul(16).wrapping_add(digit(*byte));
            if left == 0 {
                bytes.push(value)?;
            }
        } else if *byte == b'\\' {
            left = 2;
            value = 0;
        } else {
            bytes.push(*byte)?;
        }
    }
    Ok(bytes)
}

/// The word that a piece of a line spells.
pub(crate) fn word(alloc: Global, text: &str) -> Option<String> {
    String::from_utf8(unescaped(alloc, text).ok()?).ok()
}

/// The words of a line.
pub(crate) fn words(alloc: Global, line: &str) -> Option<Vec<String>> {
    let mut words = Vec::new(alloc);
    for piece in line.split_whitespace() {
        push_word(alloc, &mut words, piece)?;
    }
    Some(words)
}

fn push_word(alloc: Global, words: &mut Vec<String>, piece: &str) -> Option<()> {
    words.push(word(alloc, piece)?).ok()
}

/// The numbers of a line.
pub(crate) fn numbers(alloc: Global, line: &str) -> Option<Vec<u64>> {
    let mut numbers = Vec::new(alloc);
    for piece in line.split_whitespace() {
        numbers.push(piece.parse::<u64>().ok()?).ok()?;
    }
    Some(numbers)
}

// Puts the text behind the bytes, with these digits in the place of `$`.
fn push_with(bytes: &mut Vec<u8>, text: &[u8], digits: &[u8]) -> Result<(), AllocError> {
    for byte in text {
        if *byte == b'$' {
            bytes.extend_from_slice(digits)?;
        } else {
            bytes.push(*byte)?;
        }
    }
    Ok(())
}

fn push_numbered(
    alloc: Global,
    bytes: &mut Vec<u8>,
    text: &[u8],
    number: u64,
) -> Result<(), AllocError> {
    let digits = number.to_string(alloc)?;
    push_with(bytes, text, digits.as_bytes())
}

/// Puts the text behind the bytes for each number from `first` to `last`.
pub(crate) fn push_repeated(
    alloc: Global,
    bytes: &mut Vec<u8>,
    text: &[u8],
    first: u64,
    last: u64,
) -> Result<(), AllocError> {
    for number in first..=last {
        push_numbered(alloc, bytes, text, number)?;
    }
    Ok(())
}
