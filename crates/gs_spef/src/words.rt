//! The words of a line, and what one of them writes.
#![tactic(auto)]

ghost use Rattle.std.specs.Prelude.{◌≡◌, length, map, IfOk};
ghost use Rattle.std.specs.Char.{is_ascii_digit};
ghost use Rattle.std.specs.List.{All, list_all};
ghost use Rattle.gs_spef.specs.Lines.{word};
ghost use Rattle.gs_spef.specs.Names.{are_digits, escapes, is_index, unescaped};
ghost use Rattle.gs_text.specs.Pieces.{LiesIn, text_of};

use gs_text::{Name, Piece, text_of};
use std::alloc::{AllocError, Global};

/// A word of a line, counted from 0; empty where the line has no such word.
pub fn word<'a>(bytes: &'a [u8], line: &[Piece], place: usize) -> &'a [u8]
    requires { All (LiesIn (length bytes.now)) line.now }
    ensures { result.now ≡ word (map (text_of bytes.now) line.now) place }
{
    if place < line.len() {
        text_of(bytes, &line[place])
    } else {
        b""
    }
}

/// Whether all bytes are digits.
fn all_digits(text: &[u8]) -> bool
    ensures { result ≡ list_all is_ascii_digit text.now }
{
    text.iter().all(|c| c.is_ascii_digit())
}

/// Whether a word is one or more digits.
fn are_digits(text: &[u8]) -> bool
    ensures { result ≡ are_digits text.now }
{
    !text.is_empty() && all_digits(text)
}

/// Whether a word is an index of the name map: a star and digits.
pub fn is_index(text: &[u8]) -> bool
    ensures { result ≡ is_index text.now }
{
    match text {
        [first, digits @ ..] => *first == b'*' && are_digits(digits),
        [] => false,
    }
}

/// Whether a byte drops as a backslash before a byte that is kept.
fn escapes(escaped: bool, byte: u8) -> bool
    ensures { result ≡ escapes escaped byte }
{
    byte == b'\\' && !escaped
}

/// The name that a word writes: a backslash is dropped and the byte after it kept.
pub fn unescaped(alloc: Global, text: &[u8]) -> Result<Name, AllocError>
    ensures { IfOk result (λ n. n ≡ unescaped text.now) }
{
    let mut kept = Vec::new(alloc);
    let mut escaped = false;
    for byte in text {
        if escapes(escaped, *byte) {
            escaped = true;
        } else {
            kept.push(*byte)?;
            escaped = false;
        }
    }
    Name::copy_of(alloc, kept.as_slice())
}

/// The name that a word writes, which takes no memory of its own on the way where the word has no backslash.
pub fn name_of(alloc: Global, text: &[u8]) -> Result<Name, AllocError>
    ensures { IfOk result (λ n. n ≡ unescaped text.now) }
{
    if text.contains(&b'\\') {
        unescaped(alloc, text)
    } else {
        Name::copy_of(alloc, text)
    }
}
