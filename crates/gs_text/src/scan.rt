//! What begins at a byte, and what all styles ask of bytes.
#![tactic(auto)]

ghost use Rattle.std.specs.Prelude.{◌≡◌, slice_index};
ghost use Rattle.gs_text.specs.Bytes.{is_white};
ghost use Rattle.gs_text.specs.Runs.{continues, opens_comment, opens_line_comment};

use crate::kinds::Kind;

/// What begins at a byte that no piece has taken yet.
pub enum Front {
    /// A byte of white, which belongs to no piece.
    Gap,
    /// A piece of so many bytes.
    Found(Kind, usize),
    /// A comment or a continued line end, of so many bytes.
    Passed(usize),
    /// A string without an end.
    OpenString,
    /// A comment without an end.
    OpenComment,
}

/// Space, tab, carriage return, form feed or newline.
pub fn is_white(byte: u8) -> bool
    ensures { result ≡ is_white byte }
{
    byte == b' ' || byte == b'\t' || byte == b'\r' || byte == 12 || byte == b'\n'
}

/// The byte at place `i`, 0 past the end.
pub fn byte_at(bytes: &[u8], i: usize) -> u8
    ensures { result ≡ slice_index bytes.now i }
{
    if i < bytes.len() { bytes[i] } else { 0 }
}

/// Whether a line goes on over its end, which a backslash directly before it says.
pub fn continues(byte: u8, next: u8) -> bool
    ensures { result ≡ continues byte next }
{
    byte == b'\\' && next == b'\n'
}

/// Whether a comment begins that ends with a star and a slash.
pub fn opens_comment(byte: u8, next: u8) -> bool
    ensures { result ≡ opens_comment byte next }
{
    byte == b'/' && next == b'*'
}

/// Whether a comment begins that ends with its line.
pub fn opens_line_comment(byte: u8, next: u8) -> bool
    ensures { result ≡ opens_line_comment byte next }
{
    byte == b'/' && next == b'/'
}
