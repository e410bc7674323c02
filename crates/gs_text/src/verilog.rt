//! What begins at a byte of a Verilog text, after the lexical rules of IEEE 1364-2005.
#![tactic(auto)]

ghost use Rattle.std.specs.Prelude.{◌≡◌, ◌+◌, ◌≤◌, false, length};
ghost use Rattle.std.specs.List.{prefix_len};
ghost use Rattle.gs_text.specs.Bytes.{is_digit, is_white, is_word_byte};
ghost use Rattle.gs_text.specs.Front.{FitsIn};
ghost use Rattle.gs_text.specs.Verilog.{closed_len, escaped_front, index_len, verilog_front, word_len};

use crate::kinds::Kind;
use crate::runs::{Blank, comment_front, line_front, until};
use crate::scan::{Front, byte_at, is_white, opens_comment, opens_line_comment};

fn is_digit(byte: u8) -> bool
    ensures { result ≡ is_digit byte }
{
    byte >= b'0' && byte <= b'9'
}

fn is_word_byte(byte: u8) -> bool
    ensures { result ≡ is_word_byte byte }
{
    byte >= b'a' && byte <= b'z'
        || byte >= b'A' && byte <= b'Z'
        || is_digit(byte)
        || byte == b'_'
        || byte == b'$'
}

/// How many digits stand at the front.
fn digit_run(bytes: &[u8]) -> usize
    ensures value { result ≡ prefix_len is_digit bytes.now }
    ensures within { result ≤ length bytes.now }
{
    bytes.iter().take_while(|b| is_digit(**b)).count()
}

/// How many bytes of words stand at the front.
fn word_run(bytes: &[u8]) -> usize
    ensures value { result ≡ prefix_len is_word_byte bytes.now }
    ensures within { result ≤ length bytes.now }
{
    bytes.iter().take_while(|b| is_word_byte(**b)).count()
}

/// How many bytes digits and a closing bracket take at the front, 0 where they don't stand there.
fn closed_len(bytes: &[u8]) -> usize
    ensures value { result ≡ closed_len bytes.now }
    ensures within { result ≤ length bytes.now }
{
    let digits = digit_run(bytes);
    if digits > 0 && byte_at(bytes, digits) == b']' {
        digits + 1
    } else {
        0
    }
}

/// How many bytes an index in brackets takes at the front, 0 where there is none.
fn index_len(bytes: &[u8]) -> usize
    ensures value { result ≡ index_len bytes.now }
    ensures within { result ≤ length bytes.now }
{
    match bytes {
        [first, after @ ..] => {
            let len = closed_len(after);
            if *first == b'[' && len > 0 {
                len + 1
            } else {
                0
            }
        }
        [] => 0,
    }
}

/// How many bytes of `rest` belong to a word of Verilog whose first byte stands before it.
fn word_len(rest: &[u8]) -> usize
    ensures value { result ≡ word_len rest.now }
    ensures within { result ≤ length rest.now }
{
    let run = word_run(rest);
    run + index_len(&rest[run..])
}

/// The escaped name whose backslash stands before `rest`. It ends before white, and a backslash alone is a mark.
fn escaped_front(rest: &[u8]) -> Front
    ensures value { result ≡ escaped_front rest.now }
    ensures fits { FitsIn (length rest.now + 1) result }
{
    let len = until::<Blank>(rest);
    if len > 0 {
        Front::Found(Kind::Escaped, len + 1)
    } else {
        Front::Found(Kind::Mark, 1)
    }
}

/// What begins with `byte`, which is no white and in no word, before `rest`.
fn begins_apart(byte: u8, rest: &[u8]) -> Front
    requires white { is_white byte ≡ false }
    requires word { is_word_byte byte ≡ false }
    ensures value { result ≡ verilog_front byte rest.now }
    ensures fits { FitsIn (length rest.now + 1) result }
{
    let next = byte_at(rest, 0);
    if opens_line_comment(byte, next) {
        line_front(rest)
    } else if opens_comment(byte, next) {
        comment_front(&rest[1..])
    } else if byte == b'\\' {
        escaped_front(rest)
    } else {
        Front::Found(Kind::Mark, 1)
    }
}

/// What begins with `byte` before `rest` in a Verilog text.
pub fn begins_verilog(byte: u8, rest: &[u8]) -> Front
    ensures value { result ≡ verilog_front byte rest.now }
    ensures fits { FitsIn (length rest.now + 1) result }
{
    if is_white(byte) {
        Front::Gap
    } else if is_word_byte(byte) {
        Front::Found(Kind::Word, word_len(rest) + 1)
    } else {
        begins_apart(byte, rest)
    }
}
