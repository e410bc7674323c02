//! What begins at a byte of a Liberty text, after the syntax of the Liberty reference manual.
#![tactic(auto)]

ghost use Rattle.std.specs.Prelude.{◌≡◌, ◌+◌, ◌≤◌, length};
ghost use Rattle.gs_text.specs.Bytes.{is_liberty_mark};
ghost use Rattle.gs_text.specs.Front.{FitsIn};
ghost use Rattle.gs_text.specs.Liberty.{ends_liberty_word, liberty_front, string_front};
ghost use Rattle.gs_text.specs.Runs.{is_quote};

use crate::kinds::Kind;
use crate::runs::{Ending, comment_front, until};
use crate::scan::{Front, byte_at, continues, is_white, opens_comment};

fn is_liberty_mark(byte: u8) -> bool
    ensures { result ≡ is_liberty_mark byte }
{
    byte == b'('
        || byte == b')'
        || byte == b'{'
        || byte == b'}'
        || byte == b','
        || byte == b';'
        || byte == b':'
}

/// A double quote.
struct Quote;

impl Ending for Quote {
    ghost test = { is_quote };

    fn is_before(byte: u8, _next: u8) -> bool {
        byte == b'"'
    }
}

/// What a word of Liberty has none of.
struct WordEnd;

impl Ending for WordEnd {
    ghost test = { ends_liberty_word };

    fn is_before(byte: u8, next: u8) -> bool {
        is_white(byte)
            || byte == b'"'
            || is_liberty_mark(byte)
            || opens_comment(byte, next)
            || continues(byte, next)
    }
}

/// The string whose opening quote stands before `rest`.
fn string_front(rest: &[u8]) -> Front
    ensures value { result ≡ string_front rest.now }
    ensures fits { FitsIn (length rest.now + 1) result }
{
    let len = until::<Quote>(rest);
    if len < rest.len() {
        Front::Found(Kind::Text, len + 2)
    } else {
        Front::OpenString
    }
}

/// What begins with `byte` before `rest` in a Liberty text.
pub fn begins_liberty(byte: u8, rest: &[u8]) -> Front
    ensures value { result ≡ liberty_front byte rest.now }
    ensures fits { FitsIn (length rest.now + 1) result }
{
    let next = byte_at(rest, 0);
    if is_white(byte) {
        Front::Gap
    } else if continues(byte, next) {
        Front::Passed(2)
    } else if byte == b'"' {
        string_front(rest)
    } else if is_liberty_mark(byte) {
        Front::Found(Kind::Mark, 1)
    } else if opens_comment(byte, next) {
        comment_front(&rest[1..])
    } else {
        Front::Found(Kind::Word, until::<WordEnd>(rest) + 1)
    }
}
