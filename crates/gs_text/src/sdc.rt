//! What begins at a byte of constraints in the SDC format.
#![tactic(auto)]

ghost use Rattle.std.specs.Prelude.{◌≡◌, ◌+◌, length};
ghost use Rattle.gs_text.specs.Bytes.{is_sdc_mark};
ghost use Rattle.gs_text.specs.Front.{FitsIn};
ghost use Rattle.gs_text.specs.Sdc.{braced_front, command_front, ends_braced_word, ends_sdc_text, ends_sdc_word, quote_front, sdc_front};

use crate::kinds::Kind;
use crate::runs::{Ending, line_front, until};
use crate::scan::{Front, byte_at, continues, is_white};

fn is_sdc_mark(byte: u8) -> bool
    ensures { result ≡ is_sdc_mark byte }
{
    byte == b'[' || byte == b']' || byte == b'{' || byte == b'}'
}

/// What a word outside of braces has none of.
struct WordEnd;

impl Ending for WordEnd {
    ghost test = { ends_sdc_word };

    fn is_before(byte: u8, next: u8) -> bool {
        is_white(byte) || continues(byte, next) || byte == b'"' || is_sdc_mark(byte)
    }
}

/// What a word in braces has none of.
struct BracedEnd;

impl Ending for BracedEnd {
    ghost test = { ends_braced_word };

    fn is_before(byte: u8, next: u8) -> bool {
        is_white(byte) || continues(byte, next) || byte == b'}'
    }
}

/// A quote, or the end of the line.
struct TextEnd;

impl Ending for TextEnd {
    ghost test = { ends_sdc_text };

    fn is_before(byte: u8, _next: u8) -> bool {
        byte == b'"' || byte == b'\n'
    }
}

/// What begins with a quote before `rest`: a text if the line has another quote, else a mark.
fn quote_front(rest: &[u8]) -> Front
    ensures value { result ≡ quote_front rest.now }
    ensures fits { FitsIn (length rest.now + 1) result }
{
    let len = until::<TextEnd>(rest);
    if byte_at(rest, len) == b'"' {
        Front::Found(Kind::Text, len + 2)
    } else {
        Front::Found(Kind::Mark, 1)
    }
}

/// What begins in braces with `byte`, which is no white, before `rest`.
fn braced_front(byte: u8, rest: &[u8]) -> Front
    ensures value { result ≡ braced_front byte rest.now }
    ensures fits { FitsIn (length rest.now + 1) result }
{
    if byte == b'}' {
        Front::Found(Kind::Mark, 1)
    } else {
        Front::Found(Kind::Word, until::<BracedEnd>(rest) + 1)
    }
}

/// What begins outside of braces with `byte`, which is no white, before `rest`.
fn command_front(begun: bool, byte: u8, rest: &[u8]) -> Front
    ensures value { result ≡ command_front begun byte rest.now }
    ensures fits { FitsIn (length rest.now + 1) result }
{
    if byte == b'#' && !begun {
        line_front(rest)
    } else if is_sdc_mark(byte) {
        Front::Found(Kind::Mark, 1)
    } else if byte == b'"' {
        quote_front(rest)
    } else {
        Front::Found(Kind::Word, until::<WordEnd>(rest) + 1)
    }
}

/// What begins with `byte` before `rest` in constraints, where braces are open or not, and the command has a piece before
/// or none.
pub fn begins_sdc(braced: bool, begun: bool, byte: u8, rest: &[u8]) -> Front
    ensures value { result ≡ sdc_front braced begun byte rest.now }
    ensures fits { FitsIn (length rest.now + 1) result }
{
    if is_white(byte) {
        Front::Gap
    } else if continues(byte, byte_at(rest, 0)) {
        Front::Passed(2)
    } else if braced {
        braced_front(byte, rest)
    } else {
        command_front(begun, byte, rest)
    }
}
