//! The bytes of values.

ghost use Rattle.std.specs.Prelude.{◌≡◌, ◌==◌, false, ◌≤◌, ◌<◌, ◌+◌, IfOk, drop, length};
ghost use Rattle.std.specs.List.{list_any, position_or_len};
ghost use Rattle.gs_text.specs.Bytes.{is_white};
ghost use Rattle.gs_libcell.specs.Text.{continues, is_gap, unfolded, unfolded_byte};

use std::alloc::{AllocError, Global};

/// Whether a byte is white.
pub fn is_white(byte: u8) -> bool
    ensures { result ≡ is_white byte }
{
    byte == 32 || byte == 9 || byte == 13 || byte == 12 || byte == 10
}

/// Whether a byte is white, or a comma where commas part.
pub(crate) fn is_gap(commas: bool, byte: u8) -> bool
    ensures { result ≡ is_gap commas byte }
{
    is_white(byte) || (commas && byte == 44)
}

/// How many bytes stand before the first gap.
fn run_len(commas: bool, text: &[u8]) -> usize
    ensures value { result ≡ position_or_len (is_gap commas) text.now }
    ensures within { result ≤ length text.now }
{
    text.iter()
        .take_while(|byte| !is_gap(commas, **byte))
        .count()
}

/// Where the run ends that begins at a place.
pub(crate) fn run_end(commas: bool, text: &[u8], from: usize) -> usize
    requires { from < length text.now }
    ensures value { result ≡ from + position_or_len (is_gap commas) (drop from text.now) }
    ensures within { result ≤ length text.now }
{
    from + run_len(commas, &text[from..])
}

/// Whether a byte is a backslash directly before a newline.
fn continues(byte: u8, rest: &[u8]) -> bool
    ensures { result ≡ continues byte rest.now }
{
    match rest {
        [] => false,
        [next, ..] => byte == 92 && *next == 10,
    }
}

fn unfolded_byte(byte: u8, rest: &[u8]) -> u8
    ensures { result ≡ unfolded_byte byte rest.now }
{
    if continues(byte, rest) {
        return 32;
    }
    byte
}

/// The text with a blank for each backslash that is directly before a newline.
pub fn unfolded(alloc: Global, text: &[u8]) -> Result<Vec<u8>, AllocError>
    ensures ok { IfOk result (λ v. v.items ≡ unfolded text.now) }
    ensures length { IfOk result (λ v. length v.items ≡ length text.now) }
{
    let mut copy = Vec::new(alloc);
    for place in 0..text.len() {
        copy.push(unfolded_byte(text[place], &text[place + 1..]))?;
    }
    Ok(copy)
}

fn has_backslash(text: &[u8]) -> bool
    ensures { result ≡ list_any (λ c. c == 92) text.now }
{
    text.iter().any(|byte| *byte == 92)
}

/// Whether a text has a backslash, without which no line is continued.
pub(crate) fn may_continue(text: &[u8]) -> bool
    ensures { result ≡ false → unfolded text.now ≡ text.now }
{
    has_backslash(text)
}
