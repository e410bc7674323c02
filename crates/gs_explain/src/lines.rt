//! The places of lines.
ghost use Rattle.std.specs.Prelude.{◌≡◌, ◌≤◌, ◌+◌, ℕ, IfSome, MatchOption, length};
ghost use Rattle.std.specs.List.{prefix_len};
ghost use Rattle.gs_text.specs.Bytes.{is_white};
ghost use Rattle.gs_explain.specs.Lines.{IsLinePlace, IsLineStart, first_solid, white_len};

use crate::place::bytes_after;

/// Where the line of this number begins, counted from 1. It looks through the text up to there.
fn line_start(bytes: &[u8], line: usize) -> Option<usize>
    ensures { MatchOption result ((start : ℕ) → IsLineStart bytes.now line start → ⊥) (λ start. IsLineStart bytes.now line start) }
{
    if line == 1 {
        return Some(0);
    }
    let mut here = 1;
    for i in 0..bytes.len() {
        if bytes[i] == b'\n' {
            here += 1;
            if here == line {
                return Some(i + 1);
            }
        }
    }
    None
}

/// Space, tab, carriage return, form feed or newline.
fn is_white(byte: u8) -> bool
    ensures { result ≡ is_white byte }
{
    byte == b' ' || byte == b'\t' || byte == b'\r' || byte == 12 || byte == b'\n'
}

/// How many bytes of white stand first.
fn white_run(bytes: &[u8]) -> usize
    ensures value { result ≡ prefix_len is_white bytes.now }
    ensures within { result ≤ length bytes.now }
{
    bytes.iter().take_while(|b| is_white(**b)).count()
}

/// How many bytes of white stand from a place on.
fn white_len(bytes: &[u8], at: usize) -> usize
    requires { at ≤ length bytes.now }
    ensures value { result ≡ white_len bytes.now at }
    ensures within { at + result ≤ length bytes.now }
{
    let (_, rest) = bytes.split_at(at);
    white_run(rest)
}

/// The first byte that isn't white of the line that begins at `start`, or its begin where all is white.
fn first_solid(bytes: &[u8], start: usize) -> usize
    requires { start ≤ length bytes.now }
    ensures value { result ≡ first_solid bytes.now start }
    ensures within { result ≤ length bytes.now }
{
    let white = white_len(bytes, start);
    if white < bytes_after(bytes, start) {
        start + white
    } else {
        start
    }
}

/// The place at which the line of this number is shown.
pub(crate) fn line_place(bytes: &[u8], line: usize) -> Option<usize>
    ensures is { MatchOption result ((at : ℕ) → IsLinePlace bytes.now line at → ⊥) (λ at. IsLinePlace bytes.now line at) }
    ensures within { IfSome result (λ at. at ≤ length bytes.now) }
{
    match line_start(bytes, line) {
        Some(start) => Some(first_solid(bytes, start)),
        None => None,
    }
}
