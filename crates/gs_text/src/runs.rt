//! Runs of bytes, each up to where it ends, by one loop.
#![tactic(auto)]

ghost use Rattle.std.specs.Prelude.{◌≡◌, ℕ, Bool, ◌+◌, ◌≤◌, length};
ghost use Rattle.gs_text.specs.Comments.{comment_front, line_front};
ghost use Rattle.gs_text.specs.Front.{FitsIn};
ghost use Rattle.gs_text.specs.Runs.{closes_comment, is_blank, is_newline, until};

use crate::scan::{Front, byte_at, is_white};

/// What ends a run of bytes: a test of a byte and of the one after it.
pub trait Ending {
    ghost test: { ℕ → ℕ → Bool };

    /// Whether a run ends before `byte`, which `next` follows, 0 at the text's end.
    fn is_before(byte: u8, next: u8) -> bool
        ensures { result ≡ test byte next };
}

/// How many bytes stand before the first at which the run ends, or all of them.
pub fn until<E: Ending>(bytes: &[u8]) -> usize
    ensures value { result ≡ until E.test bytes.now }
    ensures within { result ≤ length bytes.now }
{
    for i in 0..bytes.len() {
        if E::is_before(bytes[i], byte_at(bytes, i + 1)) {
            return i;
        }
    }
    bytes.len()
}

/// White.
pub struct Blank;

impl Ending for Blank {
    ghost test = { is_blank };

    fn is_before(byte: u8, _next: u8) -> bool {
        is_white(byte)
    }
}

/// The end of a line.
struct LineEnd;

impl Ending for LineEnd {
    ghost test = { is_newline };

    fn is_before(byte: u8, _next: u8) -> bool {
        byte == b'\n'
    }
}

/// A star and a slash.
struct CommentEnd;

impl Ending for CommentEnd {
    ghost test = { closes_comment };

    fn is_before(byte: u8, next: u8) -> bool {
        byte == b'*' && next == b'/'
    }
}

/// The comment whose slash and star stand before `inner`.
pub fn comment_front(inner: &[u8]) -> Front
    ensures value { result ≡ comment_front inner.now }
    ensures fits { FitsIn (length inner.now + 2) result }
{
    let len = until::<CommentEnd>(inner);
    if len < inner.len() {
        Front::Passed(len + 4)
    } else {
        Front::OpenComment
    }
}

/// The comment up to the end of its line whose first byte stands before `rest`.
pub fn line_front(rest: &[u8]) -> Front
    ensures value { result ≡ line_front rest.now }
    ensures fits { FitsIn (length rest.now + 1) result }
{
    Front::Passed(until::<LineEnd>(rest) + 1)
}
