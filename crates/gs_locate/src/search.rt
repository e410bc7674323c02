//! The search for the first piece that passes a test.

ghost use Rattle.std.specs.Prelude.{◌≡◌, ◌≤◌, ℕ, Bool, List, length, IfOk, MatchOption};
ghost use Rattle.std.specs.List.{All};
ghost use Rattle.gs_text.specs.Bytes.{max_text};
ghost use Rattle.gs_text.specs.Pieces.{LiesIn};
ghost use Rattle.gs_text.specs.declared.kinds.Piece.{Piece};
ghost use Rattle.gs_locate.specs.Found.{IsFound, IsLocated, IsNthFound, IsNthLocated, Test, passes};

use crate::standing::byte_at;
use crate::statement::start_past;
use gs_text::{Piece, Style, TextErr, pieces};
use std::alloc::{AllocError, Global};

/// What is looked for: a test of the piece at a place, in a statement that begins at a place.
pub trait Sought {
    ghost test: { Self → Test };

    /// Whether the piece is sought.
    fn is_at(&self, bytes: &[u8], pieces: &[Piece], start: usize, at: usize) -> bool
        requires inside { All (LiesIn (length bytes.now)) pieces.now }
        requires few { length pieces.now ≤ max_text }
        requires start { start ≤ at }
        requires at { at ≤ length pieces.now }
        ensures { result ≡ test self.now bytes.now pieces.now start at };
}

/// The place of the first piece that is sought.
pub fn first_of<S: Sought>(
    style: Style,
    bytes: &[u8],
    pieces: &[Piece],
    sought: &S,
) -> Option<usize>
    requires inside { All (LiesIn (length bytes.now)) pieces.now }
    requires few { length pieces.now ≤ max_text }
    ensures { IsFound (passes (S.test sought.now) style bytes.now pieces.now) (length pieces.now) result }
{
    let mut start = 0;
    for at in 0..pieces.len() {
        if sought.is_at(bytes, pieces, start, at) {
            return Some(at);
        }
        start = start_past(style, bytes, pieces, start, at);
    }
    None
}

/// The byte at which the first piece of a text begins that is sought.
pub fn locate<S: Sought>(
    alloc: Global,
    style: Style,
    bytes: &[u8],
    sought: &S,
) -> Result<Option<u32>, AllocError>
    requires { length bytes.now ≤ max_text }
    ensures { IfOk result (IsLocated (S.test sought.now) style bytes.now) }
{
    match pieces(alloc, style, bytes) {
        Ok(found) => match first_of(style, bytes, found.as_slice(), sought) {
            Some(at) => Ok(Some(byte_at(found.as_slice(), at))),
            None => Ok(None),
        },
        Err(TextErr::Mem) => Err(AllocError),
        Err(_) => Ok(None),
    }
}

/// The place of the piece that is sought with `n` others before it.
pub fn nth_of<S: Sought>(
    style: Style,
    bytes: &[u8],
    pieces: &[Piece],
    sought: &S,
    n: usize,
) -> Option<usize>
    requires inside { All (LiesIn (length bytes.now)) pieces.now }
    requires few { length pieces.now ≤ max_text }
    ensures { IsNthFound (passes (S.test sought.now) style bytes.now pieces.now) n (length pieces.now) result }
{
    let mut start = 0;
    let mut before = 0;
    for at in 0..pieces.len() {
        if sought.is_at(bytes, pieces, start, at) {
            if before == n {
                return Some(at);
            }
            before += 1;
        }
        start = start_past(style, bytes, pieces, start, at);
    }
    None
}

/// The byte at which the piece of a text begins that is sought with `n` others before it.
pub fn locate_nth<S: Sought>(
    alloc: Global,
    style: Style,
    bytes: &[u8],
    sought: &S,
    n: usize,
) -> Result<Option<u32>, AllocError>
    requires { length bytes.now ≤ max_text }
    ensures { IfOk result (IsNthLocated (S.test sought.now) n style bytes.now) }
{
    match pieces(alloc, style, bytes) {
        Ok(found) => match nth_of(style, bytes, found.as_slice(), sought, n) {
            Some(at) => Ok(Some(byte_at(found.as_slice(), at))),
            None => Ok(None),
        },
        Err(TextErr::Mem) => Err(AllocError),
        Err(_) => Ok(None),
    }
}
