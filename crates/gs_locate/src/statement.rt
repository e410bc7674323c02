//! Where statements begin and end.

ghost use Rattle.std.specs.Prelude.{◌≡◌, ◌<◌, ◌≤◌, ◌+◌, length, if◌then◌else◌};
ghost use Rattle.std.specs.List.{All};
ghost use Rattle.gs_text.specs.Pieces.{LiesIn};
ghost use Rattle.gs_locate.specs.Statement.{ends};

use crate::standing::{is_mark, line_at};
use gs_text::{Piece, Style};

/// Whether a statement ends with the piece at a place.
pub fn ends(style: Style, bytes: &[u8], pieces: &[Piece], at: usize) -> bool
    requires inside { All (LiesIn (length bytes.now)) pieces.now }
    requires at { at < length pieces.now }
    ensures { result ≡ ends style bytes.now pieces.now at }
{
    match style {
        Style::Verilog => is_mark(b';', bytes, pieces, at),
        Style::Lib => {
            is_mark(b';', bytes, pieces, at)
                || is_mark(b'{', bytes, pieces, at)
                || is_mark(b'}', bytes, pieces, at)
        }
        Style::Spef => line_at(pieces, at) != line_at(pieces, at + 1),
        Style::Sdc => line_at(pieces, at) != line_at(pieces, at + 1),
    }
}

/// Where the statement of the next piece begins, where that of the piece at a place begins at `start`.
pub fn start_past(style: Style, bytes: &[u8], pieces: &[Piece], start: usize, at: usize) -> usize
    requires inside { All (LiesIn (length bytes.now)) pieces.now }
    requires start { start ≤ at }
    requires at { at < length pieces.now }
    ensures value { result ≡ (if ends style bytes.now pieces.now at then at + 1 else start) }
    ensures within { result ≤ at + 1 }
{
    if ends(style, bytes, pieces, at) {
        at + 1
    } else {
        start
    }
}
