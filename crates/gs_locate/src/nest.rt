//! The groups of a Liberty text around a piece.

ghost use Rattle.std.specs.Prelude.{◌≡◌, ◌<◌, ◌≤◌, ◌+◌, length};
ghost use Rattle.std.specs.List.{All};
ghost use Rattle.gs_text.specs.Bytes.{max_text};
ghost use Rattle.gs_text.specs.Pieces.{LiesIn};
ghost use Rattle.gs_locate.specs.Nest.{IsNested, depth_past, item_past, nest_of, nest_past};

use crate::standing::is_mark;
use crate::statement::ends;
use gs_text::{Piece, Style};

/// The groups around a piece. Items are told by the places of the pieces with which they begin.
#[derive(Clone, Copy, Debug, PartialEq, Eq)]
pub struct Nest {
    /// How many groups are open.
    pub depth: usize,
    /// The latest item in the library's group, as a cell.
    pub cell: usize,
    /// The latest item in a group of the library, as a pin of a cell.
    pub part: usize,
    /// The latest item in a group in such a group, as a `timing` group.
    pub detail: usize,
}

fn depth_past(bytes: &[u8], pieces: &[Piece], depth: usize, at: usize) -> usize
    requires inside { All (LiesIn (length bytes.now)) pieces.now }
    requires depth { depth ≤ max_text }
    ensures value { result ≡ depth_past bytes.now pieces.now depth at }
    ensures within { result ≤ depth + 1 }
{
    if is_mark(b'{', bytes, pieces, at) {
        depth + 1
    } else if is_mark(b'}', bytes, pieces, at) {
        depth.saturating_sub(1)
    } else {
        depth
    }
}

fn item_past(ended: bool, deep: usize, depth: usize, old: usize, at: usize) -> usize
    requires at { at < max_text }
    requires old { old ≤ at }
    ensures value { result ≡ item_past ended deep depth old at }
    ensures within { result ≤ at + 1 }
{
    if ended && deep == depth { at + 1 } else { old }
}

/// The groups around the next piece, by those around the piece at a place.
fn nest_past(bytes: &[u8], pieces: &[Piece], nest: Nest, at: usize) -> Nest
    requires inside { All (LiesIn (length bytes.now)) pieces.now }
    requires few { length pieces.now ≤ max_text }
    requires at { at < length pieces.now }
    requires nest { IsNested at nest }
    ensures value { result ≡ nest_past bytes.now pieces.now nest at }
    ensures within { IsNested (at + 1) result }
{
    let ended = ends(Style::Lib, bytes, pieces, at);
    let depth = depth_past(bytes, pieces, nest.depth, at);
    Nest {
        depth,
        cell: item_past(ended, depth, 1, nest.cell, at),
        part: item_past(ended, depth, 2, nest.part, at),
        detail: item_past(ended, depth, 3, nest.detail, at),
    }
}

/// The groups around the next piece, where these are those around the piece at a place.
pub fn nest_on(bytes: &[u8], pieces: &[Piece], nest: Nest, at: usize) -> Nest
    requires inside { All (LiesIn (length bytes.now)) pieces.now }
    requires few { length pieces.now ≤ max_text }
    requires at { at < length pieces.now }
    requires nest { IsNested at nest }
    requires is { nest ≡ nest_of bytes.now pieces.now at }
    ensures is { result ≡ nest_of bytes.now pieces.now (at + 1) }
    ensures within { IsNested (at + 1) result }
{
    nest_past(bytes, pieces, nest, at)
}
