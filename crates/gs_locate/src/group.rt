//! The search for a piece by the groups around it.

ghost use Rattle.std.specs.Prelude.{◌≡◌, ◌<◌, ◌≤◌, ℕ, Bool, List, drop, length, IfOk};
ghost use Rattle.std.specs.List.{All};
ghost use Rattle.gs_text.specs.Bytes.{max_text};
ghost use Rattle.gs_text.specs.Pieces.{LiesIn};
ghost use Rattle.gs_text.specs.declared.kinds.Style.TheVariants.{Lib};
ghost use Rattle.gs_locate.specs.Found.{IsNthFound, LocatesNth};
ghost use Rattle.gs_locate.specs.Liberty.{NestTest, calls, has_arg, is_in_cell, is_in_pin, is_in_some_pin, nests, opens_group};
ghost use Rattle.gs_locate.specs.Nest.{IsNested};

use crate::nest::{Nest, nest_on};
use crate::standing::{byte_at, is_mark, is_name, is_word};
use gs_text::{Piece, Style, TextErr, pieces};
use std::alloc::{AllocError, Global};

/// What is looked for in a library: a test of the piece at a place, by the groups around it.
pub trait Nested {
    ghost test: { Self → NestTest };

    /// Whether the piece is sought.
    fn is_at(&self, bytes: &[u8], pieces: &[Piece], nest: Nest, at: usize) -> bool
        requires inside { All (LiesIn (length bytes.now)) pieces.now }
        requires few { length pieces.now ≤ max_text }
        requires nest { IsNested at nest }
        requires at { at < length pieces.now }
        ensures { result ≡ test self.now bytes.now pieces.now nest at };
}

/// The place of the piece that is sought with `n` others before it.
fn nth_of<S: Nested>(bytes: &[u8], pieces: &[Piece], sought: &S, n: usize) -> Option<usize>
    requires inside { All (LiesIn (length bytes.now)) pieces.now }
    requires few { length pieces.now ≤ max_text }
    ensures { IsNthFound (nests (S.test sought.now) bytes.now pieces.now) n (length pieces.now) result }
{
    let mut nest = Nest {
        depth: 0,
        cell: 0,
        part: 0,
        detail: 0,
    };
    let mut before = 0;
    for at in 0..pieces.len() {
        if sought.is_at(bytes, pieces, nest, at) {
            if before == n {
                return Some(at);
            }
            before += 1;
        }
        nest = nest_on(bytes, pieces, nest, at);
    }
    None
}

/// The byte at which the piece of a text begins that is sought with `n` others before it.
pub fn locate_in<S: Nested>(
    alloc: Global,
    bytes: &[u8],
    sought: &S,
    n: usize,
) -> Result<Option<u32>, AllocError>
    requires { length bytes.now ≤ max_text }
    ensures { IfOk result (LocatesNth (nests (S.test sought.now) bytes.now) n Lib bytes.now) }
{
    match pieces(alloc, Style::Lib, bytes) {
        Ok(found) => match nth_of(bytes, found.as_slice(), sought, n) {
            Some(at) => Ok(Some(byte_at(found.as_slice(), at))),
            None => Ok(None),
        },
        Err(TextErr::Mem) => Err(AllocError),
        Err(_) => Ok(None),
    }
}

/// Whether `word (` stands at a place.
pub fn calls(word: &[u8], bytes: &[u8], pieces: &[Piece], at: usize) -> bool
    requires inside { All (LiesIn (length bytes.now)) pieces.now }
    requires at { at ≤ max_text }
    ensures { result ≡ calls word.now bytes.now pieces.now at }
{
    is_word(word, bytes, pieces, at) && is_mark(b'(', bytes, pieces, at + 1)
}

/// Whether the first closing parenthesis of the pieces from a place on closes the args of a group.
pub fn opens_group(bytes: &[u8], pieces: &[Piece], from: usize) -> bool
    requires inside { All (LiesIn (length bytes.now)) pieces.now }
    requires few { length pieces.now ≤ max_text }
    ensures { result ≡ opens_group bytes.now (drop from pieces.now) }
{
    let mut at = from;
    while at < pieces.len() {
        if is_mark(b')', bytes, pieces, at) {
            return is_mark(b'{', bytes, pieces, at + 1);
        }
        at += 1;
    }
    false
}

/// Whether the name is among the pieces from a place on before their first closing parenthesis.
pub fn has_arg(name: &[u8], bytes: &[u8], pieces: &[Piece], from: usize) -> bool
    requires inside { All (LiesIn (length bytes.now)) pieces.now }
    requires few { length pieces.now ≤ max_text }
    ensures { result ≡ has_arg name.now bytes.now (drop from pieces.now) }
{
    let mut at = from;
    while at < pieces.len() {
        if is_mark(b')', bytes, pieces, at) {
            return false;
        }
        if is_name(name, bytes, pieces, at) {
            return true;
        }
        at += 1;
    }
    false
}

/// Whether a cell of the name is around a piece.
pub fn is_in_cell(cell: &[u8], bytes: &[u8], pieces: &[Piece], nest: Nest) -> bool
    requires inside { All (LiesIn (length bytes.now)) pieces.now }
    requires nest { IsNested max_text nest }
    ensures { result ≡ is_in_cell cell.now bytes.now pieces.now nest }
{
    calls(b"cell", bytes, pieces, nest.cell) && is_name(cell, bytes, pieces, nest.cell + 2)
}

/// Whether a pin of the cell is around a piece.
pub fn is_in_some_pin(cell: &[u8], bytes: &[u8], pieces: &[Piece], nest: Nest) -> bool
    requires inside { All (LiesIn (length bytes.now)) pieces.now }
    requires nest { IsNested max_text nest }
    ensures { result ≡ is_in_some_pin cell.now bytes.now pieces.now nest }
{
    calls(b"pin", bytes, pieces, nest.part) && is_in_cell(cell, bytes, pieces, nest)
}

/// Whether the pin of the name is around a piece.
pub fn is_in_pin(cell: &[u8], pin: &[u8], bytes: &[u8], pieces: &[Piece], nest: Nest) -> bool
    requires inside { All (LiesIn (length bytes.now)) pieces.now }
    requires few { length pieces.now ≤ max_text }
    requires nest { IsNested max_text nest }
    ensures { result ≡ is_in_pin cell.now pin.now bytes.now pieces.now nest }
{
    is_in_some_pin(cell, bytes, pieces, nest) && has_arg(pin, bytes, pieces, nest.part + 2)
}
