//! The line of a place, with a mark under the place.
ghost use Rattle.std.specs.Prelude.{◌≡◌, ◌≤◌, IfOk, length, map, min, decimal};
ghost use Rattle.gs_explain.specs.Located.{excerpt, located, mark, shown, shown_from, shown_to, under, unplaced};

use crate::joined::joined;
use crate::place::{bytes_after, bytes_before, column_of, line_of};
use gs_quantity::Mem;
use itoa::Buffer;
use std::alloc::Global;

/// How many bytes of a line are shown at most before the place, and how many from there on.
pub const MOST: usize = 60;

fn shown(byte: u8) -> u8
    ensures { result ≡ shown byte }
{
    if byte == b'\t' {
        b'\t'
    } else if byte < b' ' || byte == 127 {
        b' '
    } else {
        byte
    }
}

fn under(byte: u8) -> u8
    ensures { result ≡ under byte }
{
    if byte == b'\t' { b'\t' } else { b' ' }
}

/// The bytes as they are shown.
pub(crate) fn shown_all(alloc: Global, bytes: &[u8]) -> Result<Vec<u8>, Mem>
    ensures { IfOk result (λ v. v.items ≡ map shown bytes.now) }
{
    Ok(bytes.iter().map(|b| shown(*b)).collect(alloc)?)
}

/// What stands under the bytes.
fn under_all(alloc: Global, bytes: &[u8]) -> Result<Vec<u8>, Mem>
    ensures { IfOk result (λ v. v.items ≡ map under bytes.now) }
{
    Ok(bytes.iter().map(|b| under(*b)).collect(alloc)?)
}

/// The first byte of the line that is shown.
fn shown_from(bytes: &[u8], at: usize) -> usize
    requires { at ≤ length bytes.now }
    ensures value { result ≡ shown_from bytes.now at }
    ensures within { result ≤ at }
{
    at - bytes_before(bytes, at).min(MOST)
}

/// The byte past the last of the line that is shown.
fn shown_to(bytes: &[u8], at: usize) -> usize
    requires { at ≤ length bytes.now }
    ensures value { result ≡ shown_to bytes.now at }
    ensures from { at ≤ result }
    ensures within { result ≤ length bytes.now }
{
    at + bytes_after(bytes, at).min(MOST)
}

/// The line of a place, cut around the place where it is long.
fn excerpt(alloc: Global, bytes: &[u8], at: usize) -> Result<Vec<u8>, Mem>
    requires { at ≤ length bytes.now }
    ensures { IfOk result (λ v. v.items ≡ excerpt bytes.now at) }
{
    shown_all(alloc, &bytes[shown_from(bytes, at)..shown_to(bytes, at)])
}

/// A mark that stands under the place.
fn mark(alloc: Global, bytes: &[u8], at: usize) -> Result<Vec<u8>, Mem>
    requires { at ≤ length bytes.now }
    ensures { IfOk result (λ v. v.items ≡ mark bytes.now at) }
{
    let before = under_all(alloc, &bytes[shown_from(bytes, at)..at])?;
    joined(alloc, &[before.as_slice(), b"^"])
}

/// A file, and what is said of it.
pub(crate) fn unplaced(alloc: Global, name: &[u8], what: &[u8]) -> Result<Vec<u8>, Mem>
    ensures { IfOk result (λ v. v.items ≡ unplaced name.now what.now) }
{
    joined(alloc, &[name, b": ", what, b"\n"])
}

/// A place of a file's bytes, what is said of it, its line, and the mark.
pub(crate) fn located(
    alloc: Global,
    name: &[u8],
    bytes: &[u8],
    at: usize,
    what: &[u8],
) -> Result<Vec<u8>, Mem>
    requires { at ≤ length bytes.now }
    ensures { IfOk result (λ v. v.items ≡ located name.now bytes.now at what.now) }
{
    let mut line = Buffer::new();
    let mut column = Buffer::new();
    let excerpt = excerpt(alloc, bytes, at)?;
    let mark = mark(alloc, bytes, at)?;
    joined(
        alloc,
        &[
            name,
            b":",
            line.format(line_of(bytes, at)).as_bytes(),
            b":",
            column.format(column_of(bytes, at)).as_bytes(),
            b": ",
            what,
            b"\n",
            excerpt.as_slice(),
            b"\n",
            mark.as_slice(),
            b"\n",
        ],
    )
}
