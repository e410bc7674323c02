//! Reading SPEF.
#![tactic(auto)]

ghost use Rattle.std.specs.Prelude.{◌≡◌, ◌≤◌, length, IfOk, IfErr};
ghost use Rattle.std.specs.List.{All};
ghost use Rattle.gs_grammar.specs.Answers.{Answers, IsDecided, IsExact, IsOnly};
ghost use Rattle.gs_lines.specs.Lines.{line_count};
ghost use Rattle.gs_spef.specs.Lines.{text_lines, worded_lines};
ghost use Rattle.gs_spef.specs.Reader.{IsReader, finished, reading, refusal_of, refused_at};
ghost use Rattle.gs_spef.specs.Refusal.{HasCause};
ghost use Rattle.gs_spef.specs.Spef.{IsSpef};
ghost use Rattle.gs_text.specs.Bytes.{max_text};
ghost use Rattle.gs_text.specs.Pieces.{LiesIn};

use crate::error::{Fault, SpefErr, Stop};
use crate::format::is_open;
use crate::reader::Reader;
use crate::wires::Wires;
use gs_lines::{line_count, run_of};
use gs_text::{Piece, Style, pieces};
use std::alloc::Global;

/// The refusal of a fault at a line.
fn refusal_of(i: u32, fault: Fault) -> SpefErr
    ensures { result ≡ refusal_of i fault }
{
    match fault {
        Fault::BadLine => SpefErr::BadLine { i },
        Fault::Distributed => SpefErr::Distributed { i },
        Fault::UnknownIndex => SpefErr::UnknownIndex { i },
        Fault::TwoNets => SpefErr::TwoNets { i },
    }
}

/// The refusal of a line at which the reader stops.
fn refused_at(i: u32, stop: Stop) -> SpefErr
    ensures { result ≡ refused_at i stop }
{
    match stop {
        Stop::At(fault) => refusal_of(i, fault),
        Stop::Mem => SpefErr::Mem,
    }
}

/// The wires of a text that ends here, and whose last line has the number `last`.
fn finish(reader: Reader, last: u32) -> Result<Wires, SpefErr>
    requires { IsReader reader }
    ensures { result ≡ finished last reader }
{
    if is_open(reader.place) {
        return Err(SpefErr::BadLine { i: last });
    }
    let Reader {
        place: _,
        unit: _,
        names: _,
        nets: _,
        wires,
    } = reader;
    Ok(Wires::from_vec(wires))
}

/// Reads the pieces of a text whose last line has the number `last`.
fn read_pieces(alloc: Global, bytes: &[u8], pieces: &[Piece], last: u32) -> Result<Wires, SpefErr>
    requires few { length pieces.now ≤ max_text }
    requires inside { All (LiesIn (length bytes.now)) pieces.now }
    ensures { Answers SpefErr.Mem (reading last (worded_lines bytes.now pieces.now)) result }
{
    let mut reader = Reader::new(alloc, pieces.len() / 64 + 1)?;
    let mut at = 0;
    while at < pieces.len() {
        let number = pieces[at].line;
        let count = run_of(number, &pieces[at..]);
        match reader.take(alloc, bytes, &pieces[at..at + count], number, last) {
            Ok(()) => at += count,
            Err(stop) => return Err(refused_at(number, stop)),
        }
    }
    finish(reader, last)
}

/// Reads a text by its pieces.
fn read_text(alloc: Global, bytes: &[u8]) -> Result<Wires, SpefErr>
    requires { length bytes.now ≤ max_text }
    ensures { Answers SpefErr.Mem (reading (line_count bytes.now) (text_lines bytes.now)) result }
{
    match pieces(alloc, Style::Spef, bytes) {
        Ok(found) => read_pieces(alloc, bytes, found.as_slice(), line_count(bytes) as u32),
        Err(_) => Err(SpefErr::Mem),
    }
}

/// Reads SPEF (IEEE 1481-1999), in this project's profile of it: the lumped total of each net.
///
/// # Errors
///
/// The first line at fault decides, and on one line the order is `BadLine`, `Distributed`, `UnknownIndex`, `TwoNets`. A text that
/// ends in a net block is `BadLine` at its last line. `Mem` where memory ran out.
pub fn read_spef(alloc: Global, bytes: &[u8]) -> Result<Wires, SpefErr>
    requires { length bytes.now ≤ max_text }
    // What is read is SPEF, and stands for these wires.
    ensures ok { IfOk result (IsSpef bytes.now) }
    // A text is read as the one list of wires for which it stands, unless memory runs out.
    ensures only { IsOnly SpefErr.Mem (IsSpef bytes.now) result }
    // Each refusal comes only by its cause,
    ensures err { IfErr result (HasCause bytes.now) }
    // and where a cause stands, its refusal comes, unless memory runs out.
    ensures exact { IsExact SpefErr.Mem (HasCause bytes.now) result }
    // Each text is SPEF of this profile, or there is a cause.
    ensures decided { IsDecided SpefErr.Mem (IsSpef bytes.now) (HasCause bytes.now) }
{
    let read = read_text(alloc, bytes);
    read
}
