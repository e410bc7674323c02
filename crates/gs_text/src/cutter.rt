//! Cutting a text one piece at a time.
#![tactic(auto)]

ghost use Rattle.std.specs.Prelude.{◌≡◌, Bool, List, ℕ, ◌+◌, ◌^◌, ◌<◌, ◌≤◌, ◌==◌, ◌-◌, length, drop, take, slice_index};
ghost use Rattle.std.specs.List.{count_by};
ghost use Rattle.gs_text.specs.Before.{brace_by};
ghost use Rattle.gs_text.specs.Bytes.{max_text};
ghost use Rattle.gs_text.specs.Cut.{first_after, line_after, line_of, piece_at};
ghost use Rattle.gs_text.specs.Cutter.{Agrees, Answers, IsPlace, fault_of, left, past_comment, past_piece, past_white, start};
ghost use Rattle.gs_text.specs.Faults.{IsDecided};
ghost use Rattle.gs_text.specs.Front.{FitsIn, front};
ghost use Rattle.gs_text.specs.Pieces.{IsOneLine, LiesIn};
ghost use Rattle.gs_text.specs.declared.kinds.Piece.{Piece};

use crate::kinds::{Kind, Piece, Style, TextErr};
use crate::liberty::begins_liberty;
use crate::scan::Front;
use crate::sdc::begins_sdc;
use crate::spef::begins_spef;
use crate::verilog::begins_verilog;

/// A place between pieces: where it is, and what of the text before it says what comes next.
#[derive(Clone, Copy, Debug, PartialEq, Eq)]
pub struct Place {
    /// How many bytes stand before it.
    pub at: usize,
    /// The line at the place, from 1.
    pub line: u32,
    /// The first line of the command there, which matters in styles that have commands.
    pub first: u32,
    /// Whether the latest brace among the pieces before is an opening one.
    pub braced: bool,
    /// The line of the latest piece before, 0 where there is none.
    pub latest: u32,
}

/// What comes next in a text.
pub enum Next {
    /// A piece, and the place past it.
    Piece(Piece, Place),
    /// No more piece.
    End,
    /// The text's fault, which is never want of memory.
    Fault(TextErr),
}

impl Place {
    /// The place before the first byte of a text.
    pub fn start() -> Place
        ensures { result ≡ start }
    {
        Place {
            at: 0,
            line: 1,
            first: 1,
            braced: false,
            latest: 0,
        }
    }

    /// The place past a byte of white.
    fn past_white(self, byte: u8) -> Place
        requires at { self.at < 2 ^ 31 }
        requires line { self.line < 2 ^ 31 }
        ensures { result ≡ past_white byte self }
    {
        Place {
            at: self.at + 1,
            line: line_after(byte, self.line),
            first: first_after(byte, self.line, self.first),
            braced: self.braced,
            latest: self.latest,
        }
    }
}

/// The line after `byte`.
fn line_after(byte: u8, line: u32) -> u32
    requires { line < 2 ^ 31 }
    ensures value { result ≡ line_after byte line }
    ensures within { result ≤ line + 1 }
{
    if byte == b'\n' { line + 1 } else { line }
}

/// The first line of the command that is read past a byte of white on the line.
fn first_after(byte: u8, line: u32, first: u32) -> u32
    requires { line < 2 ^ 31 }
    ensures { result ≡ first_after byte line first }
{
    if byte == b'\n' { line + 1 } else { first }
}

/// The line that a piece is given.
fn line_of(style: Style, line: u32, first: u32) -> u32
    ensures { result ≡ line_of style line first }
{
    match style {
        Style::Verilog | Style::Lib | Style::Spef => line,
        Style::Sdc => first,
    }
}

/// Whether braces are open after a piece that begins with `byte`.
fn brace_by(kind: Kind, byte: u8, braced: bool) -> bool
    ensures { result ≡ brace_by kind byte braced }
{
    match kind {
        Kind::Word | Kind::Escaped | Kind::Text => braced,
        Kind::Mark => {
            if byte == b'{' {
                true
            } else if byte == b'}' {
                false
            } else {
                braced
            }
        }
    }
}

/// How many newlines are among these bytes.
fn line_breaks(bytes: &[u8]) -> usize
    ensures value { result ≡ count_by (λ c. c == 10) bytes.now }
    ensures within { result ≤ length bytes.now }
{
    bytes.iter().filter(|b| **b == b'\n').count()
}

/// How many newlines are in a piece of this kind. Only a string is looked at, since no other piece has one.
fn piece_breaks(kind: Kind, bytes: &[u8]) -> usize
    requires { IsOneLine kind bytes.now }
    ensures value { result ≡ count_by (λ c. c == 10) bytes.now }
    ensures within { result ≤ length bytes.now }
{
    match kind {
        Kind::Word | Kind::Escaped | Kind::Mark => 0,
        Kind::Text => line_breaks(bytes),
    }
}

/// What begins with `byte` before `rest` in a text of the style.
fn begins(style: Style, place: Place, byte: u8, rest: &[u8]) -> Front
    ensures value { result ≡ front style place.braced (place.latest == place.first) byte rest.now }
    ensures fits { FitsIn (length rest.now + 1) result }
{
    match style {
        Style::Verilog => begins_verilog(byte, rest),
        Style::Lib => begins_liberty(byte, rest),
        Style::Spef => begins_spef(byte, rest),
        Style::Sdc => begins_sdc(place.braced, place.latest == place.first, byte, rest),
    }
}

/// The piece of `len` bytes that begins at the place.
fn piece_at(style: Style, place: Place, kind: Kind, len: usize) -> Piece
    requires { place.at + len ≤ max_text }
    ensures { result ≡ piece_at kind place.at len (line_of style place.line place.first) }
{
    Piece {
        kind,
        from: place.at as u32,
        to: (place.at + len) as u32,
        line: line_of(style, place.line, place.first),
    }
}

/// The place past a piece that begins at `place`.
fn past_piece(bytes: &[u8], place: Place, piece: Piece) -> Place
    requires small { length bytes.now ≤ max_text }
    requires line { place.line ≤ max_text + 1 }
    requires inside { LiesIn (length bytes.now) piece }
    requires one_line { IsOneLine piece.kind (take (piece.to - piece.from) (drop piece.from bytes.now)) }
    ensures value { result ≡ past_piece bytes.now piece place }
    ensures within { result.line + piece.from ≤ place.line + piece.to }
{
    let from = piece.from as usize;
    let to = piece.to as usize;
    Place {
        at: to,
        line: place.line + piece_breaks(piece.kind, &bytes[from..to]) as u32,
        first: place.first,
        braced: brace_by(piece.kind, bytes[from], place.braced),
        latest: piece.line,
    }
}

/// The place past a comment that ends before byte `to`.
fn past_comment(bytes: &[u8], place: Place, to: usize) -> Place
    requires small { length bytes.now ≤ max_text }
    requires line { place.line ≤ max_text + 1 }
    requires from { place.at ≤ to }
    requires to { to ≤ length bytes.now }
    ensures value { result ≡ past_comment bytes.now to place }
    ensures within { result.line + place.at ≤ place.line + to }
{
    Place {
        at: to,
        line: place.line + line_breaks(&bytes[place.at..to]) as u32,
        first: place.first,
        braced: place.braced,
        latest: place.latest,
    }
}

/// What comes next from the place, where `place` is the start or a place that this call answered for the same text. It
/// takes no memory.
// inlined, so that the loop of each reader knows its style and no place is copied
#[inline(always)]
pub fn next_piece(style: Style, bytes: &[u8], place: Place) -> Next
    requires small { length bytes.now ≤ max_text }
    requires place { IsPlace bytes.now place }
    ensures next { Answers style bytes.now place result }
    // The fault of the whole text is that of which its bytes have the cause.
    ensures fault { IsDecided style bytes.now }
{
    let mut here = place;
    while here.at < bytes.len() {
        match begins(style, here, bytes[here.at], &bytes[here.at + 1..]) {
            Front::Gap => here = here.past_white(bytes[here.at]),
            Front::Found(kind, len) => {
                let piece = piece_at(style, here, kind, len);
                return Next::Piece(piece, past_piece(bytes, here, piece));
            }
            Front::Passed(len) => here = past_comment(bytes, here, here.at + len),
            Front::OpenString => return Next::Fault(TextErr::OpenString { at: here.at as u32 }),
            Front::OpenComment => return Next::Fault(TextErr::OpenComment { at: here.at as u32 }),
        }
    }
    Next::End
}

/// The fault of what is left of the text from the place on, if there is one. It takes no memory.
pub fn fault_from(style: Style, bytes: &[u8], place: Place) -> Option<TextErr>
    requires small { length bytes.now ≤ max_text }
    requires place { IsPlace bytes.now place }
    ensures value { (before : List Piece) → Agrees bytes.now before place → result ≡ fault_of (left style bytes.now before place) }
    ensures fault { IsDecided style bytes.now }
{
    let mut here = place;
    loop {
        match next_piece(style, bytes, here) {
            Next::Piece(_, after) => here = after,
            Next::End => return None,
            Next::Fault(error) => return Some(error),
        }
    }
}
