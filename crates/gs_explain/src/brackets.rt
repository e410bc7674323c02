//! The pieces of a text by their number, and what is open where the pieces end.
ghost use Rattle.std.specs.Prelude.{◌≡◌, ℕ, List, ◌≤◌, ◌<◌, ◌+◌, ◌^◌, IfOk, IfSome, Ok, length, MatchOption, if◌then◌else◌};
ghost use Rattle.std.specs.List.{All};
ghost use Rattle.gs_text.specs.Bytes.{max_text};
ghost use Rattle.gs_text.specs.Cut.{pieces};
ghost use Rattle.gs_text.specs.Pieces.{LiesIn};
ghost use Rattle.gs_text.specs.declared.kinds.Piece.{Piece};
ghost use Rattle.gs_explain.specs.Pieces.{IsClosedFrom, IsInnermost, closes, closes_by, end_of, opens, opens_by};

use gs_quantity::Mem;
use gs_text::{Kind, Piece, Style, TextErr, pieces};
use std::alloc::Global;

/// The pieces of a text, or nothing where it has a fault.
pub(crate) fn pieces_of(
    alloc: Global,
    style: Style,
    bytes: &[u8],
) -> Result<Option<Vec<Piece>>, Mem>
    requires { length bytes.now ≤ max_text }
    ensures cut { IfOk result (λ o. MatchOption o ((ps : List Piece) → pieces style bytes.now ≡ Ok ps → ⊥) (λ v. pieces style bytes.now ≡ Ok v.items)) }
    ensures inside { IfOk result (λ o. IfSome o (λ v. All (LiesIn (length bytes.now)) v.items)) }
{
    match pieces(alloc, style, bytes) {
        Ok(found) => Ok(Some(found)),
        Err(TextErr::Mem) => Err(Mem),
        Err(TextErr::OpenString { .. }) => Ok(None),
        Err(TextErr::OpenComment { .. }) => Ok(None),
    }
}

fn opens_by(kind: Kind, byte: u8) -> bool
    ensures { result ≡ opens_by kind byte }
{
    match kind {
        Kind::Mark => byte == b'(' || byte == b'{',
        Kind::Word | Kind::Escaped | Kind::Text => false,
    }
}

fn closes_by(kind: Kind, byte: u8) -> bool
    ensures { result ≡ closes_by kind byte }
{
    match kind {
        Kind::Mark => byte == b')' || byte == b'}',
        Kind::Word | Kind::Escaped | Kind::Text => false,
    }
}

/// Whether a piece is an opening parenthesis or brace.
fn opens(bytes: &[u8], piece: &Piece) -> bool
    requires { LiesIn (length bytes.now) piece.now }
    ensures { result ≡ opens bytes.now piece.now }
{
    opens_by(piece.kind, bytes[piece.from as usize])
}

/// Whether a piece is a closing parenthesis or brace.
fn closes(bytes: &[u8], piece: &Piece) -> bool
    requires { LiesIn (length bytes.now) piece.now }
    ensures { result ≡ closes bytes.now piece.now }
{
    closes_by(piece.kind, bytes[piece.from as usize])
}

/// The count, and one more where there is one more.
fn tally(count: usize, one: bool) -> usize
    requires { count < 2 ^ 63 }
    ensures value { result ≡ (if one then 1 else 0) + count }
    ensures within { result ≤ count + 1 }
{
    if one { count + 1 } else { count }
}

/// The number of the innermost bracket that is open where the pieces end.
pub(crate) fn innermost(bytes: &[u8], found: &[Piece]) -> Option<usize>
    requires { All (LiesIn (length bytes.now)) found.now }
    ensures { MatchOption result ((i : ℕ) → IsClosedFrom bytes.now found.now i) (λ i. IsInnermost bytes.now found.now i) }
{
    let mut open = 0usize;
    let mut closed = 0usize;
    let mut i = found.len();
    while i > 0 {
        i -= 1;
        let piece = &found[i];
        open = tally(open, opens(bytes, piece));
        closed = tally(closed, closes(bytes, piece));
        if open > closed {
            return Some(i);
        }
    }
    None
}

/// The byte past the last piece.
pub(crate) fn end_of(bytes: &[u8], found: &[Piece]) -> usize
    requires { All (LiesIn (length bytes.now)) found.now }
    ensures value { result ≡ end_of found.now }
    ensures within { result ≤ length bytes.now }
{
    match found.last() {
        Some(piece) => piece.to as usize,
        None => 0,
    }
}
