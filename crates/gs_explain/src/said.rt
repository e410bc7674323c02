//! What is said of pieces.
ghost use Rattle.std.specs.Prelude.{◌≡◌, IfOk, codes, length};
ghost use Rattle.std.specs.List.{All};
ghost use Rattle.gs_text.specs.Pieces.{LiesIn};
ghost use Rattle.gs_explain.specs.Said.{IsEarly, of_piece, open_still, quoted, unended, unexpected};

use crate::brackets::innermost;
use crate::excerpt::shown_all;
use crate::expected::names;
use crate::form::{Form, Wanted};
use crate::joined::joined;
use gs_quantity::Mem;
use gs_text::Piece;
use itoa::Buffer;
use std::alloc::Global;

/// How many bytes of a piece are quoted at most.
pub const QUOTED: usize = 40;

/// A piece between quotes.
fn quoted(alloc: Global, bytes: &[u8], piece: &Piece) -> Result<Vec<u8>, Mem>
    requires { LiesIn (length bytes.now) piece.now }
    ensures { IfOk result (λ v. v.items ≡ quoted bytes.now piece.now) }
{
    let from = piece.from as usize;
    let to = (piece.to as usize).min(from + QUOTED);
    let shown = shown_all(alloc, &bytes[from..to])?;
    joined(alloc, &[b"'", shown.as_slice(), b"'"])
}

/// A piece, and what is said of it.
pub(crate) fn of_piece(
    alloc: Global,
    bytes: &[u8],
    piece: &Piece,
    what: &str,
) -> Result<Vec<u8>, Mem>
    requires { LiesIn (length bytes.now) piece.now }
    ensures { IfOk result (λ v. v.items ≡ of_piece bytes.now piece.now what.now) }
{
    let quoted = quoted(alloc, bytes, piece)?;
    joined(alloc, &[quoted.as_slice(), b" ", what.as_bytes()])
}

/// A piece in whose place these could stand.
pub(crate) fn unexpected(
    alloc: Global,
    bytes: &[u8],
    piece: &Piece,
    those: &[Wanted],
) -> Result<Vec<u8>, Mem>
    requires { LiesIn (length bytes.now) piece.now }
    ensures { IfOk result (λ v. v.items ≡ unexpected bytes.now piece.now those.now) }
{
    let quoted = quoted(alloc, bytes, piece)?;
    if those.is_empty() {
        return joined(alloc, &[b"unexpected ", quoted.as_slice()]);
    }
    let names = names(alloc, those)?;
    joined(
        alloc,
        &[
            b"expected ",
            names.as_slice(),
            b" before ",
            quoted.as_slice(),
        ],
    )
}

/// A piece that is open where the pieces end, and its line.
fn open_still(alloc: Global, bytes: &[u8], piece: &Piece, what: &str) -> Result<Vec<u8>, Mem>
    requires { LiesIn (length bytes.now) piece.now }
    ensures { IfOk result (λ v. v.items ≡ open_still bytes.now piece.now what.now) }
{
    let mut line = Buffer::new();
    let quoted = quoted(alloc, bytes, piece)?;
    joined(
        alloc,
        &[
            b"the text ends here, and ",
            quoted.as_slice(),
            b" of line ",
            line.format(piece.line).as_bytes(),
            b" ",
            what.as_bytes(),
        ],
    )
}

/// What is said where no bracket is open.
fn unended(alloc: Global, form: Form, bytes: &[u8], found: &[Piece]) -> Result<Vec<u8>, Mem>
    requires { All (LiesIn (length bytes.now)) found.now }
    ensures { IfOk result (λ v. v.items ≡ unended form bytes.now found.now) }
{
    if found.is_empty() {
        return joined(alloc, &[b"the text has nothing but white and comments"]);
    }
    match form {
        Form::Netlist => open_still(alloc, bytes, &found[0], "has no 'endmodule'"),
        Form::Liberty => open_still(alloc, bytes, &found[0], "has no '{'"),
    }
}

/// What is said of a text of these pieces that ends early.
pub(crate) fn early(
    alloc: Global,
    form: Form,
    bytes: &[u8],
    found: &[Piece],
) -> Result<Vec<u8>, Mem>
    requires { All (LiesIn (length bytes.now)) found.now }
    ensures { IfOk result (λ v. IsEarly form bytes.now found.now v.items) }
{
    match innermost(bytes, found) {
        Some(i) => open_still(alloc, bytes, &found[i], "is not closed"),
        None => unended(alloc, form, bytes, found),
    }
}
