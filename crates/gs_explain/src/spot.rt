//! Where a refused text is shown.
ghost use Rattle.std.specs.Prelude.{◌≡◌, ◌≤◌, ◌<◌, ◌^◌, ℕ, IfOk, List, MatchOption, Ok, length};
ghost use Rattle.std.specs.List.{All};
ghost use Rattle.gs_text.specs.Bytes.{max_text};
ghost use Rattle.gs_text.specs.Cut.{pieces};
ghost use Rattle.gs_text.specs.Pieces.{LiesIn};
ghost use Rattle.gs_explain.specs.Located.{located};
ghost use Rattle.gs_explain.specs.Spot.{HasNone, IsEarlyEnd, IsShown, IsTold, IsWrongPiece};
ghost use Rattle.gs_explain.specs.Wanted.{style_of};

use crate::brackets::{end_of, pieces_of};
use crate::excerpt::{located, unplaced};
use crate::expected::wanted_at;
use crate::form::{Form, style_of};
use crate::lines::line_place;
use crate::odd::odd_text;
use crate::said::{early, of_piece, unexpected};
use gs_quantity::Mem;
use gs_text::Piece;
use std::alloc::Global;

/// A place in a text, by what a refusal counts.
#[derive(Clone, Copy, Debug, PartialEq, Eq)]
pub enum Spot {
    /// The byte of this number, from 0.
    AtByte(u32),
    /// The line of this number, from 1.
    AtLine(u32),
    /// The piece of this number, from 0.
    AtPiece(Form, u32),
    /// The piece of this number, with which no text of the form goes on; or the end, where there are just so many pieces.
    Wrong(Form, u32),
    /// No place.
    Nowhere,
}

fn show_byte(
    alloc: Global,
    name: &str,
    what: &str,
    bytes: &[u8],
    at: usize,
) -> Result<Option<Vec<u8>>, Mem>
    requires { at < 2 ^ 32 }
    ensures { IfOk result (λ o. MatchOption o (HasNone (Spot.AtByte at) what.now bytes.now) (λ v. IsShown name.now (Spot.AtByte at) what.now bytes.now v.items)) }
{
    if at > bytes.len() {
        return Ok(None);
    }
    let text = located(alloc, name.as_bytes(), bytes, at, what.as_bytes())?;
    Ok(Some(text))
}

fn show_line(
    alloc: Global,
    name: &str,
    what: &str,
    bytes: &[u8],
    line: usize,
) -> Result<Option<Vec<u8>>, Mem>
    ensures { IfOk result (λ o. MatchOption o (HasNone (Spot.AtLine line) what.now bytes.now) (λ v. IsShown name.now (Spot.AtLine line) what.now bytes.now v.items)) }
{
    match line_place(bytes, line) {
        Some(at) => {
            let text = located(alloc, name.as_bytes(), bytes, at, what.as_bytes())?;
            Ok(Some(text))
        }
        None => Ok(None),
    }
}

/// Piece `i` of those of the text, with what is said of it.
fn show_piece_among(
    alloc: Global,
    name: &str,
    what: &str,
    form: Form,
    bytes: &[u8],
    found: &[Piece],
    i: usize,
) -> Result<Option<Vec<u8>>, Mem>
    requires inside { All (LiesIn (length bytes.now)) found.now }
    requires cut { pieces (style_of form) bytes.now ≡ Ok found.now }
    ensures { IfOk result (λ o. MatchOption o (HasNone (Spot.AtPiece form i) what.now bytes.now) (λ v. IsShown name.now (Spot.AtPiece form i) what.now bytes.now v.items)) }
{
    if i >= found.len() {
        return Ok(None);
    }
    let piece = found[i];
    let said = of_piece(alloc, bytes, &piece, what)?;
    let text = located(
        alloc,
        name.as_bytes(),
        bytes,
        piece.from as usize,
        said.as_slice(),
    )?;
    Ok(Some(text))
}

fn show_piece(
    alloc: Global,
    name: &str,
    what: &str,
    form: Form,
    bytes: &[u8],
    i: usize,
) -> Result<Option<Vec<u8>>, Mem>
    requires { length bytes.now ≤ max_text }
    ensures { IfOk result (λ o. MatchOption o (HasNone (Spot.AtPiece form i) what.now bytes.now) (λ v. IsShown name.now (Spot.AtPiece form i) what.now bytes.now v.items)) }
{
    match pieces_of(alloc, style_of(form), bytes)? {
        Some(found) => show_piece_among(alloc, name, what, form, bytes, found.as_slice(), i),
        None => Ok(None),
    }
}

/// Piece `i`, in whose place others are wanted.
fn show_wrong_piece(
    alloc: Global,
    name: &str,
    form: Form,
    bytes: &[u8],
    found: &[Piece],
    i: usize,
) -> Result<Vec<u8>, Mem>
    requires inside { All (LiesIn (length bytes.now)) found.now }
    requires number { i < length found.now }
    requires cut { pieces (style_of form) bytes.now ≡ Ok found.now }
    ensures { IfOk result (λ v. (at : ℕ) × (said : List ℕ) × IsWrongPiece form bytes.now i at said × (v.items ≡ located name.now bytes.now at said)) }
{
    let wrong = found[i];
    let at = wrong.from as usize;
    let those = wanted_at(alloc, form, &bytes[..at], i)?;
    let said = unexpected(alloc, bytes, &wrong, those.as_slice())?;
    located(alloc, name.as_bytes(), bytes, at, said.as_slice())
}

/// The end of the pieces, where what is still open is told.
fn show_early_end(
    alloc: Global,
    name: &str,
    form: Form,
    bytes: &[u8],
    found: &[Piece],
) -> Result<Vec<u8>, Mem>
    requires inside { All (LiesIn (length bytes.now)) found.now }
    requires cut { pieces (style_of form) bytes.now ≡ Ok found.now }
    ensures { IfOk result (λ v. (at : ℕ) × (said : List ℕ) × IsEarlyEnd form bytes.now (length found.now) at said × (v.items ≡ located name.now bytes.now at said)) }
{
    let said = early(alloc, form, bytes, found)?;
    let at = end_of(bytes, found);
    located(alloc, name.as_bytes(), bytes, at, said.as_slice())
}

/// Piece `i` of those of the text, or their end, as wrong.
fn show_wrong_among(
    alloc: Global,
    name: &str,
    form: Form,
    bytes: &[u8],
    found: &[Piece],
    i: usize,
) -> Result<Option<Vec<u8>>, Mem>
    requires inside { All (LiesIn (length bytes.now)) found.now }
    requires cut { pieces (style_of form) bytes.now ≡ Ok found.now }
    ensures { IfOk result (λ o. MatchOption o ((what : List ℕ) → HasNone (Spot.Wrong form i) what bytes.now) (λ v. (what : List ℕ) → IsShown name.now (Spot.Wrong form i) what bytes.now v.items)) }
{
    if i > found.len() {
        return Ok(None);
    }
    if i == found.len() {
        let text = show_early_end(alloc, name, form, bytes, found)?;
        return Ok(Some(text));
    }
    let text = show_wrong_piece(alloc, name, form, bytes, found, i)?;
    Ok(Some(text))
}

fn show_wrong(
    alloc: Global,
    name: &str,
    form: Form,
    bytes: &[u8],
    i: usize,
) -> Result<Option<Vec<u8>>, Mem>
    requires { length bytes.now ≤ max_text }
    ensures { IfOk result (λ o. MatchOption o ((what : List ℕ) → HasNone (Spot.Wrong form i) what bytes.now) (λ v. (what : List ℕ) → IsShown name.now (Spot.Wrong form i) what bytes.now v.items)) }
{
    match pieces_of(alloc, style_of(form), bytes)? {
        Some(found) => show_wrong_among(alloc, name, form, bytes, found.as_slice(), i),
        None => Ok(None),
    }
}

/// A spot with its line and its mark, where the text has it.
fn show(
    alloc: Global,
    name: &str,
    spot: Spot,
    what: &str,
    bytes: &[u8],
) -> Result<Option<Vec<u8>>, Mem>
    requires { length bytes.now ≤ max_text }
    ensures { IfOk result (λ o. MatchOption o (HasNone spot what.now bytes.now) (λ v. IsShown name.now spot what.now bytes.now v.items)) }
{
    match spot {
        Spot::AtByte(at) => show_byte(alloc, name, what, bytes, at as usize),
        Spot::AtLine(line) => show_line(alloc, name, what, bytes, line as usize),
        Spot::AtPiece(form, i) => show_piece(alloc, name, what, form, bytes, i as usize),
        Spot::Wrong(form, i) => show_wrong(alloc, name, form, bytes, i as usize),
        Spot::Nowhere => Ok(None),
    }
}

/// A spot of a text with what is said of it.
pub(crate) fn explain_spot(
    alloc: Global,
    name: &str,
    spot: Spot,
    what: &str,
    bytes: &[u8],
) -> Result<Vec<u8>, Mem>
    requires { length bytes.now ≤ max_text }
    ensures { IfOk result (λ v. IsTold name.now spot what.now bytes.now v.items) }
{
    if let Some(odd) = odd_text(bytes) {
        return unplaced(alloc, name.as_bytes(), odd.as_bytes());
    }
    match show(alloc, name, spot, what, bytes)? {
        Some(text) => Ok(text),
        None => unplaced(alloc, name.as_bytes(), what.as_bytes()),
    }
}
