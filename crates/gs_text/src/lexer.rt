//! Cutting a text into pieces.
#![tactic(auto)]

ghost use Rattle.std.specs.Prelude.{◌≡◌, ◌⊎◌, ℕ, ◌+◌, ◌^◌, ◌≤◌, [], length, IfErr, IfOk, MatchResult, Ok};
ghost use Rattle.std.specs.List.{All};
ghost use Rattle.gs_text.specs.Bytes.{max_text};
ghost use Rattle.gs_text.specs.Cut.{ComesIn, Fails, pieces};
ghost use Rattle.gs_text.specs.Faults.{HasFault, IsRefusedBy};
ghost use Rattle.gs_text.specs.Gaps.{HasGaps};
ghost use Rattle.gs_text.specs.Lines.{HaveLines};
ghost use Rattle.gs_text.specs.Pieces.{HasGoodText, InOrder, LiesIn, closing_len, opening_len, text_of};
ghost use Rattle.gs_text.specs.Whole.{AreWhole};
ghost use Rattle.gs_text.specs.declared.kinds.TextErr.{TextErr};

use crate::cutter::{Next, Place, next_piece};
use crate::kinds::{Kind, Piece, Style, TextErr};
use std::alloc::Global;

/// The pieces of the text, in order, by the rules of the style (`front` in `specs/Front.antt`).
///
/// # Errors
///
/// `OpenString { at }`, in style Lib, where a string that begins at byte `at` has no end; `OpenComment { at }`, in styles
/// Verilog and Lib, where a comment between slash and star that begins at byte `at` has none. `Mem` where memory ran out.
pub fn pieces(alloc: Global, style: Style, bytes: &[u8]) -> Result<Vec<Piece>, TextErr>
    requires { length bytes.now ≤ max_text }
    // The pieces are exactly those of the text, and an error is the text's own, or memory ran out. The clauses `inside`, `gaps`,
    // `maximal` and `lines` pin them as well (`each_text_is_cut_alone`).
    ensures exact { MatchResult result (λ v. pieces style bytes.now ≡ Ok v.items) (λ e. Fails e (pieces style bytes.now)) }
    // Each error comes by its cause,
    ensures cause { IfErr result (λ e. HasFault style bytes.now e ⊎ (e ≡ TextErr.Mem)) }
    // and where such a cause stands, it or want of memory is the answer.
    ensures refused { (e : TextErr) → HasFault style bytes.now e → IsRefusedBy e result }
    // Each style has its own errors.
    ensures own { IfErr result (λ e. ComesIn style e) }
    // Each piece lies in the text.
    ensures inside { IfOk result (λ v. All (LiesIn (length bytes.now)) v.items) }
    // The pieces stand in the text's order, and none overlaps the next.
    ensures ordered { IfOk result (λ v. InOrder 0 v.items) }
    // Between the pieces, before the first and after the last stand white, comments and continued line ends alone; a comment
    // in SDC begins its command.
    ensures gaps { IfOk result (λ v. HasGaps style bytes.now [] 0 v.items) }
    // Each piece is whole: it has the bytes that its kind has in the style, and goes on as far as it can; a string ends at the
    // first quote.
    ensures maximal { IfOk result (λ v. AreWhole style bytes.now [] v.items) }
    // A piece's line is that on which it begins, or on which its command begins.
    ensures lines { IfOk result (λ v. HaveLines style bytes.now [] v.items) }
    // There are no more pieces than bytes.
    ensures few { IfOk result (λ v. length v.items ≤ length bytes.now) }
    // A word or an escaped name has a byte, and no white.
    ensures solid { IfOk result (λ v. All (λ p. HasGoodText p.kind (text_of bytes.now p)) v.items) }
{
    let mut found = Vec::new(alloc);
    let mut place = Place::start();
    loop {
        match next_piece(style, bytes, place) {
            Next::Piece(piece, after) => {
                found.push(piece)?;
                place = after;
            }
            Next::End => return Ok(found),
            Next::Fault(error) => return Err(error),
        }
    }
}

/// How many bytes stand before the text of a piece of this kind.
fn opening_len(kind: Kind) -> usize
    ensures { result ≡ opening_len kind }
{
    match kind {
        Kind::Word | Kind::Mark => 0,
        Kind::Escaped | Kind::Text => 1,
    }
}

/// How many bytes stand after the text of a piece of this kind.
fn closing_len(kind: Kind) -> usize
    ensures { result ≡ closing_len kind }
{
    match kind {
        Kind::Word | Kind::Escaped | Kind::Mark => 0,
        Kind::Text => 1,
    }
}

/// The bytes that a piece of this text stands for: without its quotes, or the backslash that leads an escaped name.
pub fn text_of<'a>(bytes: &'a [u8], piece: &Piece) -> &'a [u8]
    requires { LiesIn (length bytes.now) piece.now }
    ensures { result.now ≡ text_of bytes.now piece.now }
{
    let from = piece.from as usize + opening_len(piece.kind);
    let to = piece.to as usize - closing_len(piece.kind);
    &bytes[from..to]
}
