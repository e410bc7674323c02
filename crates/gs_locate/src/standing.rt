//! What stands at a place among the pieces of a text.

ghost use Rattle.std.specs.Prelude.{◌≡◌, ◌≤◌, length, slice_get};
ghost use Rattle.std.specs.List.{All};
ghost use Rattle.gs_text.specs.Pieces.{LiesIn};
ghost use Rattle.gs_locate.specs.Found.{byte_at};
ghost use Rattle.gs_locate.specs.Piece.{is_any_mark, is_mark, is_mark_kind, is_name, is_name_kind, is_word, is_word_kind, mark_before, text_at};
ghost use Rattle.gs_locate.specs.Statement.{line_at};

use gs_text::{Kind, Piece, text_of};

fn is_mark_kind(kind: Kind) -> bool
    ensures { result ≡ is_mark_kind kind }
{
    match kind {
        Kind::Word | Kind::Escaped | Kind::Text => false,
        Kind::Mark => true,
    }
}

fn is_word_kind(kind: Kind) -> bool
    ensures { result ≡ is_word_kind kind }
{
    match kind {
        Kind::Word => true,
        Kind::Escaped | Kind::Text | Kind::Mark => false,
    }
}

fn is_name_kind(kind: Kind) -> bool
    ensures { result ≡ is_name_kind kind }
{
    match kind {
        Kind::Word | Kind::Escaped | Kind::Text => true,
        Kind::Mark => false,
    }
}

/// Whether the mark of this byte stands at a place.
pub fn is_mark(byte: u8, bytes: &[u8], pieces: &[Piece], at: usize) -> bool
    requires { All (LiesIn (length bytes.now)) pieces.now }
    ensures { result ≡ is_mark byte bytes.now pieces.now at }
{
    if at < pieces.len() {
        let piece = &pieces[at];
        is_mark_kind(piece.kind) && text_of(bytes, piece) == [byte].as_slice()
    } else {
        false
    }
}

/// Whether this word stands at a place.
pub fn is_word(text: &[u8], bytes: &[u8], pieces: &[Piece], at: usize) -> bool
    requires { All (LiesIn (length bytes.now)) pieces.now }
    ensures { result ≡ is_word text.now bytes.now pieces.now at }
{
    if at < pieces.len() {
        let piece = &pieces[at];
        is_word_kind(piece.kind) && text_of(bytes, piece) == text
    } else {
        false
    }
}

/// Whether the name stands at a place, however it is written.
pub fn is_name(text: &[u8], bytes: &[u8], pieces: &[Piece], at: usize) -> bool
    requires { All (LiesIn (length bytes.now)) pieces.now }
    ensures { result ≡ is_name text.now bytes.now pieces.now at }
{
    if at < pieces.len() {
        let piece = &pieces[at];
        is_name_kind(piece.kind) && text_of(bytes, piece) == text
    } else {
        false
    }
}

/// The line of the piece at a place, 0 where there is none.
pub fn line_at(pieces: &[Piece], at: usize) -> u32
    ensures { result ≡ line_at pieces.now at }
{
    if at < pieces.len() {
        pieces[at].line
    } else {
        0
    }
}

/// The byte at which the piece at a place begins, 0 where there is none.
pub fn byte_at(pieces: &[Piece], at: usize) -> u32
    ensures { result ≡ byte_at pieces.now at }
{
    if at < pieces.len() {
        pieces[at].from
    } else {
        0
    }
}

/// What the piece at a place stands for, no bytes where there is none.
pub fn text_at<'a>(bytes: &'a [u8], pieces: &[Piece], at: usize) -> &'a [u8]
    requires { All (LiesIn (length bytes.now)) pieces.now }
    ensures { result.now ≡ text_at bytes.now pieces.now at }
{
    if at < pieces.len() {
        text_of(bytes, &pieces[at])
    } else {
        b""
    }
}

/// Whether some mark stands at a place.
fn is_any_mark(pieces: &[Piece], at: usize) -> bool
    ensures { result ≡ is_any_mark (slice_get pieces.now at) }
{
    if at < pieces.len() {
        is_mark_kind(pieces[at].kind)
    } else {
        false
    }
}

/// The place of the latest mark before a place, 0 where there is none.
pub fn mark_before(pieces: &[Piece], at: usize) -> usize
    ensures value { result ≡ mark_before pieces.now at }
    ensures within { result ≤ at }
{
    let mut left = at;
    while left > 0 {
        left -= 1;
        if is_any_mark(pieces, left) {
            return left;
        }
    }
    0
}
