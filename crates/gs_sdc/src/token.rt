//! What a piece is to a command.
#![tactic(auto)]

ghost use Rattle.std.specs.Prelude.{◌≡◌, length, slice_index};
ghost use Rattle.gs_sdc.specs.Token.{mark_by, mark_of};
ghost use Rattle.gs_text.specs.Pieces.{LiesIn, text_of};

use gs_text::{Kind, Piece, text_of};

/// What a piece is to a command.
#[derive(Clone, Copy, Debug, PartialEq, Eq)]
pub enum Mark {
    /// A word, or a text between quotes.
    Word,
    /// `[`.
    Opens,
    /// `]`.
    Closes,
    /// `{`.
    OpensList,
    /// `}`.
    ClosesList,
    /// A quote without its partner.
    Stray,
}

fn mark_by(byte: u8) -> Mark
    ensures { result ≡ mark_by byte }
{
    if byte == b'[' {
        Mark::Opens
    } else if byte == b']' {
        Mark::Closes
    } else if byte == b'{' {
        Mark::OpensList
    } else if byte == b'}' {
        Mark::ClosesList
    } else {
        Mark::Stray
    }
}

fn first_byte(text: &[u8]) -> u8
    ensures { result ≡ slice_index text.now 0 }
{
    match text {
        [first, ..] => *first,
        [] => 0,
    }
}

/// What a piece of this text is to a command.
pub fn mark_of(bytes: &[u8], piece: &Piece) -> Mark
    requires { LiesIn (length bytes.now) piece.now }
    ensures { result ≡ mark_of piece.now.kind (text_of bytes.now piece.now) }
{
    match piece.kind {
        Kind::Word | Kind::Escaped | Kind::Text => Mark::Word,
        Kind::Mark => mark_by(first_byte(text_of(bytes, piece))),
    }
}
