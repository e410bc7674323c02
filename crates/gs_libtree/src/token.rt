//! What a piece of a Liberty text is to the form.
#![tactic(auto)]

ghost use Rattle.std.specs.Prelude.{◌≡◌, [], ◌∷◌};
ghost use Rattle.gs_libtree.specs.Token.{class_of, mark_class};

use gs_text::Kind;

/// What a piece is to the form.
#[derive(Clone, Copy, Debug, PartialEq, Eq)]
pub enum Class {
    Word,
    Quoted,
    /// `(`
    Opens,
    /// `)`
    Closes,
    /// `{`
    Enters,
    /// `}`
    Leaves,
    Comma,
    Semicolon,
    Colon,
    Other,
}

/// What a mark of one byte is to the form.
fn byte_class(byte: u8) -> Class
    ensures { result ≡ mark_class (byte ∷ []) }
{
    match byte {
        b'(' => Class::Opens,
        b')' => Class::Closes,
        b'{' => Class::Enters,
        b'}' => Class::Leaves,
        b',' => Class::Comma,
        b';' => Class::Semicolon,
        b':' => Class::Colon,
        _ => Class::Other,
    }
}

/// What a mark is to the form.
fn mark_class(text: &[u8]) -> Class
    ensures { result ≡ mark_class text.now }
{
    match text {
        [byte] => byte_class(*byte),
        _ => Class::Other,
    }
}

/// What a piece of this kind and text is to the form.
pub fn class_of(kind: Kind, text: &[u8]) -> Class
    ensures { result ≡ class_of kind text.now }
{
    match kind {
        Kind::Word => Class::Word,
        Kind::Escaped => Class::Other,
        Kind::Text => Class::Quoted,
        Kind::Mark => mark_class(text),
    }
}
