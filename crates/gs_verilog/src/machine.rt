//! The form as a table: the place after each token.
#![tactic(auto)]

ghost use Rattle.std.specs.Prelude.{◌≡◌, [], ◌∷◌};
ghost use Rattle.gs_verilog.specs.Machine.{class_of, next};
ghost use Rattle.gs_verilog.specs.Token.{begins_name};

use gs_text::Kind;

/// What a declaration makes of its names.
#[derive(Clone, Copy, Debug, PartialEq, Eq)]
pub enum Role {
    Input,
    Output,
    Wire,
}

/// What a token is to the form.
#[derive(Clone, Copy, Debug, PartialEq, Eq)]
pub enum Class {
    Module,
    EndModule,
    Declares(Role),
    Name,
    Open,
    Close,
    Comma,
    Dot,
    Semicolon,
    Other,
}

/// A place in the form, named after what was read last.
#[derive(Clone, Copy, Debug, PartialEq, Eq)]
pub enum Place {
    /// Nothing yet.
    Start,
    /// `module`.
    Title,
    /// The module's name.
    Titled,
    /// The header's opening parenthesis.
    Header,
    /// A name in the header.
    Headed,
    /// A comma in the header.
    HeaderNext,
    /// The header's closing parenthesis.
    HeaderDone,
    /// The header or an item, whole.
    Items,
    /// A declaration's keyword, or a comma in it.
    Names(Role),
    /// A name in a declaration.
    Named(Role),
    /// An instance's cell.
    Instance,
    /// An instance's name.
    InstanceNamed,
    /// An instance's opening parenthesis.
    Pins,
    /// A dot before a pin.
    Pin,
    /// A pin's name.
    PinNamed,
    /// A pin's opening parenthesis.
    Net,
    /// The net at a pin.
    NetNamed,
    /// A pin's closing parenthesis.
    Linked,
    /// A comma between pins.
    NextPin,
    /// An instance's closing parenthesis.
    Closed,
    /// `endmodule`.
    End,
}

/// Whether a letter or an underscore stands first.
fn begins_name(text: &[u8]) -> bool
    ensures { result ≡ begins_name text.now }
{
    match text {
        [] => false,
        [first, ..] => (*first >= b'a' && *first <= b'z')
            || (*first >= b'A' && *first <= b'Z')
            || *first == b'_',
    }
}

/// What a word is to the form.
fn class_of_word(text: &[u8]) -> Class
    ensures { result ≡ class_of Kind.Word text.now }
{
    if text == b"module".as_slice() {
        Class::Module
    } else if text == b"endmodule".as_slice() {
        Class::EndModule
    } else if text == b"input".as_slice() {
        Class::Declares(Role::Input)
    } else if text == b"output".as_slice() {
        Class::Declares(Role::Output)
    } else if text == b"wire".as_slice() {
        Class::Declares(Role::Wire)
    } else if begins_name(text) {
        Class::Name
    } else {
        Class::Other
    }
}

/// What a mark of one byte is to the form.
fn class_of_byte(byte: u8) -> Class
    ensures { result ≡ class_of Kind.Mark (byte ∷ []) }
{
    match byte {
        b'(' => Class::Open,
        b')' => Class::Close,
        b',' => Class::Comma,
        b'.' => Class::Dot,
        b';' => Class::Semicolon,
        _ => Class::Other,
    }
}

/// What a mark is to the form.
fn class_of_mark(text: &[u8]) -> Class
    ensures { result ≡ class_of Kind.Mark text.now }
{
    match text {
        [byte] => class_of_byte(*byte),
        _ => Class::Other,
    }
}

/// What a token is to the form.
pub fn class_of(kind: Kind, text: &[u8]) -> Class
    ensures { result ≡ class_of kind text.now }
{
    match kind {
        Kind::Word => class_of_word(text),
        Kind::Escaped => Class::Name,
        Kind::Text => Class::Other,
        Kind::Mark => class_of_mark(text),
    }
}

/// The place after a token, where one of its class may stand.
pub fn next(place: Place, class: Class) -> Option<Place>
    ensures { result ≡ next place class }
{
    match (place, class) {
        (Place::Start, Class::Module) => Some(Place::Title),
        (Place::Title, Class::Name) => Some(Place::Titled),
        (Place::Titled, Class::Open) => Some(Place::Header),
        (Place::Titled, Class::Semicolon) => Some(Place::Items),
        (Place::Header, Class::Name) => Some(Place::Headed),
        (Place::Header, Class::Close) => Some(Place::HeaderDone),
        (Place::Headed, Class::Comma) => Some(Place::HeaderNext),
        (Place::Headed, Class::Close) => Some(Place::HeaderDone),
        (Place::HeaderNext, Class::Name) => Some(Place::Headed),
        (Place::HeaderDone, Class::Semicolon) => Some(Place::Items),
        (Place::Items, Class::Declares(role)) => Some(Place::Names(role)),
        (Place::Items, Class::Name) => Some(Place::Instance),
        (Place::Items, Class::EndModule) => Some(Place::End),
        (Place::Names(role), Class::Name) => Some(Place::Named(role)),
        (Place::Named(role), Class::Comma) => Some(Place::Names(role)),
        (Place::Named(_), Class::Semicolon) => Some(Place::Items),
        (Place::Instance, Class::Name) => Some(Place::InstanceNamed),
        (Place::InstanceNamed, Class::Open) => Some(Place::Pins),
        (Place::Pins, Class::Close) => Some(Place::Closed),
        (Place::Pins, Class::Dot) => Some(Place::Pin),
        (Place::Pin, Class::Name) => Some(Place::PinNamed),
        (Place::PinNamed, Class::Open) => Some(Place::Net),
        (Place::Net, Class::Name) => Some(Place::NetNamed),
        (Place::NetNamed, Class::Close) => Some(Place::Linked),
        (Place::Linked, Class::Comma) => Some(Place::NextPin),
        (Place::Linked, Class::Close) => Some(Place::Closed),
        (Place::NextPin, Class::Dot) => Some(Place::Pin),
        (Place::Closed, Class::Semicolon) => Some(Place::Items),
        _ => None,
    }
}
