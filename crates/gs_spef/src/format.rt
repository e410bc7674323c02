//! What a line says.
#![tactic(auto)]

ghost use Rattle.std.specs.Prelude.{◌≡◌, ◌≤◌, length, map};
ghost use Rattle.std.specs.List.{All};
ghost use Rattle.gs_spef.specs.Format.{amount_by, amount_tens, farads_of, farads_tens, inside, is_open, keyword_of, maps, next, outside, outside_by, same_letters, says, sets_by, tens};
ghost use Rattle.gs_spef.specs.Lines.{word};
ghost use Rattle.gs_text.specs.Pieces.{LiesIn, text_of};

use crate::words::{is_index, word};
use gs_amount::read_number;
use gs_quantity::Micro;
use gs_text::Piece;

/// How many of a unit's farads make it.
#[derive(Clone, Copy, Debug, PartialEq, Eq)]
pub enum Amount {
    One,
    Ten,
    Hundred,
}

/// The farads of a unit of capacitance.
#[derive(Clone, Copy, Debug, PartialEq, Eq)]
pub enum Farads {
    Femto,
    Pico,
}

/// A unit of capacitance.
#[derive(Clone, Copy, Debug, PartialEq, Eq)]
pub struct Unit {
    pub amount: Amount,
    pub farads: Farads,
}

/// What a line's first word is.
#[derive(Clone, Copy, Debug, PartialEq, Eq)]
pub enum Keyword {
    /// `*C_UNIT`.
    Unit,
    /// `*NAME_MAP`.
    Map,
    /// `*D_NET`.
    Net,
    /// `*R_NET`, `*D_PNET` or `*R_PNET`: a net that isn't given by a lumped total.
    OtherNet,
    /// `*END`.
    End,
    /// `*CONN` or `*CAP`.
    Section,
    /// `*RES`.
    Resistance,
    /// Any other word, or none.
    Other,
}

/// Where a line stands.
#[derive(Clone, Copy, Debug, PartialEq, Eq)]
pub enum Place {
    /// Outside of net blocks and the name map.
    Outside,
    /// After the name map's first line, or one of its lines.
    Map,
    /// In a net block, but not among its resistances.
    Net,
    /// In a net block, among its resistances.
    Resistance,
}

/// What a line says.
#[derive(Clone, Copy, Debug, PartialEq, Eq)]
pub enum Says {
    /// Nothing that counts.
    Passes,
    /// The unit of capacitance from here on.
    SetsUnit(Unit),
    /// The name map begins.
    OpensMap,
    /// An index and its name.
    Maps,
    /// A net block begins.
    BeginsNet,
    /// The block ends.
    EndsNet,
    /// A section of the block that is passed over begins.
    OpensSection,
    /// The block's section of resistances begins.
    OpensResistance,
    /// A resistance.
    Distributes,
    /// It isn't of its form.
    Wrong,
}

impl Unit {
    /// The power of ten that takes a number in this unit to femtofarads.
    pub fn tens(self) -> u8
        ensures value { result ≡ tens self }
        ensures small { result ≤ 9 }
    {
        let amount = match self.amount {
            Amount::One => 0,
            Amount::Ten => 1,
            Amount::Hundred => 2,
        };
        match self.farads {
            Farads::Femto => amount,
            Farads::Pico => amount + 3,
        }
    }
}

/// A number as the amount of a unit.
fn amount_by(number: Option<Micro>) -> Option<Amount>
    ensures { result ≡ amount_by number }
{
    match number {
        None => None,
        Some(number) => {
            if number.0 == 1_000_000 {
                Some(Amount::One)
            } else if number.0 == 10_000_000 {
                Some(Amount::Ten)
            } else if number.0 == 100_000_000 {
                Some(Amount::Hundred)
            } else {
                None
            }
        }
    }
}

/// Whether two words have the same letters, in either case.
fn same_letters(x: &[u8], y: &[u8]) -> bool
    ensures { result ≡ same_letters x.now y.now }
{
    x.eq_ignore_ascii_case(y)
}

fn farads_of(text: &[u8]) -> Option<Farads>
    ensures { result ≡ farads_of text.now }
{
    if same_letters(text, b"FF") {
        Some(Farads::Femto)
    } else if same_letters(text, b"PF") {
        Some(Farads::Pico)
    } else {
        None
    }
}

fn sets_by(amount: Option<Amount>, farads: Option<Farads>) -> Says
    ensures { result ≡ sets_by amount farads }
{
    match (amount, farads) {
        (Some(amount), Some(farads)) => Says::SetsUnit(Unit { amount, farads }),
        (Some(_), None) | (None, _) => Says::Wrong,
    }
}

fn keyword_of(text: &[u8]) -> Keyword
    ensures { result ≡ keyword_of text.now }
{
    if text == b"*D_NET".as_slice() {
        Keyword::Net
    } else if text == b"*CONN".as_slice() {
        Keyword::Section
    } else if text == b"*CAP".as_slice() {
        Keyword::Section
    } else if text == b"*RES".as_slice() {
        Keyword::Resistance
    } else if text == b"*END".as_slice() {
        Keyword::End
    } else if text == b"*C_UNIT".as_slice() {
        Keyword::Unit
    } else if text == b"*NAME_MAP".as_slice() {
        Keyword::Map
    } else if text == b"*R_NET".as_slice() {
        Keyword::OtherNet
    } else if text == b"*D_PNET".as_slice() {
        Keyword::OtherNet
    } else if text == b"*R_PNET".as_slice() {
        Keyword::OtherNet
    } else {
        Keyword::Other
    }
}

/// What a line says outside of a net block.
fn outside(bytes: &[u8], line: &[Piece]) -> Says
    requires { All (LiesIn (length bytes.now)) line.now }
    ensures { result ≡ outside (map (text_of bytes.now) line.now) }
{
    match keyword_of(word(bytes, line, 0)) {
        Keyword::Unit => {
            if line.len() == 3 {
                sets_by(
                    amount_by(read_number(word(bytes, line, 1), 0)),
                    farads_of(word(bytes, line, 2)),
                )
            } else {
                Says::Wrong
            }
        }
        Keyword::Map => {
            if line.len() == 1 {
                Says::OpensMap
            } else {
                Says::Wrong
            }
        }
        Keyword::Net => {
            if line.len() >= 3 {
                Says::BeginsNet
            } else {
                Says::Wrong
            }
        }
        Keyword::OtherNet | Keyword::End => Says::Wrong,
        Keyword::Section | Keyword::Resistance | Keyword::Other => Says::Passes,
    }
}

/// What a line says in a net block, by its first word.
fn inside(keyword: Keyword, other: Says) -> Says
    ensures { result ≡ inside keyword other }
{
    match keyword {
        Keyword::Section => Says::OpensSection,
        Keyword::Resistance => Says::OpensResistance,
        Keyword::End => Says::EndsNet,
        Keyword::Net => Says::Wrong,
        Keyword::Unit | Keyword::Map | Keyword::OtherNet | Keyword::Other => other,
    }
}

/// Whether a line is an index and a name.
fn maps(bytes: &[u8], line: &[Piece]) -> bool
    requires { All (LiesIn (length bytes.now)) line.now }
    ensures { result ≡ maps (map (text_of bytes.now) line.now) }
{
    line.len() == 2 && is_index(word(bytes, line, 0))
}

/// What a line says at its place.
pub fn line_says(place: Place, bytes: &[u8], line: &[Piece]) -> Says
    requires { All (LiesIn (length bytes.now)) line.now }
    ensures { result ≡ says place (map (text_of bytes.now) line.now) }
{
    match place {
        Place::Outside => outside(bytes, line),
        Place::Map => {
            if maps(bytes, line) {
                Says::Maps
            } else {
                outside(bytes, line)
            }
        }
        Place::Net => inside(keyword_of(word(bytes, line, 0)), Says::Passes),
        Place::Resistance => inside(keyword_of(word(bytes, line, 0)), Says::Distributes),
    }
}

/// The place after a line that says this.
pub fn next(place: Place, says: Says) -> Place
    ensures { result ≡ next place says }
{
    match says {
        Says::Passes => match place {
            Place::Outside | Place::Map => Place::Outside,
            Place::Net => Place::Net,
            Place::Resistance => Place::Resistance,
        },
        Says::SetsUnit(_) | Says::EndsNet => Place::Outside,
        Says::OpensMap | Says::Maps => Place::Map,
        Says::BeginsNet | Says::OpensSection => Place::Net,
        Says::OpensResistance => Place::Resistance,
        Says::Distributes | Says::Wrong => place,
    }
}

/// Whether a text that ends here leaves a block open.
pub fn is_open(place: Place) -> bool
    ensures { result ≡ is_open place }
{
    match place {
        Place::Outside | Place::Map => false,
        Place::Net | Place::Resistance => true,
    }
}
