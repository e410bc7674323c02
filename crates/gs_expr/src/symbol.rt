//! Symbols: tokens as a reader of tables takes them.
#![tactic(auto)]

ghost use Rattle.std.specs.Prelude.{◌≡◌, ◌≤◌, length, option_map};
ghost use Rattle.gs_expr.specs.Machine.{column, name_symbol, symbol};
ghost use Rattle.gs_expr.specs.Token.{token};
ghost use Rattle.gs_expr.specs.Truth.{place_of};

use crate::token::Class;
use gs_text::Name;

/// A token, with the table of an operand in place of its name.
#[derive(Clone, Copy, Debug, PartialEq, Eq)]
pub enum Symbol {
    /// A constant, or a name among the names.
    Operand(u64),
    /// A name that isn't among the names.
    Unknown,
    Bang,
    Tick,
    Star,
    Caret,
    Plus,
    Opens,
    Closes,
    Other,
}

/// The table of the name with this number: bit `i` is bit `number` of `i`.
fn column(number: usize) -> u64
    ensures { result ≡ column number }
{
    match number {
        0 => 0xAAAA_AAAA_AAAA_AAAA,
        1 => 0xCCCC_CCCC_CCCC_CCCC,
        2 => 0xF0F0_F0F0_F0F0_F0F0,
        3 => 0xFF00_FF00_FF00_FF00,
        4 => 0xFFFF_0000_FFFF_0000,
        _ => 0xFFFF_FFFF_0000_0000,
    }
}

/// The number of a name. Of equal names the first counts.
fn place_of(text: &[u8], names: &[Name]) -> Option<usize>
    ensures { result ≡ place_of names.now text.now }
{
    names.iter().position(|name| name.is(text))
}

/// What a name is among the names.
fn name_symbol(text: &[u8], names: &[Name]) -> Symbol
    ensures { result ≡ name_symbol (place_of names.now text.now) }
{
    match place_of(text, names) {
        Some(number) => Symbol::Operand(column(number)),
        None => Symbol::Unknown,
    }
}

/// What a token of this class and these bytes is among the names.
pub fn symbol_of(class: Class, text: &[u8], names: &[Name]) -> Symbol
    ensures { result ≡ symbol names.now (token class text.now) }
{
    match class {
        Class::Zero => Symbol::Operand(0),
        Class::One => Symbol::Operand(u64::MAX),
        Class::Name => name_symbol(text, names),
        Class::Bang => Symbol::Bang,
        Class::Tick => Symbol::Tick,
        Class::Star => Symbol::Star,
        Class::Caret => Symbol::Caret,
        Class::Plus => Symbol::Plus,
        Class::Opens => Symbol::Opens,
        Class::Closes => Symbol::Closes,
        Class::Other => Symbol::Other,
    }
}
