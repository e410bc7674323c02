//! Single numbers.

ghost use Rattle.std.specs.Prelude.{◌≡◌, ◌≤◌, option_copied};
ghost use Rattle.gs_libcell.specs.Number.{amount_by, amount_in, amount_of, amount_read, in_range, narrow, number_of, number_read};

use crate::attribute::last_simple;
use gs_libtree::Item;
use gs_quantity::{Micro, NumErr, read_decimal};
use gs_text::Name;

/// What an attribute gives that has to be a number and may not be negative.
#[derive(Clone, Copy, Debug, PartialEq, Eq)]
pub enum Amount {
    /// The attribute is missing.
    Absent,
    /// Its value is no decimal number, is negative or is out of range.
    Bad,
    /// The number.
    Is(Micro),
}

fn number_read(read: Result<Micro, NumErr>) -> Option<Micro>
    ensures { result ≡ number_read read }
{
    match read {
        Ok(number) => Some(number),
        Err(_) => None,
    }
}

/// The millionths that a text writes, times `10^tens`.
pub(crate) fn number_of(tens: u8, text: &[u8]) -> Option<Micro>
    requires { tens ≤ 9 }
    ensures { result ≡ number_of tens text.now }
{
    number_read(read_decimal(text, tens))
}

fn in_range(number: Option<Micro>) -> Option<Micro>
    ensures { result ≡ in_range number }
{
    match number {
        None => None,
        Some(amount) => {
            if amount.0 < 0 {
                return None;
            }
            if amount.0 < 1_099_511_627_776 {
                return Some(amount);
            }
            None
        }
    }
}

fn amount_read(number: Option<Micro>) -> Amount
    ensures { result ≡ amount_read number }
{
    match number {
        None => Amount::Bad,
        Some(amount) => Amount::Is(amount),
    }
}

fn amount_by(tens: u8, value: Option<&Name>) -> Amount
    requires { tens ≤ 9 }
    ensures { result ≡ amount_by tens (option_copied value.entry) }
{
    match value {
        None => Amount::Absent,
        Some(text) => amount_read(in_range(number_of(tens, text.as_bytes()))),
    }
}

/// What the simple attribute of the name gives, in millionths of a unit that is `10^tens` times the attribute's.
pub fn amount_in(name: &[u8], tens: u8, items: &[Item]) -> Amount
    requires { tens ≤ 9 }
    ensures { result ≡ amount_in name.now tens items.now }
{
    amount_by(tens, last_simple(name, items))
}

/// A capacitance, which has to be below 2^34 millionths.
pub fn narrow(amount: Amount) -> Amount
    ensures { result ≡ narrow amount }
{
    match amount {
        Amount::Absent => Amount::Absent,
        Amount::Bad => Amount::Bad,
        Amount::Is(number) => {
            if number.0 < 17_179_869_184 {
                return Amount::Is(number);
            }
            Amount::Bad
        }
    }
}
