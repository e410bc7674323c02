//! The units of a library.

ghost use Rattle.std.specs.Prelude.{◌≡◌, ◌≤◌};
ghost use Rattle.std.specs.Option.{ForSome};
ghost use Rattle.std.specs.List.{list_all};
ghost use Rattle.gs_libcell.specs.Unit.{both, farad_tens, is_unit, is_visible, load_tens, tens_equal, time_tens};

use crate::number::number_of;
use gs_quantity::Micro;
use gs_text::Name;

/// The time unit as a power of ten of 1 ps.
pub fn time_tens(text: &Name) -> Option<u8>
    ensures value { result ≡ time_tens text.now }
    ensures small { ForSome result (λ t. t ≤ 9) }
{
    if text.is(b"1ps") {
        return Some(0);
    }
    if text.is(b"10ps") {
        return Some(1);
    }
    if text.is(b"100ps") {
        return Some(2);
    }
    if text.is(b"1ns") {
        return Some(3);
    }
    None
}

fn tens_equal(number: Option<Micro>) -> Option<u8>
    ensures value { result ≡ tens_equal number }
    ensures small { ForSome result (λ t. t ≤ 2) }
{
    match number {
        None => None,
        Some(number) => {
            if number.0 == 1_000_000 {
                return Some(0);
            }
            if number.0 == 10_000_000 {
                return Some(1);
            }
            if number.0 == 100_000_000 {
                return Some(2);
            }
            None
        }
    }
}

fn farad_tens(text: &[u8]) -> Option<u8>
    ensures value { result ≡ farad_tens text.now }
    ensures small { ForSome result (λ t. t ≤ 3) }
{
    if text.eq_ignore_ascii_case(b"ff") {
        return Some(0);
    }
    if text.eq_ignore_ascii_case(b"pf") {
        return Some(3);
    }
    None
}

fn both(count: Option<u8>, unit: Option<u8>) -> Option<u8>
    requires count { ForSome count (λ t. t ≤ 2) }
    requires unit { ForSome unit (λ t. t ≤ 3) }
    ensures value { result ≡ both count unit }
    ensures small { ForSome result (λ t. t ≤ 9) }
{
    match (count, unit) {
        (Some(x), Some(y)) => Some(x + y),
        (Some(_), None) => None,
        (None, _) => None,
    }
}

/// The unit of capacitance as a power of ten of 1 fF.
pub fn load_tens(values: &[Name]) -> Option<u8>
    ensures value { result ≡ load_tens values.now }
    ensures small { ForSome result (λ t. t ≤ 9) }
{
    match values {
        [count, unit] => both(
            tens_equal(number_of(0, count.as_bytes())),
            farad_tens(unit.as_bytes()),
        ),
        _ => None,
    }
}

/// Whether a byte is printable ASCII other than the blank.
fn is_visible(byte: u8) -> bool
    ensures { result ≡ is_visible byte }
{
    33 <= byte && byte <= 126
}

/// Whether all bytes of a text are so.
fn are_visible(text: &[u8]) -> bool
    ensures { result ≡ list_all is_visible text.now }
{
    text.iter().all(|byte| is_visible(*byte))
}

/// Whether a text is 1 to 16 printable bytes other than the blank.
pub fn is_unit(text: &[u8]) -> bool
    ensures { result ≡ is_unit text.now }
{
    if text.is_empty() {
        return false;
    }
    if text.len() > 16 {
        return false;
    }
    are_visible(text)
}
