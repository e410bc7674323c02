// A decimal number's bytes, taken apart.
ghost use Rattle.std.specs.Prelude.{◌≡◌, ◌==◌, ◌&&◌, ◌||◌, Bool, true, ◌≤◌, length, slice_index, drop, nat_lt};
ghost use Rattle.std.specs.Str.{all_ascii_digits};
ghost use Rattle.std.specs.List.{prefix_len};
ghost use Rattle.std.specs.Char.{is_ascii_digit};
ghost use Rattle.std.specs.Str.Parse.{starts_with_minus, without_leading_sign};
ghost use Rattle.gs_quantity.specs.Decimal.{digits_at, after_digits, part_at, after_part, is_exponent, with_exponent, decimal_of};

use std::marker::Model;

/// A decimal number taken apart: the digits before and behind the point, and those of its exponent, or none.
#[derive(Drop)]
pub struct Spelling<'a> {
    pub negative: bool,
    pub whole: &'a [u8],
    pub part: &'a [u8],
    pub power_negative: bool,
    pub power: &'a [u8],
}

impl<'a> Model for Spelling<'a> {
    ghost use Rattle.gs_quantity.specs.Decimal.{Decimal, AreDigits};

    ghost Value = { Decimal };

    ghost view = { λ s. record { negative = s.negative; whole = s.whole.now; part = s.part.now; power_negative = s.power_negative; power = s.power.now } };

    ghost invariant = { λ s. AreDigits s.whole.now s.part.now s.power.now };
}

// The first byte, or 0 where there is none.
fn first(bytes: &[u8]) -> u8
    ensures { result ≡ slice_index bytes.now 0 }
{
    if bytes.is_empty() { 0 } else { bytes[0] }
}

fn has_minus(bytes: &[u8]) -> bool
    ensures { result ≡ starts_with_minus bytes.now }
{
    first(bytes) == b'-'
}

fn after_sign(bytes: &[u8]) -> &[u8]
    ensures { result.now ≡ without_leading_sign bytes.now }
{
    match first(bytes) {
        b'-' | b'+' => &bytes[1..],
        _ => bytes,
    }
}

// How many digits stand at the front.
fn digits_len(bytes: &[u8]) -> usize
    ensures count { result ≡ prefix_len is_ascii_digit bytes.now }
    ensures within { result ≤ length bytes.now }
{
    bytes.iter().take_while(|b| b.is_ascii_digit()).count()
}

fn digits(bytes: &[u8]) -> &[u8]
    ensures front { result.now ≡ digits_at bytes.now }
    ensures digits { all_ascii_digits result.now ≡ true }
{
    &bytes[..digits_len(bytes)]
}

// What follows the digits at the front.
fn behind(bytes: &[u8]) -> &[u8]
    ensures { result.now ≡ after_digits bytes.now }
{
    &bytes[digits_len(bytes)..]
}

// The digits behind a point.
fn fraction(bytes: &[u8]) -> &[u8]
    ensures part { result.now ≡ part_at bytes.now }
    ensures digits { all_ascii_digits result.now ≡ true }
{
    if first(bytes) == b'.' {
        digits(&bytes[1..])
    } else {
        &bytes[..0]
    }
}

fn after_fraction(bytes: &[u8]) -> &[u8]
    ensures { result.now ≡ after_part bytes.now }
{
    if first(bytes) == b'.' {
        behind(&bytes[1..])
    } else {
        bytes
    }
}

fn are_digits(bytes: &[u8]) -> bool
    ensures { result ≡ all_ascii_digits bytes.now }
{
    digits_len(bytes) == bytes.len()
}

fn opens_exponent(bytes: &[u8]) -> bool
    ensures { result ≡ (slice_index bytes.now 0 == 101 || slice_index bytes.now 0 == 69) }
{
    matches!(first(bytes), b'e' | b'E')
}

fn has_exponent(bytes: &[u8]) -> bool
    ensures { result ≡ is_exponent bytes.now }
{
    if !opens_exponent(bytes) {
        return false;
    }
    let power = after_sign(&bytes[1..]);
    !power.is_empty() && are_digits(power)
}

// The number whose digits are given, with the exponent that the rest of the bytes write.
fn joined<'a>(
    negative: bool,
    whole: &'a [u8],
    part: &'a [u8],
    rest: &'a [u8],
) -> Option<Spelling<'a>>
    requires whole { all_ascii_digits whole.now ≡ true }
    requires part { all_ascii_digits part.now ≡ true }
    ensures { result ≡ with_exponent negative whole.now part.now rest.now }
{
    if whole.is_empty() && part.is_empty() {
        return None;
    }
    if rest.is_empty() {
        return Some(Spelling {
            negative,
            whole,
            part,
            power_negative: false,
            power: rest,
        });
    }
    if !has_exponent(rest) {
        return None;
    }
    let power = &rest[1..];
    Some(Spelling {
        negative,
        whole,
        part,
        power_negative: has_minus(power),
        power: after_sign(power),
    })
}

/// Takes a decimal number's bytes apart; `None` where they are not of its form.
pub fn take_apart(bytes: &[u8]) -> Option<Spelling<'_>>
    ensures { result ≡ decimal_of bytes.now }
{
    let body = after_sign(bytes);
    let more = behind(body);
    joined(
        has_minus(bytes),
        digits(body),
        fraction(more),
        after_fraction(more),
    )
}
