// The number that a decimal's digits write, in millionths, rounded once. The digits are read from the first on, and no
// more of them than decide the number.
ghost use Rattle.std.specs.Prelude.{◌≡◌, ℕ, ◌+◌, ◌*◌, ◌^◌, ◌<◌, ◌≤◌, ◌++◌, Bool, true, Err, length, take, slice_index, min, IfOk, IfSome, nat_abs};
ghost use Rattle.std.specs.Char.{is_ascii_digit, digit_value};
ghost use Rattle.std.specs.Str.{all_ascii_digits};
ghost use Rattle.std.specs.Str.Parse.{digits_value};
ghost use Rattle.gs_quantity.specs.Nearest.{nearest};
ghost use Rattle.gs_quantity.specs.Decimal.{digits_of, power_of, decimal_of, scaled, magnitude_of, signed_of, read_of, rounded_by, IsBounded, HasMagnitude, IsFar};
ghost use Rattle.gs_quantity.specs.declared.micro.NumErr.TheVariants.{OutOfRange};

use crate::limits::NUMBER_LIMIT;
use crate::micro::{Micro, NumErr};
use crate::spelling::{Spelling, take_apart};

fn digit_of(byte: u8) -> u64
    requires { is_ascii_digit byte ≡ true }
    ensures value { result ≡ digit_value byte }
    ensures small { result < 10 }
{
    u64::from(byte - b'0')
}

fn bounded(magnitude: u64) -> Option<u64>
    ensures { IsBounded result magnitude }
{
    if magnitude < NUMBER_LIMIT {
        Some(magnitude)
    } else {
        None
    }
}

// A number, rounded by the first digit behind it.
fn rounded(value: u64, next: u64) -> u64
    requires { value < NUMBER_LIMIT }
    ensures { result ≡ rounded_by value next }
{
    if next < 5 { value } else { value + 1 }
}

// A magnitude with this many zeros behind it.
fn with_zeros(magnitude: u64, zeros: u128) -> Option<u64>
    requires { magnitude < NUMBER_LIMIT }
    ensures { IsBounded result (magnitude * 10 ^ zeros) }
{
    if magnitude == 0 {
        return Some(0);
    }
    if zeros > 12 {
        return None;
    }
    let mut longer = magnitude;
    for _step in 0..zeros as u64 {
        longer *= 10;
        if longer >= NUMBER_LIMIT {
            return None;
        }
    }
    Some(longer)
}

impl<'a> Spelling<'a> {
    // How many digits stand before and behind the point.
    fn count(&self) -> usize
        ensures count { result ≡ length (digits_of self.now) }
        ensures digits { all_ascii_digits (digits_of self.now) ≡ true }
    {
        self.whole.len() + self.part.len()
    }

    // How many digits stand behind the point.
    fn places(&self) -> usize
        ensures value { result ≡ length self.now.part }
        ensures digits { all_ascii_digits (digits_of self.now) ≡ true }
        ensures room { length self.now.whole < 9223372036854775808 }
        ensures short { result < 9223372036854775808 }
    {
        let _ = self.count();
        let _ = self.whole.len();
        self.part.len()
    }

    fn has_negative_power(&self) -> bool
        ensures { result ≡ self.now.power_negative }
    {
        self.power_negative
    }

    // The value of the digit at a place.
    fn digit(&self, place: usize) -> u64
        requires { place < length (digits_of self.now) }
        ensures value { result ≡ digit_value (slice_index (digits_of self.now) place) }
        ensures small { result < 10 }
    {
        if place < self.whole.len() {
            digit_of(self.whole[place])
        } else {
            digit_of(self.part[place - self.whole.len()])
        }
    }

    // The number that the first digits write.
    fn front(&self, count: usize) -> Option<u64>
        requires { count ≤ length (digits_of self.now) }
        ensures { IsBounded result (digits_value 10 (take count (digits_of self.now))) }
    {
        let mut value = 0;
        for place in 0..count {
            value = value * 10 + self.digit(place);
            if value >= NUMBER_LIMIT {
                return None;
            }
        }
        Some(value)
    }

    // The exponent's magnitude, or the greatest number where it is above that.
    fn power(&self) -> u64
        ensures { result ≡ min (power_of self.now) 18446744073709551615 }
    {
        let mut power = 0u64;
        for byte in self.power {
            power = power.saturating_mul(10).saturating_add(digit_of(*byte));
        }
        power
    }

    // All digits, with zeros behind them.
    fn lengthened(&self, zeros: u128) -> Option<u64>
        ensures { IsBounded result (digits_value 10 (digits_of self.now) * 10 ^ zeros) }
    {
        match self.front(self.count()) {
            Some(value) => with_zeros(value, zeros),
            None => None,
        }
    }

    // The digits without the last ones, rounded by the first digit that is dropped.
    fn shortened(&self, dropped: usize) -> Option<u64>
        requires some { 0 < dropped }
        requires within { dropped ≤ length (digits_of self.now) }
        ensures { IsBounded result (nearest (digits_value 10 (digits_of self.now)) (10 ^ dropped)) }
    {
        let kept = self.count() - dropped;
        match self.front(kept) {
            Some(value) => bounded(rounded(value, self.digit(kept))),
            None => None,
        }
    }

    fn scaled_by(&self, up: u128, down: u128) -> Option<u64>
        ensures { IsBounded result (scaled (digits_of self.now) up down) }
    {
        if down <= up {
            return self.lengthened(up - down);
        }
        let dropped = down - up;
        if dropped > self.count() as u128 {
            return Some(0);
        }
        self.shortened(dropped as usize)
    }

    fn magnitude(&self, tens: u8) -> Option<u64>
        requires { tens ≤ 9 }
        ensures { IsBounded result (magnitude_of self.now tens) }
    {
        let power = u128::from(self.power());
        let up = u128::from(tens) + 6;
        let places = self.places() as u128;
        if self.has_negative_power() {
            self.scaled_by(up, places + power)
        } else {
            self.scaled_by(up + power, places)
        }
    }
}

fn signed(negative: bool, magnitude: u64) -> Micro
    requires { magnitude < NUMBER_LIMIT }
    ensures { result ≡ signed_of negative magnitude }
{
    let value = magnitude as i64;
    Micro(if negative { -value } else { value })
}

/// Reads a decimal number, times 10 to the power of `tens`, in millionths: an optional sign, digits with at most one
/// point and at least one digit, and an optional exponent.
pub fn read_decimal(bytes: &[u8], tens: u8) -> Result<Micro, NumErr>
    requires { tens ≤ 9 }
    ensures value { result ≡ read_of bytes.now tens }
    ensures nearest { IfOk result (λ m. HasMagnitude (decimal_of bytes.now) tens (nat_abs m)) }
    ensures far { result ≡ Err OutOfRange → IsFar (decimal_of bytes.now) tens }
{
    let Some(spelling) = take_apart(bytes) else {
        return Err(NumErr::NotNumber);
    };
    match spelling.magnitude(tens) {
        Some(magnitude) => Ok(signed(spelling.negative, magnitude)),
        None => Err(NumErr::OutOfRange),
    }
}
