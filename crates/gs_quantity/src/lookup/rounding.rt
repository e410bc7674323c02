// Rounding a fraction to the nearest whole number, ties upward. The quotient is the dear part of a lookup, so numbers
// of 64 bits are divided as such, and for wider ones a quotient in floating point is taken where it proves to be right.
ghost use Rattle.std.specs.Prelude.{◌≡◌, ℕ, ◌+◌, ◌*◌, ◌/◌, ◌^◌, ◌<◌, ◌≤◌, ◌↔◌, IsTrue, nat_abs, pos, ◌≤ℤ◌, ◌<ℤ◌};
ghost use Rattle.std.specs.Int.{int_div_euclid};
ghost use Rattle.gs_quantity.specs.Lookup.{nearest_of};

use crate::lookup::wide::Wide;
use std::num::{nearest_u64_to_f64, saturating_f64_to_i64};

const NARROW: u128 = 1 << 63;

const MIDDLE: u128 = 1 << 95;

const SHIFT: u128 = 1 << 32;

// About the quotient, whole and below 2^40.
#[inline]
fn guess(top: u128, bottom: u64) -> u64
    requires { top < 2 ^ 95 }
    ensures { result < 2 ^ 40 }
{
    let about = nearest_u64_to_f64((top / SHIFT) as u64) / nearest_u64_to_f64(bottom);
    saturating_f64_to_i64(about * 4_294_967_296.0).clamp(0, (1 << 40) - 1) as u64
}

#[inline]
fn is_quotient(top: u128, bottom: u64, whole: u64) -> bool
    requires { whole < 2 ^ 40 }
    ensures { IsTrue result ↔ ((whole * bottom ≤ top) × (top < whole * bottom + bottom)) }
{
    let least = whole as u128 * bottom as u128;
    least <= top && top < least + bottom as u128
}

#[inline]
fn quotient(top: u128, bottom: u64) -> u128
    requires { 0 < bottom }
    ensures value { result ≡ top / bottom }
    ensures small { result ≤ top }
{
    if top < NARROW {
        return (top as u64 / bottom) as u128;
    }
    if top < MIDDLE {
        let whole = guess(top, bottom);
        if is_quotient(top, bottom, whole) {
            return whole as u128;
        }
    }
    top / bottom as u128
}

// The quotient, rounded down.
#[inline]
fn floor(top: Wide, bottom: Wide) -> Wide
    requires some { pos 0 <ℤ bottom }
    requires top { nat_abs top ≤ 2 ^ 120 }
    ensures { result ≡ int_div_euclid top bottom }
{
    let under = bottom.magnitude();
    if top.is_negative() || under >= NARROW {
        return top.over(bottom);
    }
    Wide::from_whole(quotient(top.magnitude(), under as u64))
}

/// The greatest whole number that is at most one half above the fraction.
#[inline]
pub fn nearest(over: Wide, under: Wide) -> Wide
    requires over { nat_abs over ≤ 2 ^ 114 }
    requires some { pos 0 <ℤ under }
    requires under { nat_abs under ≤ 2 ^ 74 }
    ensures { result ≡ nearest_of over under }
{
    floor(over.doubled().plus(under), under.doubled())
}
