//! The multipliers of endpoints.
#![tactic(auto)]

ghost use Rattle.std.specs.Prelude.{◌≡◌, ◌≤◌, ◌<◌, ◌+ℤ◌, ◌-ℤ◌, ℕ, IfOk, length, nat_abs, pos};
ghost use Rattle.std.specs.Int.{int_div_euclid, int_max, int_min};
ghost use Rattle.gs_design.specs.Times.{time_at};
ghost use Rattle.gs_design.specs.Timing.{FitTiming};
ghost use Rattle.gs_timing.specs.Late.{IsLate};
ghost use Rattle.gs_lagrange.specs.Carry.{AreHeld};
ghost use Rattle.gs_lagrange.specs.Multiplier.{lateness_of, raised, raised_all};

use crate::amount::{greater, millionths};
use gs_design::{Design, Numbers, TimeView, Timing};
use gs_list::Rows;
use gs_quantity::{Mem, Micro};
use std::alloc::{AllocError, Global};

#[inline]
fn difference(a: Micro, b: Micro) -> Micro
    requires a { nat_abs a ≤ 1152921504606846976 }
    requires b { nat_abs b ≤ 1152921504606846976 }
    ensures value { result ≡ a -ℤ b }
    ensures small { nat_abs result ≤ 2305843009213693952 }
{
    Micro(millionths(a) - millionths(b))
}

// By how much what is held at an endpoint is above its bound.
fn lateness(design: &Design, timing: &Timing, end: usize) -> Micro
    requires end { end < length design.now.ends }
    requires timing { FitTiming design.now timing.now }
    requires late { (n : ℕ) → n < length design.now.nets → IsLate (time_at timing.now n) 1152921504606846975 }
    ensures value { result ≡ lateness_of design.now timing.now end }
    ensures small { nat_abs result ≤ 2305843009213693952 }
{
    let end = design.ends.at(end);
    let time = timing.at(end.net);
    difference(greater(time.rise.arrival, time.fall.arrival), end.bound)
}

#[inline]
fn a_64th(quantity: Micro) -> Micro
    ensures { result ≡ int_div_euclid quantity (pos 64) }
{
    Micro(millionths(quantity).div_euclid(64))
}

// A multiplier and steps up or down, held within 0 and 2^24.
fn stepped(multiplier: u32, steps: Micro) -> u32
    requires { nat_abs steps ≤ 2305843009213693952 }
    ensures value { result ≡ nat_abs (int_max (int_min (pos multiplier +ℤ steps) (pos 16777216)) (pos 0)) }
    ensures held { result ≤ 16777216 }
{
    let sum = multiplier as i64 + millionths(steps);
    if sum > 16_777_216 {
        16_777_216
    } else if sum < 0 {
        0
    } else {
        sum as u32
    }
}

// A multiplier and a 64th of the lateness.
fn raised(multiplier: u32, lateness: Micro) -> u32
    requires { nat_abs lateness ≤ 2305843009213693952 }
    ensures value { result ≡ raised multiplier lateness }
    ensures held { result ≤ 16777216 }
{
    stepped(multiplier, a_64th(lateness))
}

/// The multipliers after a pass with this timing.
///
/// # Errors
///
/// `Mem` is want of memory.
pub fn raised_all(
    alloc: Global,
    design: &Design,
    timing: &Timing,
    multipliers: &Numbers,
) -> Result<Numbers, Mem>
    requires timing { FitTiming design.now timing.now }
    requires late { (n : ℕ) → n < length design.now.nets → IsLate (time_at timing.now n) 1152921504606846975 }
    requires multipliers { length multipliers.now ≡ length design.now.ends }
    ensures value { IfOk result (λ r. r ≡ raised_all design.now timing.now multipliers.now) }
    ensures held { IfOk result (λ r. AreHeld r) }
{
    let mut items = Vec::with_capacity(alloc, multipliers.len())?;
    for number in 0..multipliers.len() {
        let late = lateness(design, timing, number);
        let multiplier = raised(*multipliers.at(number), late);
        items.push(multiplier).map_err(AllocError::from)?;
    }
    Ok(Rows::from_vec(items))
}
