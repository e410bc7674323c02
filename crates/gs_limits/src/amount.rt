//! Small sums and comparisons of quantities.
#![tactic(auto)]

ghost use Rattle.std.specs.Prelude.{◌≡◌, ◌≤ℤ◌, ◌<ℤ◌, ◌+ℤ◌, pos, Some};
ghost use Rattle.std.specs.Int.{int_max};
ghost use Rattle.gs_design.specs.Amounts.{IsAmount};
ghost use Rattle.gs_design.specs.Limits.{excess_over, is_within};

use gs_quantity::Micro;

#[inline]
fn millionths(quantity: Micro) -> i64
    ensures { result ≡ quantity }
{
    quantity.0
}

#[inline]
pub(crate) fn greater(a: Micro, b: Micro) -> Micro
    ensures { result ≡ int_max a b }
{
    if millionths(a) < millionths(b) { b } else { a }
}

// A sum that is far below the greatest number, and an amount more.
#[inline]
pub(crate) fn added(total: Micro, amount: Micro) -> Micro
    requires low { pos 0 ≤ℤ total }
    requires high { total <ℤ pos 4611686018427387904 }
    requires amount { IsAmount amount }
    ensures { result ≡ total +ℤ amount }
{
    Micro(millionths(total) + millionths(amount))
}

// Whether what is held is within a bound.
#[inline]
pub(crate) fn within(held: Micro, bound: &Option<Micro>) -> bool
    ensures { result ≡ is_within held bound.now }
{
    match *bound {
        None => true,
        Some(most) => millionths(held) <= millionths(most),
    }
}

// By how much one quantity is above another.
#[inline]
fn above(held: Micro, most: Micro) -> u64
    ensures { result ≡ excess_over held (Some most) }
{
    let held = millionths(held);
    let most = millionths(most);
    if most < held { held.abs_diff(most) } else { 0 }
}

// By how much what is held is above a bound.
#[inline]
pub(crate) fn over_bound(held: Micro, bound: &Option<Micro>) -> u64
    ensures { result ≡ excess_over held bound.now }
{
    match *bound {
        None => 0,
        Some(most) => above(held, most),
    }
}
