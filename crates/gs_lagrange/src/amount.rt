//! Small sums and comparisons of quantities.
#![tactic(auto)]

ghost use Rattle.std.specs.Prelude.{◌≡◌, ◌≤◌, ◌+ℤ◌, int_lt, nat_abs};
ghost use Rattle.std.specs.Int.{int_max};
ghost use Rattle.std.specs.Ordering.{int_eq};
ghost use Rattle.gs_design.specs.Limits.{is_within};

use gs_quantity::Micro;

#[inline]
pub fn millionths(quantity: Micro) -> i64
    ensures { result ≡ quantity }
{
    quantity.0
}

#[inline]
pub fn is_before(a: Micro, b: Micro) -> bool
    ensures { result ≡ int_lt a b }
{
    millionths(a) < millionths(b)
}

#[inline]
pub fn is_same(a: Micro, b: Micro) -> bool
    ensures { result ≡ int_eq a b }
{
    millionths(a) == millionths(b)
}

#[inline]
pub fn greater(a: Micro, b: Micro) -> Micro
    ensures { result ≡ int_max a b }
{
    if is_before(a, b) { b } else { a }
}

/// An arrival, and a delay after it.
#[inline]
pub fn delayed(arrival: Micro, delay: Micro) -> Micro
    requires arrival { nat_abs arrival ≤ 4611686018427387904 }
    requires delay { nat_abs delay ≤ 68719476736 }
    ensures { result ≡ arrival +ℤ delay }
{
    Micro(arrival.0 + delay.0)
}

/// Whether what is held is within a bound. A bound that isn't given bounds nothing.
#[inline]
pub fn within(held: Micro, bound: &Option<Micro>) -> bool
    ensures { result ≡ is_within held bound.now }
{
    match *bound {
        None => true,
        Some(most) => !is_before(most, held),
    }
}
