// Products of quantities. They pass 64 bits, and are far from the ends of 128.
ghost use Rattle.std.specs.Prelude.{◌≡◌, ◌+◌, ◌*◌, ◌^◌, ◌<◌, ◌≤◌, ◌<ℤ◌, ◌+ℤ◌, ◌*ℤ◌, nat_abs, pos, int_lt};
ghost use Rattle.std.specs.Int.{int_div_euclid};

use crate::micro::Micro;
use std::marker::Model;

/// A product of quantities, or a sum of such.
#[derive(Clone, Copy)]
pub struct Wide(pub i128);

impl Model for Wide {
    ghost use Rattle.std.specs.Prelude.{ℤ};

    ghost Value = { ℤ };

    ghost view = { λ w. w.0 };

    ghost inverse = { λ z. record { 0 = z } };
}

/// The product of two quantities.
#[inline]
pub fn product(a: Micro, b: Micro) -> Wide
    ensures value { result ≡ a *ℤ b }
    ensures small { nat_abs a ≤ 2 ^ 37 → nat_abs b ≤ 2 ^ 37 → nat_abs result ≤ 2 ^ 74 }
{
    Wide(a.0 as i128 * b.0 as i128)
}

impl Wide {
    /// Twice the number.
    #[inline]
    pub fn doubled(self) -> Wide
        requires { nat_abs self ≤ 2 ^ 120 }
        ensures value { result ≡ pos 2 *ℤ self }
        ensures small { nat_abs result ≡ 2 * nat_abs self }
    {
        Wide(2 * self.0)
    }

    /// Whether it is below 0.
    #[inline]
    pub fn is_negative(self) -> bool
        ensures { result ≡ int_lt self (pos 0) }
    {
        self.0 < 0
    }

    /// The number without its sign.
    #[inline]
    pub fn magnitude(self) -> u128
        ensures { result ≡ nat_abs self }
    {
        self.0.unsigned_abs()
    }

    /// A whole number.
    #[inline]
    pub fn from_whole(whole: u128) -> Wide
        requires { whole < 2 ^ 127 }
        ensures { result ≡ pos whole }
    {
        Wide(whole as i128)
    }

    /// The quotient, rounded down.
    #[inline]
    pub fn over(self, by: Wide) -> Wide
        requires { pos 0 <ℤ by }
        ensures { result ≡ int_div_euclid self by }
    {
        Wide(self.0.div_euclid(by.0))
    }

    /// The sum of two.
    #[inline]
    pub fn plus(self, other: Wide) -> Wide
        requires left { nat_abs self ≤ 2 ^ 120 }
        requires right { nat_abs other ≤ 2 ^ 120 }
        ensures value { result ≡ self +ℤ other }
        ensures small { nat_abs result ≤ nat_abs self + nat_abs other }
    {
        Wide(self.0 + other.0)
    }

    /// The product with a quantity.
    #[inline]
    pub fn times(self, by: Micro) -> Wide
        requires left { nat_abs self ≤ 2 ^ 75 }
        requires right { nat_abs by ≤ 2 ^ 37 }
        ensures value { result ≡ self *ℤ by }
        ensures small { nat_abs result ≤ 2 ^ 112 }
    {
        Wide(self.0 * by.0 as i128)
    }
}
