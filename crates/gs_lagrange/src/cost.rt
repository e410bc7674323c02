//! Costs: wide whole numbers.
#![tactic(auto)]

use crate::amount::millionths;
use gs_quantity::Micro;
use std::marker::Model;

/// What a place of an instance costs. Contracts see the number.
#[derive(Clone, Copy, Debug)]
pub struct Cost(i128);

impl Model for Cost {
    ghost use Rattle.std.specs.Prelude.{ℤ};

    ghost Value = { ℤ };

    ghost view = { λ c. c.0 };

    ghost inverse = { λ z. record { 0 = z } };
}

impl Cost {
    ghost use Rattle.std.specs.Prelude.{◌≡◌, ◌≤◌, ◌+◌, ◌+ℤ◌, ◌*ℤ◌, int_lt, nat_abs, pos};
    ghost use Rattle.gs_design.specs.Amounts.{IsAmount};

    /// Nothing.
    pub fn zero() -> Cost
        ensures { result ≡ pos 0 }
    {
        Cost(0)
    }

    /// 2^20 times a leakage.
    pub fn of_leakage(leakage: Micro) -> Cost
        requires { IsAmount leakage }
        ensures value { result ≡ pos 1048576 *ℤ leakage }
        ensures small { nat_abs result ≤ 1152921504606846976 }
    {
        Cost(1_048_576 * millionths(leakage) as i128)
    }

    /// A weight times an arrival.
    pub fn of_arrival(weight: u64, arrival: Micro) -> Cost
        requires { weight ≤ 562949953421312 }
        ensures value { result ≡ pos weight *ℤ arrival }
        ensures small { nat_abs result ≤ 5192296858534827628530496329220096 }
    {
        Cost(weight as i128 * millionths(arrival) as i128)
    }

    /// The sum.
    pub fn plus(&self, other: &Cost) -> Cost
        requires { nat_abs self.now + nat_abs other.now ≤ 1329227995784915872903807060280344576 }
        ensures { result ≡ self.now +ℤ other.now }
    {
        Cost(self.0 + other.0)
    }

    /// Whether it is less than another.
    pub fn is_below(&self, other: &Cost) -> bool
        ensures { result ≡ int_lt self.now other.now }
    {
        self.0 < other.0
    }
}
