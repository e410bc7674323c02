// Making tables, and looking values up.
ghost use Rattle.std.specs.Prelude.{◌≡◌, ℕ, ◌+◌, ◌*◌, ◌^◌, ◌<◌, ◌≤◌, ◌*ℤ◌, ◌+ℤ◌, pos, nat_abs, length, None, Some, IfOk, IfErr, MatchResult};
ghost use Rattle.gs_quantity.specs.Lookup.{at, corner_of, held_query, held_in, least_of, rounded_of, look_of, numerator_of, denominator_of, IsNearestUp, IsLook, IsTable};
ghost use Rattle.gs_quantity.specs.Spots.{mix_of, value_at, IsSpot};
ghost use Rattle.gs_quantity.specs.TableFault.{table_fault, IsTableFault};

use crate::limits::{RANGE_LIMIT, TABLE_LIMIT};
use crate::lookup::axis::{Spot, find_spot, hold_query};
use crate::lookup::fault::{TableErr, fault};
use crate::lookup::micros::{Micros, point};
use crate::lookup::rounding::nearest;
use crate::lookup::table::Table;
use crate::lookup::wide::{Wide, product};
use crate::micro::Micro;

// Both values, each weighed by the distance to the other's point.
#[inline]
fn mix(spot: &Spot, low: Micro, high: Micro) -> Wide
    requires after { nat_abs spot.now.after ≤ 2 ^ 37 }
    requires before { nat_abs spot.now.before ≤ 2 ^ 37 }
    requires low { nat_abs low < TABLE_LIMIT }
    requires high { nat_abs high < TABLE_LIMIT }
    ensures value { result ≡ mix_of spot.now low high }
    ensures small { nat_abs result ≤ 2 ^ 75 }
{
    product(low, spot.after).plus(product(high, spot.before))
}

// The same of two mixes.
#[inline]
fn mix_wide(spot: &Spot, low: Wide, high: Wide) -> Wide
    requires after { nat_abs spot.now.after ≤ 2 ^ 37 }
    requires before { nat_abs spot.now.before ≤ 2 ^ 37 }
    requires low { nat_abs low ≤ 2 ^ 75 }
    requires high { nat_abs high ≤ 2 ^ 75 }
    ensures value { result ≡ mix_of spot.now low high }
    ensures small { nat_abs result ≤ 2 ^ 113 }
{
    low.times(spot.after).plus(high.times(spot.before))
}

// A value held within the range of delays, or of slews.
#[inline]
fn hold(value: Wide, signed: bool) -> Micro
    ensures value { result ≡ held_in (least_of signed) (pos RANGE_LIMIT) value }
    ensures small { nat_abs result ≤ RANGE_LIMIT }
{
    let least = if signed { -(RANGE_LIMIT as i128) } else { 0 };
    Micro(value.0.clamp(least, RANGE_LIMIT as i128) as i64)
}

fn make(xs: Micros, ys: Micros, zs: Micros) -> Table
    requires { IsTable xs ys zs }
    ensures xs { result.xs ≡ xs }
    ensures ys { result.ys ≡ ys }
    ensures zs { result.zs ≡ zs }
{
    Table { xs, ys, zs }
}

impl Table {
    /// Makes a table of slew points, load points and values, row by row over the slew points. Takes no memory.
    pub fn new(xs: Vec<Micro>, ys: Vec<Micro>, zs: Vec<Micro>) -> Result<Table, TableErr>
        ensures fault { MatchResult result (λ _. table_fault xs.items ys.items zs.items ≡ None) (λ e. table_fault xs.items ys.items zs.items ≡ Some e) }
        ensures cause { IfErr result (λ e. IsTableFault xs.items ys.items zs.items e) }
        ensures xs { IfOk result (λ t. t.xs ≡ xs.items) }
        ensures ys { IfOk result (λ t. t.ys ≡ ys.items) }
        ensures zs { IfOk result (λ t. t.zs ≡ zs.items) }
    {
        let (xs, ys, zs) = (
            Micros::from_vec(xs),
            Micros::from_vec(ys),
            Micros::from_vec(zs),
        );
        match fault(&xs, &ys, &zs) {
            Some(error) => Err(error),
            None => Ok(make(xs, ys, zs)),
        }
    }

    // The value at a slew point and a load point.
    #[inline]
    fn corner(&self, slew: usize, load: usize) -> Micro
        requires slew { slew < length self.now.xs }
        requires load { load < length self.now.ys }
        ensures value { result ≡ corner_of self.now.zs (length self.now.ys) slew load }
        ensures small { nat_abs result < TABLE_LIMIT }
    {
        point(&self.zs, slew * self.ys.len() + load)
    }

    #[inline]
    fn value(&self, slew: &Spot, load: &Spot) -> Wide
        requires slew { IsSpot (length self.now.xs) slew.now }
        requires load { IsSpot (length self.now.ys) load.now }
        ensures { result ≡ value_at self.now.zs (length self.now.ys) slew.now load.now }
    {
        let low = mix(
            slew,
            self.corner(slew.low, load.low),
            self.corner(slew.high, load.low),
        );
        let high = mix(
            slew,
            self.corner(slew.low, load.high),
            self.corner(slew.high, load.high),
        );
        nearest(mix_wide(load, low, high), product(slew.span, load.span))
    }

    // The exact value at a query, rounded.
    #[inline]
    fn rounded(&self, slew: Micro, load: Micro) -> Wide
        requires slew { nat_abs slew ≤ RANGE_LIMIT }
        requires load { nat_abs load ≤ RANGE_LIMIT }
        ensures value { result ≡ rounded_of self.now.xs self.now.ys self.now.zs slew load }
        ensures nearest { IsNearestUp (numerator_of self.now.xs self.now.ys self.now.zs slew load) (denominator_of self.now.xs self.now.ys slew load) result }
    {
        let along = find_spot(&self.xs, slew);
        let across = find_spot(&self.ys, load);
        self.value(&along, &across)
    }

    /// The value at an input slew and an output load, between the points and beyond them by a straight line in each
    /// direction: a query below 0 counts as 0 and one above 2^36 as 2^36, the exact fraction is rounded once, ties upward,
    /// and then held within -2^36 .. 2^36 where the value is `signed` (a delay), else within 0 .. 2^36 (a slew). On an axis
    /// of one point the value doesn't depend on that axis. Takes no memory.
    #[inline]
    pub fn look(&self, slew: Micro, load: Micro, signed: bool) -> Micro
        ensures value { result ≡ look_of self.now.xs self.now.ys self.now.zs slew load signed }
        ensures exact { IsLook self.now.xs self.now.ys self.now.zs slew load signed result }
        ensures small { nat_abs result ≤ RANGE_LIMIT }
    {
        hold(self.rounded(hold_query(slew), hold_query(load)), signed)
    }
}
