//! Whether two records of a net are the same.
#![tactic(auto)]

ghost use Rattle.std.specs.Prelude.{◌≡◌};
ghost use Rattle.std.specs.Option.{option_eq};
ghost use Rattle.std.specs.Ordering.{int_eq};
ghost use Rattle.gs_move.specs.Records.{same_edge, same_record};

use gs_design::{Edge, NetTime};
use gs_quantity::Micro;

#[inline]
fn millionths(amount: Micro) -> i64
    ensures { result ≡ amount }
{
    amount.0
}

#[inline]
fn same_amount(a: Micro, b: Micro) -> bool
    ensures { result ≡ int_eq a b }
{
    millionths(a) == millionths(b)
}

#[inline]
fn same_bound(a: &Option<Micro>, b: &Option<Micro>) -> bool
    ensures { result ≡ option_eq int_eq a.now b.now }
{
    match (a, b) {
        (Some(x), Some(y)) => same_amount(*x, *y),
        (Some(_), None) => false,
        (None, Some(_)) => false,
        (None, None) => true,
    }
}

#[inline]
fn same_edge(a: &Edge, b: &Edge) -> bool
    ensures { result ≡ same_edge a.now b.now }
{
    same_amount(a.arrival, b.arrival) && same_amount(a.slew, b.slew)
}

/// Whether two records of a net are the same: load, bounds and both edges.
#[inline]
pub fn same_record(a: &NetTime, b: &NetTime) -> bool
    ensures { result ≡ same_record a.now b.now }
{
    let bounds = same_bound(&a.load_bound, &b.load_bound)
        && same_bound(&a.slew_bound, &b.slew_bound);
    let edges = same_edge(&a.rise, &b.rise) && same_edge(&a.fall, &b.fall);
    same_amount(a.load, b.load) && bounds && edges
}
