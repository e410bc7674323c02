// Where a query falls on an axis.
ghost use Rattle.std.specs.Prelude.{◌≡◌, ℕ, ◌+◌, ◌<◌, ◌≤◌, ◌^◌, nat_abs, length, pos, int_lt, ◌-ℤ◌, ◌≢◌};
ghost use Rattle.gs_quantity.specs.Lookup.{at, segment_of, held_query, IsAxis};
ghost use Rattle.gs_quantity.specs.Spots.{spot_between, spot_of, IsSpot};

use crate::limits::{RANGE_LIMIT, TABLE_LIMIT};
use crate::lookup::micros::{Micros, point};
use crate::micro::Micro;

/// The two points about a query, by their places, and the query's place between them: `after` is from the query to the
/// high one, `before` from the low one to the query, `span` from the low one to the high one. On an axis of one point
/// both are that point, and all weight lies on the low one.
#[derive(Drop)]
pub struct Spot {
    pub low: usize,
    pub high: usize,
    pub before: Micro,
    pub after: Micro,
    pub span: Micro,
}

/// The query, held to 0 .. 2^36 millionths.
#[inline]
pub fn hold_query(query: Micro) -> Micro
    ensures value { result ≡ held_query query }
    ensures small { nat_abs result ≤ RANGE_LIMIT }
{
    Micro(query.0.clamp(0, RANGE_LIMIT as i64))
}

#[inline]
fn is_above(point: Micro, query: Micro) -> bool
    ensures { result ≡ int_lt query point }
{
    point.0 > query.0
}

// The difference of two quantities.
#[inline]
fn minus(a: Micro, b: Micro) -> Micro
    requires left { nat_abs a ≤ RANGE_LIMIT }
    requires right { nat_abs b ≤ RANGE_LIMIT }
    ensures { result ≡ a -ℤ b }
{
    Micro(a.0 - b.0)
}

// The greatest place with a point after it whose own point is at or below the query, or 0.
fn segment(points: &Micros, query: Micro) -> usize
    requires { IsAxis points.now }
    ensures value { result ≡ segment_of points.now query }
    ensures within { length points.now ≢ 1 → result + 1 < length points.now }
{
    let last = points.len().saturating_sub(2);
    let mut place = 0;
    while place < last {
        if is_above(point(points, place + 1), query) {
            break;
        }
        place += 1;
    }
    place
}

#[inline]
fn between(place: usize, low: Micro, high: Micro, query: Micro) -> Spot
    requires place { place < 64 }
    requires low { nat_abs low ≤ TABLE_LIMIT }
    requires high { nat_abs high ≤ TABLE_LIMIT }
    requires query { nat_abs query ≤ RANGE_LIMIT }
    ensures { result ≡ spot_between place low high query }
{
    Spot {
        low: place,
        high: place + 1,
        before: minus(query, low),
        after: minus(high, query),
        span: minus(high, low),
    }
}

/// Where a query falls on an axis.
#[inline]
pub fn find_spot(points: &Micros, query: Micro) -> Spot
    requires axis { IsAxis points.now }
    requires query { nat_abs query ≤ RANGE_LIMIT }
    ensures value { result ≡ spot_of points.now query }
    ensures small { IsSpot (length points.now) result }
{
    if points.len() == 1 {
        return Spot {
            low: 0,
            high: 0,
            before: Micro(0),
            after: Micro(1),
            span: Micro(1),
        };
    }
    let place = segment(points, query);
    between(place, point(points, place), point(points, place + 1), query)
}
