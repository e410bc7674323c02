//! The worst of the edges that reach a net.
#![tactic(auto)]

ghost use Rattle.std.specs.Prelude.{◌≡◌, ◌≤◌, ◌∷◌, [], ◌+ℤ◌, unwrap_or, nat_abs};
ghost use Rattle.std.specs.Int.{int_max};
ghost use Rattle.gs_design.specs.Edges.{worse, worst};
ghost use Rattle.gs_design.specs.Times.{edge_at_zero};

use gs_design::Edge;
use gs_quantity::Micro;

/// The worst rise and the worst fall so far, none where there was no candidate.
#[derive(Clone, Copy, Debug)]
pub struct Best {
    pub rise: Option<Edge>,
    pub fall: Option<Edge>,
}

#[inline(always)]
pub fn delayed(arrival: Micro, delay: Micro) -> Micro
    requires arrival { nat_abs arrival ≤ 4611686018427387904 }
    requires delay { nat_abs delay ≤ 68719476736 }
    ensures { result ≡ arrival +ℤ delay }
{
    Micro(arrival.0 + delay.0)
}

#[inline(always)]
fn greater(a: Micro, b: Micro) -> Micro
    ensures { result ≡ int_max a b }
{
    Micro(a.0.max(b.0))
}

#[inline(always)]
fn worse_of(a: &Edge, b: &Edge) -> Edge
    ensures { result ≡ worse a.now b.now }
{
    Edge {
        arrival: greater(a.arrival, b.arrival),
        slew: greater(a.slew, b.slew),
    }
}

/// The worst with one more candidate.
#[inline(always)]
pub fn later(best: &Option<Edge>, edge: &Edge) -> Option<Edge>
    ensures { result ≡ worst best.now (edge.now ∷ []) }
{
    match best {
        Some(other) => Some(worse_of(other, edge)),
        None => Some(*edge),
    }
}

/// The worst with two more candidates.
#[inline(always)]
pub fn later_two(best: &Option<Edge>, first: &Edge, second: &Edge) -> Option<Edge>
    ensures { result ≡ worst best.now (first.now ∷ second.now ∷ []) }
{
    match best {
        Some(other) => Some(worse_of(&worse_of(other, first), second)),
        None => Some(worse_of(first, second)),
    }
}

/// At time 0, without a slew.
#[inline(always)]
pub fn at_zero() -> Edge
    ensures { result ≡ edge_at_zero }
{
    Edge {
        arrival: Micro(0),
        slew: Micro(0),
    }
}

/// The worst edge, or that at time 0 where there was no candidate.
#[inline(always)]
pub fn or_zero(best: &Option<Edge>) -> Edge
    ensures { result ≡ unwrap_or best.now edge_at_zero }
{
    match best {
        Some(edge) => *edge,
        None => at_zero(),
    }
}
