//! The edges that one arc makes.
#![tactic(auto)]

ghost use Rattle.std.specs.Prelude.{◌≡◌, ◌∷◌, [], map, true, false};
ghost use Rattle.gs_design.specs.Edges.{allowed, through, worst};
ghost use Rattle.gs_timing.specs.Calm.{IsCalmEdge};

use crate::edge::{Best, at_zero, delayed, later, later_two};
use gs_design::{Edge, Sense, TimingArc};
use gs_quantity::Micro;

#[inline(always)]
fn through_rise(arc: &TimingArc, load: Micro, from: &Edge) -> Edge
    requires { IsCalmEdge from.now }
    ensures { result ≡ through arc.now load true from.now }
{
    Edge {
        arrival: delayed(from.arrival, arc.cell_rise.look(from.slew, load, true)),
        slew: arc.rise_transition.look(from.slew, load, false),
    }
}

#[inline(always)]
fn through_fall(arc: &TimingArc, load: Micro, from: &Edge) -> Edge
    requires { IsCalmEdge from.now }
    ensures { result ≡ through arc.now load false from.now }
{
    Edge {
        arrival: delayed(from.arrival, arc.cell_fall.look(from.slew, load, true)),
        slew: arc.fall_transition.look(from.slew, load, false),
    }
}

// The worst with one more candidate for each edge: the input's edge `to_rise` makes a rise, and `to_fall` a fall.
#[inline(always)]
fn with_pair(best: &Best, arc: &TimingArc, load: Micro, to_rise: &Edge, to_fall: &Edge) -> Best
    requires rise { IsCalmEdge to_rise.now }
    requires fall { IsCalmEdge to_fall.now }
    ensures rise { result.rise ≡ worst best.now.rise (through arc.now load true to_rise.now ∷ []) }
    ensures fall { result.fall ≡ worst best.now.fall (through arc.now load false to_fall.now ∷ []) }
{
    Best {
        rise: later(&best.rise, &through_rise(arc, load, to_rise)),
        fall: later(&best.fall, &through_fall(arc, load, to_fall)),
    }
}

// The worst with two more candidates for each edge: both edges at the input make both.
#[inline(always)]
fn with_both(best: &Best, arc: &TimingArc, load: Micro, rise: &Edge, fall: &Edge) -> Best
    requires rise { IsCalmEdge rise.now }
    requires fall { IsCalmEdge fall.now }
    ensures rise { result.rise ≡ worst best.now.rise (through arc.now load true rise.now ∷ through arc.now load true fall.now ∷ []) }
    ensures fall { result.fall ≡ worst best.now.fall (through arc.now load false rise.now ∷ through arc.now load false fall.now ∷ []) }
{
    Best {
        rise: later_two(
            &best.rise,
            &through_rise(arc, load, rise),
            &through_rise(arc, load, fall),
        ),
        fall: later_two(
            &best.fall,
            &through_fall(arc, load, rise),
            &through_fall(arc, load, fall),
        ),
    }
}

/// The worst with the candidates of one arc more, from the edges at its input.
#[inline(always)]
pub fn with_arc(best: &Best, arc: &TimingArc, load: Micro, rise: &Edge, fall: &Edge) -> Best
    requires rise { IsCalmEdge rise.now }
    requires fall { IsCalmEdge fall.now }
    ensures rise { result.rise ≡ worst best.now.rise (map (through arc.now load true) (allowed arc.now.sense true (record { rise = rise.now; fall = fall.now }))) }
    ensures fall { result.fall ≡ worst best.now.fall (map (through arc.now load false) (allowed arc.now.sense false (record { rise = rise.now; fall = fall.now }))) }
{
    match arc.sense {
        Sense::Same => with_pair(best, arc, load, rise, fall),
        Sense::Other => with_pair(best, arc, load, fall, rise),
        Sense::Both => with_both(best, arc, load, rise, fall),
        Sense::Launch => with_pair(best, arc, load, &at_zero(), &at_zero()),
    }
}
