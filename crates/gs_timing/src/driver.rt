//! The edges that a driver makes.
#![tactic(auto)]

ghost use Rattle.std.specs.Prelude.{◌≡◌, ◌<◌, All, None, true, false, length, slice_index};
ghost use Rattle.gs_design.specs.Cell.{is_launch};
ghost use Rattle.gs_design.specs.Edges.{allowed, candidates, worst};
ghost use Rattle.gs_design.specs.Timing.{net_edges};
ghost use Rattle.gs_design.specs.Times.{no_time, time_at};
ghost use Rattle.gs_timing.specs.Calm.{IsCalm, IsCalmEdge};

use crate::arc::with_arc;
use crate::edge::{Best, at_zero};
use gs_design::{Edge, NetId, NetTime, Sense, TimeView, TimingArc};
use gs_quantity::Micro;

/// The record of a net that is yet to be timed.
#[inline(always)]
pub fn no_time_yet() -> NetTime
    ensures { result ≡ no_time }
{
    NetTime {
        load: Micro(0),
        load_bound: None,
        slew_bound: None,
        rise: at_zero(),
        fall: at_zero(),
    }
}

// The timing of the net at an arc's input. A flip-flop's arcs need none.
#[inline(always)]
fn input_time<T: TimeView>(arc: &TimingArc, inputs: &[NetId], times: &T) -> NetTime
    requires pin { arc.now.pin < length inputs.now }
    requires net { slice_index inputs.now arc.now.pin < length (T.TimeView.times times.now) }
    requires calm { is_launch arc.now.sense ≡ false → IsCalm (time_at (T.TimeView.times times.now) (slice_index inputs.now arc.now.pin)) }
    ensures calm { IsCalm result }
    ensures rise { allowed arc.now.sense true (record { rise = result.rise; fall = result.fall }) ≡ allowed arc.now.sense true (net_edges (T.TimeView.times times.now) (slice_index inputs.now arc.now.pin)) }
    ensures fall { allowed arc.now.sense false (record { rise = result.rise; fall = result.fall }) ≡ allowed arc.now.sense false (net_edges (T.TimeView.times times.now) (slice_index inputs.now arc.now.pin)) }
{
    match arc.sense {
        Sense::Launch => no_time_yet(),
        Sense::Same | Sense::Other | Sense::Both => times.at(inputs[arc.pin as usize]),
    }
}

/// The worst edges over all arcs of an instance's cell.
#[inline(always)]
pub fn instance_best<T: TimeView>(
    arcs: &[TimingArc],
    inputs: &[NetId],
    times: &T,
    load: Micro,
) -> Best
    requires pins { All (λ a. a.pin < length inputs.now) arcs.now }
    requires nets { All (λ m. m < length (T.TimeView.times times.now)) inputs.now }
    requires calm { All (λ a. is_launch a.sense ≡ false → IsCalm (time_at (T.TimeView.times times.now) (slice_index inputs.now a.pin))) arcs.now }
    ensures rise { result.rise ≡ worst None (candidates load true (λ p. net_edges (T.TimeView.times times.now) (slice_index inputs.now p)) arcs.now) }
    ensures fall { result.fall ≡ worst None (candidates load false (λ p. net_edges (T.TimeView.times times.now) (slice_index inputs.now p)) arcs.now) }
{
    let mut best = Best {
        rise: None,
        fall: None,
    };
    for arc in arcs {
        let time = input_time(arc, inputs, times);
        best = with_arc(&best, arc, load, &time.rise, &time.fall);
    }
    best
}

/// The worst edges over all arcs of a cell that has these edges at every input.
#[inline(always)]
pub fn cell_best(arcs: &[TimingArc], rise: &Edge, fall: &Edge, load: Micro) -> Best
    requires rise { IsCalmEdge rise.now }
    requires fall { IsCalmEdge fall.now }
    ensures rise { result.rise ≡ worst None (candidates load true (λ p. record { rise = rise.now; fall = fall.now }) arcs.now) }
    ensures fall { result.fall ≡ worst None (candidates load false (λ p. record { rise = rise.now; fall = fall.now }) arcs.now) }
{
    let mut best = Best {
        rise: None,
        fall: None,
    };
    for arc in arcs {
        best = with_arc(&best, arc, load, rise, fall);
    }
    best
}
