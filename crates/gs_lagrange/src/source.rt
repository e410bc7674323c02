//! Where an edge of a net comes from.
#![tactic(auto)]

ghost use Rattle.std.specs.Prelude.{◌≡◌, ◌<◌, [], ◌∷◌, All, true, false, length, slice_index};
ghost use Rattle.gs_design.specs.Cell.{is_launch};
ghost use Rattle.gs_design.specs.Edges.{edge_of, through};
ghost use Rattle.gs_design.specs.Times.{time_at};
ghost use Rattle.gs_design.specs.declared.sink.Driver.TheVariants.{Inst};
ghost use Rattle.gs_timing.specs.Calm.{IsCalm, IsCalmEdge};
ghost use Rattle.gs_lagrange.specs.Path.{arc_candidates, came_from, candidate_from, cell_candidates, edge_on, first_with, later_edge, source_through};
ghost use Rattle.gs_lagrange.specs.Timed.{IsTimed};

use crate::amount::{delayed, is_before, is_same};
use crate::edge::NetEdge;
use gs_design::{
    Design, Driver, Edge, InstId, NetId, NetTime, Sense, SizeView, Sizes, TimeView, Timing,
    TimingArc,
};
use gs_quantity::Micro;
use gs_timing::arrivals_are_small;

// An edge that a cell makes at its output: the load there, whether it is the rise, and when it comes.
#[derive(Clone, Copy)]
struct Made {
    load: Micro,
    rise: bool,
    arrival: Micro,
}

#[inline]
fn edge_at(net: NetId, rise: bool) -> NetEdge
    ensures { result ≡ edge_on net rise }
{
    NetEdge { net, rise }
}

// One of the two edges of a net.
#[inline]
fn edge_in(time: &NetTime, rise: bool) -> Edge
    ensures { result ≡ edge_of rise (record { rise = time.now.rise; fall = time.now.fall }) }
{
    if rise { time.rise } else { time.fall }
}

/// The edge of a net with the greater arrival, the rise where they come at one time.
pub fn later_edge(timing: &Timing, net: NetId) -> NetEdge
    requires { net < length timing.now }
    ensures { result ≡ later_edge timing.now net }
{
    let time = timing.at(net);
    edge_at(net, !is_before(time.rise.arrival, time.fall.arrival))
}

// When an edge at an arc's input comes to the output.
#[inline]
fn arrives(arc: &TimingArc, load: Micro, rise: bool, from: &Edge) -> Micro
    requires { IsCalmEdge from.now }
    ensures { result ≡ (through arc.now load rise from.now).arrival }
{
    if rise {
        delayed(from.arrival, arc.cell_rise.look(from.slew, load, true))
    } else {
        delayed(from.arrival, arc.cell_fall.look(from.slew, load, true))
    }
}

// The edge of an arc's input net, if the edge at the output comes from it.
#[inline]
fn if_source(
    arc: &TimingArc,
    inputs: &[NetId],
    timing: &Timing,
    made: &Made,
    rise: bool,
) -> Option<NetEdge>
    requires pin { arc.now.pin < length inputs.now }
    requires net { slice_index inputs.now arc.now.pin < length timing.now }
    requires calm { IsCalm (time_at timing.now (slice_index inputs.now arc.now.pin)) }
    ensures { result ≡ first_with made.now.arrival (candidate_from timing.now inputs.now made.now.load made.now.rise arc.now rise ∷ []) }
{
    let net = inputs[arc.pin as usize];
    let from = edge_in(&timing.at(net), rise);
    if is_same(arrives(arc, made.load, made.rise, &from), made.arrival) {
        Some(edge_at(net, rise))
    } else {
        None
    }
}

// The first of both edges that is the source.
#[inline]
fn first_of_both(arc: &TimingArc, inputs: &[NetId], timing: &Timing, made: &Made) -> Option<NetEdge>
    requires pin { arc.now.pin < length inputs.now }
    requires net { slice_index inputs.now arc.now.pin < length timing.now }
    requires calm { IsCalm (time_at timing.now (slice_index inputs.now arc.now.pin)) }
    ensures { result ≡ first_with made.now.arrival (candidate_from timing.now inputs.now made.now.load made.now.rise arc.now true ∷ candidate_from timing.now inputs.now made.now.load made.now.rise arc.now false ∷ []) }
{
    match if_source(arc, inputs, timing, made, true) {
        Some(edge) => Some(edge),
        None => if_source(arc, inputs, timing, made, false),
    }
}

// The first edge at an arc's input from which the edge at the output comes.
#[inline]
fn arc_source(arc: &TimingArc, inputs: &[NetId], timing: &Timing, made: &Made) -> Option<NetEdge>
    requires pin { arc.now.pin < length inputs.now }
    requires net { slice_index inputs.now arc.now.pin < length timing.now }
    requires calm { is_launch arc.now.sense ≡ false → IsCalm (time_at timing.now (slice_index inputs.now arc.now.pin)) }
    ensures { result ≡ first_with made.now.arrival (arc_candidates timing.now inputs.now made.now.load made.now.rise arc.now) }
{
    match arc.sense {
        Sense::Same => if_source(arc, inputs, timing, made, made.rise),
        Sense::Other => if_source(arc, inputs, timing, made, !made.rise),
        Sense::Both => first_of_both(arc, inputs, timing, made),
        Sense::Launch => None,
    }
}

// The first edge at an input from which the edge at a cell's output comes.
fn cell_source(
    arcs: &[TimingArc],
    inputs: &[NetId],
    timing: &Timing,
    made: &Made,
) -> Option<NetEdge>
    requires pins { All (λ a. a.pin < length inputs.now) arcs.now }
    requires nets { All (λ m. m < length timing.now) inputs.now }
    requires calm { All (λ a. is_launch a.sense ≡ false → IsCalm (time_at timing.now (slice_index inputs.now a.pin))) arcs.now }
    ensures { result ≡ first_with made.now.arrival (cell_candidates timing.now inputs.now made.now.load made.now.rise arcs.now) }
{
    for arc in arcs {
        match arc_source(arc, inputs, timing, made) {
            Some(edge) => return Some(edge),
            None => continue,
        }
    }
    None
}

#[inline]
fn made_at(time: &NetTime, rise: bool) -> Made
    ensures load { result.load ≡ time.now.load }
    ensures rise { result.rise ≡ rise }
    ensures arrival { result.arrival ≡ (edge_of rise (record { rise = time.now.rise; fall = time.now.fall })).arrival }
{
    Made {
        load: time.load,
        rise,
        arrival: edge_in(time, rise).arrival,
    }
}

// The edge from which an edge of a net that an instance drives comes, if it comes from one.
fn inst_source(
    design: &Design,
    sizes: &Sizes,
    timing: &Timing,
    edge: &NetEdge,
    inst: InstId,
) -> Option<NetEdge>
    requires timed { IsTimed design.now sizes.now timing.now }
    requires net { edge.now.net < length design.now.nets }
    requires inst { inst < length design.now.insts }
    ensures { result ≡ source_through design.now sizes.now timing.now edge.now (Inst inst) }
{
    arrivals_are_small(design);
    let cell = design.insts.cell(inst, sizes.place(inst));
    let made = made_at(&timing.at(edge.net), edge.rise);
    cell_source(design.arcs(cell), design.insts.inputs(inst), timing, &made)
}

/// The edge from which an edge of a net comes, if a gate drives the net: that at the input of the first candidate whose arrival is the edge's.
pub fn came_from(design: &Design, sizes: &Sizes, timing: &Timing, edge: &NetEdge) -> Option<NetEdge>
    requires timed { IsTimed design.now sizes.now timing.now }
    requires net { edge.now.net < length design.now.nets }
    ensures { result ≡ came_from design.now sizes.now timing.now edge.now }
{
    match design.nets.driver(edge.net) {
        Driver::Port { .. } => None,
        Driver::Inst(inst) => inst_source(design, sizes, timing, edge, *inst),
    }
}
