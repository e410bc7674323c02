//! The weights of nets, of all paths at once: against the order of nets, what came by an edge goes on to the edge that it comes from.
#![tactic(auto)]

ghost use Rattle.std.specs.Prelude.{◌≡◌, ◌≤◌, ◌<◌, ◌+◌, ℕ, if◌then◌else◌, length, true, false};
ghost use Rattle.gs_lagrange.specs.Carry.{AreBegun, AreCarried, AreHeld};
ghost use Rattle.gs_lagrange.specs.Flow.{AreLight, flow_at, is_to, weight_in};
ghost use Rattle.gs_lagrange.specs.Path.{came_from, edge_on};
ghost use Rattle.gs_lagrange.specs.Timed.{IsTimed};
ghost use Rattle.gs_lagrange.specs.Weight.{weight_of};
ghost use Rattle.gs_lagrange.specs.declared.edge.NetEdge.{NetEdge as TheEdge};

use crate::edge::NetEdge;
use crate::flow::Flows;
use crate::source::{came_from, later_edge};
use gs_design::{Design, NetId, Numbers, Sizes, Timing};

// What came by an edge goes on to the edge that it comes from.
fn carry(design: &Design, sizes: &Sizes, timing: &Timing, flows: &mut Flows, edge: &NetEdge)
    requires timed { IsTimed design.now sizes.now timing.now }
    requires net { edge.now.net < length design.now.nets }
    requires as_many { length flows.old ≡ length design.now.nets }
    requires few { (e : TheEdge) → flow_at flows.old e ≤ 1125899906842624 }
    ensures as_many { length flows.new ≡ length design.now.nets }
    ensures at { (e : TheEdge) → flow_at flows.new e ≡ flow_at flows.old e + (if is_to (came_from design.now sizes.now timing.now edge.now) e then flow_at flows.old edge.now else 0) }
{
    let by = flows.at(edge);
    if by == 0 {
        return;
    }
    match came_from(design, sizes, timing, edge) {
        Some(source) => flows.add(&source, by),
        None => {}
    }
}

// The multipliers come by the edges at which the paths to their endpoints begin.
fn begin(design: &Design, timing: &Timing, multipliers: &Numbers, flows: &mut Flows)
    requires timing { length timing.now ≡ length design.now.nets }
    requires multipliers { length multipliers.now ≡ length design.now.ends }
    requires held { AreHeld multipliers.now }
    requires as_many { length flows.old ≡ length design.now.nets }
    requires none { (e : TheEdge) → flow_at flows.old e ≡ 0 }
    ensures as_many { length flows.new ≡ length design.now.nets }
    ensures begun { AreBegun design.now timing.now multipliers.now (length design.now.ends) flows.new }
{
    for number in 0..design.ends.len() {
        let edge = later_edge(timing, design.ends.at(number).net);
        flows.add(&edge, *multipliers.at(number) as u64);
    }
}

// Both edges of a net: what came by them goes on.
fn carry_both(design: &Design, sizes: &Sizes, timing: &Timing, flows: &mut Flows, net: NetId)
    requires timed { IsTimed design.now sizes.now timing.now }
    requires net { net < length design.now.nets }
    requires as_many { length flows.old ≡ length design.now.nets }
    requires light { AreLight flows.old }
    ensures as_many { length flows.new ≡ length design.now.nets }
    ensures at { (e : TheEdge) → flow_at flows.new e ≡ flow_at flows.old e
        + (if is_to (came_from design.now sizes.now timing.now (edge_on net true)) e then flow_at flows.old (edge_on net true) else 0)
        + (if is_to (came_from design.now sizes.now timing.now (edge_on net false)) e then flow_at flows.old (edge_on net false) else 0) }
{
    carry(design, sizes, timing, flows, &NetEdge { net, rise: true });
    carry(design, sizes, timing, flows, &NetEdge { net, rise: false });
}

// Follows all paths to their ends, net by net against the design's order.
fn follow(design: &Design, sizes: &Sizes, timing: &Timing, multipliers: &Numbers, flows: &mut Flows)
    requires timed { IsTimed design.now sizes.now timing.now }
    requires held { AreHeld multipliers.now }
    requires as_many { length flows.old ≡ length design.now.nets }
    requires begun { AreBegun design.now timing.now multipliers.now (length design.now.ends) flows.old }
    ensures as_many { length flows.new ≡ length design.now.nets }
    ensures carried { AreCarried design.now sizes.now timing.now multipliers.now 0 flows.new }
{
    let _ = multipliers;
    let mut place = design.order.len();
    while place > 0 {
        place -= 1;
        let net = *design.order.at(place);
        carry_both(design, sizes, timing, flows, net);
    }
}

/// Weighs the nets: at each the multipliers of the endpoints to which a path comes by it. It takes time in proportion to the nets and the
/// endpoints. Conditions: the timing is that of the sizes, and `flows` is of as many nets; what it held is gone.
pub fn weigh(
    design: &Design,
    sizes: &Sizes,
    timing: &Timing,
    multipliers: &Numbers,
    flows: &mut Flows,
)
    requires timed { IsTimed design.now sizes.now timing.now }
    requires multipliers { length multipliers.now ≡ length design.now.ends }
    requires held { AreHeld multipliers.now }
    requires as_many { length flows.old ≡ length design.now.nets }
    ensures as_many { length flows.new ≡ length design.now.nets }
    ensures light { AreLight flows.new }
    ensures weights { (n : ℕ) → weight_in flows.new n ≡ weight_of design.now sizes.now timing.now multipliers.now n }
{
    flows.clear();
    begin(design, timing, multipliers, flows);
    follow(design, sizes, timing, multipliers, flows);
}
