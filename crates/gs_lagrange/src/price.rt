//! What a place of an instance costs, and whether it is allowed.
#![tactic(auto)]

ghost use Rattle.std.specs.Prelude.{◌≡◌, ◌==◌, ◌≤◌, ◌<◌, ◌+ℤ◌, None, Some, fold, if◌then◌else◌, length, nat_abs, slice_set};
ghost use Rattle.std.specs.List.{list_any};
ghost use Rattle.gs_design.specs.Insts.{inst_at};
ghost use Rattle.gs_design.specs.Sizes.{FitSizes};
ghost use Rattle.gs_design.specs.Timing.{FitTiming, local_of};
ghost use Rattle.gs_timing.specs.Calm.{IsCalmAt};
ghost use Rattle.gs_lagrange.specs.Cost.{cost_of, distinct, is_allowed, is_first_at, latest, leak_cost, record_with, share_of};
ghost use Rattle.gs_lagrange.specs.Flow.{weight_in};
ghost use Rattle.gs_lagrange.specs.Place.{choice_of};

use crate::amount::{greater, within};
use crate::choice::Choice;
use crate::cost::Cost;
use crate::weighed::Weighed;
use gs_design::{Design, InstId, NetId, NetTime, SizeView, Sizes, Timing};
use gs_quantity::{Micro, Steps};
use gs_timing::{arrivals_are_small, eval_net};
use std::marker::Brand;
use std::sync::ledger::{Blank, Ledger};

// Sizes with one instance at another place.
#[derive(Clone, Copy)]
struct Moved<'a> {
    sizes: &'a Sizes,
    inst: InstId,
    place: u32,
}

impl SizeView for Moved<'_> {
    ghost use Rattle.std.specs.Prelude.{slice_set};

    ghost places = { λ v. slice_set v.sizes.now v.inst v.place };

    #[inline]
    fn place(&self, inst: InstId) -> u32 {
        if inst.number() == self.inst.number() {
            self.place
        } else {
            self.sizes.place(inst)
        }
    }
}

// The record of a net at these sizes. The counter is thrown away.
fn evaluated<L: Ledger>(
    blank: Blank,
    design: &Design,
    sizes: &Moved,
    timing: &Timing,
    net: NetId,
) -> NetTime
    requires name { blank.name ≡ L.name }
    requires parts { blank.parts ≡ L.parts }
    requires some { 0 < blank.parts }
    requires net { net < length design.now.nets }
    requires sizes { FitSizes design.now (slice_set sizes.now.sizes.now sizes.now.inst sizes.now.place) }
    requires times { FitTiming design.now timing.now }
    requires calm { IsCalmAt design.now timing.now net }
    ensures { result ≡ local_of design.now (slice_set sizes.now.sizes.now sizes.now.inst sizes.now.place) timing.now net }
{
    let mut steps = Steps::<L>::begin(blank);
    eval_net(design, sizes, timing, net, &mut steps)
}

// The record of a net where one instance has another place.
fn record_with(weighed: &Weighed, inst: InstId, place: u32, net: NetId) -> NetTime
    requires inst { inst < length weighed.now.design.now.insts }
    requires place { place < length (inst_at weighed.now.design.now.insts inst).alts }
    requires net { net < length weighed.now.design.now.nets }
    ensures { result ≡ record_with weighed.now.design.now weighed.now.sizes.now weighed.now.timing.now inst place net }
{
    arrivals_are_small(weighed.design);
    let moved = Moved {
        sizes: weighed.sizes,
        inst,
        place,
    };
    evaluated::<Brand>(Blank::new(1), weighed.design, &moved, weighed.timing, net)
}

#[inline]
fn latest(time: &NetTime) -> Micro
    ensures { result ≡ latest time.now }
{
    greater(time.rise.arrival, time.fall.arrival)
}

#[inline]
fn weight_at(weighed: &Weighed, net: NetId) -> u64
    requires { net < length weighed.now.design.now.nets }
    ensures value { result ≡ weight_in weighed.now.flows.now net }
    ensures small { result ≤ 562949953421312 }
{
    weighed.flows.weight(net)
}

// The share of a net.
fn share(weighed: &Weighed, inst: InstId, place: u32, net: NetId) -> Cost
    requires inst { inst < length weighed.now.design.now.insts }
    requires place { place < length (inst_at weighed.now.design.now.insts inst).alts }
    requires net { net < length weighed.now.design.now.nets }
    ensures value { result ≡ share_of weighed.now.design.now weighed.now.sizes.now weighed.now.timing.now (weight_in weighed.now.flows.now) inst place net }
    ensures small { nat_abs result ≤ 5192296858534827628530496329220096 }
{
    let weight = weight_at(weighed, net);
    if weight == 0 {
        return Cost::zero();
    }
    Cost::of_arrival(weight, latest(&record_with(weighed, inst, place, net)))
}

// Whether a net is among these.
fn is_among(nets: &[NetId], net: NetId) -> bool
    ensures { result ≡ list_any (λ k. k == net) nets.now }
{
    for other in nets {
        if other.number() == net.number() {
            return true;
        }
    }
    false
}

// Whether the net at a place stands at none before it.
fn is_first_at(nets: &[NetId], at: usize) -> bool
    requires { at < length nets.now }
    ensures { result ≡ is_first_at nets.now at }
{
    !is_among(&nets[..at], nets[at])
}

// A cost, and the share of each distinct input net.
fn with_inputs(weighed: &Weighed, inst: InstId, place: u32, own: Cost) -> Cost
    requires inst { inst < length weighed.now.design.now.insts }
    requires place { place < length (inst_at weighed.now.design.now.insts inst).alts }
    requires small { nat_abs own ≤ 10384593717069655257060992658440192 }
    ensures { result ≡ fold (λ cost n. cost +ℤ share_of weighed.now.design.now weighed.now.sizes.now weighed.now.timing.now (weight_in weighed.now.flows.now) inst place n) own (distinct (inst_at weighed.now.design.now.insts inst).inputs) }
{
    let mut cost = own;
    let inputs = weighed.design.insts.inputs(inst);
    for i in 0..inputs.len() {
        if !is_first_at(inputs, i) {
            continue;
        }
        cost = cost.plus(&share(weighed, inst, place, inputs[i]));
    }
    cost
}

// The leakage of the cell at a place among an instance's alternatives.
fn leak_cost(design: &Design, inst: InstId, place: u32) -> Cost
    requires inst { inst < length design.now.insts }
    requires place { place < length (inst_at design.now.insts inst).alts }
    ensures value { result ≡ leak_cost design.now inst place }
    ensures small { nat_abs result ≤ 1152921504606846976 }
{
    Cost::of_leakage(design.cell(design.insts.cell(inst, place)).leakage)
}

// What a place costs, where this is the record of the output net.
fn cost_with(weighed: &Weighed, inst: InstId, place: u32, time: &NetTime) -> Cost
    requires inst { inst < length weighed.now.design.now.insts }
    requires place { place < length (inst_at weighed.now.design.now.insts inst).alts }
    requires time { time.now ≡ record_with weighed.now.design.now weighed.now.sizes.now weighed.now.timing.now inst place (inst_at weighed.now.design.now.insts inst).output }
    ensures { result ≡ cost_of weighed.now.design.now weighed.now.sizes.now weighed.now.timing.now (weight_in weighed.now.flows.now) inst place }
{
    let weight = weight_at(weighed, weighed.design.insts.output(inst));
    let own = Cost::of_arrival(weight, latest(time));
    let leak = leak_cost(weighed.design, inst, place);
    with_inputs(weighed, inst, place, leak.plus(&own))
}

/// A place of an instance with its cost, if it is allowed: if its load bound is met by the load of the output net.
pub fn choice_at(weighed: &Weighed, inst: InstId, place: u32) -> Option<Choice>
    requires inst { inst < length weighed.now.design.now.insts }
    requires place { place < length (inst_at weighed.now.design.now.insts inst).alts }
    ensures { result ≡ (if is_allowed weighed.now.design.now weighed.now.sizes.now weighed.now.timing.now inst place then Some (choice_of weighed.now.design.now weighed.now.sizes.now weighed.now.timing.now (weight_in weighed.now.flows.now) inst place) else None) }
{
    let time = record_with(weighed, inst, place, weighed.design.insts.output(inst));
    if within(time.load, &time.load_bound) {
        let cost = cost_with(weighed, inst, place, &time);
        Some(Choice { place, cost })
    } else {
        None
    }
}
