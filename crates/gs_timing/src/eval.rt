//! The record of a net.
#![tactic(auto)]

ghost use Rattle.std.specs.Prelude.{◌≡◌, ◌+◌, ◌<◌, ◌≤◌, ℕ, List, Some, length, nat_abs, unwrap_or};
ghost use Rattle.gs_design.specs.Nets.{net_at};
ghost use Rattle.gs_design.specs.Sizes.{FitSizes};
ghost use Rattle.gs_design.specs.Timing.{FitTiming, driver_edges, local_of, port_edge};
ghost use Rattle.gs_design.specs.Times.{edge_at_zero};
ghost use Rattle.gs_design.specs.declared.sink.Driven.{Driven};
ghost use Rattle.gs_design.specs.declared.time.NetTime.{NetTime};
ghost use Rattle.gs_design.specs.declared.sink.Driver.TheVariants.{Inst, Port};
ghost use Rattle.gs_timing.specs.Calm.{IsCalmAt};

use crate::driver::{cell_best, instance_best};
use crate::edge::{Best, or_zero};
use crate::hung::{Hung, chosen, hung_on};
use gs_design::{Design, Driven, Driver, Edge, InstId, NetId, NetTime, SizeView, TimeView};
use gs_quantity::{Micro, Steps};
use std::sync::ledger::Ledger;

#[inline(always)]
fn edge_of(arrival: Micro, slew: Micro) -> Edge
    ensures { result ≡ record { arrival = arrival; slew = slew } }
{
    Edge { arrival, slew }
}

// The edges of a net that a port drives by itself.
#[inline(always)]
fn plain_best(delay: Micro) -> Best
    ensures rise { result.rise ≡ Some (port_edge delay) }
    ensures fall { result.fall ≡ Some (port_edge delay) }
{
    Best {
        rise: Some(edge_of(delay, Micro(0))),
        fall: Some(edge_of(delay, Micro(0))),
    }
}

// The worst edges of a net that a port drives.
#[inline(always)]
fn port_best(design: &Design, load: Micro, delay: Micro, cell: &Option<Driven>) -> Best
    requires delay { nat_abs delay ≤ 4611686018427387904 }
    requires cell { (c : Driven) → cell.now ≡ Some c → c.cell < length design.now.cells }
    ensures rise { (s : List ℕ) (t : List NetTime) → unwrap_or result.rise edge_at_zero ≡ (driver_edges design.now s t load (Port delay cell.now)).rise }
    ensures fall { (s : List ℕ) (t : List NetTime) → unwrap_or result.fall edge_at_zero ≡ (driver_edges design.now s t load (Port delay cell.now)).fall }
{
    match cell {
        Some(driven) => {
            let rise = edge_of(delay, driven.rise);
            let fall = edge_of(delay, driven.fall);
            cell_best(design.arcs(driven.cell), &rise, &fall, load)
        }
        None => plain_best(delay),
    }
}

#[inline(always)]
fn record_of(hung: &Hung, load_bound: &Option<Micro>, best: &Best) -> NetTime
    ensures { result ≡ record { load = hung.now.load; load_bound = load_bound.now; slew_bound = hung.now.slew_bound; rise = unwrap_or best.now.rise edge_at_zero; fall = unwrap_or best.now.fall edge_at_zero } }
{
    NetTime {
        load: hung.load,
        load_bound: *load_bound,
        slew_bound: hung.slew_bound,
        rise: or_zero(&best.rise),
        fall: or_zero(&best.fall),
    }
}

#[inline(always)]
fn eval_port<S: SizeView>(
    design: &Design,
    sizes: &S,
    net: NetId,
    delay: Micro,
    cell: &Option<Driven>,
) -> NetTime
    requires net { net < length design.now.nets }
    requires driver { (net_at design.now.nets net).driver ≡ Port delay cell.now }
    requires sizes { FitSizes design.now (S.SizeView.places sizes.now) }
    ensures value { (t : List NetTime) → result ≡ local_of design.now (S.SizeView.places sizes.now) t net }
    ensures small { nat_abs result.load < 288230376151711744 }
{
    let hung = hung_on(design, sizes, net, &None);
    let best = port_best(design, hung.load, delay, cell);
    record_of(&hung, &None, &best)
}

#[inline(always)]
fn eval_inst<S: SizeView, T: TimeView>(
    design: &Design,
    sizes: &S,
    times: &T,
    net: NetId,
    inst: InstId,
) -> NetTime
    requires net { net < length design.now.nets }
    requires driver { (net_at design.now.nets net).driver ≡ Inst inst }
    requires sizes { FitSizes design.now (S.SizeView.places sizes.now) }
    requires times { FitTiming design.now (T.TimeView.times times.now) }
    requires calm { IsCalmAt design.now (T.TimeView.times times.now) net }
    ensures value { result ≡ local_of design.now (S.SizeView.places sizes.now) (T.TimeView.times times.now) net }
    ensures small { nat_abs result.load < 288230376151711744 }
{
    let cell = chosen(design, sizes, inst);
    let out = design.output(cell);
    let hung = hung_on(design, sizes, net, &out.slew_bound);
    let best = instance_best(
        design.arcs(cell),
        design.insts.inputs(inst),
        times,
        hung.load,
    );
    record_of(&hung, &out.load_bound, &best)
}

/// The record of a net, from the cells on it and the records of the nets that its driver reads. Condition: the arrivals of the input
/// nets of a gate that drives it have a magnitude of at most 2^62 millionths of 1 ps. The load is below 2^58 millionths of 1 fF. It
/// takes no memory.
pub fn eval_net<S: SizeView, T: TimeView, L: Ledger>(
    design: &Design,
    sizes: &S,
    times: &T,
    net: NetId,
    steps: &mut Steps<L>,
) -> NetTime
    requires net { net < length design.now.nets }
    requires sizes { FitSizes design.now (S.SizeView.places sizes.now) }
    requires times { FitTiming design.now (T.TimeView.times times.now) }
    requires calm { IsCalmAt design.now (T.TimeView.times times.now) net }
    ensures value { result ≡ local_of design.now (S.SizeView.places sizes.now) (T.TimeView.times times.now) net }
    ensures steps { steps.new ≡ steps.old + 1 }
    ensures small { nat_abs result.load < 288230376151711744 }
{
    steps.tick();
    match design.nets.driver(net) {
        Driver::Port { delay, cell } => eval_port(design, sizes, net, *delay, cell),
        Driver::Inst(inst) => eval_inst(design, sizes, times, net, *inst),
    }
}
