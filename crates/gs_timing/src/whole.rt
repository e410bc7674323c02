//! The timing of a whole design, net by net in the design's order.
#![tactic(auto)]

ghost use Rattle.std.specs.Prelude.{◌≡◌, ◌<◌, ℕ, List, IfOk, None, length, replicate, nat_abs};
ghost use Rattle.gs_design.specs.Sizes.{FitSizes};
ghost use Rattle.gs_design.specs.Times.{no_time, time_at};
ghost use Rattle.gs_design.specs.Timing.{IsTiming};
ghost use Rattle.gs_design.specs.declared.time.NetTime.{NetTime};
ghost use Rattle.gs_timing.specs.Done.{IsTimedTo};
ghost use Rattle.gs_timing.specs.Late.{IsLate};

use crate::eval::eval_net;
use gs_design::{Design, Edge, NetTime, Sizes, Timing};
use gs_quantity::{Mem, Micro, Steps};
use std::alloc::{AllocError, Global};
use std::marker::Brand;
use std::sync::ledger::{Blank, Ledger};

// The record of a net that is yet to be timed.
fn record_without(load_bound: Option<Micro>, slew_bound: Option<Micro>) -> NetTime
    requires load { load_bound ≡ None }
    requires slew { slew_bound ≡ None }
    ensures { result ≡ no_time }
{
    NetTime {
        load: Micro(0),
        load_bound,
        slew_bound,
        rise: Edge {
            arrival: Micro(0),
            slew: Micro(0),
        },
        fall: Edge {
            arrival: Micro(0),
            slew: Micro(0),
        },
    }
}

// Records of nets that are yet to be timed.
#[tactic(auto, using(crate::proofs::PassLaws::untimed_more))]
fn untimed(alloc: Global, count: usize) -> Result<Timing, Mem>
    ensures { IfOk result (λ t. t ≡ replicate count no_time) }
{
    let mut records = Vec::with_capacity(alloc, count)?;
    for _ in 0..count {
        let record = record_without(None, None);
        records.push(record).map_err(AllocError::from)?;
    }
    Ok(Timing::from_vec(records))
}

// Times net after net in the design's order.
fn pass<L: Ledger>(
    alloc: Global,
    design: &Design,
    sizes: &Sizes,
    blank: Blank,
) -> Result<Timing, Mem>
    requires name { blank.name ≡ L.name }
    requires parts { blank.parts ≡ L.parts }
    requires some { 0 < blank.parts }
    requires sizes { FitSizes design.now sizes.now }
    ensures { IfOk result (λ t. IsTimedTo design.now sizes.now t (length design.now.nets)) }
{
    let mut steps = Steps::<L>::begin(blank);
    let mut times = untimed(alloc, design.nets.len())?;
    for net in design.order.as_slice() {
        let time = eval_net(design, sizes, &times, *net, &mut steps);
        times.set(*net, time);
    }
    Ok(times)
}

/// The timing of a design at its sizes: the one list of records, one for each net, that meets the equation of every net. Loads are below
/// 2^58 millionths of 1 fF and arrivals below 2^60 millionths of 1 ps in magnitude.
pub fn time_all(alloc: Global, design: &Design, sizes: &Sizes) -> Result<Timing, Mem>
    requires { FitSizes design.now sizes.now }
    ensures timing { IfOk result (λ t. IsTiming design.now sizes.now t) }
    ensures arrivals { IfOk result (λ t. (n : ℕ) → n < length design.now.nets → IsLate (time_at t n) 1152921504606846975) }
    ensures loads { IfOk result (λ t. (n : ℕ) → n < length design.now.nets → nat_abs (time_at t n).load < 288230376151711744) }
    ensures only { IfOk result (λ t. (u : List NetTime) → IsTiming design.now sizes.now u → u ≡ t) }
{
    pass::<Brand>(alloc, design, sizes, Blank::new(1))
}
