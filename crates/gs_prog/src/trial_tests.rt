//! Worked trials of moves, found by hand.

ghost use Rattle.std.specs.Prelude.{◌≡◌, ◌<◌, true};
ghost use Rattle.gs_design.specs.Sizes.{FitSizes};
ghost use Rattle.gs_design.specs.Timing.{IsTiming};
ghost use Rattle.gs_move.specs.Moves.{is_move};

use crate::chain::{CHAIN, FAST, ONE, SLOW, fitting, inverters, is_one};
use gs_design::{Design, InstId, Limit, NetId, Sizes, Timing};
use gs_move::{Move, Outcome, Recovery, Trial, Why};
use gs_quantity::{Mem, Steps};
use gs_timing::time_all;
use gs_trial::try_move;
use std::alloc::Global;
use std::marker::Brand;
use std::sync::ledger::{Blank, Ledger};
use std::test::Fail;

fn tried<L: Ledger>(
    alloc: Global,
    blank: Blank,
    design: &Design,
    sizes: &Sizes,
    timing: &Timing,
    mv: Move,
) -> Result<Trial, Mem>
    requires name { blank.name ≡ L.name }
    requires parts { blank.parts ≡ L.parts }
    requires some { 0 < blank.parts }
    requires sizes { FitSizes design.now sizes.now }
    requires timing { IsTiming design.now sizes.now timing.now }
    requires mv { is_move design.now sizes.now mv ≡ true }
{
    let mut steps = Steps::<L>::begin(blank);
    try_move(
        alloc, design, sizes, timing, 5, 2, mv, &Recovery, &mut steps,
    )
}

/// The trial of a move at these places.
fn trial(
    alloc: Global,
    design: &Design,
    places: &[u32],
    inst: u32,
    place: u32,
) -> Result<Trial, Fail> {
    let sizes = fitting(alloc, design, places)?;
    let timing = time_all(alloc, design, &sizes)?;
    let mv = Move {
        inst: InstId(inst),
        place,
    };
    if !is_one(design, &sizes, &mv) {
        return Err(Fail::new("it is a move"));
    }
    Ok(tried::<Brand>(alloc, Blank::new(1), design, &sizes, &timing, mv)?)
}

#[test]
fn a_trial_of_more_leakage_gains_nothing(rt: HostRuntime) -> Result<(), Fail> {
    let design = inverters(rt.alloc(), CHAIN, SLOW)?;
    let back = trial(rt.alloc(), &design, &[0, 1], 0, 1)?;
    assert_eq!(rt; back.outcome, Outcome::NotFair(Why::NoGain));
    assert!(rt; back.delta.nets.is_empty());
    assert!(rt; back.reads.is_empty());
    assert_eq!(rt; back.front, 5);
    assert_eq!(rt; back.worker, 2);
    Ok(())
}

#[test]
fn a_trial_is_judged_by_limits_far_from_the_moved_gate(rt: HostRuntime) -> Result<(), Fail> {
    let design = inverters(rt.alloc(), CHAIN, FAST)?;
    let late = trial(rt.alloc(), &design, &[1, 0], 0, 0)?;
    assert_eq!(rt;
        late.outcome,
        Outcome::NotFair(Why::Breaks(Limit::Setup(0)))
    );
    let first = trial(rt.alloc(), &design, &[1, 1], 0, 0)?;
    assert_eq!(rt; first.outcome, Outcome::Fair);
    Ok(())
}

#[test]
fn a_load_at_its_bound_is_met(rt: HostRuntime) -> Result<(), Fail> {
    let full = inverters(
        rt.alloc(),
        ONE,
        b"create_clock -name k -period 100\nset_load -pin_load 8 [get_ports z]\n",
    )?;
    let met = trial(rt.alloc(), &full, &[1], 0, 0)?;
    assert_eq!(rt; met.outcome, Outcome::Fair);
    let over = inverters(
        rt.alloc(),
        ONE,
        b"create_clock -name k -period 100\nset_load -pin_load 8.000001 [get_ports z]\n",
    )?;
    let broken = trial(rt.alloc(), &over, &[1], 0, 0)?;
    assert_eq!(rt;
        broken.outcome,
        Outcome::NotFair(Why::Breaks(Limit::Load(NetId(1))))
    );
    Ok(())
}

#[test]
fn a_trial_names_the_nets_that_change(rt: HostRuntime) -> Result<(), Fail> {
    let design = inverters(rt.alloc(), CHAIN, SLOW)?;
    let all = trial(rt.alloc(), &design, &[1, 1], 0, 0)?;
    assert_eq!(rt; all.delta.nets.len(), 3);
    let last = trial(rt.alloc(), &design, &[1, 1], 1, 0)?;
    assert_eq!(rt; last.delta.nets.len(), 2);
    Ok(())
}
