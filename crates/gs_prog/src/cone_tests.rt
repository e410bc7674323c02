//! Cones of moves, found by hand, and trials compared with those by two whole timings.

ghost use Rattle.std.specs.Prelude.{◌≡◌, ◌<◌, true};
ghost use Rattle.gs_design.specs.Sizes.{FitSizes};
ghost use Rattle.gs_design.specs.Timing.{IsTiming};
ghost use Rattle.gs_move.specs.Moves.{is_move};

use crate::chain::{fitting, is_one};
use crate::linked::{Texts, design_of};
use crate::mixed::{LIMITS, TIGHT_LIMITS, texts_with};
use gs_design::{Design, InstId, NetAt, Sizes, Timing};
use gs_incr::{Overlay, retime};
use gs_move::{Move, Outcome, Recovery, Trial};
use gs_quantity::{Mem, Micro, Steps};
use gs_sweep::sweep;
use gs_timing::time_all;
use gs_trial::{try_move, try_plainly};
use std::alloc::Global;
use std::marker::Brand;
use std::sync::ledger::{Blank, Ledger};
use std::test::Fail;
use std::thread::Threads;

/// Inverters and gates of two inputs, of two cells each.
const LIBRARY: &[u8] =
    b"library (rows) { time_unit : \"1ps\"; capacitive_load_unit (1, ff); leakage_power_unit : \"1uW\"; default_max_transition : 100; lu_table_template (t) { variable_1 : total_output_net_capacitance; index_1 (\"0, 10\"); } cell (I1) { cell_leakage_power : 1; cell_footprint : inv; pin (a) { direction : input; capacitance : 1; } pin (o) { direction : output; max_capacitance : 8; function : \"!a\"; timing () { related_pin : a; timing_sense : negative_unate; cell_rise (t) { values (\"4, 24\"); } cell_fall (t) { values (\"4, 24\"); } rise_transition (t) { values (\"2, 12\"); } fall_transition (t) { values (\"2, 12\"); } } } } cell (I2) { cell_leakage_power : 3; cell_footprint : inv; pin (a) { direction : input; capacitance : 2; } pin (o) { direction : output; max_capacitance : 16; function : \"!a\"; timing () { related_pin : a; timing_sense : negative_unate; cell_rise (t) { values (\"4, 14\"); } cell_fall (t) { values (\"4, 14\"); } rise_transition (t) { values (\"2, 7\"); } fall_transition (t) { values (\"2, 7\"); } } } } cell (N2) { cell_leakage_power : 5; cell_footprint : nand; pin (a, b) { direction : input; capacitance : 2; } pin (o) { direction : output; max_capacitance : 16; function : \"!(a*b)\"; timing () { related_pin : \"a b\"; timing_sense : negative_unate; cell_rise (t) { values (\"4, 14\"); } cell_fall (t) { values (\"4, 14\"); } rise_transition (t) { values (\"2, 7\"); } fall_transition (t) { values (\"2, 7\"); } } } } }";

/// Two gates of two inputs that share an input net.
const SHARED: &[u8] =
    b"module d (x1, y, x2, z1, z2); input x1, y, x2; output z1, z2; I2 g1 (.a(x1), .o(n1)); I2 g2 (.a(y), .o(n2)); N2 g3 (.a(n1), .b(n2), .o(z1)); I2 g4 (.a(x2), .o(n4)); N2 g5 (.a(n4), .b(n2), .o(z2)); endmodule";

fn seen<L: Ledger>(
    alloc: Global,
    blank: Blank,
    design: &Design,
    sizes: &Sizes,
    timing: &Timing,
    mv: Move,
) -> Result<Overlay, Mem>
    requires name { blank.name ≡ L.name }
    requires parts { blank.parts ≡ L.parts }
    requires some { 0 < blank.parts }
    requires sizes { FitSizes design.now sizes.now }
    requires timing { IsTiming design.now sizes.now timing.now }
    requires mv { is_move design.now sizes.now mv ≡ true }
{
    let mut steps = Steps::<L>::begin(blank);
    retime(alloc, design, sizes, timing, mv, &mut steps)
}

/// What a move changes at these places.
fn overlay(
    alloc: Global,
    design: &Design,
    places: &[u32],
    inst: u32,
    place: u32,
) -> Result<Overlay, Fail> {
    let sizes = fitting(alloc, design, places)?;
    let timing = time_all(alloc, design, &sizes)?;
    let mv = Move {
        inst: InstId(inst),
        place,
    };
    if !is_one(design, &sizes, &mv) {
        return Err(Fail::new("it is a move"));
    }
    Ok(seen::<Brand>(alloc, Blank::new(1), design, &sizes, &timing, mv)?)
}

/// Whether this net was seen with this load, this arrival of both edges, and this slew of both, in millionths.
fn is_seen(design: &Design, seen: &NetAt, name: &[u8], load: i64, arrival: i64, slew: i64) -> bool {
    if seen.net.index() >= design.nets.len() {
        return false;
    }
    let edges = [seen.time.rise, seen.time.fall];
    design.nets.name(seen.net).is(name)
        && seen.time.load == Micro(load)
        && edges[0].arrival == Micro(arrival)
        && edges[1].arrival == Micro(arrival)
        && edges[0].slew == Micro(slew)
        && edges[1].slew == Micro(slew)
}

#[test]
fn a_cone_ends_where_a_later_input_decides(rt: HostRuntime) -> Result<(), Fail> {
    let texts = Texts {
        library: LIBRARY,
        verilog: SHARED,
        spef: b"*C_UNIT 1 FF",
        sdc: b"create_clock -name k -period 100\nset_load -pin_load 2 [get_ports {z1 z2}]\n",
    };
    let design = design_of(rt.alloc(), &texts)?;
    let cone = overlay(rt.alloc(), &design, &[1, 1, 0, 1, 0], 0, 0)?;
    let seen = cone.seen.as_slice();
    assert_eq!(rt; seen.len(), 3);
    assert!(rt; is_seen(&design, &seen[0], b"x1", 1_000_000, 0, 0));
    assert!(rt; is_seen(&design, &seen[1], b"n1", 2_000_000, 8_000_000, 4_000_000));
    assert!(rt; is_seen(&design, &seen[2], b"z1", 2_000_000, 14_000_000, 3_000_000));
    Ok(())
}

// The trial of a move.
fn tried<L: Ledger>(
    alloc: Global,
    blank: Blank,
    design: &Design,
    sizes: &Sizes,
    timing: &Timing,
    inst: InstId,
    place: u32,
) -> Result<Trial, Mem>
    requires name { blank.name ≡ L.name }
    requires parts { blank.parts ≡ L.parts }
    requires some { 0 < blank.parts }
    requires sizes { FitSizes design.now sizes.now }
    requires timing { IsTiming design.now sizes.now timing.now }
    requires mv { is_move design.now sizes.now (record { inst = inst; place = place }) ≡ true }
{
    let mut steps = Steps::<L>::begin(blank);
    let mv = Move { inst, place };
    try_move(
        alloc, design, sizes, timing, 3, 1, mv, &Recovery, &mut steps,
    )
}

// The trial of a move by two whole timings.
fn tried_plainly(
    alloc: Global,
    design: &Design,
    sizes: &Sizes,
    timing: &Timing,
    inst: InstId,
    place: u32,
) -> Result<Trial, Mem>
    requires sizes { FitSizes design.now sizes.now }
    requires timing { IsTiming design.now sizes.now timing.now }
    requires mv { is_move design.now sizes.now (record { inst = inst; place = place }) ≡ true }
{
    let mv = Move { inst, place };
    try_plainly(alloc, design, sizes, timing, 3, 1, mv, &Recovery)
}

// Whether it is a move.
fn is_move_to(design: &Design, sizes: &Sizes, inst: InstId, place: u32) -> bool
    requires { FitSizes design.now sizes.now }
    ensures { result ≡ is_move design.now sizes.now (record { inst = inst; place = place }) }
{
    let mv = Move { inst, place };
    is_one(design, sizes, &mv)
}

/// Whether two trials say the same.
fn say_the_same(a: &Trial, b: &Trial) -> bool {
    a.outcome == b.outcome && a.delta.nets.as_slice() == b.delta.nets.as_slice()
}

/// Whether the trials of a move agree; where it is no move there is nothing to compare.
fn agrees_on(
    alloc: Global,
    design: &Design,
    sizes: &Sizes,
    timing: &Timing,
    inst: InstId,
    place: u32,
) -> Result<bool, Fail>
    requires sizes { FitSizes design.now sizes.now }
    requires timing { IsTiming design.now sizes.now timing.now }
{
    if !is_move_to(design, sizes, inst, place) {
        return Ok(true);
    }
    let quick = tried::<Brand>(alloc, Blank::new(1), design, sizes, timing, inst, place)?;
    let plain = tried_plainly(alloc, design, sizes, timing, inst, place)?;
    Ok(say_the_same(&quick, &plain))
}

/// Whether a judge finds a trial Fair.
fn is_fair(trial: &Trial) -> bool {
    matches!(trial.outcome, Outcome::Fair)
}

/// Whether a move, by two whole timings, is Fair; where it is no move it is not.
fn is_fair_plainly(
    alloc: Global,
    design: &Design,
    sizes: &Sizes,
    timing: &Timing,
    inst: InstId,
    place: u32,
) -> Result<bool, Fail>
    requires sizes { FitSizes design.now sizes.now }
    requires timing { IsTiming design.now sizes.now timing.now }
{
    if !is_move_to(design, sizes, inst, place) {
        return Ok(false);
    }
    let plain = tried_plainly(alloc, design, sizes, timing, inst, place)?;
    Ok(is_fair(&plain))
}

/// Whether the moves of a sweep go on with this one, which is then taken off.
fn goes_on(moves: &mut Vec<Move>, inst: InstId, place: u32) -> bool {
    match moves.pop() {
        None => false,
        Some(mv) => mv.inst.number() == inst.number() && mv.place == place,
    }
}

/// Whether both ways agree on every move of the mixed design from these places: the trials, and the moves that a sweep finds, from last to first.
fn agree<R: Threads + Sync>(
    rt: &R,
    alloc: Global,
    sdc: &'static str,
    places: &[u32],
) -> Result<bool, Fail> {
    let design = design_of(alloc, &texts_with(sdc))?;
    let sizes = fitting(alloc, &design, places)?;
    let timing = time_all(alloc, &design, &sizes)?;
    let mut moves = sweep(rt, alloc, &design, &sizes, &timing, &Recovery)?;
    for down in 0..design.insts.len() as u32 {
        let inst = InstId(design.insts.len() as u32 - 1 - down);
        for back in 0..3 {
            let place = 2 - back;
            if !agrees_on(alloc, &design, &sizes, &timing, inst, place)? {
                return Ok(false);
            }
            let fair = is_fair_plainly(alloc, &design, &sizes, &timing, inst, place)?;
            if fair && !goes_on(&mut moves, inst, place) {
                return Ok(false);
            }
        }
    }
    Ok(moves.is_empty())
}

#[test]
fn trials_and_sweeps_are_those_of_two_whole_timings(rt: HostRuntime) -> Result<(), Fail> {
    for sdc in [LIMITS, TIGHT_LIMITS] {
        assert!(rt; agree(&rt, rt.alloc(), sdc, &[1, 1, 0, 0, 0, 0, 1, 0, 1, 0])?);
        assert!(rt; agree(&rt, rt.alloc(), sdc, &[2, 0, 0, 0, 0, 1, 0, 0, 2, 1])?);
    }
    Ok(())
}
