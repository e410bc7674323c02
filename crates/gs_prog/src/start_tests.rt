//! Starting sizes of small designs, as a program reckoned them that has no code in common with this one.

use crate::chain::{CHAIN, FAST, SLOW, inverters};
use crate::linked::{Texts, design_of};
use crate::mixed::{LIMITS, TIGHT_LIMITS, texts_with};
use gs_lagrange::start;
use std::test::Fail;

/// Inverters and NAND gates of two sizes, of which the larger leaks more, and a flip-flop.
pub(crate) const LIBRARY: &[u8] =
    b"library (rows) { time_unit : \"1ps\"; capacitive_load_unit (1, ff); leakage_power_unit : \"1uW\"; default_max_transition : 100; lu_table_template (t) { variable_1 : total_output_net_capacitance; index_1 (\"0, 10\"); } cell (I1) { area : 1; cell_leakage_power : 1; cell_footprint : \"inv\"; pin (a) { direction : input; capacitance : 1; } pin (o) { direction : output; max_capacitance : 8; function : \"!a\"; timing () { related_pin : \"a\"; timing_sense : negative_unate; cell_rise (t) { values (\"4, 24\"); } cell_fall (t) { values (\"4, 24\"); } rise_transition (t) { values (\"2, 12\"); } fall_transition (t) { values (\"2, 12\"); } } } } cell (I2) { area : 2; cell_leakage_power : 3; cell_footprint : \"inv\"; pin (a) { direction : input; capacitance : 2; } pin (o) { direction : output; max_capacitance : 16; function : \"!a\"; timing () { related_pin : \"a\"; timing_sense : negative_unate; cell_rise (t) { values (\"4, 14\"); } cell_fall (t) { values (\"4, 14\"); } rise_transition (t) { values (\"2, 7\"); } fall_transition (t) { values (\"2, 7\"); } } } } cell (N1) { area : 2; cell_leakage_power : 2; cell_footprint : \"nand\"; pin (a, b) { direction : input; capacitance : 1; } pin (o) { direction : output; max_capacitance : 8; function : \"!(a*b)\"; timing () { related_pin : \"a b\"; timing_sense : negative_unate; cell_rise (t) { values (\"4, 24\"); } cell_fall (t) { values (\"4, 24\"); } rise_transition (t) { values (\"2, 12\"); } fall_transition (t) { values (\"2, 12\"); } } } } cell (N2) { area : 4; cell_leakage_power : 5; cell_footprint : \"nand\"; pin (a, b) { direction : input; capacitance : 2; } pin (o) { direction : output; max_capacitance : 16; function : \"!(a*b)\"; timing () { related_pin : \"a b\"; timing_sense : negative_unate; cell_rise (t) { values (\"4, 14\"); } cell_fall (t) { values (\"4, 14\"); } rise_transition (t) { values (\"2, 7\"); } fall_transition (t) { values (\"2, 7\"); } } } } cell (F1) { area : 6; cell_leakage_power : 4; cell_footprint : \"ff\"; ff (\"IQ\", \"IQN\") { next_state : \"d\"; clocked_on : \"ck\"; } pin (ck) { direction : input; capacitance : 1; clock : true; } pin (d) { direction : input; capacitance : 1; } pin (q) { direction : output; max_capacitance : 16; function : \"IQ\"; timing () { related_pin : \"ck\"; timing_type : rising_edge; cell_rise (t) { values (\"10, 20\"); } cell_fall (t) { values (\"10, 20\"); } rise_transition (t) { values (\"2, 12\"); } fall_transition (t) { values (\"2, 12\"); } } } } }";

/// A path from inputs through a NAND gate, an inverter and a flip-flop, and on through two inverters to an output.
const PATH: &[u8] =
    b"module top (ck, x, y, z); input ck, x, y; output z; wire n1, n2, n3, q; N2 g1 (.a(x), .b(y), .o(n1)); I2 g2 (.a(n1), .o(n2)); F1 f1 (.ck(ck), .d(n2), .q(q)); I2 g3 (.a(q), .o(n3)); I2 g4 (.a(n3), .o(z)); endmodule";

/// A period that the output misses, and the flip-flop meets with smaller cells too.
const LATE: &[u8] =
    b"create_clock -name ck -period 22 [get_ports ck]\nset_input_delay 5 [get_ports {x y}] -clock [get_clocks ck]\nset_output_delay 10 [get_ports z] -clock [get_clocks ck]\nset_load -pin_load 3 [get_ports z]\n";

/// A period that both endpoints miss.
const LATER: &[u8] =
    b"create_clock -name ck -period 12 [get_ports ck]\nset_input_delay 5 [get_ports {x y}] -clock [get_clocks ck]\nset_output_delay 10 [get_ports z] -clock [get_clocks ck]\nset_load -pin_load 3 [get_ports z]\n";

fn path(sdc: &'static [u8]) -> Texts<'static> {
    Texts {
        library: LIBRARY,
        verilog: PATH,
        spef: b"*C_UNIT 1 FF\n*D_NET n1 1\n*END\n",
        sdc,
    }
}

/// The netlist's places on the path, by instance.
const AS_GIVEN: [u32; 5] = [1, 1, 0, 1, 1];

#[test]
fn without_a_pass_the_start_is_the_netlists(rt: HostRuntime) -> Result<(), Fail> {
    let design = design_of(rt.alloc(), &path(LATE))?;
    let places = start(&rt, rt.alloc(), &design, 0)?.into_vec();
    assert_eq!(rt; places.as_slice(), AS_GIVEN.as_slice());
    let places = start(&rt, rt.alloc(), &design, 11)?.into_vec();
    assert_eq!(rt; places.as_slice(), AS_GIVEN.as_slice());
    Ok(())
}

#[test]
fn multipliers_of_a_late_endpoint_keep_its_gates_large(rt: HostRuntime) -> Result<(), Fail> {
    let design = design_of(rt.alloc(), &path(LATE))?;
    let places = start(&rt, rt.alloc(), &design, 12)?.into_vec();
    assert_eq!(rt; places.as_slice(), [0, 0, 0, 1, 1].as_slice());
    let places = start(&rt, rt.alloc(), &design, 64)?.into_vec();
    assert_eq!(rt; places.as_slice(), [0, 0, 0, 1, 1].as_slice());
    Ok(())
}

#[test]
fn with_two_late_endpoints_one_gate_shrinks(rt: HostRuntime) -> Result<(), Fail> {
    let design = design_of(rt.alloc(), &path(LATER))?;
    let places = start(&rt, rt.alloc(), &design, 15)?.into_vec();
    assert_eq!(rt; places.as_slice(), AS_GIVEN.as_slice());
    let places = start(&rt, rt.alloc(), &design, 16)?.into_vec();
    assert_eq!(rt; places.as_slice(), [1, 0, 0, 1, 1].as_slice());
    Ok(())
}

#[test]
fn a_pass_that_ends_with_excess_is_no_start(rt: HostRuntime) -> Result<(), Fail> {
    let design = inverters(rt.alloc(), CHAIN, SLOW)?;
    let places = start(&rt, rt.alloc(), &design, 1)?.into_vec();
    assert_eq!(rt; places.as_slice(), [0, 0].as_slice());
    let design = inverters(rt.alloc(), CHAIN, FAST)?;
    let places = start(&rt, rt.alloc(), &design, 1)?.into_vec();
    assert_eq!(rt; places.as_slice(), [1, 1].as_slice());
    Ok(())
}

#[test]
fn passes_on_the_mixed_design(rt: HostRuntime) -> Result<(), Fail> {
    let design = design_of(rt.alloc(), &texts_with(LIMITS))?;
    let places = start(&rt, rt.alloc(), &design, 1)?.into_vec();
    assert_eq!(rt;
        places.as_slice(),
        [1, 1, 0, 0, 0, 0, 2, 0, 1, 0].as_slice()
    );
    let places = start(&rt, rt.alloc(), &design, 16)?.into_vec();
    assert_eq!(rt;
        places.as_slice(),
        [1, 1, 0, 0, 0, 0, 0, 0, 1, 1].as_slice()
    );
    Ok(())
}

#[test]
fn passes_on_the_mixed_design_in_a_short_period(rt: HostRuntime) -> Result<(), Fail> {
    let design = design_of(rt.alloc(), &texts_with(TIGHT_LIMITS))?;
    let places = start(&rt, rt.alloc(), &design, 1)?.into_vec();
    assert_eq!(rt;
        places.as_slice(),
        [1, 1, 0, 0, 0, 0, 2, 0, 1, 0].as_slice()
    );
    let places = start(&rt, rt.alloc(), &design, 16)?.into_vec();
    assert_eq!(rt;
        places.as_slice(),
        [2, 1, 0, 0, 0, 1, 2, 0, 2, 2].as_slice()
    );
    Ok(())
}
