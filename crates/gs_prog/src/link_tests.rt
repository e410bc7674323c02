//! Worked designs and refusals, found by hand.

use crate::linked::{Texts, linked};
use gs_design::Design;
use gs_survey::LinkErr;
use std::alloc::Global;
use std::test::Fail;

const UNITS: &[u8] =
    b"time_unit : \"1ps\"; capacitive_load_unit (1, ff); leakage_power_unit : \"1uW\"; lu_table_template (t) { variable_1 : total_output_net_capacitance; index_1 (\"0, 10\"); } ";

const TABLES: &[u8] =
    b"cell_rise (t) { values (\"4, 24\"); } cell_fall (t) { values (\"4, 24\"); } rise_transition (t) { values (\"2, 12\"); } fall_transition (t) { values (\"2, 12\"); } } } } ";

/// Cells by the text before their tables: inverters I1 and I2, gates N1 and N2 with two inputs, a flip-flop F1, a buffer B1 with the
/// footprint of the inverters, M1, whose second input has no arc, its alternative M2, and a latch L1, which isn't read.
const CELLS: [&[u8]; 9] = [
    b"cell (I1) { cell_leakage_power : 1; cell_footprint : inv; pin (a) { direction : input; capacitance : 1; } pin (o) { direction : output; max_capacitance : 8; function : \"!a\"; timing () { related_pin : a; timing_sense : negative_unate; ",
    b"cell (I2) { cell_leakage_power : 3; cell_footprint : inv; pin (a) { direction : input; capacitance : 2; } pin (o) { direction : output; max_capacitance : 16; function : \"!a\"; timing () { related_pin : a; timing_sense : negative_unate; ",
    b"cell (N1) { cell_leakage_power : 2; cell_footprint : nand; pin (a, b) { direction : input; capacitance : 1; } pin (o) { direction : output; function : \"!(a*b)\"; timing () { related_pin : \"a b\"; timing_sense : negative_unate; ",
    b"cell (N2) { cell_leakage_power : 5; cell_footprint : nand; pin (a, b) { direction : input; capacitance : 2; } pin (o) { direction : output; function : \"!(a*b)\"; timing () { related_pin : \"a b\"; timing_sense : negative_unate; ",
    b"cell (F1) { cell_leakage_power : 4; cell_footprint : ff; ff (\"IQ\", \"IQN\") { next_state : d; clocked_on : ck; } pin (ck) { direction : input; capacitance : 1; clock : true; } pin (d) { direction : input; capacitance : 1; } pin (q) { direction : output; function : \"IQ\"; timing () { related_pin : ck; timing_type : rising_edge; ",
    b"cell (B1) { cell_leakage_power : 0.5; cell_footprint : inv; pin (a) { direction : input; capacitance : 1; } pin (o) { direction : output; function : \"a\"; timing () { related_pin : a; ",
    b"cell (M1) { cell_leakage_power : 1; cell_footprint : m; pin (a, b) { direction : input; capacitance : 1; } pin (o) { direction : output; function : \"a+b\"; timing () { related_pin : a; ",
    b"cell (M2) { cell_leakage_power : 2; cell_footprint : m; pin (a, b) { direction : input; capacitance : 1; } pin (o) { direction : output; function : \"a+b\"; timing () { related_pin : \"a b\"; ",
    b"cell (L1) { cell_leakage_power : 1; latch (\"IQ\", \"IQN\") { enable : e; data_in : d; } pin (e, d) { direction : input; capacitance : 1; } pin (o) { direction : output; function : \"IQ\"; timing () { related_pin : d; ",
];

/// The library of these cells.
fn library_text(alloc: Global) -> Result<Vec<u8>, Fail> {
    let mut text = Vec::from_slice(alloc, b"library (rows) { ")?;
    text.extend_from_slice(UNITS)?;
    for cell in CELLS {
        text.extend_from_slice(cell)?;
        text.extend_from_slice(TABLES)?;
    }
    text.extend_from_slice(b"}")?;
    Ok(text)
}

/// What the link answers for these texts beside the library.
fn linked_with(
    alloc: Global,
    verilog: &[u8],
    spef: &[u8],
    sdc: &[u8],
) -> Result<Result<Design, LinkErr>, Fail> {
    let library = library_text(alloc)?;
    let texts = Texts {
        library: library.as_slice(),
        verilog,
        spef,
        sdc,
    };
    linked(alloc, &texts)
}

fn push_words(text: &mut Vec<u8>, words: &[&[u8]]) -> Result<(), Fail> {
    for word in words {
        if text.len() > 0 {
            text.push(b' ')?;
        }
        text.extend_from_slice(*word)?;
    }
    Ok(())
}

/// A refusal as words.
fn refusal_text(alloc: Global, error: &LinkErr) -> Result<Vec<u8>, Fail> {
    let mut text = Vec::new(alloc);
    match error {
        LinkErr::UnknownCell { by } => push_words(&mut text, &[b"cell", by.as_bytes()])?,
        LinkErr::UnknownPin { by, pin } => {
            push_words(&mut text, &[b"pin", by.as_bytes(), pin.as_bytes()])?;
        }
        LinkErr::OpenPin { inst, pin } => {
            push_words(&mut text, &[b"open", inst.as_bytes(), pin.as_bytes()])?;
        }
        LinkErr::TwoDrivers { net } => push_words(&mut text, &[b"two", net.as_bytes()])?,
        LinkErr::Undriven { net } => push_words(&mut text, &[b"undriven", net.as_bytes()])?,
        LinkErr::UnknownPort { name } => push_words(&mut text, &[b"port", name.as_bytes()])?,
        LinkErr::UnknownNet { name } => push_words(&mut text, &[b"net", name.as_bytes()])?,
        LinkErr::NoArc { cell, pin } => {
            push_words(&mut text, &[b"arc", cell.as_bytes(), pin.as_bytes()])?;
        }
        LinkErr::TooMany { .. } => push_words(&mut text, &[b"many"])?,
        LinkErr::Loop { cycle } => {
            push_words(&mut text, &[b"loop"])?;
            for name in cycle.as_slice() {
                push_words(&mut text, &[name.as_bytes()])?;
            }
        }
        LinkErr::Mem => push_words(&mut text, &[b"memory"])?,
    }
    Ok(text)
}

/// The names of a design's nets in its order.
fn order_text(alloc: Global, design: &Design) -> Result<Vec<u8>, Fail> {
    let mut text = Vec::new(alloc);
    for net in design.order.as_slice() {
        if net.index() < design.nets.len() {
            push_words(&mut text, &[design.nets.name(*net).as_bytes()])?;
        }
    }
    Ok(text)
}

/// A refusal, or the nets of the design in its order.
fn outcome(alloc: Global, verilog: &[u8], spef: &[u8], sdc: &[u8]) -> Result<Vec<u8>, Fail> {
    match linked_with(alloc, verilog, spef, sdc)? {
        Ok(design) => order_text(alloc, &design),
        Err(error) => refusal_text(alloc, &error),
    }
}

const CLOCK: &[u8] = b"create_clock -name k -period 100";

const NAND_LOOP: &[u8] =
    b"module l (s, r, q1); input s, r; output q1; N1 g1 (.a(s), .b(q2), .o(q1)); N1 g2 (.a(r), .b(q1), .o(q2)); endmodule";

const FLOP_LOOP: &[u8] =
    b"module l (s, r, q1); input s, r; output q1; N1 g1 (.a(s), .b(q2), .o(q1)); F1 g2 (.ck(s), .d(q1), .q(q2)); endmodule";

const CHAIN: &[u8] =
    b"module c (x, z); input x; output z; I2 g1 (.a(x), .o(n1)); I2 g2 (.a(n1), .o(z)); endmodule";

#[test]
fn netlists_and_their_outcomes(rt: HostRuntime) -> Result<(), Fail> {
    let rows: [(&[u8], &[u8]); 24] = [
        (NAND_LOOP, b"loop q1 q2"),
        (FLOP_LOOP, b"s r q2 q1"),
        (
            b"module l (q); output q; I1 g (.a(q), .o(q)); endmodule",
            b"loop q",
        ),
        (
            b"module d (x1, y, x2, z1, z2); input x1, y, x2; output z1, z2; I2 g1 (.a(x1), .o(n1)); I2 g2 (.a(y), .o(n2)); N2 g3 (.a(n1), .b(n2), .o(z1)); I2 g4 (.a(x2), .o(n4)); N2 g5 (.a(n4), .b(n2), .o(z2)); endmodule",
            b"x1 y x2 n1 n2 n4 z1 z2",
        ),
        (b"module e (a); input a; wire u, v; endmodule", b"a"),
        (
            b"module m (x); input x; K9 g1 (.a(x), .o(n)); endmodule",
            b"cell g1",
        ),
        (
            b"module m (x); input x; I1 g1 (.q(x), .o(n)); K9 g2 (.a(x), .o(p)); endmodule",
            b"cell g2",
        ),
        (
            b"module m (x); input x; I1 g1 (.q(x), .o(n)); endmodule",
            b"pin g1 q",
        ),
        (
            b"module m (x); input x; I1 g0 (.o(u)); I1 g1 (.a(x), .z(n)); endmodule",
            b"pin g1 z",
        ),
        (
            b"module m (x); input x; I1 g1 (.a(x)); endmodule",
            b"open g1 o",
        ),
        (
            b"module m (x); input x; N1 g1 (.o(x)); endmodule",
            b"open g1 a",
        ),
        (
            b"module m (x); input x; I1 g1 (.a(y), .o(x)); endmodule",
            b"two x",
        ),
        (
            b"module m (x); input x; I1 g1 (.a(v), .o(n)); I1 g2 (.a(x), .o(n)); endmodule",
            b"two n",
        ),
        (
            b"module m (x, z); input x; output z; I1 g1 (.a(x), .o(n)); endmodule",
            b"undriven z",
        ),
        (
            b"module m (x, z); input x; output z; I1 g1 (.a(v), .o(n)); endmodule",
            b"undriven z",
        ),
        (
            b"module m (x); input x; I1 g1 (.a(v), .o(n)); endmodule",
            b"undriven v",
        ),
        (
            b"module m (x, z); input x; output z; M1 g1 (.a(x), .b(x), .o(z)); endmodule",
            b"arc M1 b",
        ),
        (
            b"module m (x, z); input x; output z; I1 g0 (.a(x), .o(y)); M1 g1 (.a(z), .b(y), .o(z)); endmodule",
            b"arc M1 b",
        ),
        (
            b"module m (x, z); input x; output z; F1 f (.ck(x), .d(z), .q(z)); endmodule",
            b"x z",
        ),
        (b"module m (x); input x; endmodule", b"x"),
        (b"module m (x); output x; endmodule", b"undriven x"),
        (
            b"module m (x, y); input x, y; I1 g1 (.a(x), .o(n)); I1 g2 (.a(n), .o(p)); I1 g3 (.a(y), .o(n)); endmodule",
            b"two n",
        ),
        (
            b"module m (x); input x; I1 g1 (.a(x), .o(n)); I1 g2 (.a(m), .o(p)); I1 g3 (.a(p), .o(m)); endmodule",
            b"loop m p",
        ),
        (
            b"module m (x); input x; I1 g1 (.a(x), .o(p)); I1 g2 (.a(m), .o(m)); endmodule",
            b"loop m",
        ),
    ];
    for (verilog, want) in rows {
        assert_eq!(rt; outcome(rt.alloc(), verilog, b"", CLOCK)?.as_slice(), want);
    }
    Ok(())
}

#[test]
fn limits_and_their_outcomes(rt: HostRuntime) -> Result<(), Fail> {
    let rows: [(&[u8], &[u8], &[u8]); 15] = [
        (
            b"*D_NET n1 1\n*END\n",
            b"create_clock -period 100 [get_ports x]",
            b"x n1 z",
        ),
        (b"*D_NET q7 1\n*END\n", CLOCK, b"net q7"),
        (
            b"*D_NET q7 1\n*END\n",
            b"create_clock -period 100\nset_output_delay 1 [get_ports x]",
            b"port x",
        ),
        (
            b"",
            b"create_clock -period 100\nset_output_delay 1 [get_ports x]",
            b"port x",
        ),
        (b"", b"create_clock -period 100 [get_ports z]", b"port z"),
        (
            b"",
            b"create_clock -period 100 [get_ports n1]\nset_load 1 [get_ports w]",
            b"port n1",
        ),
        (
            b"",
            b"create_clock -period 100\nset_input_delay 1 [get_ports z]",
            b"port z",
        ),
        (
            b"",
            b"create_clock -period 100\nset_load 1 [get_ports n1]",
            b"port n1",
        ),
        (
            b"",
            b"create_clock -period 100\nset_load 1 [get_ports x]",
            b"x n1 z",
        ),
        (
            b"",
            b"create_clock -period 100\nset_driving_cell -lib_cell I2 -pin o [get_ports x]",
            b"x n1 z",
        ),
        (
            b"",
            b"create_clock -period 100\nset_driving_cell -lib_cell K9 [get_ports x]",
            b"cell x",
        ),
        (
            b"",
            b"create_clock -period 100\nset_driving_cell -lib_cell F1 [get_ports x]",
            b"cell x",
        ),
        (
            b"",
            b"create_clock -period 100\nset_driving_cell -lib_cell I2 -pin a [get_ports x]",
            b"pin x a",
        ),
        (
            b"",
            b"create_clock -period 100\nset_driving_cell -lib_cell M1 [get_ports z]",
            b"arc M1 b",
        ),
        (
            b"",
            b"create_clock -period 100\nset_driving_cell -lib_cell I2 [get_ports z]",
            b"x n1 z",
        ),
    ];
    for (spef, sdc, want) in rows {
        assert_eq!(rt; outcome(rt.alloc(), CHAIN, spef, sdc)?.as_slice(), want);
    }
    Ok(())
}

#[test]
fn the_first_of_several_refusals(rt: HostRuntime) -> Result<(), Fail> {
    let unknown_pin = b"module m (x); input x; I1 g1 (.q(x), .o(n)); endmodule".as_slice();
    let rows: [(&[u8], &[u8], &[u8], &[u8]); 16] = [
        (
            b"module m (x); input x; L1 g1 (.e(x), .d(x), .o(n)); endmodule",
            b"",
            CLOCK,
            b"cell g1",
        ),
        (
            CHAIN,
            b"",
            b"create_clock -period 100\nset_driving_cell -lib_cell L1 [get_ports x]",
            b"cell x",
        ),
        (
            b"module m (x); input x; K9 g1 (.a(x), .o(n)); endmodule",
            b"",
            b"create_clock -period 100\nset_driving_cell -lib_cell K9 [get_ports x]",
            b"cell g1",
        ),
        (
            unknown_pin,
            b"",
            b"create_clock -period 100\nset_driving_cell -lib_cell F1 [get_ports x]",
            b"cell x",
        ),
        (
            unknown_pin,
            b"",
            b"create_clock -period 100\nset_driving_cell -lib_cell I2 -pin a [get_ports x]",
            b"pin g1 q",
        ),
        (
            b"module m (x); input x; I1 g1 (.a(x)); endmodule",
            b"",
            b"create_clock -period 100\nset_driving_cell -lib_cell I2 -pin a [get_ports x]",
            b"pin x a",
        ),
        (
            b"module m (x); input x; I1 g0 (.a(x), .o(x)); I1 g1 (.a(x)); endmodule",
            b"",
            CLOCK,
            b"open g1 o",
        ),
        (
            b"module m (x); input x; I1 g1 (.a(v), .o(n)); endmodule",
            b"",
            b"create_clock -period 100 [get_ports q]",
            b"undriven v",
        ),
        (
            CHAIN,
            b"",
            b"create_clock -period 100\nset_output_delay 1 [get_ports x]\nset_input_delay 1 [get_ports z]",
            b"port z",
        ),
        (
            CHAIN,
            b"",
            b"create_clock -period 100\nset_driving_cell -lib_cell I2 [get_ports w]\nset_load 1 [get_ports v]",
            b"port v",
        ),
        (
            b"module m (x, z); input x; output z; M1 g1 (.a(x), .b(x), .o(z)); endmodule",
            b"*D_NET q7 1\n*END\n",
            CLOCK,
            b"net q7",
        ),
        (
            b"module m (x, z); input x; output z; M2 g1 (.a(x), .b(x), .o(z)); endmodule",
            b"",
            CLOCK,
            b"arc M1 b",
        ),
        (
            b"module e (a); input a; wire u, v; endmodule",
            b"*D_NET v 1\n*END\n*D_NET a 1\n*END\n",
            CLOCK,
            b"a",
        ),
        (
            CHAIN,
            b"*D_NET z 1\n*END\n*D_NET n1 1\n*END\n*D_NET x 1\n*END\n",
            CLOCK,
            b"x n1 z",
        ),
        (
            CHAIN,
            b"*D_NET n1 1\n*END\n*D_NET z 1\n*END\n*D_NET q7 1\n*END\n",
            CLOCK,
            b"net q7",
        ),
        (
            CHAIN,
            b"*D_NET q8 1\n*END\n*D_NET z 1\n*END\n*D_NET q7 1\n*END\n",
            CLOCK,
            b"net q8",
        ),
    ];
    for (verilog, spef, sdc, want) in rows {
        assert_eq!(rt; outcome(rt.alloc(), verilog, spef, sdc)?.as_slice(), want);
    }
    Ok(())
}
