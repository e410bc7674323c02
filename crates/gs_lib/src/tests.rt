//! Tests.

use crate::error::{LibErr, What};
use crate::read::read_library;
use gs_design::{Cell, CellKind, Library, Role, Sense};
use gs_libtree::read_tree;
use std::alloc::Global;
use std::test::Fail;

/// What becomes of a text.
#[derive(Clone, Copy, PartialEq, Eq)]
pub enum Outcome {
    Read(usize),
    Missing(What),
    NoUnit,
    BadUnit,
    BadNumber,
    TwoCells,
    BadTable(u32),
    TooMany,
    Other,
}

const HEADER: &[u8] =
    b"time_unit : \"1ps\"; capacitive_load_unit (1, ff); lu_table_template (t) { variable_1 : total_output_net_capacitance; index_1 (\"0, 10\"); } lu_table_template (u) { variable_1 : total_output_net_capacitance; variable_2 : input_net_transition; index_1 (\"0, 20\"); index_2 (\"0, 10\"); }";

/// An input and the start of an output of an inverter.
const PINS: &[u8] =
    b"cell_leakage_power : 1; pin (a) { direction : input; capacitance : 1; } pin (o) { direction : output; function : \"!a\"; ";

const TABLES: &[u8] =
    b"cell_rise (t) { values (\"4, 24\"); } cell_fall (t) { values (\"4, 24\"); } rise_transition (t) { values (\"2, 12\"); } fall_transition (t) { values (\"2, 12\"); }";

/// These parts of a text, one after another.
pub fn joined(alloc: Global, parts: &[&[u8]]) -> Result<Vec<u8>, Fail> {
    let mut text = Vec::new(alloc);
    for part in parts {
        text.extend_from_slice(*part)?;
    }
    Ok(text)
}

/// The library of a text of tests, which is short.
pub fn read(alloc: Global, text: &[u8]) -> Result<Result<Library, LibErr>, Fail> {
    if text.len() > 1 << 20 {
        return Err(Fail::new("a text of tests is short"));
    }
    let root = read_tree(alloc, text)?;
    Ok(read_library(alloc, &root))
}

pub fn outcome_of(answer: &Result<Library, LibErr>) -> Outcome {
    match answer {
        Ok(library) => Outcome::Read(library.cells.len()),
        Err(LibErr::Missing { cell: _, what }) => Outcome::Missing(*what),
        Err(LibErr::NoUnit) => Outcome::NoUnit,
        Err(LibErr::BadUnit) => Outcome::BadUnit,
        Err(LibErr::BadNumber { .. }) => Outcome::BadNumber,
        Err(LibErr::TwoCells { .. }) => Outcome::TwoCells,
        Err(LibErr::BadTable { cell: _, i }) => Outcome::BadTable(*i),
        Err(LibErr::TooMany) => Outcome::TooMany,
        Err(LibErr::Mem) => Outcome::Other,
    }
}

/// What becomes of a library with these parts after its header.
fn outcome_with(alloc: Global, parts: &[&[u8]]) -> Result<Outcome, Fail> {
    let body = joined(alloc, parts)?;
    let text = joined(alloc, &[b"library (l) { ", HEADER, body.as_slice(), b" }"])?;
    let answer = read(alloc, text.as_slice())?;
    Ok(outcome_of(&answer))
}

/// What becomes of an inverter whose output has this `timing` group.
fn of_timing(alloc: Global, timing: &[u8]) -> Result<Outcome, Fail> {
    outcome_with(
        alloc,
        &[b"cell (I1) { ", PINS, b"timing () { ", timing, b" } } }"],
    )
}

#[test]
fn units_and_their_neighbours(rt: HostRuntime) -> Result<(), Fail> {
    let alloc = rt.alloc();
    let cases: [(&[u8], &[u8], Outcome); 16] = [
        (b"1ps", b"1, ff", Outcome::Read(0)),
        (b"10ps", b"10, FF", Outcome::Read(0)),
        (b"100ps", b"100.0, pF", Outcome::Read(0)),
        (b"1ns", b"1.0, Pf", Outcome::Read(0)),
        (b"2ps", b"1, ff", Outcome::BadUnit),
        (b"10 ps", b"1, ff", Outcome::BadUnit),
        (b"1ps", b"2, ff", Outcome::BadUnit),
        (b"1ps", b"1, nf", Outcome::BadUnit),
        (b"1ps", b"1", Outcome::BadUnit),
        (b"10ns", b"1, ff", Outcome::BadUnit),
        (b"1us", b"1, ff", Outcome::BadUnit),
        (b"1PS", b"1, ff", Outcome::BadUnit),
        (b"ps", b"1, ff", Outcome::BadUnit),
        (b"1ps", b"1000, ff", Outcome::BadUnit),
        (b"1ps", b"1, f", Outcome::BadUnit),
        (b"1ps", b"1, ff, 1", Outcome::BadUnit),
    ];
    for (time, load, wanted) in cases {
        let text = joined(
            alloc,
            &[
                b"library (l) { time_unit : \"",
                time,
                b"\"; capacitive_load_unit (",
                load,
                b"); }",
            ],
        )?;
        let answer = read(alloc, text.as_slice())?;
        assert!(rt; outcome_of(&answer) == wanted);
    }
    Ok(())
}

#[test]
fn headers_are_refused(rt: HostRuntime) -> Result<(), Fail> {
    let alloc = rt.alloc();
    let cases: [(&[u8], Outcome); 7] = [
        (b"lib (l) { }", Outcome::Missing(What::Library)),
        (b"library (l) { time_unit : \"2ps\"; }", Outcome::NoUnit),
        (
            b"library (l) { capacitive_load_unit (1, ff); }",
            Outcome::NoUnit,
        ),
        (
            b"library (l) { time_unit : \"1ps\"; capacitive_load_unit (1, ff); leakage_power_unit : \"0123456789abcdef\"; }",
            Outcome::Read(0),
        ),
        (
            b"library (l) { time_unit : \"1ps\"; capacitive_load_unit (1, ff); leakage_power_unit : \"0123456789abcdefg\"; }",
            Outcome::BadUnit,
        ),
        (
            b"library (l) { time_unit : \"1ps\"; capacitive_load_unit (1, ff); leakage_power_unit : \"1 W\"; default_max_transition : x; }",
            Outcome::BadUnit,
        ),
        (
            b"library (l) { time_unit : \"1ps\"; capacitive_load_unit (1, ff); default_max_transition : x; cell (a) { } }",
            Outcome::BadNumber,
        ),
    ];
    for (text, wanted) in cases {
        let answer = read(alloc, text)?;
        assert!(rt; outcome_of(&answer) == wanted);
    }
    Ok(())
}

#[test]
fn tables_are_judged(rt: HostRuntime) -> Result<(), Fail> {
    let alloc = rt.alloc();
    let rest =
        b"cell_fall (t) { values (\"4, 24\"); } rise_transition (t) { values (\"2, 12\"); } fall_transition (t) { values (\"2, 12\"); }".as_slice();
    let cases: [(&[u8], Outcome); 17] = [
        (b"cell_rise (t) { values (\"-4, 24\"); }", Outcome::Read(1)),
        (
            b"cell_rise (t) { values (\"4, \\\n 24\"); }",
            Outcome::Read(1),
        ),
        (b"cell_rise (t) { values (\"4,,24\"); }", Outcome::Read(1)),
        (
            b"cell_rise (scalar) { index_1 (\"x\"); values (\"7\"); }",
            Outcome::Read(1),
        ),
        (
            b"cell_rise (u) { values (\"1, 5\", \"3, 11\"); }",
            Outcome::Read(1),
        ),
        (
            b"cell_rise (x) { values (\"4\"); } cell_rise (t) { values (\"4, 24\"); }",
            Outcome::Read(1),
        ),
        (
            b"cell_rise (u) { values (\"1\", \"5, 3, 11\"); }",
            Outcome::Read(1),
        ),
        (
            b"cell_rise (u) { values (\"1, 5\", \"3\"); }",
            Outcome::BadTable(0),
        ),
        (
            b"cell_rise (u) { values (\"1, 5\", \"3, 11, 2\"); }",
            Outcome::BadTable(0),
        ),
        (b"cell_rise (t) { values (\"4\"); }", Outcome::BadTable(0)),
        (
            b"cell_rise (t) { values (\"4, x\"); }",
            Outcome::BadTable(0),
        ),
        (
            b"cell_rise (t) { index_1 (\"10, 0\"); values (\"4, 24\"); }",
            Outcome::BadTable(0),
        ),
        (
            b"cell_rise (t) { index_1 (\"0, x\"); values (\"4, 24\"); }",
            Outcome::BadTable(0),
        ),
        (
            b"cell_rise (x) { values (\"4, 24\"); }",
            Outcome::BadTable(0),
        ),
        (
            b"cell_rise () { values (\"4, 24\"); }",
            Outcome::BadTable(0),
        ),
        (
            b"cell_rise (scalar) { values (\"7, 8\"); }",
            Outcome::BadTable(0),
        ),
        (b"", Outcome::Missing(What::CellRise)),
    ];
    for (rise, wanted) in cases {
        let timing = joined(alloc, &[b"related_pin : \"a\"; ", rise, rest])?;
        assert!(rt; of_timing(alloc, timing.as_slice())? == wanted);
    }
    Ok(())
}

#[test]
fn groups_are_judged(rt: HostRuntime) -> Result<(), Fail> {
    let alloc = rt.alloc();
    let cases: [(&[u8], Outcome); 5] = [
        (b"related_pin : \"a\"; ", Outcome::Read(1)),
        (
            b"related_pin : \" x \\\na \"; timing_sense : odd; ",
            Outcome::Read(1),
        ),
        (b"", Outcome::Missing(What::RelatedPin)),
        (b"related_pin : \"x\"; ", Outcome::Missing(What::RelatedPin)),
        (b"timing_type : three_state_enable; ", Outcome::Read(1)),
    ];
    for (start, wanted) in cases {
        let timing = joined(alloc, &[start, TABLES])?;
        assert!(rt; of_timing(alloc, timing.as_slice())? == wanted);
    }
    Ok(())
}

#[test]
fn a_flip_flop_without_a_rising_edge_is_passed_over(rt: HostRuntime) -> Result<(), Fail> {
    let alloc = rt.alloc();
    let cases: [(&[u8], Outcome); 3] = [
        (b"timing_type : rising_edge; ", Outcome::Read(1)),
        (b"timing_type : falling_edge; ", Outcome::Read(0)),
        (b"", Outcome::Read(0)),
    ];
    for (edge, wanted) in cases {
        let parts: [&[u8]; 6] = [
            b"cell (I1) { ff () { } ",
            PINS,
            b"timing () { related_pin : \"a\"; ",
            edge,
            TABLES,
            b" } } }",
        ];
        assert!(rt; outcome_with(alloc, &parts)? == wanted);
    }
    Ok(())
}

#[test]
fn cells_are_judged_in_order(rt: HostRuntime) -> Result<(), Fail> {
    let alloc = rt.alloc();
    let pins =
        b"pin (a) { direction : input; capacitance : 1; } pin (o) { direction : output; function : \"!a\"; } } ".as_slice();
    let cases: [(&[u8], Outcome); 17] = [
        (b"cell (I1) { cell_leakage_power : 1; ", Outcome::Read(1)),
        (
            b"cell (I1) { cell_leakage_power : x; cell_leakage_power : 1; ",
            Outcome::Read(1),
        ),
        (
            b"cell (I1) { cell_leakage_power : 1; pin () { direction : output; } ",
            Outcome::Read(1),
        ),
        (
            b"lu_table_template () { } cell (I1) { cell_leakage_power : 1; ",
            Outcome::Read(1),
        ),
        (
            b"cell (I1) { cell_leakage_power (1); area : x; ",
            Outcome::Missing(What::Leakage),
        ),
        (b"cell (I1) { cell_leakage_power : -1; ", Outcome::BadNumber),
        (
            b"cell (I1) { cell_leakage_power : 1; area : x; ",
            Outcome::BadNumber,
        ),
        (b"cell (\"I 1\") { ", Outcome::Read(0)),
        (b"cell () { ", Outcome::Read(0)),
        (b"cell (I1) { latch () { } ", Outcome::Read(0)),
        (
            b"cell (I1) { pin (b) { direction : inout; } ",
            Outcome::Read(0),
        ),
        (
            b"cell (I1) { pin (a) { direction : input; } ",
            Outcome::Read(0),
        ),
        (b"cell (I1) { ff () { } ", Outcome::Read(0)),
        (
            b"cell (I1) { pin (b, c, d, e, f) { direction : input; capacitance : 1; } cell_leakage_power : 1; ",
            Outcome::Read(1),
        ),
        (
            b"cell (I1) { pin (b, c, d, e, f, g) { direction : input; } ",
            Outcome::Read(0),
        ),
        (
            b"cell (I1) { pin (s, r, q, p, n, m, l, k, j, i, h, g, f, e, d, c, b) { direction : input; } ",
            Outcome::Read(0),
        ),
        (
            b"cell (I1) { pin (b) { direction : input; } cell_leakage_power : x; ",
            Outcome::Missing(What::Capacitance),
        ),
    ];
    for (cell, wanted) in cases {
        assert!(rt; outcome_with(alloc, &[cell, pins])? == wanted);
    }
    let good = joined(alloc, &[b"cell (I1) { cell_leakage_power : 1; ", pins])?;
    let latch = joined(alloc, &[b"cell (I1) { latch () { } ", pins])?;
    assert!(rt; outcome_with(alloc, &[good.as_slice(), good.as_slice()])? == Outcome::TwoCells);
    assert!(rt; outcome_with(alloc, &[latch.as_slice(), good.as_slice()])? == Outcome::Read(1));
    assert!(rt; outcome_with(alloc, &[good.as_slice(), latch.as_slice()])? == Outcome::Read(1));
    Ok(())
}

/// Whether a cell is a flip-flop with the pins ck, d and q in this order, the first a clock, and one launching arc from it.
fn is_flip_flop(cell: &Cell) -> bool {
    let [ck, d, q] = cell.pins.as_slice() else {
        return false;
    };
    let [arc] = cell.arcs.as_slice() else {
        return false;
    };
    ck.name.is(b"ck")
        && ck.role == Role::Clock
        && d.name.is(b"d")
        && d.role == Role::Input
        && q.name.is(b"q")
        && q.role == Role::Output
        && arc.pin == 0
        && arc.sense == Sense::Launch
        && cell.kind == CellKind::Flop
}

#[test]
fn a_flip_flop_launches_at_its_rising_edge(rt: HostRuntime) -> Result<(), Fail> {
    let alloc = rt.alloc();
    let text = joined(
        alloc,
        &[
            b"library (l) { ",
            HEADER,
            b"cell (F1) { cell_leakage_power : 4; ff (IQ, IQN) { } pin (q) { direction : output; function : \"IQ\"; timing () { related_pin : \"d\"; timing_type : falling_edge; } timing () { related_pin : \"ck\"; timing_type : rising_edge; ",
            TABLES,
            b" } } pin (d, ck) { direction : input; capacitance : 1; } } }",
        ],
    )?;
    let answer = read(alloc, text.as_slice())?;
    let library = answer?;
    match library.cells.as_slice() {
        [cell] => assert!(rt; is_flip_flop(cell)),
        _ => assert!(rt; false),
    }
    Ok(())
}
