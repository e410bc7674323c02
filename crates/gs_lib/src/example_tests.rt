//! Tests on a library of four cells, and on parts of it.

use crate::error::{LibErr, What};
use crate::tests::{Outcome, joined, outcome_of, read};
use gs_design::{Cell, CellKind, Library, Role, Sense, TimingArc};
use gs_quantity::{Micro, Table};
use std::alloc::Global;
use std::test::Fail;

const UNITS: &[u8] =
    b"time_unit : \"1ps\"; capacitive_load_unit (1, ff); leakage_power_unit : \"1uW\"; default_max_transition : 100;";

const TEMPLATE: &[u8] =
    b"lu_table_template (t) { variable_1 : total_output_net_capacitance; index_1 (\"0, 10\"); }";

const I1: &[u8] = b"cell (I1) { area : 1; cell_leakage_power : 1; cell_footprint : \"inv\";
pin (a) { direction : input; capacitance : 1; }
pin (o) { direction : output; max_capacitance : 8; function : \"!a\";
timing () { related_pin : \"a\"; timing_sense : negative_unate;
cell_rise (t) { values (\"4, 24\"); } cell_fall (t) { values (\"4, 24\"); }
rise_transition (t) { values (\"2, 12\"); } fall_transition (t) { values (\"2, 12\"); } } } }
";

const I2: &[u8] = b"cell (I2) { area : 2; cell_leakage_power : 3; cell_footprint : \"inv\";
pin (a) { direction : input; capacitance : 2; }
pin (o) { direction : output; max_capacitance : 16; function : \"!a\";
timing () { related_pin : \"a\"; timing_sense : negative_unate;
cell_rise (t) { values (\"4, 14\"); } cell_fall (t) { values (\"4, 14\"); }
rise_transition (t) { values (\"2, 7\"); } fall_transition (t) { values (\"2, 7\"); } } } }
";

/// The start of a two-input cell, up to the attributes of its inputs.
const N1_START: &[u8] = b"cell (N1) { area : 2; cell_leakage_power : 2; cell_footprint : \"nand\";
";

/// The output of a two-input cell.
const N1_OUTPUT: &[u8] = b"pin (o) { direction : output; max_capacitance : 8; function : \"!(a*b)\";
timing () { related_pin : \"a b\"; timing_sense : negative_unate;
cell_rise (t) { values (\"4, 24\"); } cell_fall (t) { values (\"4, 24\"); }
rise_transition (t) { values (\"2, 12\"); } fall_transition (t) { values (\"2, 12\"); } } } }
";

const BOTH_INPUTS: &[u8] = b"pin (a, b) { direction : input; capacitance : 1; }
";

const F1: &[u8] = b"cell (F1) { area : 6; cell_leakage_power : 4; cell_footprint : \"ff\";
ff (\"IQ\", \"IQN\") { next_state : \"d\"; clocked_on : \"ck\"; }
pin (ck) { direction : input; capacitance : 1; clock : true; }
pin (d) { direction : input; capacitance : 1; }
pin (q) { direction : output; max_capacitance : 16; function : \"IQ\";
timing () { related_pin : \"ck\"; timing_type : rising_edge;
cell_rise (t) { values (\"10, 20\"); } cell_fall (t) { values (\"10, 20\"); }
rise_transition (t) { values (\"2, 12\"); } fall_transition (t) { values (\"2, 12\"); } } } }
";

/// A library of these parts after its units.
fn library_of(alloc: Global, parts: &[&[u8]]) -> Result<Result<Library, LibErr>, Fail> {
    let body = joined(alloc, parts)?;
    let text = joined(
        alloc,
        &[b"library (rows) {\n", UNITS, body.as_slice(), b"}\n"],
    )?;
    read(alloc, text.as_slice())
}

/// The outcome of a library of these parts after its units.
fn outcome(alloc: Global, parts: &[&[u8]]) -> Result<Outcome, Fail> {
    let answer = library_of(alloc, parts)?;
    Ok(outcome_of(&answer))
}

/// So many whole ones.
pub fn whole(number: i32) -> Micro {
    Micro(i64::from(number) * 1_000_000)
}

pub fn looks(table: &Table, slew: i32, load: i32, value: i32) -> bool {
    table.look(whole(slew), whole(load), true) == whole(value)
}

/// Whether an arc is from an input of a place, of the sense, with the delay `4 + 2c` and the slew `2 + c` at load c.
fn is_small_arc(arc: &TimingArc, place: u8) -> bool {
    arc.pin == place
        && arc.sense == Sense::Other
        && looks(&arc.cell_rise, 3, 0, 4)
        && looks(&arc.cell_fall, 0, 10, 24)
        && looks(&arc.rise_transition, 0, 20, 22)
        && looks(&arc.fall_transition, 9, 5, 7)
}

/// Whether a cell is the small inverter.
fn is_small_inverter(cell: &Cell) -> bool {
    let [a, o] = cell.pins.as_slice() else {
        return false;
    };
    let [arc] = cell.arcs.as_slice() else {
        return false;
    };
    cell.name.is(b"I1")
        && cell.footprint.is(b"inv")
        && cell.area == whole(1)
        && cell.leakage == whole(1)
        && !cell.marked
        && cell.kind == CellKind::Gate { truth: 1 }
        && a.name.is(b"a")
        && a.role == Role::Input
        && a.cap == whole(1)
        && a.slew_bound == None
        && a.load_bound == None
        && o.name.is(b"o")
        && o.role == Role::Output
        && o.cap == whole(0)
        && o.load_bound == Some(whole(8))
        && is_small_arc(arc, 0)
}

/// Whether a cell is the small two-input gate, with an arc from each input.
fn is_small_nand(cell: &Cell) -> bool {
    let [first, second] = cell.arcs.as_slice() else {
        return false;
    };
    cell.name.is(b"N1")
        && cell.kind == CellKind::Gate { truth: 7 }
        && is_small_arc(first, 0)
        && is_small_arc(second, 1)
}

/// Whether a cell is the flip-flop.
fn is_register(cell: &Cell) -> bool {
    let [ck, d, q] = cell.pins.as_slice() else {
        return false;
    };
    let [arc] = cell.arcs.as_slice() else {
        return false;
    };
    cell.kind == CellKind::Flop
        && ck.role == Role::Clock
        && d.role == Role::Input
        && q.role == Role::Output
        && arc.pin == 0
        && arc.sense == Sense::Launch
        && looks(&arc.cell_rise, 0, 1, 11)
}

#[test]
fn an_example_reads_as_it_is_written(rt: HostRuntime) -> Result<(), Fail> {
    let alloc = rt.alloc();
    let answer = library_of(
        alloc,
        &[TEMPLATE, I1, I2, N1_START, BOTH_INPUTS, N1_OUTPUT, F1],
    )?;
    let library = answer?;
    assert!(rt; library.units.time_tens == 0 && library.units.load_tens == 0);
    assert!(rt; library.leak_unit.is(b"1uW") && library.slew_default == Some(whole(100)));
    let [inverter, other, nand, register] = library.cells.as_slice() else {
        return Err(Fail::new("there are four cells"));
    };
    assert!(rt; is_small_inverter(inverter) && other.name.is(b"I2"));
    assert!(rt; is_small_nand(nand) && is_register(register));
    Ok(())
}

/// Whether a library is refused, for a table of the first cell.
fn is_bad_table(answer: &Result<Library, LibErr>, name: &[u8], wanted: u32) -> bool {
    match answer {
        Err(LibErr::BadTable { cell, i }) => cell.is(name) && *i == wanted,
        _ => false,
    }
}

fn is_missing(answer: &Result<Library, LibErr>, name: &[u8], wanted: What) -> bool {
    match answer {
        Err(LibErr::Missing { cell, what }) => cell.is(name) && *what == wanted,
        _ => false,
    }
}

#[test]
fn a_refusal_names_its_cell(rt: HostRuntime) -> Result<(), Fail> {
    let alloc = rt.alloc();
    let voltage =
        b"lu_table_template (t) { variable_1 : input_voltage; index_1 (\"0, 10\"); }".as_slice();
    let bare =
        b"pin (a) { direction : input; } pin (b) { direction : input; capacitance : 1; }".as_slice();
    let answer = library_of(alloc, &[voltage, I1, I2])?;
    assert!(rt; is_bad_table(&answer, b"I1", 0));
    let answer = library_of(alloc, &[TEMPLATE, I1, I2, N1_START, bare, N1_OUTPUT])?;
    assert!(rt; is_missing(&answer, b"N1", What::Capacitance));
    Ok(())
}

#[test]
fn cells_outside_the_profile_are_passed_over(rt: HostRuntime) -> Result<(), Fail> {
    let alloc = rt.alloc();
    let latch =
        b"cell (L1) { latch (\"IQ\", \"IQN\") { } cell_leakage_power : x; pin (d) { direction : input; capacitance : -1; } pin (q) { direction : output; } }".as_slice();
    assert!(rt; outcome(alloc, &[TEMPLATE, latch, I2])? == Outcome::Read(1));
    let two_outputs =
        b"cell (H1) { pin (a, b) { direction : input; } pin (s, c) { direction : output; function : \"a\"; } }".as_slice();
    assert!(rt; outcome(alloc, &[TEMPLATE, I2, two_outputs])? == Outcome::Read(1));
    let answer = read(
        alloc,
        b"library (r) { cell (I2) { cell_leakage_power : 0.0000005 ; } }",
    )?;
    assert!(rt; outcome_of(&answer) == Outcome::NoUnit);
    Ok(())
}

/// What the gate of the inputs and the function is, where it is read.
fn truth_of(alloc: Global, inputs: &[u8], function: &[u8]) -> Result<Option<u64>, Fail> {
    let answer = library_of(
        alloc,
        &[
            b"cell (G) { cell_leakage_power : 1; pin (",
            inputs,
            b") { direction : input; capacitance : 1; } pin (o) { direction : output; function : \"",
            function,
            b"\"; } }",
        ],
    )?;
    let library = answer?;
    match library.cells.as_slice() {
        [cell] => match cell.kind {
            CellKind::Gate { truth } => Ok(Some(truth)),
            CellKind::Flop => Ok(None),
        },
        _ => Ok(None),
    }
}

/// A function in 64 parentheses.
const DEEP: &[u8] =
    b"((((((((((((((((((((((((((((((((((((((((((((((((((((((((((((((((a))))))))))))))))))))))))))))))))))))))))))))))))))))))))))))))))";

/// A function in 65 parentheses.
const TOO_DEEP: &[u8] =
    b"(((((((((((((((((((((((((((((((((((((((((((((((((((((((((((((((((a)))))))))))))))))))))))))))))))))))))))))))))))))))))))))))))))))";

#[test]
fn functions_are_over_the_inputs_in_order(rt: HostRuntime) -> Result<(), Fail> {
    let alloc = rt.alloc();
    let cases: [(&[u8], &[u8], Option<u64>); 11] = [
        (b"a", DEEP, Some(2)),
        (b"a", TOO_DEEP, None),
        (b"a, b", b"!(a*b)", Some(7)),
        (b"a, b", b"a ^ b", Some(6)),
        (b"a, b, c", b"a b ^ c", Some(40)),
        (b"a, b", b"a +", None),
        (b"a, b", b"a*d", None),
        (b"a, b", b"b !a", Some(4)),
        (b"b, a", b"b !a", Some(4)),
        (b"a", b"!\\\na", Some(1)),
        (b"a", b"", None),
    ];
    for (inputs, function, wanted) in cases {
        assert!(rt; truth_of(alloc, inputs, function)? == wanted);
    }
    Ok(())
}

/// The inverter of a delay table under this template, with these values.
fn of_template(
    alloc: Global,
    template: &[u8],
    values: &[u8],
) -> Result<Result<Library, LibErr>, Fail> {
    library_of(
        alloc,
        &[
            TEMPLATE,
            b"lu_table_template (s) { variable_1 : input_net_transition; } lu_table_template (s) { ",
            template,
            b"} cell (I1) { cell_leakage_power : 1; pin (a) { direction : input; capacitance : 1; } pin (o) { direction : output; function : \"!a\"; timing () { related_pin : a; cell_rise (s) { values (",
            values,
            b"); } cell_fall (t) { values (\"4, 24\"); } rise_transition (t) { values (\"2, 12\"); } fall_transition (t) { values (\"2, 12\"); } } } }",
        ],
    )
}

/// Whether the delay of a library's one arc is this at a slew and a load.
fn has_delay(answer: &Result<Library, LibErr>, slew: i32, load: i32, value: i32) -> bool {
    match answer {
        Err(_) => false,
        Ok(library) => match library.cells.as_slice() {
            [cell] => match cell.arcs.as_slice() {
                [arc] => looks(&arc.cell_rise, slew, load, value),
                _ => false,
            },
            _ => false,
        },
    }
}

#[test]
fn templates_have_a_slew_and_a_load_in_either_order(rt: HostRuntime) -> Result<(), Fail> {
    let alloc = rt.alloc();
    let cases: [(&[u8], &[u8]); 2] = [
        (
            b"variable_1 : input_transition_time; variable_2 : total_output_net_capacitance; index_1 (\"0, 10\"); index_2 (\"0, 20\");",
            b"\"1, 3\", \"5, 11\"",
        ),
        (
            b"variable_1 : total_output_net_capacitance; variable_2 : input_net_transition; index_1 (\"0, 20\"); index_2 (\"0, 10\");",
            b"\"1, 5\", \"3, 11\"",
        ),
    ];
    for (template, values) in cases {
        let answer = of_template(alloc, template, values)?;
        assert!(rt; has_delay(&answer, 0, 0, 1) && has_delay(&answer, 0, 20, 3));
        assert!(rt; has_delay(&answer, 10, 0, 5) && has_delay(&answer, 10, 20, 11));
        assert!(rt; has_delay(&answer, 5, 5, 4) && has_delay(&answer, 20, 20, 19));
        assert!(rt; has_delay(&answer, 20, 30, 24));
    }
    let slews = of_template(
        alloc,
        b"variable_1 : input_net_transition; index_1 (\"0, 10\");",
        b"\"1, 5\"",
    )?;
    assert!(rt; has_delay(&slews, 0, 7, 1) && has_delay(&slews, 10, 9, 5));
    Ok(())
}

#[test]
fn templates_are_judged(rt: HostRuntime) -> Result<(), Fail> {
    let alloc = rt.alloc();
    let cases: [&[u8]; 11] = [
        b"variable_1 : input_net_transition;",
        b"variable_1 : input_net_transition; index_1 (\"0, 1, 2, x\");",
        b"variable_1 : total_output_net_capacitance; variable_2 : total_output_net_capacitance; index_1 (\"0, 10\"); index_2 (\"0, 20\");",
        b"variable_1 : total_output_net_capacitance; variable_2 : input_voltage; index_1 (\"0, 10\"); index_2 (\"0, 20\");",
        b"variable_1 : input_voltage; variable_2 : input_net_transition; index_1 (\"0, 10\"); index_2 (\"0, 20\");",
        b"variable_1 : input_net_transition; variable_2 : input_transition_time; index_1 (\"0, 10\"); index_2 (\"0, 20\");",
        b"variable_2 : input_net_transition; index_1 (\"0, 10\"); index_2 (\"0, 20\");",
        b"variable_1 : input_net_transition; variable_2 : total_output_net_capacitance; index_1 (\"0, 10\");",
        b"variable_1 : constrained_pin_transition; index_1 (\"0, 1, 2, 3\");",
        b"index_1 (\"0, 1, 2, 3\");",
        b"variable_1 : input_net_transition; index_1 (\"0, 1, 2\");",
    ];
    for template in cases {
        let answer = of_template(alloc, template, b"\"1, 3\", \"5, 11\"")?;
        assert!(rt; is_bad_table(&answer, b"I1", 0));
    }
    Ok(())
}

/// A library of so many inverters of one class and one more, which has this attribute.
fn class_outcome(alloc: Global, cells: u32, attribute: &[u8]) -> Result<Outcome, Fail> {
    let mut text = Vec::new(alloc);
    for cell in 0..cells {
        let name = format!(in alloc; "cell (c{cell}) {{ ")?;
        text.extend_from_slice(name.as_bytes())?;
        text.extend_from_slice(
            b"cell_leakage_power : 1; pin (a) { direction : input; capacitance : 1; } pin (o) { direction : output; function : \"!a\"; } }",
        )?;
    }
    outcome(
        alloc,
        &[
            text.as_slice(),
            b"cell (d) { cell_leakage_power : 1; pin (a) { direction : input; capacitance : 1; } pin (o) { direction : output; function : \"a'\"; } ",
            attribute,
            b"}",
        ],
    )
}

#[test]
fn a_class_has_at_most_1024_unmarked_gates(rt: HostRuntime) -> Result<(), Fail> {
    let alloc = rt.alloc();
    assert!(rt; class_outcome(alloc, 1023, b"")? == Outcome::Read(1024));
    assert!(rt; class_outcome(alloc, 1024, b"")? == Outcome::TooMany);
    assert!(rt; class_outcome(alloc, 1024, b"dont_use : true; ")? == Outcome::Read(1025));
    assert!(rt; class_outcome(alloc, 1024, b"cell_footprint : \"f\"; ")? == Outcome::Read(1025));
    Ok(())
}
