//! Worked netlists with one, two and three drivers of a net.

use crate::twice::{Drivers, drivers_of};
use std::alloc::{AllocError, Global};
use std::test::Fail;

/// An inverter, and a gate of two inputs whose output's name is that of the inverter's input.
const CELLS: &str = "library (l) {
time_unit : \"1ps\"; capacitive_load_unit (1, ff); leakage_power_unit : \"1uW\";
lu_table_template (t) { variable_1 : total_output_net_capacitance; index_1 (\"0, 10\"); }
cell (I1) { area : 1; cell_leakage_power : 1;
pin (o) { direction : output; function : \"!a\";
timing () { related_pin : \"a\"; timing_sense : negative_unate;
cell_rise (t) { values (\"4, 24\"); } cell_fall (t) { values (\"4, 24\"); }
rise_transition (t) { values (\"2, 12\"); } fall_transition (t) { values (\"2, 12\"); } } }
pin (a) { direction : input; capacitance : 1; } }
cell (\"B[1]\") { area : 1; cell_leakage_power : 1;
pin (o) { direction : input; capacitance : 1; }
pin (a) { direction : output; function : \"o\";
timing () { related_pin : \"o\"; timing_sense : positive_unate;
cell_rise (t) { values (\"4, 24\"); } cell_fall (t) { values (\"4, 24\"); }
rise_transition (t) { values (\"2, 12\"); } fall_transition (t) { values (\"2, 12\"); } } } }
}
";

/// The two places of net `n` in a short netlist, or `None`.
fn found(alloc: Global, library: &str, netlist: &str) -> Result<Option<Drivers>, AllocError> {
    if library.len() > 100_000 || netlist.len() > 100_000 {
        return Err(AllocError);
    }
    drivers_of(alloc, library.as_bytes(), b"n", netlist.as_bytes())
}

/// Whether these are the places.
fn is_found(
    alloc: Global,
    library: &str,
    netlist: &str,
    wanted: Option<(u32, u32)>,
) -> Result<bool, Fail> {
    Ok(match (found(alloc, library, netlist)?, wanted) {
        (Some(drivers), Some((first, second))) => {
            drivers.first == first && drivers.second == second
        }
        (None, None) => true,
        _ => false,
    })
}

#[test]
fn first_two_drivers(rt: HostRuntime) -> Result<(), Fail> {
    let alloc = rt.alloc();
    for (netlist, wanted) in [
        // An input pin doesn't drive, and the third driver is not asked for.
        (
            "I1 g (.a(n), .o(m)); I1 h (.a(m), .o(n)); I1 i (.o(n), .a(m)); I1 j (.o(n), .a(m));",
            Some((37, 51)),
        ),
        // Of the other cell the pin `a` is the output, and `o` is none.
        (
            "\\B[1] g (.a(n), .o(m)); I1 h (.o(n), .a(m));",
            Some((12, 33)),
        ),
        ("\\B[1] g (.o(n), .a(m)); I1 h (.o(n), .a(m));", None),
        // An input port drives.
        (
            "module c (n); input m, n; I1 h (.o(n), .a(m)); endmodule",
            Some((23, 35)),
        ),
        // A cell that the library lacks has no output.
        ("I9 g (.o(n)); I1 h (.o(n), .a(m));", None),
        (
            "module c (n); output n; I1 h (.o(n), .a(m)); endmodule",
            None,
        ),
    ] {
        assert!(rt; is_found(alloc, CELLS, netlist, wanted)?, "{}", netlist);
    }
    Ok(())
}

#[test]
fn libraries_that_are_not_read(rt: HostRuntime) -> Result<(), Fail> {
    let alloc = rt.alloc();
    let netlist = "input n; I1 h (.o(n), .a(m));";
    assert!(rt; is_found(alloc, CELLS, netlist, Some((6, 18)))?);
    assert!(rt; is_found(alloc, "library (l) {", netlist, None)?);
    assert!(rt; is_found(alloc, "library (l) { }", netlist, None)?);
    Ok(())
}
