//! The limits on cells, instances and nets, on texts too large for the tests of a lower crate.

use crate::words::size_words;
use gs_shelf::{Bytes, FileList, NeverFails};
use gs_top::run;
use itoa::Buffer;
use std::alloc::{AllocError, Global};
use std::test::Fail;
use std::thread::Threads;

/// A netlist without an instance.
const EMPTY: &[u8] = b"module e; endmodule";

/// What a cell of these libraries says after its name: it is an inverter.
const INVERTER: &[u8] =
    b") { cell_leakage_power : 1; dont_use : true; pin (a) { direction : input; capacitance : 1; } pin (o) { direction : output; function : \"!a\"; timing () { related_pin : \"a\"; timing_sense : negative_unate; cell_rise (scalar) { values (\"4\"); } cell_fall (scalar) { values (\"4\"); } rise_transition (scalar) { values (\"2\"); } fall_transition (scalar) { values (\"2\"); } } } }";

/// A library of so many cells, which are marked, so that none may take the place of another.
fn many_cells(alloc: Global, count: u32) -> Result<Vec<u8>, AllocError> {
    let mut text = Vec::from_slice(
        alloc,
        b"library (l) { time_unit : \"1ps\"; capacitive_load_unit (1, ff); ",
    )?;
    for k in 0..count {
        let mut digits = Buffer::new();
        text.extend_from_slice(b"cell (c")?;
        text.extend_from_slice(digits.format(k).as_bytes())?;
        text.extend_from_slice(INVERTER)?;
    }
    text.extend_from_slice(b"}")?;
    Ok(text)
}

/// Adds so many input ports after the first.
fn add_ports(text: &mut Vec<u8>, ports: u32) -> Result<(), AllocError> {
    for k in 0..ports {
        let mut digits = Buffer::new();
        text.extend_from_slice(b",p")?;
        text.extend_from_slice(digits.format(k).as_bytes())?;
    }
    text.extend_from_slice(b";")
}

/// Adds so many instances of one cell, each with a net of its own.
fn add_insts(text: &mut Vec<u8>, insts: u32) -> Result<(), AllocError> {
    for k in 0..insts {
        let mut digits = Buffer::new();
        let number = digits.format(k).as_bytes();
        text.extend_from_slice(b"c0 i")?;
        text.extend_from_slice(number)?;
        text.extend_from_slice(b"(.a(x), .o(n")?;
        text.extend_from_slice(number)?;
        text.extend_from_slice(b"));")?;
    }
    Ok(())
}

/// A netlist of an input port and so many more, and of so many instances of one cell, each with a net of its own.
fn netlist_of(alloc: Global, ports: u32, insts: u32) -> Result<Vec<u8>, AllocError> {
    let mut text = Vec::from_slice(alloc, b"module m (x); input x")?;
    add_ports(&mut text, ports)?;
    add_insts(&mut text, insts)?;
    text.extend_from_slice(b"endmodule")?;
    Ok(text)
}

/// Whether a run on these bytes says the line.
fn says<R: Threads + Sync>(
    rt: &R,
    alloc: Global,
    library: &[u8],
    netlist: &[u8],
    line: &str,
) -> Result<bool, Fail> {
    let mut files = FileList::new(alloc);
    files.put(alloc, b"n.lib", library)?;
    files.put(alloc, b"n.v", netlist)?;
    files.put(alloc, b"n.spef", b"*C_UNIT 1 FF")?;
    files.put(alloc, b"n.sdc", b"create_clock -name k -period 1")?;
    let said = Bytes::empty(alloc);
    let mut shelf = NeverFails { files, said };
    let _ = run(rt, alloc, &size_words(alloc, "0")?, &mut shelf);
    Ok(shelf.said.as_slice() == line.as_bytes())
}

#[test]
fn a_library_of_too_many_cells(rt: HostRuntime) -> Result<(), Fail> {
    let alloc = rt.alloc();
    let most = many_cells(alloc, 65_535)?;
    assert!(rt;
        says(
            &rt,
            alloc,
            most.as_slice(),
            EMPTY,
            "done settled leakage 0.000000 violations 0 commits 0\n"
        )?
    );
    let more = many_cells(alloc, 65_536)?;
    assert!(rt; says(&rt, alloc, more.as_slice(), EMPTY, "bad library toomany\n")?);
    Ok(())
}

#[test]
fn a_design_of_too_many_instances(rt: HostRuntime) -> Result<(), Fail> {
    let alloc = rt.alloc();
    let cells = many_cells(alloc, 1)?;
    let more = netlist_of(alloc, 0, 2_097_152)?;
    assert!(rt;
        says(
            &rt,
            alloc,
            cells.as_slice(),
            more.as_slice(),
            "bad design toomany\n"
        )?
    );
    Ok(())
}

#[test]
fn a_design_of_too_many_nets(rt: HostRuntime) -> Result<(), Fail> {
    let alloc = rt.alloc();
    let cells = many_cells(alloc, 1)?;
    let more = netlist_of(alloc, 2_097_152, 2_097_151)?;
    assert!(rt;
        says(
            &rt,
            alloc,
            cells.as_slice(),
            more.as_slice(),
            "bad design toomany\n"
        )?
    );
    Ok(())
}
