//! Whole runs on texts that are made: deep groups, and long names.

use crate::program::run;
use crate::samples::{BARE_CLOCK, NO_WIRES, size_words};
use crate::status::exit_of;
use gs_shelf::{Bytes, FileList, NeverFails};
use std::alloc::{AllocError, Global};
use std::test::Fail;
use std::thread::Threads;

/// What stands after the name of an inverter.
const INVERTER: &[u8] =
    b") { cell_leakage_power : 1; pin (a) { direction : input; capacitance : 1; } pin (o) { direction : output; function : \"!a\"; timing () { related_pin : \"a\"; timing_sense : negative_unate; cell_rise (scalar) { values (\"4\"); } cell_fall (scalar) { values (\"4\"); } rise_transition (scalar) { values (\"2\"); } fall_transition (scalar) { values (\"2\"); } } } } }";

const HEADER: &[u8] =
    b"library (l) { time_unit : \"1ps\"; capacitive_load_unit (1, ff); leakage_power_unit : \"1234567890abcdef\" ; cell (";

/// A shelf without faults, with this library and this netlist.
fn shelf_of(alloc: Global, library: &[u8], netlist: &[u8]) -> Result<NeverFails, AllocError> {
    let mut files = FileList::new(alloc);
    files.put(alloc, b"n.lib", library)?;
    files.put(alloc, b"n.v", netlist)?;
    files.put(alloc, b"n.spef", NO_WIRES.as_bytes())?;
    files.put(alloc, b"n.sdc", BARE_CLOCK.as_bytes())?;
    let said = Bytes::empty(alloc);
    Ok(NeverFails { files, said })
}

/// Whether a run on these bytes ends with these texts and with a limit that isn't met.
fn writes<R: Threads + Sync>(
    rt: &R,
    alloc: Global,
    library: &[u8],
    netlist: &[u8],
    sizes: &[u8],
    report: &[u8],
) -> Result<bool, Fail> {
    let mut shelf = shelf_of(alloc, library, netlist)?;
    let status = run(rt, alloc, &size_words(alloc)?, &mut shelf);
    let same_sizes = shelf.files.get(b"n.sizes") == Some(sizes);
    let same_report = shelf.files.get(b"n.rpt") == Some(report);
    Ok(exit_of(&status) == 1 && same_sizes && same_report)
}

/// A text with a name of 300 bytes between two others.
fn around_name(alloc: Global, before: &[u8], after: &[u8]) -> Result<Vec<u8>, AllocError> {
    let mut text = Vec::from_slice(alloc, before)?;
    for _ in 0..300 {
        text.push(b'n')?;
    }
    text.extend_from_slice(after)?;
    Ok(text)
}

#[test]
fn names_of_300_bytes_and_a_unit_of_16(rt: HostRuntime) -> Result<(), Fail> {
    let alloc = rt.alloc();
    let library = around_name(alloc, HEADER, INVERTER)?;
    let mut netlist = around_name(alloc, b"module m (x, z); input x; output z; ", b" ")?;
    netlist.extend_from_slice(around_name(alloc, b"", b" (.a(x), .o(z)); endmodule")?.as_slice())?;
    let mut sizes = around_name(alloc, b"", b" ")?;
    sizes.extend_from_slice(around_name(alloc, b"", b"\n")?.as_slice())?;
    let report =
        b"gate-sizing-report 1\nended settled\nentries 0\nbudget 1\ncommits 0\nworker 0 commits 0\nleakage 1.000000 1234567890abcdef\nviolations 1\nsetup z held 4.000000 bound 1.000000\n";
    assert!(rt;
        writes(
            &rt,
            alloc,
            library.as_slice(),
            netlist.as_slice(),
            sizes.as_slice(),
            report
        )?
    );
    Ok(())
}

/// A library whose groups are so many deep, one more than `inner`.
fn nested(alloc: Global, inner: u32) -> Result<Vec<u8>, AllocError> {
    let mut text = Vec::from_slice(
        alloc,
        b"library(l){time_unit:\"1ps\";capacitive_load_unit(1,ff);",
    )?;
    for _ in 0..inner {
        text.extend_from_slice(b"g(){")?;
    }
    for _ in 0..inner {
        text.extend_from_slice(b"}")?;
    }
    text.extend_from_slice(b"}")?;
    Ok(text)
}

/// Whether a run on this library says the line.
fn says<R: Threads + Sync>(
    rt: &R,
    alloc: Global,
    library: &[u8],
    line: &str,
) -> Result<bool, Fail> {
    let mut shelf = shelf_of(alloc, library, b"module e (a); input a; endmodule")?;
    let _ = run(rt, alloc, &size_words(alloc)?, &mut shelf);
    Ok(shelf.said.as_slice() == line.as_bytes())
}

#[test]
fn a_library_of_too_deep_groups(rt: HostRuntime) -> Result<(), Fail> {
    let alloc = rt.alloc();
    let most = nested(alloc, 63)?;
    assert!(rt;
        says(
            &rt,
            alloc,
            most.as_slice(),
            "done settled leakage 0.000000 violations 0 commits 0\n"
        )?
    );
    let more = nested(alloc, 64)?;
    assert!(rt; says(&rt, alloc, more.as_slice(), "bad library toodeep at 271\n")?);
    Ok(())
}
