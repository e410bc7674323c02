//! Runs of `check` on a chain of two inverters whose files are exchanged one by one.

use crate::statuses::explain;
use gs_quantity::Mem;
use gs_shelf::{Bytes, FileList, NeverFails};
use gs_top::{Words, run};
use std::alloc::{AllocError, Global};
use std::test::Fail;
use std::thread::Threads;

/// One inverter.
pub(crate) const CELLS: &str = "library (l) {
time_unit : \"1ps\"; capacitive_load_unit (1, ff); leakage_power_unit : \"1uW\"; default_max_transition : 100;
lu_table_template (t) { variable_1 : total_output_net_capacitance; index_1 (\"0, 10\"); }
cell (I1) { area : 1; cell_leakage_power : 1; cell_footprint : \"inv\";
pin (a) { direction : input; capacitance : 1; }
pin (o) { direction : output; max_capacitance : 8; function : \"!a\";
timing () { related_pin : \"a\"; timing_sense : negative_unate;
cell_rise (t) { values (\"4, 24\"); } cell_fall (t) { values (\"4, 24\"); }
rise_transition (t) { values (\"2, 12\"); } fall_transition (t) { values (\"2, 12\"); } } } }
}
";

/// A chain of two inverters.
const CHAIN: &str =
    "module c (x, z); input x; output z; I1 g1 (.a(x), .o(n1)); I1 g2 (.a(n1), .o(z)); endmodule";

const NO_WIRES: &str = "*C_UNIT 1 FF\n";

const CLOCK: &str = "create_clock -name k -period 100\nset_load -pin_load 6 [get_ports z]\n";

/// The texts of a run, and what is printed of its status.
#[derive(Clone, Copy)]
pub(crate) struct Row {
    pub(crate) library: &'static str,
    pub(crate) netlist: &'static str,
    pub(crate) spef: &'static str,
    pub(crate) sdc: &'static str,
    /// The file of sizes of `check`.
    pub(crate) from: &'static str,
    pub(crate) printed: &'static str,
}

pub(crate) const CHAIN_ROW: Row = Row {
    library: CELLS,
    netlist: CHAIN,
    spef: NO_WIRES,
    sdc: CLOCK,
    from: "g1 I1\ng2 I1\n",
    printed: "",
};

pub(crate) fn of_library(library: &'static str, printed: &'static str) -> Row {
    Row {
        library,
        printed,
        ..CHAIN_ROW
    }
}

pub(crate) fn of_netlist(netlist: &'static str, printed: &'static str) -> Row {
    Row {
        netlist,
        printed,
        ..CHAIN_ROW
    }
}

pub(crate) fn of_wires(spef: &'static str, printed: &'static str) -> Row {
    Row {
        spef,
        printed,
        ..CHAIN_ROW
    }
}

pub(crate) fn of_limits(sdc: &'static str, printed: &'static str) -> Row {
    Row {
        sdc,
        printed,
        ..CHAIN_ROW
    }
}

pub(crate) fn of_sizes(from: &'static str, printed: &'static str) -> Row {
    Row {
        from,
        printed,
        ..CHAIN_ROW
    }
}

/// The words of `check` with sizes to start from.
pub(crate) fn check_words(alloc: Global) -> Result<Words, Mem> {
    let mut words = Words::new(alloc);
    for text in [
        "check",
        "--lib",
        "n.lib",
        "--verilog",
        "n.v",
        "--spef",
        "n.spef",
        "--sdc",
        "n.sdc",
        "--report",
        "n.rpt",
        "--from",
        "n.from",
    ] {
        words.add(text)?;
    }
    Ok(words)
}

pub(crate) fn files_of(alloc: Global, row: Row) -> Result<FileList, AllocError> {
    let mut files = FileList::new(alloc);
    files.put(alloc, b"n.lib", row.library.as_bytes())?;
    files.put(alloc, b"n.v", row.netlist.as_bytes())?;
    files.put(alloc, b"n.spef", row.spef.as_bytes())?;
    files.put(alloc, b"n.sdc", row.sdc.as_bytes())?;
    files.put(alloc, b"n.from", row.from.as_bytes())?;
    Ok(files)
}

/// Whether this is printed of the run on these files.
pub(crate) fn prints_so<R: Threads + Sync>(
    rt: &R,
    alloc: Global,
    files: FileList,
    printed: &[u8],
) -> Result<bool, Fail> {
    let mut shelf = NeverFails {
        files,
        said: Bytes::empty(alloc),
    };
    let words = check_words(alloc)?;
    let status = run(rt, alloc, &words, &mut shelf);
    let text = explain(alloc, &words, &status, None, &mut shelf)?;
    Ok(text.as_slice() == printed)
}

pub(crate) fn row_holds<R: Threads + Sync>(rt: &R, alloc: Global, row: Row) -> Result<bool, Fail> {
    prints_so(rt, alloc, files_of(alloc, row)?, row.printed.as_bytes())
}
