//! What the tests share: a library, designs, and the words and files of a run.

use crate::words::Words;
use gs_quantity::Mem;
use gs_shelf::FileList;
use std::alloc::{AllocError, Global};

/// Inverters and NAND gates of two sizes and a flip-flop, with all that timing needs.
pub(crate) const ROWS: &str = "library (rows) {
time_unit : \"1ps\"; capacitive_load_unit (1, ff); leakage_power_unit : \"1uW\"; default_max_transition : 100;
lu_table_template (t) { variable_1 : total_output_net_capacitance; index_1 (\"0, 10\"); }
cell (I1) { area : 1; cell_leakage_power : 1; cell_footprint : \"inv\";
pin (a) { direction : input; capacitance : 1; }
pin (o) { direction : output; max_capacitance : 8; function : \"!a\";
timing () { related_pin : \"a\"; timing_sense : negative_unate;
cell_rise (t) { values (\"4, 24\"); } cell_fall (t) { values (\"4, 24\"); }
rise_transition (t) { values (\"2, 12\"); } fall_transition (t) { values (\"2, 12\"); } } } }
cell (I2) { area : 2; cell_leakage_power : 3; cell_footprint : \"inv\";
pin (a) { direction : input; capacitance : 2; }
pin (o) { direction : output; max_capacitance : 16; function : \"!a\";
timing () { related_pin : \"a\"; timing_sense : negative_unate;
cell_rise (t) { values (\"4, 14\"); } cell_fall (t) { values (\"4, 14\"); }
rise_transition (t) { values (\"2, 7\"); } fall_transition (t) { values (\"2, 7\"); } } } }
cell (N1) { area : 2; cell_leakage_power : 2; cell_footprint : \"nand\";
pin (a, b) { direction : input; capacitance : 1; }
pin (o) { direction : output; max_capacitance : 8; function : \"!(a*b)\";
timing () { related_pin : \"a b\"; timing_sense : negative_unate;
cell_rise (t) { values (\"4, 24\"); } cell_fall (t) { values (\"4, 24\"); }
rise_transition (t) { values (\"2, 12\"); } fall_transition (t) { values (\"2, 12\"); } } } }
cell (N2) { area : 4; cell_leakage_power : 5; cell_footprint : \"nand\";
pin (a, b) { direction : input; capacitance : 2; }
pin (o) { direction : output; max_capacitance : 16; function : \"!(a*b)\";
timing () { related_pin : \"a b\"; timing_sense : negative_unate;
cell_rise (t) { values (\"4, 14\"); } cell_fall (t) { values (\"4, 14\"); }
rise_transition (t) { values (\"2, 7\"); } fall_transition (t) { values (\"2, 7\"); } } } }
cell (F1) { area : 6; cell_leakage_power : 4; cell_footprint : \"ff\";
ff (\"IQ\", \"IQN\") { next_state : \"d\"; clocked_on : \"ck\"; }
pin (ck) { direction : input; capacitance : 1; clock : true; }
pin (d) { direction : input; capacitance : 1; }
pin (q) { direction : output; max_capacitance : 16; function : \"IQ\";
timing () { related_pin : \"ck\"; timing_type : rising_edge;
cell_rise (t) { values (\"10, 20\"); } cell_fall (t) { values (\"10, 20\"); }
rise_transition (t) { values (\"2, 12\"); } fall_transition (t) { values (\"2, 12\"); } } } }
}
";

/// A chain of two inverters.
pub(crate) const CHAIN: &str =
    "module c (x, z); input x; output z; I2 g1 (.a(x), .o(n1)); I2 g2 (.a(n1), .o(z)); endmodule";

/// What recovery makes of the chain: both inverters take the cell that leaks less.
pub(crate) const CHAIN_SIZES: &str = "g1 I1\ng2 I1\n";

pub(crate) const CHAIN_LOG: &str = "gate-sizing-log 1\nc 0 g1 I1\nc 0 g2 I1\nend settled 2 9\n";

pub(crate) const CHAIN_REPORT: &str =
    "gate-sizing-report 1\nended settled\nentries 2\nbudget 9\ncommits 2\nworker 0 commits 2\nleakage 2.000000 1uW\nviolations 0\n";

pub(crate) const CHAIN_DONE: &str = "done settled leakage 2.000000 violations 0 commits 2\n";

/// A text of no wires.
pub(crate) const NO_WIRES: &str = "*C_UNIT 1 FF\n";

/// A clock, and a load at the output of the chain.
pub(crate) const CLOCK: &str =
    "create_clock -name k -period 100\nset_load -pin_load 6 [get_ports z]\n";

/// A clock alone.
pub(crate) const BARE_CLOCK: &str = "create_clock -name k -period 1\n";

/// A path from inputs through a flip-flop to an output, its wires and its constraints.
pub(crate) const PATH: &str = "module top (ck, x, y, z);
input ck, x, y;
output z;
wire n1, n2, n3, q;
N2 g1 (.a(x), .b(y), .o(n1));
I2 g2 (.a(n1), .o(n2));
F1 f1 (.ck(ck), .d(n2), .q(q));
I2 g3 (.a(q), .o(n3));
I2 g4 (.a(n3), .o(z));
endmodule
";

pub(crate) const PATH_WIRES: &str = "*C_UNIT 1 FF\n*D_NET n1 1\n*END\n";

pub(crate) const PATH_LIMITS: &str = "create_clock -name ck -period 100 [get_ports ck]
set_input_delay 5 [get_ports {x y}] -clock [get_clocks ck]
set_output_delay 10 [get_ports z] -clock [get_clocks ck]
set_load -pin_load 3 [get_ports z]
";

/// The texts of the files that a run reads.
#[derive(Clone, Copy)]
pub(crate) struct Texts {
    pub(crate) library: &'static str,
    pub(crate) netlist: &'static str,
    pub(crate) spef: &'static str,
    pub(crate) sdc: &'static str,
}

/// The chain's.
pub(crate) const CHAIN_TEXTS: Texts = Texts {
    library: ROWS,
    netlist: CHAIN,
    spef: NO_WIRES,
    sdc: CLOCK,
};

pub(crate) fn words_of(alloc: Global, texts: &[&str]) -> Result<Words, Mem> {
    let mut words = Words::new(alloc);
    for text in texts {
        words.add(text)?;
    }
    Ok(words)
}

/// The words of a command in the form of `size`, with these files.
pub(crate) fn form_of(
    alloc: Global,
    command: &str,
    inputs: [&str; 4],
    outputs: [&str; 3],
) -> Result<Words, Mem> {
    let [lib, verilog, spef, sdc] = inputs;
    let [sizes, log, report] = outputs;
    let mut words = words_of(alloc, &[command, "--lib", lib, "--verilog", verilog])?;
    for text in [
        "--spef", spef, "--sdc", sdc, "--sizes", sizes, "--log", log, "--report", report,
        "--passes", "0",
    ] {
        words.add(text)?;
    }
    Ok(words)
}

/// The words of `size` with this number of passes.
pub(crate) fn words_with_passes(alloc: Global, passes: &str) -> Result<Words, Mem> {
    let mut words = words_of(alloc, &["size", "--lib", "n.lib", "--verilog", "n.v"])?;
    for text in [
        "--spef", "n.spef", "--sdc", "n.sdc", "--sizes", "n.sizes", "--log", "n.log", "--report",
        "n.rpt",
    ] {
        words.add(text)?;
    }
    words.add("--passes")?;
    words.add(passes)?;
    Ok(words)
}

pub(crate) fn size_words(alloc: Global) -> Result<Words, Mem> {
    form_of(
        alloc,
        "size",
        ["n.lib", "n.v", "n.spef", "n.sdc"],
        ["n.sizes", "n.log", "n.rpt"],
    )
}

/// The words of `check`, with the file of sizes where `with_from` says so.
pub(crate) fn check_words(alloc: Global, with_from: bool) -> Result<Words, Mem> {
    let mut words = words_of(alloc, &["check", "--lib", "n.lib", "--verilog", "n.v"])?;
    for text in ["--spef", "n.spef", "--sdc", "n.sdc", "--report", "n.rpt"] {
        words.add(text)?;
    }
    if with_from {
        words.add("--from")?;
        words.add("n.from")?;
    }
    Ok(words)
}

/// These four files, and three from before.
pub(crate) fn files_with(alloc: Global, texts: Texts) -> Result<FileList, AllocError> {
    let mut files = FileList::new(alloc);
    files.put(alloc, b"n.lib", texts.library.as_bytes())?;
    files.put(alloc, b"n.v", texts.netlist.as_bytes())?;
    files.put(alloc, b"n.spef", texts.spef.as_bytes())?;
    files.put(alloc, b"n.sdc", texts.sdc.as_bytes())?;
    files.put(alloc, b"n.sizes", b"before")?;
    files.put(alloc, b"n.log", b"older")?;
    files.put(alloc, b"n.rpt", b"earlier")?;
    Ok(files)
}
