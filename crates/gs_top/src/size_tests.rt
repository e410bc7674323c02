//! Whole runs of `size`: each success, with the sizes, the log and the report that it stores.

use crate::program::run;
use crate::samples::{
    BARE_CLOCK, CHAIN, CHAIN_DONE, CHAIN_LOG, CHAIN_REPORT, CHAIN_SIZES, CHAIN_TEXTS, NO_WIRES,
    PATH, PATH_LIMITS, PATH_WIRES, ROWS, Texts, files_with, size_words,
};
use crate::status::exit_of;
use gs_shelf::{Bytes, NeverFails};
use std::alloc::Global;
use std::test::Fail;
use std::thread::Threads;

/// A leakage of less than a millionth is rounded.
const LITTLE: &str = "library (l) { time_unit : \"1ps\"; capacitive_load_unit (1, ff);
cell (I2) { cell_leakage_power : 0.0000005;
pin (a) { direction : input; capacitance : 1; } pin (o) { direction : output; function : \"!a\"; timing () { related_pin : \"a\"; timing_sense : negative_unate; cell_rise (scalar) { values (\"4\"); } cell_fall (scalar) { values (\"4\"); } rise_transition (scalar) { values (\"2\"); } fall_transition (scalar) { values (\"2\"); } } } } }";

/// A loop of a gate and a flip-flop.
const CUT_LATCH: &str = "module l (s, r, q1); input s, r; output q1;
N1 g1 (.a(s), .b(q2), .o(q1)); F1 g2 (.ck(s), .d(q1), .q(q2)); endmodule";

const EMPTY: &str = "module e (a); input a; endmodule";

/// One inverter.
const ONE: &str = "module b (x, z); input x; output z; I2 g1 (.a(x), .o(z)); endmodule";

/// Files that a run reads, and what stands after it.
#[derive(Clone, Copy)]
struct Row {
    texts: Texts,
    exit: u8,
    said: &'static str,
    sizes: &'static str,
    log: &'static str,
    report: &'static str,
}

fn texts(netlist: &'static str, spef: &'static str, sdc: &'static str) -> Texts {
    Texts {
        library: ROWS,
        netlist,
        spef,
        sdc,
    }
}

fn one(sdc: &'static str) -> Texts {
    texts(ONE, NO_WIRES, sdc)
}

/// The chain, and a period that the second inverter can't meet as the slower cell after the first has become one.
fn tight() -> Texts {
    texts(
        CHAIN,
        NO_WIRES,
        "create_clock -name k -period 21\nset_load -pin_load 6 [get_ports z]\n",
    )
}

fn chain() -> Row {
    Row {
        texts: CHAIN_TEXTS,
        exit: 0,
        said: CHAIN_DONE,
        sizes: CHAIN_SIZES,
        log: CHAIN_LOG,
        report: CHAIN_REPORT,
    }
}

fn nothing_to_size() -> Row {
    Row {
        texts: texts(EMPTY, NO_WIRES, BARE_CLOCK),
        exit: 0,
        said: "done settled leakage 0.000000 violations 0 commits 0\n",
        sizes: "",
        log: "gate-sizing-log 1\nend settled 0 1\n",
        report: "gate-sizing-report 1\nended settled\nentries 0\nbudget 1\ncommits 0\nworker 0 commits 0\nleakage 0.000000 1uW\nviolations 0\n",
    }
}

fn no_alternatives() -> Row {
    Row {
        texts: Texts {
            library: LITTLE,
            ..CHAIN_TEXTS
        },
        exit: 0,
        said: "done settled leakage 0.000002 violations 0 commits 0\n",
        sizes: "g1 I2\ng2 I2\n",
        log: "gate-sizing-log 1\nend settled 0 1\n",
        report: "gate-sizing-report 1\nended settled\nentries 0\nbudget 1\ncommits 0\nworker 0 commits 0\nleakage 0.000002\nviolations 0\n",
    }
}

fn path() -> Row {
    Row {
        texts: texts(PATH, PATH_WIRES, PATH_LIMITS),
        exit: 0,
        said: "done settled leakage 9.000000 violations 0 commits 4\n",
        sizes: "g1 N1\ng2 I1\nf1 F1\ng3 I1\ng4 I1\n",
        log: "gate-sizing-log 1\nc 0 g1 N1\nc 0 g2 I1\nc 0 g3 I1\nc 0 g4 I1\nend settled 4 25\n",
        report: "gate-sizing-report 1\nended settled\nentries 4\nbudget 25\ncommits 4\nworker 0 commits 4\nleakage 9.000000 1uW\nviolations 0\n",
    }
}

fn limits_that_are_broken_from_the_start() -> Row {
    Row {
        texts: texts(CUT_LATCH, NO_WIRES, BARE_CLOCK),
        exit: 1,
        said: "done settled leakage 6.000000 violations 2 commits 0\n",
        sizes: "g1 N1\ng2 F1\n",
        log: "gate-sizing-log 1\nend settled 0 4\n",
        report: "gate-sizing-report 1\nended settled\nentries 0\nbudget 4\ncommits 0\nworker 0 commits 0\nleakage 6.000000 1uW\nviolations 2\nsetup q1 held 17.000000 bound 1.000000\nsetup g2/d held 17.000000 bound 1.000000\n",
    }
}

fn a_load_at_its_bound() -> Row {
    Row {
        texts: one("create_clock -name k -period 100\nset_load -pin_load 8 [get_ports z]\n"),
        exit: 0,
        said: "done settled leakage 1.000000 violations 0 commits 1\n",
        sizes: "g1 I1\n",
        log: "gate-sizing-log 1\nc 0 g1 I1\nend settled 1 4\n",
        report: "gate-sizing-report 1\nended settled\nentries 1\nbudget 4\ncommits 1\nworker 0 commits 1\nleakage 1.000000 1uW\nviolations 0\n",
    }
}

fn a_load_past_its_bound() -> Row {
    Row {
        texts: one("create_clock -name k -period 100\nset_load -pin_load 8.000001 [get_ports z]\n"),
        exit: 0,
        said: "done settled leakage 3.000000 violations 0 commits 0\n",
        sizes: "g1 I2\n",
        log: "gate-sizing-log 1\nend settled 0 4\n",
        report: "gate-sizing-report 1\nended settled\nentries 0\nbudget 4\ncommits 0\nworker 0 commits 0\nleakage 3.000000 1uW\nviolations 0\n",
    }
}

fn a_late_endpoint() -> Row {
    Row {
        texts: one("create_clock -name k -period 5\nset_load -pin_load 2 [get_ports z]\n"),
        exit: 1,
        said: "done settled leakage 1.000000 violations 1 commits 1\n",
        sizes: "g1 I1\n",
        log: "gate-sizing-log 1\nc 0 g1 I1\nend settled 1 4\n",
        report: "gate-sizing-report 1\nended settled\nentries 1\nbudget 4\ncommits 1\nworker 0 commits 1\nleakage 1.000000 1uW\nviolations 1\nsetup z held 8.000000 bound 5.000000\n",
    }
}

fn a_move_that_is_rejected() -> Row {
    Row {
        texts: tight(),
        exit: 0,
        said: "done settled leakage 4.000000 violations 0 commits 1\n",
        sizes: "g1 I1\ng2 I2\n",
        log: "gate-sizing-log 1\nc 0 g1 I1\nr 0 g2 I1\nend settled 2 9\n",
        report: "gate-sizing-report 1\nended settled\nentries 2\nbudget 9\ncommits 1\nworker 0 commits 1\nleakage 4.000000 1uW\nviolations 0\n",
    }
}

fn stands_so(shelf: &NeverFails, row: &Row) -> bool {
    shelf.said.as_slice() == row.said.as_bytes()
        && shelf.files.get(b"n.sizes") == Some(row.sizes.as_bytes())
        && shelf.files.get(b"n.log") == Some(row.log.as_bytes())
        && shelf.files.get(b"n.rpt") == Some(row.report.as_bytes())
}

/// Whether the run of a row ends as the row says.
fn ends_so<R: Threads + Sync>(rt: &R, alloc: Global, row: Row) -> Result<bool, Fail> {
    let mut shelf = NeverFails {
        files: files_with(alloc, row.texts)?,
        said: Bytes::empty(alloc),
    };
    let status = run(rt, alloc, &size_words(alloc)?, &mut shelf);
    Ok(exit_of(&status) == row.exit && stands_so(&shelf, &row))
}

#[test]
fn each_success(rt: HostRuntime) -> Result<(), Fail> {
    assert!(rt; ends_so(&rt, rt.alloc(), chain())?);
    assert!(rt; ends_so(&rt, rt.alloc(), nothing_to_size())?);
    assert!(rt; ends_so(&rt, rt.alloc(), no_alternatives())?);
    assert!(rt; ends_so(&rt, rt.alloc(), path())?);
    assert!(rt; ends_so(&rt, rt.alloc(), limits_that_are_broken_from_the_start())?);
    Ok(())
}

#[test]
fn each_success_at_a_limit(rt: HostRuntime) -> Result<(), Fail> {
    assert!(rt; ends_so(&rt, rt.alloc(), a_load_at_its_bound())?);
    assert!(rt; ends_so(&rt, rt.alloc(), a_load_past_its_bound())?);
    assert!(rt; ends_so(&rt, rt.alloc(), a_late_endpoint())?);
    assert!(rt; ends_so(&rt, rt.alloc(), a_move_that_is_rejected())?);
    Ok(())
}
