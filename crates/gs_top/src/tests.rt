//! Whole runs: what is said, stored and answered, with each file refused and each call of the shelf failing.

ghost use Rattle.std.specs.Prelude.{◌≤◌};

use crate::job::Job;
use crate::program::run;
use crate::read::read_words;
use crate::samples::{
    BARE_CLOCK, CHAIN, CHAIN_DONE, CHAIN_LOG, CHAIN_REPORT, CHAIN_SIZES, CHAIN_TEXTS, ROWS, Texts,
    files_with, form_of, size_words, words_of, words_with_passes,
};
use crate::status::{Input, Output, Status, TextWhy, exit_of};
use crate::words::Words;
use gs_lib::LibErr;
use gs_link::LinkErr;
use gs_move::Ended;
use gs_quantity::Micro;
use gs_shelf::{Bytes, Failures, FileList, MemShelf, NeverFails, Numbers};
use std::alloc::{AllocError, Global};
use std::test::Fail;
use std::thread::Threads;

/// An inverter alone, without a unit of leakage.
const SMALL_CELL: &str = "library (l) { time_unit : \"1ps\"; capacitive_load_unit (1, ff);
cell (I1) { cell_leakage_power : 1;
pin (a) { direction : input; capacitance : 1; } pin (o) { direction : output; function : \"!a\"; timing () { related_pin : \"a\"; timing_sense : negative_unate; cell_rise (scalar) { values (\"4\"); } cell_fall (scalar) { values (\"4\"); } rise_transition (scalar) { values (\"2\"); } fall_transition (scalar) { values (\"2\"); } } } } }";

/// An inverter without an arc.
const NO_ARC: &str = "library (l) { time_unit : \"1ps\"; capacitive_load_unit (1, ff);
cell (I2) { cell_leakage_power : 1;
pin (a) { direction : input; capacitance : 1; } pin (o) { direction : output; function : \"!a\"; } } }";

/// Two cells of one name.
const TWO_CELLS: &str = "library (l) { time_unit : \"1ps\"; capacitive_load_unit (1, ff);
cell (I1) { cell_leakage_power : 1;
pin (a) { direction : input; capacitance : 1; } pin (o) { direction : output; function : \"!a\"; } }
cell (I1) { pin (a) { direction : input; } pin (o) { direction : output; function : \"!a\"; } } }";

/// A cell without a leakage.
const NO_LEAKAGE: &str = "library (l) { time_unit : \"1ps\"; capacitive_load_unit (1, ff);
cell (I1) { pin (a) { direction : input; capacitance : 1; } pin (o) { direction : output; function : \"!a\"; } } }";

/// A cell of negative leakage.
const BAD_LEAKAGE: &str = "library (l) { time_unit : \"1ps\"; capacitive_load_unit (1, ff);
cell (I1) { cell_leakage_power : -1;
pin (a) { direction : input; capacitance : 1; } pin (o) { direction : output; function : \"!a\"; } } }";

/// A cell with a table of an unknown template.
const BAD_TABLE: &str = "library (l) { time_unit : \"1ps\"; capacitive_load_unit (1, ff);
cell (I1) { cell_leakage_power : 1;
pin (a) { direction : input; capacitance : 1; }
pin (o) { direction : output; function : \"!a\"; timing () { related_pin : \"a\";
cell_rise (t) { values (\"4\"); } cell_fall (scalar) { values (\"4\"); }
rise_transition (scalar) { values (\"2\"); } fall_transition (scalar) { values (\"2\"); } } } } }";

/// A latch of two gates, which is a cycle.
const LATCH: &str = "module l (s, r, q1); input s, r; output q1;
N1 g1 (.a(s), .b(q2), .o(q1)); N1 g2 (.a(r), .b(q1), .o(q2)); endmodule";

fn shelf_with(
    alloc: Global,
    files: FileList,
    fails: &[u64],
    most: u64,
) -> Result<MemShelf, AllocError>
    requires { 1 ≤ most }
{
    Ok(MemShelf {
        files,
        said: Bytes::empty(alloc),
        calls: 0,
        fails: Numbers::from_vec(Vec::from_slice(alloc, fails)?),
        failed: Failures::empty(alloc),
        most,
    })
}

/// Files that are refused, and what is said.
#[derive(Clone, Copy)]
struct Row {
    texts: Texts,
    said: &'static str,
}

fn refused(texts: Texts, said: &'static str) -> Row {
    Row { texts, said }
}

fn of_library(library: &'static str) -> Texts {
    Texts {
        library,
        ..CHAIN_TEXTS
    }
}

fn of_netlist(netlist: &'static str) -> Texts {
    Texts {
        netlist,
        sdc: BARE_CLOCK,
        ..CHAIN_TEXTS
    }
}

fn of_wires(spef: &'static str) -> Texts {
    Texts {
        spef,
        ..CHAIN_TEXTS
    }
}

fn of_limits(sdc: &'static str) -> Texts {
    Texts { sdc, ..CHAIN_TEXTS }
}

fn refusals_of_netlists() -> [Row; 4] {
    [
        refused(
            of_netlist("module m (a); input 1; endmodule"),
            "bad netlist badpiece at 7\n",
        ),
        refused(
            of_netlist("module m (a); input a"),
            "bad netlist noend at 8\n",
        ),
        refused(
            of_netlist("module m; input a, a; endmodule"),
            "bad netlist twonames at 6\n",
        ),
        refused(
            of_netlist("module m; /* x"),
            "bad netlist opencomment at 10\n",
        ),
    ]
}

fn refusals_of_library_texts() -> [Row; 3] {
    [
        refused(
            of_library("library (l) { a : ; }"),
            "bad library badpiece at 7\n",
        ),
        refused(
            of_library("library (l) { \""),
            "bad library openstring at 14\n",
        ),
        refused(
            of_library("library /* (l)"),
            "bad library opencomment at 8\n",
        ),
    ]
}

fn refusals_of_wires() -> [Row; 4] {
    [
        refused(
            of_wires("*C_UNIT 1 FF\n*D_NET n1 1\n*CONN"),
            "bad spef badline at 3\n",
        ),
        refused(
            of_wires("*C_UNIT 1 FF\n*D_NET n1 1\n*RES\n1 n1:1 n1:2 0.5\n*END\n"),
            "bad spef distributed at 4\n",
        ),
        refused(
            of_wires("*C_UNIT 1 FF\n*D_NET *5 1\n*END\n"),
            "bad spef unknownindex at 2\n",
        ),
        refused(
            of_wires("*C_UNIT 1 FF\n*D_NET n1 1\n*END\n*D_NET n1 1\n*END\n"),
            "bad spef twonets at 4\n",
        ),
    ]
}

fn refusals_of_limits() -> [Row; 5] {
    [
        refused(of_limits(""), "bad sdc noclock at 0\n"),
        refused(
            of_limits("create_clock -period x\n"),
            "bad sdc badline at 1\n",
        ),
        refused(
            of_limits("create_clock -name k -period 100\ncreate_clock -name l -period 100\n"),
            "bad sdc twoclocks at 2\n",
        ),
        refused(
            of_limits(
                "create_clock -name k -period 100\nset_load -pin_load 1 [get_ports z]\nset_load -pin_load 2 [get_ports z]\n",
            ),
            "bad sdc twovalues at 3\n",
        ),
        refused(
            of_limits("set_max_area 5\ncreate_clock -name k -period 100\n"),
            "bad sdc notbuilt at 1\n",
        ),
    ]
}

fn refusals_of_libraries() -> [Row; 8] {
    [
        refused(of_library("cells (l) { }"), "bad library missing\n"),
        refused(
            of_library("library (r) { cell (I2) { cell_leakage_power : 0.0000005 ; } }"),
            "bad library nounit\n",
        ),
        refused(
            of_library("library (l) { time_unit : \"2ps\"; capacitive_load_unit (1, ff); }"),
            "bad library badunit\n",
        ),
        refused(
            of_library(
                "library (l) { time_unit : \"1ps\"; capacitive_load_unit (1, ff); default_max_transition : -1; }",
            ),
            "bad library badnumber\n",
        ),
        refused(of_library(TWO_CELLS), "bad library twocells\n"),
        refused(of_library(NO_LEAKAGE), "bad library missing\n"),
        refused(of_library(BAD_LEAKAGE), "bad library badnumber\n"),
        refused(of_library(BAD_TABLE), "bad library badtable\n"),
    ]
}

fn refusals_of_instances() -> [Row; 5] {
    [
        refused(of_library(SMALL_CELL), "bad design unknowncell\n"),
        refused(
            of_netlist(
                "module b (x, z); input x; output z; I2 g1 (.a(x), .b(x), .o(z)); endmodule",
            ),
            "bad design unknownpin\n",
        ),
        refused(
            of_netlist("module b (x); input x; I2 g1 (.a(x)); endmodule"),
            "bad design openpin\n",
        ),
        refused(of_library(NO_ARC), "bad design noarc\n"),
        refused(of_netlist(LATCH), "bad design loop\n"),
    ]
}

fn refusals_of_nets() -> [Row; 4] {
    [
        refused(
            of_netlist(
                "module b (x, z); input x; output z; I2 g1 (.a(x), .o(z)); I2 g2 (.a(x), .o(z)); endmodule",
            ),
            "bad design twodrivers\n",
        ),
        refused(
            of_netlist("module b (x, z); input x; output z; I2 g1 (.a(n), .o(z)); endmodule"),
            "bad design undriven\n",
        ),
        refused(
            of_wires("*C_UNIT 1 FF\n*D_NET q7 1\n*END\n"),
            "bad design unknownnet\n",
        ),
        refused(
            of_limits("create_clock -name k -period 100\nset_output_delay 1 [get_ports x]\n"),
            "bad design unknownport\n",
        ),
    ]
}

/// Whether the run of a row ends as the row says, over a shelf without faults, and stores nothing.
fn is_refused<R: Threads + Sync>(rt: &R, alloc: Global, row: Row) -> Result<bool, Fail> {
    let mut shelf = NeverFails {
        files: files_with(alloc, row.texts)?,
        said: Bytes::empty(alloc),
    };
    let status = run(rt, alloc, &size_words(alloc)?, &mut shelf);
    let sizes = shelf.files.get(b"n.sizes") == Some(b"before");
    let log = shelf.files.get(b"n.log") == Some(b"older");
    let report = shelf.files.get(b"n.rpt") == Some(b"earlier");
    let said = shelf.said.as_slice() == row.said.as_bytes();
    Ok(exit_of(&status) == 3 && said && sizes && log && report)
}

#[test]
fn each_refusal_of_a_text(rt: HostRuntime) -> Result<(), Fail> {
    for row in refusals_of_netlists() {
        assert!(rt; is_refused(&rt, rt.alloc(), row)?, "{}", row.said);
    }
    for row in refusals_of_library_texts() {
        assert!(rt; is_refused(&rt, rt.alloc(), row)?, "{}", row.said);
    }
    Ok(())
}

#[test]
fn each_refusal_of_lines(rt: HostRuntime) -> Result<(), Fail> {
    for row in refusals_of_wires() {
        assert!(rt; is_refused(&rt, rt.alloc(), row)?, "{}", row.said);
    }
    for row in refusals_of_limits() {
        assert!(rt; is_refused(&rt, rt.alloc(), row)?, "{}", row.said);
    }
    Ok(())
}

#[test]
fn each_refusal_of_a_library(rt: HostRuntime) -> Result<(), Fail> {
    for row in refusals_of_libraries() {
        assert!(rt; is_refused(&rt, rt.alloc(), row)?, "{}", row.said);
    }
    Ok(())
}

#[test]
fn each_refusal_of_a_design(rt: HostRuntime) -> Result<(), Fail> {
    for row in refusals_of_instances() {
        assert!(rt; is_refused(&rt, rt.alloc(), row)?, "{}", row.said);
    }
    for row in refusals_of_nets() {
        assert!(rt; is_refused(&rt, rt.alloc(), row)?, "{}", row.said);
    }
    Ok(())
}

/// The status of a run over a shelf of one-byte fetches.
fn status_of<R: Threads + Sync>(rt: &R, alloc: Global, texts: Texts) -> Result<Status, Fail> {
    let mut shelf = shelf_with(alloc, files_with(alloc, texts)?, &[], 1)?;
    Ok(run(rt, alloc, &size_words(alloc)?, &mut shelf))
}

/// Whether the library lacks the cell of the instance of this name.
fn is_unknown_cell_of(status: &Status, name: &[u8]) -> bool {
    match status {
        Status::BadDesign(LinkErr::UnknownCell { by }) => by.is(name),
        _ => false,
    }
}

/// Whether the wire of a net of this name is refused.
fn is_unknown_net(status: &Status, name: &[u8]) -> bool {
    match status {
        Status::BadDesign(LinkErr::UnknownNet { name: net }) => net.is(name),
        _ => false,
    }
}

/// Whether the chain was sized.
fn is_done(status: &Status) -> bool {
    matches!(
        status,
        Status::Done {
            ended: Ended::Settled,
            violations: 0,
            leakage: Micro(2_000_000),
            commits: 2
        }
    )
}

#[test]
fn statuses_byte_by_byte(rt: HostRuntime) -> Result<(), Fail> {
    let alloc = rt.alloc();
    let done = status_of(&rt, alloc, CHAIN_TEXTS)?;
    assert!(rt; is_done(&done));
    let text = status_of(&rt, alloc, of_library("library (l) {"))?;
    assert!(rt;
        matches!(
            text,
            Status::BadText {
                file: Input::Lib,
                why: TextWhy::BadPiece,
                place: 5
            }
        )
    );
    let library = status_of(&rt, alloc, of_library("l (l) {}"))?;
    assert!(rt; matches!(library, Status::BadLibrary(LibErr::Missing { .. })));
    let unit = status_of(&rt, alloc, of_library("library (l) {}"))?;
    assert!(rt; matches!(unit, Status::BadLibrary(LibErr::NoUnit)));
    let cell = status_of(&rt, alloc, of_library(SMALL_CELL))?;
    assert!(rt; is_unknown_cell_of(&cell, b"g1"));
    let net = status_of(&rt, alloc, of_wires("*C_UNIT 1 FF\n*D_NET q7 1\n*END\n"))?;
    assert!(rt; is_unknown_net(&net, b"q7"));
    Ok(())
}

/// What stands after a run on the chain whose call number `k` fails.
fn fails_so<R: Threads + Sync>(
    rt: &R,
    alloc: Global,
    k: u64,
    said: &str,
    stored: [&str; 3],
) -> Result<Option<Status>, Fail> {
    let [sizes, log, report] = stored;
    let mut shelf = shelf_with(alloc, files_with(alloc, CHAIN_TEXTS)?, &[k], 100_000)?;
    let status = run(rt, alloc, &size_words(alloc)?, &mut shelf);
    let stands = shelf.said.as_slice() == said.as_bytes()
        && shelf.files.get(b"n.sizes") == Some(sizes.as_bytes())
        && shelf.files.get(b"n.log") == Some(log.as_bytes())
        && shelf.files.get(b"n.rpt") == Some(report.as_bytes());
    Ok(if stands { Some(status) } else { None })
}

/// Whether a failing call of this number is told as a file that could not be read.
fn is_unread<R: Threads + Sync>(
    rt: &R,
    alloc: Global,
    k: u64,
    said: &str,
    wanted: Input,
) -> Result<bool, Fail> {
    let ended = fails_so(rt, alloc, k, said, ["before", "older", "earlier"])?;
    Ok(match ended {
        Some(Status::ReadFault { file }) => file == wanted,
        _ => false,
    })
}

#[test]
fn each_fetch_fails(rt: HostRuntime) -> Result<(), Fail> {
    let rows = [
        (0, "cannot read library\n", Input::Lib),
        (2, "cannot read netlist\n", Input::Verilog),
        (4, "cannot read spef\n", Input::Spef),
        (6, "cannot read sdc\n", Input::Sdc),
    ];
    for (k, said, file) in rows {
        assert!(rt; is_unread(&rt, rt.alloc(), k, said, file)?, "failing {k}");
        assert!(rt;
            is_unread(&rt, rt.alloc(), k + 1, said, file)?,
            "failing one later"
        );
    }
    Ok(())
}

/// Whether a failing call of this number is told as an output that could not be written.
fn is_unwritten<R: Threads + Sync>(
    rt: &R,
    alloc: Global,
    k: u64,
    said: &str,
    stored: [&str; 3],
    wanted: Output,
) -> Result<bool, Fail> {
    let ended = fails_so(rt, alloc, k, said, stored)?;
    Ok(match ended {
        Some(Status::WriteFault { file }) => file == wanted,
        _ => false,
    })
}

#[test]
fn each_store_fails(rt: HostRuntime) -> Result<(), Fail> {
    let alloc = rt.alloc();
    let none = ["before", "older", "earlier"];
    let sizes = is_unwritten(&rt, alloc, 8, "cannot write sizes\n", none, Output::Sizes)?;
    assert!(rt; sizes);
    let one = [CHAIN_SIZES, "older", "earlier"];
    let log = is_unwritten(&rt, alloc, 9, "cannot write log\n", one, Output::Log)?;
    assert!(rt; log);
    let two = [CHAIN_SIZES, CHAIN_LOG, "earlier"];
    let report = is_unwritten(&rt, alloc, 10, "cannot write report\n", two, Output::Report)?;
    assert!(rt; report);
    Ok(())
}

#[test]
fn the_line_fails(rt: HostRuntime) -> Result<(), Fail> {
    let alloc = rt.alloc();
    let all = [CHAIN_SIZES, CHAIN_LOG, CHAIN_REPORT];
    let console = is_unwritten(&rt, alloc, 11, "", all, Output::Console)?;
    assert!(rt; console);
    let whole = fails_so(&rt, alloc, 12, CHAIN_DONE, all)?;
    assert!(rt; whole.is_some_and(|status| is_done(&status)));
    Ok(())
}

/// Whether a run on a shelf with these files ends with this line and exit code 4, and stores nothing.
fn lacks<R: Threads + Sync>(
    rt: &R,
    alloc: Global,
    files: FileList,
    line: &str,
) -> Result<bool, Fail> {
    let mut shelf = shelf_with(alloc, files, &[], 9)?;
    let status = run(rt, alloc, &size_words(alloc)?, &mut shelf);
    let told = shelf.said.as_slice() == line.as_bytes();
    Ok(exit_of(&status) == 4 && told && shelf.files.get(b"n.sizes").is_none())
}

#[test]
fn files_are_missing(rt: HostRuntime) -> Result<(), Fail> {
    let alloc = rt.alloc();
    assert!(rt; lacks(&rt, alloc, FileList::new(alloc), "cannot read library\n")?);
    let mut library = FileList::new(alloc);
    library.put(alloc, b"n.lib", ROWS.as_bytes())?;
    assert!(rt; lacks(&rt, alloc, library, "cannot read netlist\n")?);
    let mut three = FileList::new(alloc);
    three.put(alloc, b"n.lib", ROWS.as_bytes())?;
    three.put(alloc, b"n.v", CHAIN.as_bytes())?;
    three.put(alloc, b"n.spef", b"*C_UNIT 1 FF")?;
    assert!(rt; lacks(&rt, alloc, three, "cannot read sdc\n")?);
    Ok(())
}

/// Whether the words make no job, also where the line can't be said.
fn is_usage<R: Threads + Sync>(rt: &R, alloc: Global, words: &Words) -> Result<bool, Fail> {
    let mut shelf = shelf_with(alloc, FileList::new(alloc), &[1], 9)?;
    let said = run(rt, alloc, words, &mut shelf);
    let unsaid = run(rt, alloc, words, &mut shelf);
    let line = b"usage: gate-sizer size, check, audit or gen, with options\n";
    Ok(exit_of(&said) == 2 && exit_of(&unsaid) == 2 && shelf.said.as_slice() == line.as_slice())
}

#[test]
fn other_words(rt: HostRuntime) -> Result<(), Fail> {
    let alloc = rt.alloc();
    let short = words_of(alloc, &["size", "--verilog", "a", "--sizes", "b"])?;
    assert!(rt; is_usage(&rt, alloc, &short)?);
    let command = form_of(alloc, "resize", ["a", "b", "c", "d"], ["e", "f", "g"])?;
    assert!(rt; is_usage(&rt, alloc, &command)?);
    let unnamed = form_of(alloc, "size", ["a", "b", "c", ""], ["e", "f", "g"])?;
    assert!(rt; is_usage(&rt, alloc, &unnamed)?);
    let twice = form_of(alloc, "size", ["a", "b", "c", "d"], ["e", "f", "c"])?;
    assert!(rt; is_usage(&rt, alloc, &twice)?);
    let log = form_of(alloc, "size", ["a", "b", "c", "d"], ["e", "e", "f"])?;
    assert!(rt; is_usage(&rt, alloc, &log)?);
    assert!(rt; is_usage(&rt, alloc, &Words::new(alloc))?);
    Ok(())
}

/// How many passes the words ask for.
fn passes_of(alloc: Global, passes: &str) -> Result<u32, Fail> {
    match read_words(alloc, &words_with_passes(alloc, passes)?) {
        Ok(Job::Size(job)) => Ok(job.passes),
        _ => Err(Fail::new("the words make a job of size")),
    }
}

#[test]
fn numbers_of_passes(rt: HostRuntime) -> Result<(), Fail> {
    let alloc = rt.alloc();
    assert_eq!(rt; passes_of(alloc, "0")?, 0);
    assert_eq!(rt; passes_of(alloc, "64")?, 64);
    assert_eq!(rt; passes_of(alloc, "000000000000000000007")?, 7);
    for passes in ["65", "", "-1", "+1", "1.0", "x", "4294967297"] {
        assert!(rt;
            is_usage(&rt, alloc, &words_with_passes(alloc, passes)?)?,
            "{passes}"
        );
    }
    Ok(())
}

#[test]
fn passes_that_are_not_given_once(rt: HostRuntime) -> Result<(), Fail> {
    let alloc = rt.alloc();
    let mut twice = words_with_passes(alloc, "1")?;
    twice.add("--passes")?;
    assert!(rt; is_usage(&rt, alloc, &twice)?);
    twice.add("1")?;
    assert!(rt; is_usage(&rt, alloc, &twice)?);
    let mut none = words_of(alloc, &["size", "--lib", "n.lib", "--verilog", "n.v"])?;
    for text in [
        "--spef", "n.spef", "--sdc", "n.sdc", "--sizes", "n.sizes", "--log", "n.log", "--report",
        "n.rpt",
    ] {
        none.add(text)?;
    }
    assert!(rt; is_usage(&rt, alloc, &none)?);
    Ok(())
}
