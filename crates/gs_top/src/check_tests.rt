//! Whole runs of `check`: what is said, stored and answered, with each file refused and each call of the shelf failing.

ghost use Rattle.std.specs.Prelude.{◌≤◌};

use crate::program::run;
use crate::samples::{
    CHAIN_TEXTS, NO_WIRES, PATH, PATH_LIMITS, PATH_WIRES, ROWS, Texts, check_words, files_with,
    words_of,
};
use crate::status::{Input, Output, Status, TextWhy, exit_of};
use gs_quantity::Micro;
use gs_shelf::{Bytes, Failures, FileList, MemShelf, NeverFails, Numbers};
use std::alloc::Global;
use std::test::Fail;
use std::thread::Threads;

/// One small inverter.
const SMALL: &str = "module b (x, z); input x; output z; I1 g1 (.a(x), .o(z)); endmodule";

/// Constraints in the manner of a contest: a driving cell, and what it is driven with.
const DRIVEN: &str = "# contest-like constraints
create_clock -name mclk -period 20.0
set_input_delay 5.0 [get_ports {x}] -clock [get_clocks {mclk}]
set_driving_cell -lib_cell I2 -pin o [get_ports {x}] -input_transition_fall 80.0 -input_transition_rise 80.0
set_output_delay 0.0 [get_ports {z}] -clock [get_clocks {mclk}]
set_load -pin_load 4.0 [get_ports {z}]
";

/// What a run of `check` reads, and what stands after it.
#[derive(Clone, Copy)]
struct Row {
    texts: Texts,
    /// The file of sizes, where one is given.
    from: Option<&'static str>,
    exit: u8,
    said: &'static str,
    report: &'static str,
}

fn judged(texts: Texts, exit: u8, said: &'static str, report: &'static str) -> Row {
    Row {
        texts,
        from: None,
        exit,
        said,
        report,
    }
}

/// The chain of two inverters with these sizes.
fn sized(from: &'static str, said: &'static str, report: &'static str) -> Row {
    Row {
        texts: CHAIN_TEXTS,
        from: Some(from),
        exit: 0,
        said,
        report,
    }
}

/// Sizes of the chain that are refused.
fn refused(from: &'static str, said: &'static str) -> Row {
    Row {
        texts: CHAIN_TEXTS,
        from: Some(from),
        exit: 3,
        said,
        report: "earlier",
    }
}

fn small(spef: &'static str, sdc: &'static str) -> Texts {
    Texts {
        library: ROWS,
        netlist: SMALL,
        spef,
        sdc,
    }
}

fn of_limits(sdc: &'static str) -> Texts {
    Texts { sdc, ..CHAIN_TEXTS }
}

fn path() -> Texts {
    Texts {
        library: ROWS,
        netlist: PATH,
        spef: PATH_WIRES,
        sdc: PATH_LIMITS,
    }
}

fn netlist_sizes() -> [Row; 4] {
    [
        judged(
            path(),
            0,
            "checked leakage 18.000000 violations 0\n",
            "gate-sizing-report 1\nleakage 18.000000 1uW\nviolations 0\n",
        ),
        judged(
            of_limits("create_clock -name k -period 15\nset_load -pin_load 6 [get_ports z]\n"),
            1,
            "checked leakage 6.000000 violations 1\n",
            "gate-sizing-report 1\nleakage 6.000000 1uW\nviolations 1\nsetup z held 16.000000 bound 15.000000\n",
        ),
        judged(
            small(
                NO_WIRES,
                "create_clock -name k -period 100\nset_load -pin_load 8.5 [get_ports z]\n",
            ),
            1,
            "checked leakage 1.000000 violations 1\n",
            "gate-sizing-report 1\nleakage 1.000000 1uW\nviolations 1\nload z held 8.500000 bound 8.000000\n",
        ),
        judged(
            small("*D_NET x 2\n*END\n", DRIVEN),
            1,
            "checked leakage 1.000000 violations 1\n",
            "gate-sizing-report 1\nleakage 1.000000 1uW\nviolations 1\nsetup z held 24.000000 bound 20.000000\n",
        ),
    ]
}

fn given_sizes() -> [Row; 3] {
    [
        sized(
            "g2 I1\ng1 I2\n",
            "checked leakage 4.000000 violations 0\n",
            "gate-sizing-report 1\nleakage 4.000000 1uW\nviolations 0\n",
        ),
        sized(
            "\n\t g1  I1\r\n\r\ng2\tI1 \r",
            "checked leakage 2.000000 violations 0\n",
            "gate-sizing-report 1\nleakage 2.000000 1uW\nviolations 0\n",
        ),
        Row {
            texts: of_limits(
                "create_clock -name k -period 21.5\nset_load -pin_load 6 [get_ports z]\n",
            ),
            from: Some("g1 I1\ng2 I1\n"),
            exit: 1,
            said: "checked leakage 2.000000 violations 1\n",
            report: "gate-sizing-report 1\nleakage 2.000000 1uW\nviolations 1\nsetup z held 22.000000 bound 21.500000\n",
        },
    ]
}

fn refused_sizes() -> [Row; 7] {
    [
        refused("g1 I1\ng1 I1\n", "bad from twice at 2\n"),
        refused("g1 I1\n", "bad from absent at 1\n"),
        refused("", "bad from absent at 0\n"),
        refused("g1 N1\n", "bad from wrongcell at 1\n"),
        refused("\ng3 I1\n", "bad from unknown at 2\n"),
        refused("g1 I1 x\n", "bad from badline at 1\n"),
        refused("g1 I1\ng3\ng1 I1", "bad from badline at 2\n"),
    ]
}

fn refused_files() -> [Row; 5] {
    [
        judged(
            Texts {
                library: "l (l) {}",
                ..CHAIN_TEXTS
            },
            3,
            "bad library missing\n",
            "earlier",
        ),
        judged(
            Texts {
                netlist: "module m",
                ..CHAIN_TEXTS
            },
            3,
            "bad netlist noend at 2\n",
            "earlier",
        ),
        judged(
            Texts {
                spef: "*END",
                ..CHAIN_TEXTS
            },
            3,
            "bad spef badline at 1\n",
            "earlier",
        ),
        judged(of_limits(""), 3, "bad sdc noclock at 0\n", "earlier"),
        judged(
            Texts {
                spef: "*D_NET q7 1\n*END\n",
                ..CHAIN_TEXTS
            },
            3,
            "bad design unknownnet\n",
            "earlier",
        ),
    ]
}

/// The files of a row.
fn files_of(alloc: Global, row: Row) -> Result<FileList, Fail> {
    let mut files = files_with(alloc, row.texts)?;
    if let Some(from) = row.from {
        files.put(alloc, b"n.from", from.as_bytes())?;
    }
    Ok(files)
}

/// Whether the run of a row ends as the row says, over a shelf without faults, and leaves the file of sizes of an earlier run.
fn ends_so<R: Threads + Sync>(rt: &R, alloc: Global, row: Row) -> Result<bool, Fail> {
    let mut shelf = NeverFails {
        files: files_of(alloc, row)?,
        said: Bytes::empty(alloc),
    };
    let words = check_words(alloc, row.from.is_some())?;
    let status = run(rt, alloc, &words, &mut shelf);
    let report = shelf.files.get(b"n.rpt") == Some(row.report.as_bytes());
    let said = shelf.said.as_slice() == row.said.as_bytes();
    let sizes = shelf.files.get(b"n.sizes") == Some(b"before".as_slice());
    Ok(exit_of(&status) == row.exit && said && report && sizes)
}

#[test]
fn sizes_are_judged(rt: HostRuntime) -> Result<(), Fail> {
    for row in netlist_sizes() {
        assert!(rt; ends_so(&rt, rt.alloc(), row)?, "{}", row.report);
    }
    for row in given_sizes() {
        assert!(rt; ends_so(&rt, rt.alloc(), row)?, "{}", row.report);
    }
    Ok(())
}

#[test]
fn each_refusal(rt: HostRuntime) -> Result<(), Fail> {
    for row in refused_sizes() {
        assert!(rt; ends_so(&rt, rt.alloc(), row)?, "{}", row.said);
    }
    for row in refused_files() {
        assert!(rt; ends_so(&rt, rt.alloc(), row)?, "{}", row.said);
    }
    Ok(())
}

/// The chain with sizes whose call number `k` fails: the status, where what was said and the report are these.
fn fails_so<R: Threads + Sync>(
    rt: &R,
    alloc: Global,
    k: u64,
    said: &str,
    report: &str,
) -> Result<Option<Status>, Fail> {
    let row = sized("g1 I1\ng2 I1\n", "", "");
    let mut shelf = MemShelf {
        files: files_of(alloc, row)?,
        said: Bytes::empty(alloc),
        calls: 0,
        fails: Numbers::from_vec(Vec::from_slice(alloc, &[k])?),
        failed: Failures::empty(alloc),
        most: 100_000,
    };
    let words = check_words(alloc, true)?;
    let status = run(rt, alloc, &words, &mut shelf);
    let stands = shelf.said.as_slice() == said.as_bytes()
        && shelf.files.get(b"n.rpt") == Some(report.as_bytes());
    Ok(if stands { Some(status) } else { None })
}

/// Whether a failing call of this number is told as a file that could not be read.
fn is_unread<R: Threads + Sync>(
    rt: &R,
    alloc: Global,
    k: u64,
    said: &str,
    wanted: Input,
) -> Result<bool, Fail> {
    let ended = fails_so(rt, alloc, k, said, "earlier")?;
    Ok(match ended {
        Some(Status::ReadFault { file }) => file == wanted,
        _ => false,
    })
}

#[test]
fn each_fetch_fails(rt: HostRuntime) -> Result<(), Fail> {
    let rows = [
        (0, "cannot read library\n", Input::Lib),
        (2, "cannot read netlist\n", Input::Verilog),
        (4, "cannot read spef\n", Input::Spef),
        (6, "cannot read sdc\n", Input::Sdc),
        (8, "cannot read from\n", Input::From),
    ];
    for (k, said, file) in rows {
        assert!(rt; is_unread(&rt, rt.alloc(), k, said, file)?, "failing {k}");
        assert!(rt;
            is_unread(&rt, rt.alloc(), k + 1, said, file)?,
            "failing one later"
        );
    }
    Ok(())
}

#[test]
fn the_store_and_the_line_fail(rt: HostRuntime) -> Result<(), Fail> {
    let alloc = rt.alloc();
    let report = "gate-sizing-report 1\nleakage 2.000000 1uW\nviolations 0\n";
    let store = fails_so(&rt, alloc, 10, "cannot write report\n", "earlier")?;
    assert!(rt;
        matches!(
            store,
            Some(Status::WriteFault {
                file: Output::Report
            })
        )
    );
    let line = fails_so(&rt, alloc, 11, "", report)?;
    assert!(rt;
        matches!(
            line,
            Some(Status::WriteFault {
                file: Output::Console
            })
        )
    );
    let whole = fails_so(
        &rt,
        alloc,
        12,
        "checked leakage 2.000000 violations 0\n",
        report,
    )?;
    assert!(rt;
        matches!(
            whole,
            Some(Status::Checked {
                violations: 0,
                leakage: Micro(2_000_000)
            })
        )
    );
    Ok(())
}

/// The status of `check` with these words over no files.
fn status_of<R: Threads + Sync>(rt: &R, alloc: Global, texts: &[&str]) -> Result<Status, Fail> {
    let mut shelf = NeverFails {
        files: FileList::new(alloc),
        said: Bytes::empty(alloc),
    };
    Ok(run(rt, alloc, &words_of(alloc, texts)?, &mut shelf))
}

/// The status after words of `check` that end with these.
fn status_with<R: Threads + Sync>(rt: &R, alloc: Global, tail: [&str; 4]) -> Result<Status, Fail> {
    let [first, second, third, fourth] = tail;
    status_of(
        rt,
        alloc,
        &[
            "check",
            "--lib",
            "a",
            "--verilog",
            "b",
            "--spef",
            "c",
            "--sdc",
            "d",
            first,
            second,
            third,
            fourth,
        ],
    )
}

#[test]
fn words_of_no_job(rt: HostRuntime) -> Result<(), Fail> {
    let alloc = rt.alloc();
    let rows = [
        ["--report", "", "--from", "f"],
        ["--report", "e", "--from", ""],
        ["--report", "e", "--from", "e"],
        ["--report", "e", "--from", "a"],
        ["--from", "f", "--report", "e"],
        ["--report", "e", "--sizes", "f"],
    ];
    for row in rows {
        let status = status_with(&rt, alloc, row)?;
        assert!(rt; matches!(status, Status::Usage), "{} {}", row[0], row[2]);
    }
    let short = status_of(
        &rt,
        alloc,
        &[
            "check",
            "--lib",
            "a",
            "--verilog",
            "b",
            "--spef",
            "c",
            "--sdc",
            "d",
        ],
    )?;
    assert!(rt; matches!(short, Status::Usage));
    let good = status_with(&rt, alloc, ["--report", "e", "--from", "f"])?;
    assert!(rt;
        matches!(
            good,
            Status::BadText {
                file: Input::Lib,
                why: TextWhy::BadPiece,
                place: 0
            }
        )
    );
    Ok(())
}
