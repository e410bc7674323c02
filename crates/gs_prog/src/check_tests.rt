//! Whole runs of `check` on the mixed design: at the netlist's sizes, and at those that two other programs of sizing ended with.

use crate::linked::Texts;
use crate::mixed::{LIMITS, TIGHT_LIMITS, texts_with};
use gs_quantity::Mem;
use gs_shelf::{Bytes, FileList, NeverFails};
use gs_top::{Words, exit_of, run};
use std::alloc::{AllocError, Global};
use std::test::Fail;
use std::thread::Threads;

/// The most bytes of a file, and one more.
const TOO_LARGE: usize = 268_435_457;

/// What a run of `check` on the mixed design reads, and what stands after it.
#[derive(Clone, Copy)]
struct Row {
    sdc: &'static str,
    /// The file of sizes, where one is given.
    from: Option<&'static str>,
    exit: u8,
    said: &'static str,
    report: &'static str,
}

/// Sizes that meet the constraints.
const MET: &str =
    "u1 INV_M\nu2 NAND_L\nu3 BUF_M\nu4 XOR_M\nr1 DFF_M\nu5 NAND_S\nu6 INV_S\nu7 XOR_M\nu8 INV_M\nu9 INV_S\n";

/// Others, by name of instance.
const MET_TOO: &str =
    "r1 DFF_M\nu1 INV_M\nu2 NAND_L\nu3 BUF_M\nu4 XOR_M\nu5 NAND_S\nu6 INV_S\nu7 XOR_M\nu8 INV_S\nu9 INV_M";

/// The sizes that leak least.
const LEAST: &str =
    "u1 INV_S\r\nu2 NAND_L\r\nu3 BUF_M\r\nu4 XOR_M\r\n\r\nr1 DFF_M\r\nu5 NAND_S\r\nu6 INV_S\r\nu7 XOR_M\r\nu8 INV_S\r\nu9 INV_S\r\n";

/// The sizes of the netlist.
const NETLIST_SIZES: &str =
    "u9 INV_S\nu8 INV_M\nu7 XOR_M\nu6 INV_L\nu5 NAND_S\nu4 XOR_M\nu3 BUF_M\nu2 NAND_L\nu1 INV_M\nr1 DFF_M\n";

const TIGHT_REPORT: &str =
    "gate-sizing-report 1\nleakage 42.600000 1nW\nviolations 2\nsetup y held 164.908513 bound 110.000000\nsetup w held 149.842234 bound 85.000000\n";

fn met(from: Option<&'static str>, said: &'static str, report: &'static str) -> Row {
    Row {
        sdc: LIMITS,
        from,
        exit: 0,
        said,
        report,
    }
}

fn unmet(from: Option<&'static str>, said: &'static str, report: &'static str) -> Row {
    Row {
        sdc: TIGHT_LIMITS,
        from,
        exit: 1,
        said,
        report,
    }
}

fn rows() -> [Row; 7] {
    [
        met(
            None,
            "checked leakage 42.600000 violations 0\n",
            "gate-sizing-report 1\nleakage 42.600000 1nW\nviolations 0\n",
        ),
        met(
            Some(NETLIST_SIZES),
            "checked leakage 42.600000 violations 0\n",
            "gate-sizing-report 1\nleakage 42.600000 1nW\nviolations 0\n",
        ),
        met(
            Some(MET),
            "checked leakage 38.350000 violations 0\n",
            "gate-sizing-report 1\nleakage 38.350000 1nW\nviolations 0\n",
        ),
        met(
            Some(MET_TOO),
            "checked leakage 38.350000 violations 0\n",
            "gate-sizing-report 1\nleakage 38.350000 1nW\nviolations 0\n",
        ),
        unmet(
            None,
            "checked leakage 42.600000 violations 2\n",
            TIGHT_REPORT,
        ),
        unmet(
            Some(NETLIST_SIZES),
            "checked leakage 42.600000 violations 2\n",
            TIGHT_REPORT,
        ),
        unmet(
            Some(LEAST),
            "checked leakage 35.850000 violations 2\n",
            "gate-sizing-report 1\nleakage 35.850000 1nW\nviolations 2\nsetup y held 184.042971 bound 110.000000\nsetup w held 169.849774 bound 85.000000\n",
        ),
    ]
}

/// The words of `check`, with the file of sizes where `with_from` says so.
fn check_words(alloc: Global, with_from: bool) -> Result<Words, Mem> {
    let mut words = Words::new(alloc);
    for word in [
        "check",
        "--lib",
        "n.lib",
        "--verilog",
        "n.v",
        "--spef",
        "n.spef",
        "--sdc",
        "n.sdc",
        "--report",
        "n.rpt",
    ] {
        words.add(word)?;
    }
    if with_from {
        words.add("--from")?;
        words.add("n.from")?;
    }
    Ok(words)
}

/// The files of these texts, and a report of an earlier run.
fn files_of(alloc: Global, texts: &Texts) -> Result<FileList, AllocError> {
    let mut files = FileList::new(alloc);
    files.put(alloc, b"n.lib", texts.library)?;
    files.put(alloc, b"n.v", texts.verilog)?;
    files.put(alloc, b"n.spef", texts.spef)?;
    files.put(alloc, b"n.sdc", texts.sdc)?;
    files.put(alloc, b"n.rpt", b"earlier")?;
    Ok(files)
}

/// Whether a run on these files, with a file of sizes or without, ends so.
fn ends_so<R: Threads + Sync>(
    rt: &R,
    alloc: Global,
    files: FileList,
    with_from: bool,
    exit: u8,
    said: &str,
    report: &str,
) -> Result<bool, Fail> {
    let mut shelf = NeverFails {
        files,
        said: Bytes::empty(alloc),
    };
    let words = check_words(alloc, with_from)?;
    let status = run(rt, alloc, &words, &mut shelf);
    let stored = shelf.files.get(b"n.rpt") == Some(report.as_bytes());
    Ok(exit_of(&status) == exit && stored && shelf.said.as_slice() == said.as_bytes())
}

/// Whether the run of a row ends as the row says.
fn stands<R: Threads + Sync>(rt: &R, alloc: Global, row: Row) -> Result<bool, Fail> {
    let mut files = files_of(alloc, &texts_with(row.sdc))?;
    if let Some(from) = row.from {
        files.put(alloc, b"n.from", from.as_bytes())?;
    }
    ends_so(
        rt,
        alloc,
        files,
        row.from.is_some(),
        row.exit,
        row.said,
        row.report,
    )
}

#[test]
fn each_check_of_the_mixed_design(rt: HostRuntime) -> Result<(), Fail> {
    for row in rows() {
        assert!(rt; stands(&rt, rt.alloc(), row)?, "{}", row.report);
    }
    Ok(())
}

/// So many bytes.
fn zeros(alloc: Global, count: usize) -> Result<Vec<u8>, AllocError> {
    vec![in alloc; 0u8; count]
}

/// Whether a run, in which the file of this name has these bytes, is refused with this line, and stores nothing.
fn refuses<R: Threads + Sync>(
    rt: &R,
    alloc: Global,
    name: &[u8],
    bytes: &[u8],
    line: &str,
) -> Result<bool, Fail> {
    let mut files = files_of(alloc, &texts_with(LIMITS))?;
    files.put(alloc, name, bytes)?;
    ends_so(rt, alloc, files, true, 3, line, "earlier")
}

#[test]
fn each_file_is_too_large(rt: HostRuntime) -> Result<(), Fail> {
    let alloc = rt.alloc();
    let large = zeros(alloc, TOO_LARGE)?;
    let rows: [(&[u8], &str); 5] = [
        (b"n.lib", "too large library\n"),
        (b"n.v", "too large netlist\n"),
        (b"n.spef", "too large spef\n"),
        (b"n.sdc", "too large sdc\n"),
        (b"n.from", "too large from\n"),
    ];
    for (name, line) in rows {
        assert!(rt;
            refuses(&rt, alloc, name, large.as_slice(), line)?,
            "{line}"
        );
    }
    Ok(())
}
