//! Whole runs of `size` on the mixed design, with the sizes and the logs that two other programs of sizing ended with.

use crate::linked::Texts;
use crate::mixed::{LIMITS, TIGHT_LIMITS, texts_with};
use crate::words::size_words;
use gs_shelf::{Bytes, FileList, NeverFails};
use gs_top::{exit_of, run};
use std::alloc::{AllocError, Global};
use std::test::Fail;
use std::thread::Threads;

/// What a run of `size` on the mixed design reads, and what stands after it.
#[derive(Clone, Copy)]
struct Row {
    sdc: &'static str,
    passes: &'static str,
    exit: u8,
    said: &'static str,
    sizes: &'static str,
    log: &'static str,
    report: &'static str,
}

/// One inverter takes its smallest cell; back to the one in the middle gains nothing.
fn met() -> Row {
    Row {
        sdc: LIMITS,
        passes: "0",
        exit: 0,
        said: "done settled leakage 38.350000 violations 0 commits 1\n",
        sizes: "u1 INV_M\nu2 NAND_L\nu3 BUF_M\nu4 XOR_M\nr1 DFF_M\nu5 NAND_S\nu6 INV_S\nu7 XOR_M\nu8 INV_M\nu9 INV_S\n",
        log: "gate-sizing-log 1\nc 0 u6 INV_S\nr 0 u6 INV_M\nend settled 2 121\n",
        report: "gate-sizing-report 1\nended settled\nentries 2\nbudget 121\ncommits 1\nworker 0 commits 1\nleakage 38.350000 1nW\nviolations 0\n",
    }
}

/// Two limits are broken from the start, so three inverters may make their endpoints later still.
fn unmet() -> Row {
    Row {
        sdc: TIGHT_LIMITS,
        passes: "0",
        exit: 1,
        said: "done settled leakage 35.850000 violations 2 commits 3\n",
        sizes: "u1 INV_S\nu2 NAND_L\nu3 BUF_M\nu4 XOR_M\nr1 DFF_M\nu5 NAND_S\nu6 INV_S\nu7 XOR_M\nu8 INV_S\nu9 INV_S\n",
        log: "gate-sizing-log 1\nc 0 u1 INV_S\nr 0 u2 NAND_S\nc 0 u6 INV_S\nr 0 u6 INV_M\nc 0 u8 INV_S\nend settled 5 121\n",
        report: "gate-sizing-report 1\nended settled\nentries 5\nbudget 121\ncommits 3\nworker 0 commits 3\nleakage 35.850000 1nW\nviolations 2\nsetup y held 184.042971 bound 110.000000\nsetup w held 169.849774 bound 85.000000\n",
    }
}

/// After sixteen passes another inverter takes its smallest cell.
fn met_after_passes() -> Row {
    Row {
        sdc: LIMITS,
        passes: "16",
        exit: 0,
        said: "done settled leakage 38.350000 violations 0 commits 1\n",
        sizes: "u1 INV_M\nu2 NAND_L\nu3 BUF_M\nu4 XOR_M\nr1 DFF_M\nu5 NAND_S\nu6 INV_S\nu7 XOR_M\nu8 INV_S\nu9 INV_M\n",
        log: "gate-sizing-log 1\nc 0 u8 INV_S\nr 0 u9 INV_S\nend settled 2 121\n",
        report: "gate-sizing-report 1\nended settled\nentries 2\nbudget 121\ncommits 1\nworker 0 commits 1\nleakage 38.350000 1nW\nviolations 0\n",
    }
}

/// The multipliers of late endpoints keep gates large, and recovery makes them small again.
fn unmet_after_passes() -> Row {
    Row {
        sdc: TIGHT_LIMITS,
        passes: "16",
        exit: 1,
        said: "done settled leakage 35.850000 violations 2 commits 6\n",
        sizes: "u1 INV_S\nu2 NAND_L\nu3 BUF_M\nu4 XOR_M\nr1 DFF_M\nu5 NAND_S\nu6 INV_S\nu7 XOR_M\nu8 INV_S\nu9 INV_S\n",
        log: "gate-sizing-log 1\nc 0 u1 INV_M\nr 0 u2 NAND_S\nc 0 u5 NAND_S\nc 0 u6 INV_S\nr 0 u6 INV_M\nc 0 u8 INV_S\nr 0 u8 INV_M\nc 0 u9 INV_S\nr 0 u9 INV_M\nc 0 u1 INV_S\nr 0 u2 NAND_S\nend settled 11 121\n",
        report: "gate-sizing-report 1\nended settled\nentries 11\nbudget 121\ncommits 6\nworker 0 commits 6\nleakage 35.850000 1nW\nviolations 2\nsetup y held 184.042971 bound 110.000000\nsetup w held 169.849774 bound 85.000000\n",
    }
}

/// The same run, begun with so many passes.
fn begun_with(passes: &'static str, row: Row) -> Row {
    let mut row = row;
    row.passes = passes;
    row
}

fn files_of(alloc: Global, texts: &Texts) -> Result<FileList, AllocError> {
    let mut files = FileList::new(alloc);
    files.put(alloc, b"n.lib", texts.library)?;
    files.put(alloc, b"n.v", texts.verilog)?;
    files.put(alloc, b"n.spef", texts.spef)?;
    files.put(alloc, b"n.sdc", texts.sdc)?;
    Ok(files)
}

/// Whether the run of a row ends as the row says.
fn stands<R: Threads + Sync>(rt: &R, alloc: Global, row: Row) -> Result<bool, Fail> {
    let mut shelf = NeverFails {
        files: files_of(alloc, &texts_with(row.sdc))?,
        said: Bytes::empty(alloc),
    };
    let words = size_words(alloc, row.passes)?;
    let status = run(rt, alloc, &words, &mut shelf);
    Ok(
        exit_of(&status) == row.exit
            && shelf.said.as_slice() == row.said.as_bytes()
            && shelf.files.get(b"n.sizes") == Some(row.sizes.as_bytes())
            && shelf.files.get(b"n.log") == Some(row.log.as_bytes())
            && shelf.files.get(b"n.rpt") == Some(row.report.as_bytes()),
    )
}

#[test]
fn each_size_of_the_mixed_design(rt: HostRuntime) -> Result<(), Fail> {
    assert!(rt; stands(&rt, rt.alloc(), met())?);
    assert!(rt; stands(&rt, rt.alloc(), unmet())?);
    Ok(())
}

/// One pass makes the sizes that the netlist has, or worse ones.
#[test]
fn each_start_of_the_mixed_design(rt: HostRuntime) -> Result<(), Fail> {
    assert!(rt; stands(&rt, rt.alloc(), begun_with("1", met()))?);
    assert!(rt; stands(&rt, rt.alloc(), begun_with("1", unmet()))?);
    assert!(rt; stands(&rt, rt.alloc(), met_after_passes())?);
    assert!(rt; stands(&rt, rt.alloc(), unmet_after_passes())?);
    Ok(())
}
