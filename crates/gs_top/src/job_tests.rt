//! Runs of `size` from jobs that are made without words: with a budget, from sizes of a file, and from those that passes choose.

use crate::job::SizeJob;
use crate::name::Name;
use crate::program::run_size_alone;
use crate::samples::{
    CHAIN, CLOCK, NO_WIRES, PATH, PATH_LIMITS, PATH_WIRES, ROWS, Texts, files_with,
};
use crate::status::exit_of;
use gs_quantity::Mem;
use gs_shelf::{Bytes, NeverFails};
use std::alloc::Global;
use std::test::Fail;
use std::thread::Threads;

/// What a run reads, and what stands after it; without sizes, all files stay.
#[derive(Clone, Copy)]
struct Row {
    texts: Texts,
    from: Option<&'static str>,
    passes: u32,
    budget: Option<u64>,
    exit: u8,
    said: &'static str,
    sizes: &'static str,
    log: &'static str,
    report: &'static str,
}

/// The chain, and a period that the second inverter can't meet as the slower cell after the first has become one.
const TIGHT: Texts = Texts {
    library: ROWS,
    netlist: CHAIN,
    spef: NO_WIRES,
    sdc: "create_clock -name k -period 21\nset_load -pin_load 6 [get_ports z]\n",
};

const THE_PATH: Texts = Texts {
    library: ROWS,
    netlist: PATH,
    spef: PATH_WIRES,
    sdc: PATH_LIMITS,
};

/// No entry at all.
fn budget_of_nothing() -> Row {
    Row {
        texts: THE_PATH,
        from: None,
        passes: 0,
        budget: Some(0),
        exit: 0,
        said: "done spent leakage 18.000000 violations 0 commits 0\n",
        sizes: "g1 N2\ng2 I2\nf1 F1\ng3 I2\ng4 I2\n",
        log: "gate-sizing-log 1\nend spent 0 0\n",
        report: "gate-sizing-report 1\nended spent\nentries 0\nbudget 0\ncommits 0\nworker 0 commits 0\nleakage 18.000000 1uW\nviolations 0\n",
    }
}

/// Half of the commits that an ample budget has.
fn budget_that_is_spent() -> Row {
    Row {
        texts: THE_PATH,
        from: None,
        passes: 0,
        budget: Some(2),
        exit: 0,
        said: "done spent leakage 13.000000 violations 0 commits 2\n",
        sizes: "g1 N1\ng2 I1\nf1 F1\ng3 I2\ng4 I2\n",
        log: "gate-sizing-log 1\nc 0 g1 N1\nc 0 g2 I1\nend spent 2 2\n",
        report: "gate-sizing-report 1\nended spent\nentries 2\nbudget 2\ncommits 2\nworker 0 commits 2\nleakage 13.000000 1uW\nviolations 0\n",
    }
}

/// The last entry of the budget is a commit after which no move is fair: the run has settled.
fn budget_that_is_reached() -> Row {
    Row {
        texts: TIGHT,
        from: None,
        passes: 0,
        budget: Some(1),
        exit: 0,
        said: "done settled leakage 4.000000 violations 0 commits 1\n",
        sizes: "g1 I1\ng2 I2\n",
        log: "gate-sizing-log 1\nc 0 g1 I1\nend settled 1 1\n",
        report: "gate-sizing-report 1\nended settled\nentries 1\nbudget 1\ncommits 1\nworker 0 commits 1\nleakage 4.000000 1uW\nviolations 0\n",
    }
}

/// From the other inverter's smaller cell, in a file that names the instances in another order. The passes that the job asks for choose nothing.
fn sizes_of_a_file() -> Row {
    Row {
        texts: TIGHT,
        from: Some("g2 I2\ng1 I1\n"),
        passes: 16,
        budget: None,
        exit: 0,
        said: "done settled leakage 4.000000 violations 0 commits 0\n",
        sizes: "g1 I1\ng2 I2\n",
        log: "gate-sizing-log 1\nend settled 0 9\n",
        report: "gate-sizing-report 1\nended settled\nentries 0\nbudget 9\ncommits 0\nworker 0 commits 0\nleakage 4.000000 1uW\nviolations 0\n",
    }
}

fn sizes_that_are_refused() -> Row {
    Row {
        texts: TIGHT,
        from: Some("g1 I1\ng1 I1\n"),
        passes: 0,
        budget: None,
        exit: 3,
        said: "bad from twice at 2\n",
        sizes: "before",
        log: "older",
        report: "earlier",
    }
}

/// The chain, whose period both slower inverters meet.
const SLOW: Texts = Texts {
    library: ROWS,
    netlist: CHAIN,
    spef: NO_WIRES,
    sdc: CLOCK,
};

/// A period that the path's output misses.
const LATE: Texts = Texts {
    library: ROWS,
    netlist: PATH,
    spef: PATH_WIRES,
    sdc: "create_clock -name ck -period 22 [get_ports ck]
set_input_delay 5 [get_ports {x y}] -clock [get_clocks ck]
set_output_delay 10 [get_ports z] -clock [get_clocks ck]
set_load -pin_load 3 [get_ports z]
",
};

/// A period that the flip-flop misses too.
const LATER: Texts = Texts {
    library: ROWS,
    netlist: PATH,
    spef: PATH_WIRES,
    sdc: "create_clock -name ck -period 12 [get_ports ck]
set_input_delay 5 [get_ports {x y}] -clock [get_clocks ck]
set_output_delay 10 [get_ports z] -clock [get_clocks ck]
set_load -pin_load 3 [get_ports z]
",
};

/// A pass that leaves nothing to recover.
fn pass_to_the_least_leakage() -> Row {
    Row {
        texts: SLOW,
        from: None,
        passes: 1,
        budget: None,
        exit: 0,
        said: "done settled leakage 2.000000 violations 0 commits 0\n",
        sizes: "g1 I1\ng2 I1\n",
        log: "gate-sizing-log 1\nend settled 0 9\n",
        report: "gate-sizing-report 1\nended settled\nentries 0\nbudget 9\ncommits 0\nworker 0 commits 0\nleakage 2.000000 1uW\nviolations 0\n",
    }
}

/// A pass that ends with excess: the run begins with the netlist's sizes.
fn pass_that_ends_too_late() -> Row {
    Row {
        texts: TIGHT,
        from: None,
        passes: 1,
        budget: None,
        exit: 0,
        said: "done settled leakage 4.000000 violations 0 commits 1\n",
        sizes: "g1 I1\ng2 I2\n",
        log: "gate-sizing-log 1\nc 0 g1 I1\nr 0 g2 I1\nend settled 2 9\n",
        report: "gate-sizing-report 1\nended settled\nentries 2\nbudget 9\ncommits 1\nworker 0 commits 1\nleakage 4.000000 1uW\nviolations 0\n",
    }
}

/// The late path after so many passes, and without an entry.
fn late(passes: u32, said: &'static str, sizes: &'static str, report: &'static str) -> Row {
    Row {
        texts: LATE,
        from: None,
        passes,
        budget: Some(0),
        exit: 1,
        said,
        sizes,
        log: "gate-sizing-log 1\nend spent 0 0\n",
        report,
    }
}

const LATE_AS_GIVEN: &str = "done spent leakage 18.000000 violations 1 commits 0\n";

const LATE_AS_GIVEN_REPORT: &str =
    "gate-sizing-report 1\nended spent\nentries 0\nbudget 0\ncommits 0\nworker 0 commits 0\nleakage 18.000000 1uW\nviolations 1\nsetup z held 25.000000 bound 12.000000\n";

const LATE_CHOSEN: &str = "done spent leakage 13.000000 violations 1 commits 0\n";

const LATE_CHOSEN_REPORT: &str =
    "gate-sizing-report 1\nended spent\nentries 0\nbudget 0\ncommits 0\nworker 0 commits 0\nleakage 13.000000 1uW\nviolations 1\nsetup z held 25.000000 bound 12.000000\n";

/// As many passes as the multiplier of the late output needs, with an ample budget.
fn late_with_a_budget() -> Row {
    Row {
        texts: LATE,
        from: None,
        passes: 12,
        budget: None,
        exit: 1,
        said: "done settled leakage 9.000000 violations 1 commits 2\n",
        sizes: "g1 N1\ng2 I1\nf1 F1\ng3 I1\ng4 I1\n",
        log: "gate-sizing-log 1\nc 0 g3 I1\nc 0 g4 I1\nend settled 2 25\n",
        report: "gate-sizing-report 1\nended settled\nentries 2\nbudget 25\ncommits 2\nworker 0 commits 2\nleakage 9.000000 1uW\nviolations 1\nsetup z held 27.000000 bound 12.000000\n",
    }
}

/// Two late endpoints: one gate shrinks.
fn later_and_chosen() -> Row {
    Row {
        texts: LATER,
        from: None,
        passes: 16,
        budget: Some(0),
        exit: 1,
        said: "done spent leakage 16.000000 violations 2 commits 0\n",
        sizes: "g1 N2\ng2 I1\nf1 F1\ng3 I2\ng4 I2\n",
        log: "gate-sizing-log 1\nend spent 0 0\n",
        report: "gate-sizing-report 1\nended spent\nentries 0\nbudget 0\ncommits 0\nworker 0 commits 0\nleakage 16.000000 1uW\nviolations 2\nsetup z held 25.000000 bound 2.000000\nsetup f1/d held 17.000000 bound 12.000000\n",
    }
}

/// The job of a row, which is one that a run takes.
fn job_of(alloc: Global, row: &Row) -> Result<SizeJob, Mem> {
    let from = match row.from {
        None => None,
        Some(_) => Some(Name::copy_of(alloc, "n.from")?),
    };
    Ok(SizeJob {
        lib: Name::copy_of(alloc, "n.lib")?,
        verilog: Name::copy_of(alloc, "n.v")?,
        spef: Name::copy_of(alloc, "n.spef")?,
        sdc: Name::copy_of(alloc, "n.sdc")?,
        sizes: Name::copy_of(alloc, "n.sizes")?,
        log: Name::copy_of(alloc, "n.log")?,
        report: Name::copy_of(alloc, "n.rpt")?,
        from,
        workers: 0,
        passes: row.passes,
        budget: row.budget,
    })
}

fn stands_so(shelf: &NeverFails, row: &Row) -> bool {
    shelf.said.as_slice() == row.said.as_bytes()
        && shelf.files.get(b"n.sizes") == Some(row.sizes.as_bytes())
        && shelf.files.get(b"n.log") == Some(row.log.as_bytes())
        && shelf.files.get(b"n.rpt") == Some(row.report.as_bytes())
}

/// Whether the run of a row ends as the row says.
fn ends_so<R: Threads + Sync>(rt: &R, alloc: Global, row: Row) -> Result<bool, Fail> {
    let mut files = files_with(alloc, row.texts)?;
    if let Some(from) = row.from {
        files.put(alloc, b"n.from", from.as_bytes())?;
    }
    let mut shelf = NeverFails {
        files,
        said: Bytes::empty(alloc),
    };
    let job = job_of(alloc, &row)?;
    if !job.is_good() {
        return Err(Fail::new("it is a job that a run takes"));
    }
    let status = run_size_alone(rt, alloc, &job, &mut shelf);
    Ok(exit_of(&status) == row.exit && stands_so(&shelf, &row))
}

#[test]
fn each_budget(rt: HostRuntime) -> Result<(), Fail> {
    assert!(rt; ends_so(&rt, rt.alloc(), budget_of_nothing())?);
    assert!(rt; ends_so(&rt, rt.alloc(), budget_that_is_spent())?);
    assert!(rt; ends_so(&rt, rt.alloc(), budget_that_is_reached())?);
    Ok(())
}

#[test]
fn each_start_from_a_file(rt: HostRuntime) -> Result<(), Fail> {
    assert!(rt; ends_so(&rt, rt.alloc(), sizes_of_a_file())?);
    assert!(rt; ends_so(&rt, rt.alloc(), sizes_that_are_refused())?);
    Ok(())
}

#[test]
fn each_start_by_passes(rt: HostRuntime) -> Result<(), Fail> {
    assert!(rt; ends_so(&rt, rt.alloc(), pass_to_the_least_leakage())?);
    assert!(rt; ends_so(&rt, rt.alloc(), pass_that_ends_too_late())?);
    assert!(rt; ends_so(&rt, rt.alloc(), late_with_a_budget())?);
    assert!(rt; ends_so(&rt, rt.alloc(), later_and_chosen())?);
    Ok(())
}

#[test]
fn each_number_of_passes(rt: HostRuntime) -> Result<(), Fail> {
    for passes in [0, 11] {
        let row = late(
            passes,
            LATE_AS_GIVEN,
            "g1 N2\ng2 I2\nf1 F1\ng3 I2\ng4 I2\n",
            LATE_AS_GIVEN_REPORT,
        );
        assert!(rt; ends_so(&rt, rt.alloc(), row)?, "{passes}");
    }
    for passes in [12, 64] {
        let row = late(
            passes,
            LATE_CHOSEN,
            "g1 N1\ng2 I1\nf1 F1\ng3 I2\ng4 I2\n",
            LATE_CHOSEN_REPORT,
        );
        assert!(rt; ends_so(&rt, rt.alloc(), row)?, "{passes}");
    }
    Ok(())
}

/// Whether a run takes a job from sizes of a file with these numbers and this report.
fn is_taken(alloc: Global, workers: u32, passes: u32, report: &str) -> Result<bool, Mem> {
    let mut job = job_of(alloc, &sizes_of_a_file())?;
    job.workers = workers;
    job.passes = passes;
    job.report = Name::copy_of(alloc, report)?;
    Ok(job.is_good())
}

/// Numbers that are out of their ranges, and names that are empty or equal.
#[test]
fn jobs_that_no_run_takes(rt: HostRuntime) -> Result<(), Fail> {
    assert!(rt; is_taken(rt.alloc(), 0, 0, "n.rpt")?);
    assert!(rt; !is_taken(rt.alloc(), 1, 0, "n.rpt")?);
    assert!(rt; is_taken(rt.alloc(), 0, 64, "n.rpt")?);
    assert!(rt; !is_taken(rt.alloc(), 0, 65, "n.rpt")?);
    assert!(rt; !is_taken(rt.alloc(), 0, 0, "")?);
    assert!(rt; !is_taken(rt.alloc(), 0, 0, "n.from")?);
    Ok(())
}
