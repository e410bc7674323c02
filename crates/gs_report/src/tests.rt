//! Tests.
#![tactic(auto)]

ghost use Rattle.std.specs.Prelude.{◌≡◌, [], ◌∷◌, IfOk, None, length, pos};
ghost use Rattle.gs_design.specs.Nets.{Net};
ghost use Rattle.gs_design.specs.declared.sink.Driver.TheVariants.{Port};

use crate::report::write_report;
use crate::run::{Log, Ran};
use crate::writing::write_log;
use gs_design::{
    Design, Driver, Edge, End, EndPlace, InstId, Insts, NetId, NetRow, NetTime, Nets, Parts, Sizes,
    Timing,
};
use gs_list::{Grouped, Rows};
use gs_move::{Ended, Entry, Move};
use gs_quantity::Micro;
use gs_text::Name;
use std::alloc::Global;
use std::test::Fail;

// The one net, z, of a design without instances: an input port that is an output port too.
fn the_net(alloc: Global) -> Result<Nets, Fail>
    ensures { IfOk result (λ n. n ≡ record { name = 122 ∷ []; wire = pos 0; port_load = pos 0; driver = Port (pos 0) None; sinks = [] } ∷ []) }
{
    let row = NetRow {
        wire: Micro(0),
        port_load: Micro(0),
        driver: Driver::Port {
            delay: Micro(0),
            cell: None,
        },
    };
    let mut rows = Rows::empty(alloc);
    rows.push(row)?;
    let mut sinks = Grouped::empty(alloc)?;
    sinks.push(&[])?;
    let mut names = Rows::empty(alloc);
    names.push(Name::copy_of(alloc, b"z")?)?;
    Ok(Nets::new(rows, sinks, names))
}

// No instances.
fn the_insts(alloc: Global) -> Result<Insts, Fail>
    ensures { IfOk result (λ i. i ≡ []) }
{
    let inputs = Grouped::empty(alloc)?;
    Ok(Insts::new(
        Rows::empty(alloc),
        Rows::empty(alloc),
        inputs,
        Rows::empty(alloc),
    ))
}

// The design of that net, with a port at which it has to arrive by 15 ps.
fn wire(alloc: Global, unit: &[u8]) -> Result<Design, Fail>
    ensures insts { IfOk result (λ d. length d.insts ≡ 0) }
    ensures nets { IfOk result (λ d. length d.nets ≡ 1) }
{
    let nets = the_net(alloc)?;
    let end = End {
        place: EndPlace::Output,
        net: NetId(0),
        bound: Micro(15_000_000),
    };
    let mut ends = Rows::empty(alloc);
    ends.push(end)?;
    let mut order = Rows::empty(alloc);
    order.push(NetId(0))?;
    let mut ranks = Rows::empty(alloc);
    ranks.push(0)?;
    let design = Design::new(
        alloc,
        Parts {
            cells: Rows::empty(alloc),
            slew_default: None,
            leak_unit: Name::copy_of(alloc, unit)?,
            insts: the_insts(alloc)?,
            nets,
            ends,
            order,
            ranks,
            period: Micro(100_000_000),
            area_bound: None,
        },
    )?;
    Ok(design)
}

// A timing of one net that arrives at 16 ps with a slew of 2.5 ps, of which so much is allowed.
fn late(alloc: Global, slew_bound: Option<Micro>) -> Result<Timing, Fail>
    ensures { IfOk result (λ t. length t ≡ 1) }
{
    let edge = Edge {
        arrival: Micro(16_000_000),
        slew: Micro(2_500_000),
    };
    let record = NetTime {
        load: Micro(0),
        load_bound: None,
        slew_bound,
        rise: edge,
        fall: edge,
    };
    Ok(Timing::from_vec(vec![in alloc; record]?))
}

// The report of that design, of which an instance leaks nothing since there is none.
fn report_of(
    alloc: Global,
    unit: &[u8],
    slew_bound: Option<Micro>,
    ran: Option<Ran>,
) -> Result<Vec<u8>, Fail> {
    let design = wire(alloc, unit)?;
    let sizes = Sizes::from_vec(Vec::new(alloc));
    let timing = late(alloc, slew_bound)?;
    let text = write_report(alloc, &design, &sizes, &timing, ran)?;
    Ok(text)
}

// The log of a run of that design, which tries no move.
fn log_of(alloc: Global, ended: Ended, budget: u64) -> Result<Vec<u8>, Fail> {
    let design = wire(alloc, b"")?;
    let log = Log {
        entries: Rows::empty(alloc),
        ended,
        budget,
    };
    let text = write_log(alloc, &design, &log)?;
    Ok(text)
}

fn tried(inst: u32) -> Move {
    Move {
        inst: InstId(inst),
        place: 0,
    }
}

fn commit(inst: u32, worker: u32) -> Entry {
    Entry::Commit {
        mv: tried(inst),
        worker,
    }
}

fn reject(inst: u32, worker: u32) -> Entry {
    Entry::Reject {
        mv: tried(inst),
        worker,
    }
}

// A run of two workers beside worker 0, with an entry of a worker that has no line.
fn run_of(alloc: Global) -> Result<Log, Fail> {
    let entries = vec![in alloc;
        commit(0, 0),
        reject(1, 1),
        commit(2, 1),
        commit(1, 1),
        commit(1, 7),
    ]?;
    Ok(Log {
        entries: Rows::from_vec(entries),
        ended: Ended::Spent,
        budget: 5,
    })
}

#[test]
fn each_limit_has_its_line(rt: HostRuntime) -> Result<(), Fail> {
    let text = report_of(rt.alloc(), b"1uW", Some(Micro(2_000_000)), None)?;
    let wanted =
        b"gate-sizing-report 1\nleakage 0.000000 1uW\nviolations 2\nsetup z held 16.000000 bound 15.000000\nslew z held 2.500000 bound 2.000000\n";
    assert!(rt; text.as_slice() == wanted.as_slice());
    Ok(())
}

#[test]
fn a_run_has_its_lines(rt: HostRuntime) -> Result<(), Fail> {
    let log = run_of(rt.alloc())?;
    let ran = Ran {
        log: &log,
        workers: 2,
    };
    let text = report_of(rt.alloc(), b"", None, Some(ran))?;
    let wanted =
        b"gate-sizing-report 1\nended spent\nentries 5\nbudget 5\ncommits 4\nworker 0 commits 1\nworker 1 commits 2\nworker 2 commits 0\nleakage 0.000000\nviolations 1\nsetup z held 16.000000 bound 15.000000\n";
    assert!(rt; text.as_slice() == wanted.as_slice());
    Ok(())
}

#[test]
fn a_log_without_entries_has_two_lines(rt: HostRuntime) -> Result<(), Fail> {
    let text = log_of(rt.alloc(), Ended::Settled, 12)?;
    assert!(rt; text.as_slice() == b"gate-sizing-log 1\nend settled 0 12\n".as_slice());
    Ok(())
}
