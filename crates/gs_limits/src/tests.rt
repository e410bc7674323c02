//! Tests.
#![tactic(auto)]

ghost use Rattle.std.specs.Prelude.{◌≡◌, [], ◌∷◌, IfOk, None, length, pos};
ghost use Rattle.gs_design.specs.Nets.{Net};
ghost use Rattle.gs_design.specs.declared.sink.Driver.TheVariants.{Port};

use crate::leak::leakage;
use crate::outcome::{NetOutcome, judge_net};
use crate::totals::excess;
use crate::unmet::violations;
use gs_design::{
    Design, Driver, Edge, End, EndPlace, Insts, Limit, NetId, NetRow, NetTime, Nets, Parts, Sizes,
    Timing, Violation,
};
use gs_list::{Grouped, Rows};
use gs_quantity::Micro;
use gs_text::Name;
use std::alloc::Global;
use std::test::Fail;

// The one net, z, of a design without instances: an input port that is an output port too.
fn the_net(alloc: Global) -> Result<Nets, Fail>
    ensures { IfOk result (λ n. n ≡ record { name = 122 ∷ []; wire = pos 0; port_load = pos 0; driver = Port (pos 0) None; sinks = [] } ∷ []) }
{
    let row = NetRow {
        wire: Micro(0),
        port_load: Micro(0),
        driver: Driver::Port {
            delay: Micro(0),
            cell: None,
        },
    };
    let mut rows = Rows::empty(alloc);
    rows.push(row)?;
    let mut sinks = Grouped::empty(alloc)?;
    sinks.push(&[])?;
    let mut names = Rows::empty(alloc);
    names.push(Name::copy_of(alloc, b"z")?)?;
    Ok(Nets::new(rows, sinks, names))
}

// No instances.
fn the_insts(alloc: Global) -> Result<Insts, Fail>
    ensures { IfOk result (λ i. i ≡ []) }
{
    let inputs = Grouped::empty(alloc)?;
    Ok(Insts::new(
        Rows::empty(alloc),
        Rows::empty(alloc),
        inputs,
        Rows::empty(alloc),
    ))
}

// The design of that net, with a port at which it has to arrive by 15 ps.
fn wire(alloc: Global) -> Result<Design, Fail>
    ensures insts { IfOk result (λ d. length d.insts ≡ 0) }
    ensures nets { IfOk result (λ d. length d.nets ≡ 1) }
{
    let nets = the_net(alloc)?;
    let end = End {
        place: EndPlace::Output,
        net: NetId(0),
        bound: Micro(15_000_000),
    };
    let mut ends = Rows::empty(alloc);
    ends.push(end)?;
    let mut order = Rows::empty(alloc);
    order.push(NetId(0))?;
    let mut ranks = Rows::empty(alloc);
    ranks.push(0)?;
    let design = Design::new(
        alloc,
        Parts {
            cells: Rows::empty(alloc),
            slew_default: None,
            leak_unit: Name::copy_of(alloc, b"1uW")?,
            insts: the_insts(alloc)?,
            nets,
            ends,
            order,
            ranks,
            period: Micro(100_000_000),
            area_bound: None,
        },
    )?;
    Ok(design)
}

fn edge(arrival: i64, slew: i64) -> Edge {
    Edge {
        arrival: Micro(arrival),
        slew: Micro(slew),
    }
}

// A record of that net, whose slew is bounded by 2 ps: its rise comes at 3 ps within 1 ps, its fall as is given.
fn record(arrival: i64, slew: i64) -> NetTime {
    NetTime {
        load: Micro(90_000_000),
        load_bound: Some(Micro(1_000_000)),
        slew_bound: Some(Micro(2_000_000)),
        rise: edge(3_000_000, 1_000_000),
        fall: edge(arrival, slew),
    }
}

// What a change of the fall does.
fn judged(alloc: Global, old: [i64; 2], new: [i64; 2]) -> Result<NetOutcome, Fail> {
    let design = wire(alloc)?;
    let [old_arrival, old_slew] = old;
    let [new_arrival, new_slew] = new;
    let before = record(old_arrival, old_slew);
    let after = record(new_arrival, new_slew);
    Ok(judge_net(&design, NetId(0), &before, &after))
}

fn outcome(broken: Option<Limit>, over_old: u128, over_new: u128) -> NetOutcome {
    NetOutcome {
        broken,
        over_old,
        over_new,
    }
}

#[test]
fn changes_of_a_net(rt: HostRuntime) -> Result<(), Fail> {
    let alloc = rt.alloc();
    let setup = Some(Limit::Setup(0));
    let slew = Some(Limit::Slew(NetId(0)));
    // At its bounds each limit is met. No instance drives the net, so its load has no limit.
    let met = [15_000_000, 2_000_000];
    let late = [15_000_001, 2_000_000];
    let slow = [15_000_000, 2_500_000];
    let both = [16_000_000, 2_000_003];
    assert_eq!(rt; judged(alloc, met, met)?, outcome(None, 0, 0));
    assert_eq!(rt; judged(alloc, met, late)?, outcome(setup, 0, 1));
    assert_eq!(rt; judged(alloc, met, slow)?, outcome(slew, 0, 500_000));
    assert_eq!(rt; judged(alloc, met, both)?, outcome(setup, 0, 1_000_003));
    assert_eq!(rt; judged(alloc, late, both)?, outcome(slew, 1, 1_000_003));
    assert_eq!(rt; judged(alloc, both, late)?, outcome(None, 1_000_003, 1));
    Ok(())
}

// What the design leaks, its excess and its violations, where the fall is as is given.
fn totals(alloc: Global, arrival: i64, slew: i64) -> Result<(Micro, u128, Vec<Violation>), Fail> {
    let design = wire(alloc)?;
    let sizes = Sizes::from_vec(Vec::new(alloc));
    let timing = Timing::from_vec(vec![in alloc; record(arrival, slew)]?);
    let unmet = violations(alloc, &design, &timing)?;
    Ok((leakage(&design, &sizes), excess(&design, &timing), unmet))
}

#[test]
fn totals_of_a_design(rt: HostRuntime) -> Result<(), Fail> {
    let (leaks, over, unmet) = totals(rt.alloc(), 16_000_000, 2_000_003)?;
    let setup = Violation {
        limit: Limit::Setup(0),
        held: Micro(16_000_000),
        bound: Micro(15_000_000),
    };
    let slew = Violation {
        limit: Limit::Slew(NetId(0)),
        held: Micro(2_000_003),
        bound: Micro(2_000_000),
    };
    assert_eq!(rt; leaks, Micro(0));
    assert_eq!(rt; over, 1_000_003);
    assert_eq!(rt; unmet.as_slice(), [setup, slew].as_slice());
    Ok(())
}
