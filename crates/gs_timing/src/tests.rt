//! Tests.
#![tactic(auto)]

ghost use Rattle.std.specs.Prelude.{◌≡◌, ◌<◌, [], ◌∷◌, IfOk, None, length, pos};
ghost use Rattle.gs_design.specs.Nets.{Net};
ghost use Rattle.gs_design.specs.declared.sink.Driver.TheVariants.{Port};

use crate::eval::eval_net;
use crate::whole::time_all;
use gs_design::{
    Design, Driver, Edge, End, EndPlace, Insts, NetId, NetRow, NetTime, Nets, Parts, Sizes,
};
use gs_list::{Grouped, Rows};
use gs_quantity::{Micro, Steps};
use gs_text::Name;
use std::alloc::Global;
use std::marker::Brand;
use std::sync::ledger::{Blank, Ledger};
use std::test::Fail;

// The one net, z, of a design without instances: an input port that is an output port too, with a wire of 2 fF, a load of 3.5 fF and a delay
// of 7 ps.
fn the_net(alloc: Global) -> Result<Nets, Fail>
    ensures { IfOk result (λ n. n ≡ record { name = 122 ∷ []; wire = pos 2000000; port_load = pos 3500000; driver = Port (pos 7000000) None; sinks = [] } ∷ []) }
{
    let row = NetRow {
        wire: Micro(2_000_000),
        port_load: Micro(3_500_000),
        driver: Driver::Port {
            delay: Micro(7_000_000),
            cell: None,
        },
    };
    let mut rows = Rows::empty(alloc);
    rows.push(row)?;
    let mut sinks = Grouped::empty(alloc)?;
    sinks.push(&[])?;
    let mut names = Rows::empty(alloc);
    names.push(Name::copy_of(alloc, b"z")?)?;
    Ok(Nets::new(rows, sinks, names))
}

// No instances.
fn the_insts(alloc: Global) -> Result<Insts, Fail>
    ensures { IfOk result (λ i. i ≡ []) }
{
    let inputs = Grouped::empty(alloc)?;
    Ok(Insts::new(
        Rows::empty(alloc),
        Rows::empty(alloc),
        inputs,
        Rows::empty(alloc),
    ))
}

// The design of that net, with a port at which it has to arrive by 15 ps.
fn wire(alloc: Global) -> Result<Design, Fail>
    ensures insts { IfOk result (λ d. length d.insts ≡ 0) }
    ensures nets { IfOk result (λ d. d.nets ≡ record { name = 122 ∷ []; wire = pos 2000000; port_load = pos 3500000; driver = Port (pos 7000000) None; sinks = [] } ∷ []) }
{
    let nets = the_net(alloc)?;
    let end = End {
        place: EndPlace::Output,
        net: NetId(0),
        bound: Micro(15_000_000),
    };
    let mut ends = Rows::empty(alloc);
    ends.push(end)?;
    let mut order = Rows::empty(alloc);
    order.push(NetId(0))?;
    let mut ranks = Rows::empty(alloc);
    ranks.push(0)?;
    let design = Design::new(
        alloc,
        Parts {
            cells: Rows::empty(alloc),
            slew_default: None,
            leak_unit: Name::copy_of(alloc, b"1uW")?,
            insts: the_insts(alloc)?,
            nets,
            ends,
            order,
            ranks,
            period: Micro(100_000_000),
            area_bound: None,
        },
    )?;
    Ok(design)
}

// The record of that net by one step of a counter of its own, beside the whole timing.
fn evaluated<L: Ledger>(alloc: Global, blank: Blank) -> Result<(NetTime, Vec<NetTime>), Fail>
    requires name { blank.name ≡ L.name }
    requires parts { blank.parts ≡ L.parts }
    requires some { 0 < blank.parts }
{
    let design = wire(alloc)?;
    let sizes = Sizes::from_vec(Vec::new(alloc));
    let times = time_all(alloc, &design, &sizes)?;
    let mut steps = Steps::<L>::begin(blank);
    let time = eval_net(&design, &sizes, &times, NetId(0), &mut steps);
    Ok((time, times.into_vec()))
}

fn the_edge() -> Edge {
    Edge {
        arrival: Micro(7_000_000),
        slew: Micro(0),
    }
}

#[test]
fn a_port_makes_its_edges(rt: HostRuntime) -> Result<(), Fail> {
    let want = NetTime {
        load: Micro(5_500_000),
        load_bound: None,
        slew_bound: None,
        rise: the_edge(),
        fall: the_edge(),
    };
    let (time, times) = evaluated::<Brand>(rt.alloc(), Blank::new(1))?;
    assert_eq!(rt; time, want);
    assert_eq!(rt; times.as_slice(), [want].as_slice());
    Ok(())
}
