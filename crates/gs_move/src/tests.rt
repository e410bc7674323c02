//! Tests.
#![tactic(auto)]

ghost use Rattle.std.specs.Prelude.{◌≡◌, ◌<◌, IfOk, length};
ghost use Rattle.gs_move.specs.Delta.{AreRecordsFor};

use crate::change::Change;
use crate::delta::{Delta, install};
use crate::judge::Judge;
use crate::outcome::{Outcome, Why};
use crate::recovery::Recovery;
use gs_design::{Edge, InstId, Limit, NetAt, NetId, NetTime, Sizes, Timing};
use gs_list::Rows;
use gs_quantity::Micro;
use std::alloc::Global;
use std::test::Fail;

// A change without excess.
fn change(leak_old: i64, leak_new: i64, broken: Option<Limit>) -> Change {
    Change {
        leak_old: Micro(leak_old),
        leak_new: Micro(leak_new),
        broken,
        over_old: 0,
        over_new: 0,
    }
}

fn judged(leak_old: i64, leak_new: i64, broken: Option<Limit>) -> Outcome {
    let change = change(leak_old, leak_new, broken);
    Recovery.judge(&change)
}

fn load() -> Limit {
    Limit::Load(NetId(3))
}

fn no_gain() -> Outcome {
    Outcome::NotFair(Why::NoGain)
}

#[test]
fn recovery_wants_less_leakage_and_no_broken_limit(rt: HostRuntime) -> Result<(), Fail> {
    assert_eq!(rt; judged(5, 4, None), Outcome::Fair);
    assert_eq!(rt;
        judged(5, 4, Some(load())),
        Outcome::NotFair(Why::Breaks(load()))
    );
    assert_eq!(rt; judged(5, 5, None), no_gain());
    assert_eq!(rt; judged(5, 6, Some(load())), no_gain());
    assert_eq!(rt; Recovery.glance(Micro(5), Micro(4)), None);
    assert_eq!(rt; Recovery.glance(Micro(5), Micro(5)), Some(Why::NoGain));
    assert_eq!(rt; Recovery.glance(Micro(5), Micro(6)), Some(Why::NoGain));
    Ok(())
}

#[test]
fn recovery_measures_leakage(rt: HostRuntime) -> Result<(), Fail> {
    let change = change(-5, 4, None);
    assert_eq!(rt; Recovery.before(&change), -5);
    assert_eq!(rt; Recovery.after(&change), 4);
    Ok(())
}

fn edge() -> Edge {
    Edge {
        arrival: Micro(5),
        slew: Micro(2),
    }
}

fn record(load: i64) -> NetTime {
    NetTime {
        load: Micro(load),
        load_bound: None,
        slew_bound: Some(Micro(100)),
        rise: edge(),
        fall: edge(),
    }
}

// Instance 2 takes place 3, and net 1 has another load.
fn delta(alloc: Global) -> Result<Delta, Fail>
    ensures inst { IfOk result (λ d. d.inst < 3) }
    ensures nets { IfOk result (λ d. AreRecordsFor 2 d.nets) }
{
    let changed = NetAt {
        net: NetId(1),
        time: record(7),
    };
    Ok(Delta {
        inst: InstId(2),
        place: 3,
        nets: Rows::from_vec(vec![in alloc; changed]?),
    })
}

fn sizes(alloc: Global) -> Result<Sizes, Fail>
    ensures { IfOk result (λ s. length s ≡ 3) }
{
    Ok(Sizes::from_vec(vec![in alloc; 2, 0, 1]?))
}

fn timing(alloc: Global) -> Result<Timing, Fail>
    ensures { IfOk result (λ t. length t ≡ 2) }
{
    Ok(Timing::from_vec(vec![in alloc; record(1), record(2)]?))
}

#[test]
fn a_delta_is_installed(rt: HostRuntime) -> Result<(), Fail> {
    let mut sizes = sizes(rt.alloc())?;
    let mut timing = timing(rt.alloc())?;
    let delta = delta(rt.alloc())?;
    install(&mut sizes, &mut timing, &delta);
    assert_eq!(rt; sizes.as_slice(), [2, 0, 3].as_slice());
    assert_eq!(rt; timing.as_slice(), [record(1), record(7)].as_slice());
    Ok(())
}

#[test]
fn a_copy_of_a_delta_is_equal(rt: HostRuntime) -> Result<(), Fail> {
    let delta = delta(rt.alloc())?;
    let copy = delta.copy(rt.alloc())?;
    assert_eq!(rt; copy.inst, delta.inst);
    assert_eq!(rt; copy.place, delta.place);
    assert_eq!(rt; copy.nets.as_slice(), delta.nets.as_slice());
    Ok(())
}
