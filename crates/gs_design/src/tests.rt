//! Tests.

use super::*;
use gs_quantity::Micro;
use std::test::Fail;

#[test]
fn a_copy_of_sizes_is_apart(rt: HostRuntime) -> Result<(), Fail> {
    let mut sizes = Sizes::from_vec(vec![in rt.alloc(); 2, 0, 1]?);
    let copy = sizes.copy(rt.alloc())?;
    assert_eq!(rt; sizes.len(), 3);
    if sizes.len() == 3 && copy.len() == 3 {
        sizes.set(InstId(1), 3);
        assert_eq!(rt; sizes.place(InstId(1)), 3);
        assert_eq!(rt; copy.place(InstId(1)), 0);
    }
    assert_eq!(rt; sizes.into_vec().as_slice(), [2, 3, 1].as_slice());
    assert_eq!(rt; copy.as_slice(), [2, 0, 1].as_slice());
    Ok(())
}

fn edge() -> Edge {
    Edge {
        arrival: Micro(5),
        slew: Micro(2),
    }
}

fn record(load: i64) -> NetTime {
    NetTime {
        load: Micro(load),
        load_bound: None,
        slew_bound: Some(Micro(100)),
        rise: edge(),
        fall: edge(),
    }
}

#[test]
fn a_copy_of_a_timing_is_apart(rt: HostRuntime) -> Result<(), Fail> {
    let mut timing = Timing::from_vec(vec![in rt.alloc(); record(1), record(2)]?);
    let copy = timing.copy(rt.alloc())?;
    assert_eq!(rt; timing.len(), 2);
    if timing.len() == 2 && copy.len() == 2 {
        timing.set(NetId(0), record(7));
        assert_eq!(rt; timing.at(NetId(0)), record(7));
        assert_eq!(rt; copy.at(NetId(0)), record(1));
    }
    assert_eq!(rt;
        timing.into_vec().as_slice(),
        [record(7), record(2)].as_slice()
    );
    assert_eq!(rt; copy.as_slice(), [record(1), record(2)].as_slice());
    Ok(())
}
