//! The timing of the mixed design, net by net, as two programs reckoned it that have no code in common with this one.

use crate::linked::design_of;
use crate::mixed::{LIMITS, texts_with};
use gs_design::{Design, Edge, End, EndPlace, InstId, NetId, NetTime, TimeView, Timing};
use gs_quantity::Micro;
use gs_timing::time_all;
use std::alloc::Global;
use std::test::Fail;

/// A net by its number, its name, and its record.
#[derive(Clone, Copy)]
struct Row {
    net: NetId,
    name: &'static [u8],
    time: NetTime,
}

/// An edge by its arrival and its slew.
fn edge(millionths: [i64; 2]) -> Edge {
    let [arrival, slew] = millionths;
    Edge {
        arrival: Micro(arrival),
        slew: Micro(slew),
    }
}

fn bound(millionths: Option<i64>) -> Option<Micro> {
    match millionths {
        Some(value) => Some(Micro(value)),
        None => None,
    }
}

/// A row of the table: the load with the slew bound, the load bound, and the two edges, in millionths.
fn net_row(
    net: u32,
    name: &'static [u8],
    load_and_slew_bound: [i64; 2],
    load_bound: Option<i64>,
    rise: [i64; 2],
    fall: [i64; 2],
) -> Row {
    let [load, slew_bound] = load_and_slew_bound;
    Row {
        net: NetId(net),
        name,
        time: NetTime {
            load: Micro(load),
            load_bound: bound(load_bound),
            slew_bound: Some(Micro(slew_bound)),
            rise: edge(rise),
            fall: edge(fall),
        },
    }
}

fn rows() -> [Row; 13] {
    [
        net_row(0, b"ck", [1_700_000, 95_000_000], None, [0, 0], [0, 0]),
        net_row(
            1,
            b"a",
            [2_100_000, 95_000_000],
            None,
            [35_470_000, 7_066_667],
            [40_260_000, 13_500_000],
        ),
        net_row(
            2,
            b"b",
            [2_700_000, 95_000_000],
            None,
            [32_500_000, 0],
            [32_500_000, 0],
        ),
        net_row(
            3,
            b"y",
            [5_900_000, 95_000_000],
            Some(15_000_000),
            [164_908_513, 22_030_000],
            [163_613_513, 19_202_500],
        ),
        net_row(
            4,
            b"w",
            [9_500_000, 95_000_000],
            Some(12_000_000),
            [141_244_002, 43_235_971],
            [149_842_234, 32_812_582],
        ),
        net_row(
            5,
            b"n1",
            [7_300_000, 91_000_000],
            Some(24_000_000),
            [63_158_523, 18_859_489],
            [52_225_773, 13_975_470],
        ),
        net_row(
            6,
            b"n2",
            [5_500_000, 95_000_000],
            Some(22_000_000),
            [68_463_273, 15_700_000],
            [78_483_523, 13_325_000],
        ),
        net_row(
            7,
            b"n3",
            [5_300_000, 91_000_000],
            Some(30_000_000),
            [91_173_273, 11_193_333],
            [105_663_523, 13_500_000],
        ),
        net_row(
            8,
            b"n4",
            [2_800_000, 95_000_000],
            Some(15_000_000),
            [134_018_523, 16_760_000],
            [130_818_523, 14_630_000],
        ),
        net_row(
            9,
            b"n5",
            [8_300_000, 95_000_000],
            Some(11_000_000),
            [123_103_513, 41_299_583],
            [104_948_273, 30_580_000],
        ),
        net_row(
            10,
            b"n6",
            [4_300_000, 91_000_000],
            Some(50_000_000),
            [115_458_273, 7_940_000],
            [131_468_513, 6_295_000],
        ),
        net_row(
            11,
            b"n7",
            [1_100_000, 82_500_000],
            Some(24_000_000),
            [115_323_637, 6_251_648],
            [98_628_717, 4_719_417],
        ),
        net_row(
            12,
            b"q",
            [6_500_000, 91_000_000],
            Some(25_000_000),
            [41_450_000, 16_150_000],
            [42_175_000, 14_825_000],
        ),
    ]
}

fn mixed_design(alloc: Global) -> Result<Design, Fail> {
    design_of(alloc, &texts_with(LIMITS))
}

/// Whether the net of a row has its name and its record.
fn stands(design: &Design, timing: &Timing, row: &Row) -> bool {
    row.net.index() < design.nets.len()
        && row.net.index() < timing.len()
        && design.nets.name(row.net).is(row.name)
        && timing.at(row.net) == row.time
}

#[test]
fn each_net_of_the_mixed_design(rt: HostRuntime) -> Result<(), Fail> {
    let design = mixed_design(rt.alloc())?;
    let sizes = design.netlist_sizes(rt.alloc())?;
    let timing = time_all(rt.alloc(), &design, &sizes)?;
    assert_eq!(rt; sizes.as_slice(), [1, 1, 0, 0, 0, 0, 2, 0, 1, 0].as_slice());
    assert_eq!(rt; timing.len(), 13);
    let table = rows();
    for row in &table {
        assert!(rt; stands(&design, &timing, row), "net {}", row.net.number());
    }
    Ok(())
}

/// An endpoint at an output port.
fn output(net: u32, bound: i64) -> End {
    End {
        place: EndPlace::Output,
        net: NetId(net),
        bound: Micro(bound),
    }
}

#[test]
fn each_endpoint_of_the_mixed_design(rt: HostRuntime) -> Result<(), Fail> {
    let design = mixed_design(rt.alloc())?;
    let data_pin = End {
        place: EndPlace::Pin {
            inst: InstId(4),
            pin: 1,
        },
        net: NetId(8),
        bound: Micro(215_000_000),
    };
    let ends = [output(3, 175_000_000), output(4, 150_000_000), data_pin];
    assert_eq!(rt; design.ends.as_slice(), ends.as_slice());
    Ok(())
}
