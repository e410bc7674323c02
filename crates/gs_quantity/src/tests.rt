// Worked numbers, and each call once with ample memory.
ghost use Rattle.std.specs.Prelude.{◌≡◌, ◌<◌};

use super::*;
use std::alloc::{AllocError, Global};
use std::marker::Brand;
use std::mem;
use std::sync::ledger::{Blank, Ledger};
use std::test::Fail;

fn read(text: &str) -> Result<Micro, NumErr> {
    read_decimal(text.as_bytes(), 0)
}

#[test]
fn worked_decimals(rt: HostRuntime) {
    assert_eq!(rt; read("0.123456789"), Ok(Micro(123457)));
    assert_eq!(rt; read("0.000000500"), Ok(Micro(1)));
    assert_eq!(rt; read("-0.000000500"), Ok(Micro(-1)));
    assert_eq!(rt; read("2.5E-6"), Ok(Micro(3)));
    assert_eq!(rt; read("1.25e-6"), Ok(Micro(1)));
    assert_eq!(rt; read("0.00000049999999"), Ok(Micro(0)));
    assert_eq!(rt; read("1099511.6277754"), Ok(Micro(1099511627775)));
    assert_eq!(rt; read("1099511.6277755"), Err(NumErr::OutOfRange));
    assert_eq!(rt; read("1e999999"), Err(NumErr::OutOfRange));
    assert_eq!(rt; read("0e999999"), Ok(Micro(0)));
    assert_eq!(rt; read("."), Err(NumErr::NotNumber));
    assert_eq!(rt; read_decimal(b"0.0123456789", 3), Ok(Micro(12345679)));
}

#[test]
fn forms_of_decimals(rt: HostRuntime) {
    assert_eq!(rt; read("7"), Ok(Micro(7_000_000)));
    assert_eq!(rt; read("+7."), Ok(Micro(7_000_000)));
    assert_eq!(rt; read("-.5"), Ok(Micro(-500_000)));
    assert_eq!(rt; read("00012e+0002"), Ok(Micro(1_200_000_000)));
    assert_eq!(rt;
        read("1200000000e-00000000000000000000000004"),
        Ok(Micro(120_000_000_000))
    );
    assert_eq!(rt;
        read("1e-99999999999999999999999999999999999999"),
        Ok(Micro(0))
    );
    assert_eq!(rt;
        read("-1e99999999999999999999999999999999999999"),
        Err(NumErr::OutOfRange)
    );
    assert_eq!(rt;
        read("0e99999999999999999999999999999999999999"),
        Ok(Micro(0))
    );
}

#[test]
fn no_decimals(rt: HostRuntime) {
    for text in [
        "", "+", "-", "e5", ".e5", "1e", "1e+", "1.2.3", "1 ", " 1", "--1", "1e5.", "1e5 ", "0x1",
        "1,5", "nan",
    ] {
        assert_eq!(rt; read(text), Err(NumErr::NotNumber));
    }
}

#[test]
fn printed(rt: HostRuntime) -> Result<(), Fail> {
    let mut out = Vec::new(rt.alloc());
    out.push(b'x')?;
    for micro in [0, 1, -1, 1_000_000, -9_000_000, 123_456_789, i64::MIN] {
        let done = print_micro(rt.alloc(), Micro(micro), &mut out);
        assert_eq!(rt; done, Ok(()));
        out.push(b' ')?;
    }
    assert_eq!(rt;
        out.as_slice(),
        b"x0.000000 0.000001 -0.000001 1.000000 -9.000000 123.456789 -9223372036854.775808 ".as_slice()
    );
    Ok(())
}

fn list(alloc: Global, items: &[i64]) -> Result<Vec<Micro>, AllocError> {
    let mut out = Vec::new(alloc);
    for item in items {
        out.push(Micro(*item))?;
    }
    Ok(out)
}

fn table(alloc: Global, xs: &[i64], ys: &[i64], zs: &[i64]) -> Result<Table, Fail> {
    Ok(Table::new(list(alloc, xs)?, list(alloc, ys)?, list(alloc, zs)?)?)
}

fn refusal(alloc: Global, xs: &[i64], ys: &[i64], zs: &[i64]) -> Result<Option<TableErr>, Fail> {
    Ok(Table::new(list(alloc, xs)?, list(alloc, ys)?, list(alloc, zs)?).err())
}

#[test]
fn worked_lookups(rt: HostRuntime) -> Result<(), Fail> {
    let square = table(rt.alloc(), &[0, 10], &[0, 20], &[1, 3, 5, 11])?;
    assert_eq!(rt; square.look(Micro(5), Micro(5), true), Micro(4));
    assert_eq!(rt; square.look(Micro(20), Micro(20), true), Micro(19));
    assert_eq!(rt; square.look(Micro(20), Micro(30), true), Micro(24));
    let rising = table(rt.alloc(), &[0, 2], &[0], &[0, 1])?;
    assert_eq!(rt; rising.look(Micro(1), Micro(7), true), Micro(1));
    let falling = table(rt.alloc(), &[0, 2], &[0], &[0, -1])?;
    assert_eq!(rt; falling.look(Micro(1), Micro(7), true), Micro(0));
    assert_eq!(rt; falling.look(Micro(20), Micro(7), true), Micro(-10));
    assert_eq!(rt; falling.look(Micro(20), Micro(7), false), Micro(0));
    let single = table(rt.alloc(), &[0], &[0], &[7])?;
    for query in [i64::MIN, -1, 0, 1, 1 << 36, i64::MAX] {
        assert_eq!(rt; single.look(Micro(query), Micro(query), true), Micro(7));
    }
    Ok(())
}

#[test]
fn wide_lookups(rt: HostRuntime) -> Result<(), Fail> {
    // 2^33 + 1 at 0 and 2^33 + 3 at 2^33: beside the point halfway, 2^33 + 2; far beyond, 2^33 + 1 + 2^36 / 2^32.
    let wide = table(
        rt.alloc(),
        &[0, 1 << 33],
        &[0, 1 << 33],
        &[8589934593, 8589934595, 8589934593, 8589934595],
    )?;
    assert_eq!(rt;
        wide.look(Micro(77), Micro(1 << 32), true),
        Micro(8589934594)
    );
    assert_eq!(rt;
        wide.look(Micro(i64::MAX), Micro(i64::MAX), true),
        Micro(8589934609)
    );
    Ok(())
}

#[test]
fn refused_tables(rt: HostRuntime) -> Result<(), Fail> {
    let far = 1 << 34;
    assert_eq!(rt; refusal(rt.alloc(), &[], &[0], &[])?, Some(TableErr::Shape));
    assert_eq!(rt;
        refusal(rt.alloc(), &[0, 0], &[far], &[1])?,
        Some(TableErr::Shape)
    );
    assert_eq!(rt;
        refusal(rt.alloc(), &[0, 0], &[0], &[1, 2])?,
        Some(TableErr::NotRising { i: 1 })
    );
    assert_eq!(rt;
        refusal(rt.alloc(), &[0, far], &[3, 2], &[1, 2, 3, 4])?,
        Some(TableErr::NotRising { i: 3 })
    );
    assert_eq!(rt;
        refusal(rt.alloc(), &[-far, 0], &[far], &[1, 2])?,
        Some(TableErr::TooWide { i: 0 })
    );
    assert_eq!(rt;
        refusal(rt.alloc(), &[0, far - 1], &[1], &[1, -far])?,
        Some(TableErr::TooWide { i: 4 })
    );
    Ok(())
}

// That a counter stands at a number, which its caller proves.
fn stands_at<L: Ledger>(_steps: &Steps<L>, _count: u64)
    requires { _steps.now ≡ _count }
{}

// Counts so far, and answers how many bytes the counter holds.
fn count_to<L: Ledger>(blank: Blank, count: u64) -> usize
    requires name { blank.name ≡ L.name }
    requires parts { blank.parts ≡ L.parts }
    requires some { 0 < blank.parts }
{
    let mut steps = Steps::<L>::begin(blank);
    for _step in 0..count {
        steps.tick();
    }
    stands_at(&steps, count);
    mem::size_of::<Steps<L>>()
}

#[test]
fn a_counter_holds_no_bytes(rt: HostRuntime) {
    assert_eq!(rt; count_to::<Brand>(Blank::new(1), 3), 0);
}
