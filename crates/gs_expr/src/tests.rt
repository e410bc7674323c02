//! Worked expressions, with tables and places by hand.

use super::*;
use gs_text::Name;
use std::alloc::{AllocError, Global};
use std::test::Fail;

/// Names of these texts.
fn names_of(alloc: Global, texts: &[&[u8]]) -> Result<Vec<Name>, AllocError> {
    let mut names = Vec::new(alloc);
    for text in texts {
        names.push(Name::copy_of(alloc, text)?)?;
    }
    Ok(names)
}

/// The table of a text, which isn't long, over names of these texts.
fn table(alloc: Global, text: &[u8], texts: &[&[u8]]) -> Result<u64, ExprErr> {
    if text.len() > 100_000 {
        return Err(ExprErr::Mem);
    }
    match names_of(alloc, texts) {
        Ok(names) => truth(alloc, text, names.as_slice()),
        Err(_) => Err(ExprErr::Mem),
    }
}

#[test]
fn two_names(rt: HostRuntime) {
    let names = [b"a".as_slice(), b"b".as_slice()];
    for (text, wanted) in [
        (b"!(a*b)".as_slice(), 7),
        (b"a ^ b".as_slice(), 6),
        (b"a&b".as_slice(), 8),
        (b"a|b".as_slice(), 14),
        (b"a+b'".as_slice(), 11),
        (b"(a+b)'".as_slice(), 1),
        (b"!a ^ b".as_slice(), 9),
        (b"a!b".as_slice(), 2),
        (b"\ta\n\r\x0cb ".as_slice(), 8),
        (b"0".as_slice(), 0),
        (b"1".as_slice(), 15),
        (b"1a".as_slice(), 10),
        (b"01".as_slice(), 0),
        (b"b''".as_slice(), 12),
        (b"!!b".as_slice(), 12),
        (b"!b'".as_slice(), 12),
    ] {
        assert_eq!(rt; table(rt.alloc(), text, names.as_slice()), Ok(wanted));
    }
}

#[test]
fn levels_of_binding(rt: HostRuntime) {
    let names = [b"a".as_slice(), b"b".as_slice(), b"c".as_slice()];
    for (text, wanted) in [
        (b"a b ^ c".as_slice(), 40),
        (b"a ^ b * c".as_slice(), 96),
        (b"a + b c".as_slice(), 234),
        (b"a & b | c".as_slice(), 248),
        (b"a ^ b ^ c".as_slice(), 150),
        (b"a (b + c)".as_slice(), 168),
        (b"!a b + c'".as_slice(), 79),
        (b"a ^ b + c".as_slice(), 246),
    ] {
        assert_eq!(rt; table(rt.alloc(), text, names.as_slice()), Ok(wanted));
    }
}

#[test]
fn refusals_at_their_bytes(rt: HostRuntime) {
    let names = [b"a".as_slice(), b"b".as_slice()];
    for (text, wanted) in [
        (b"a +".as_slice(), ExprErr::Syntax { at: 3 }),
        (b"".as_slice(), ExprErr::Syntax { at: 0 }),
        (b" \n".as_slice(), ExprErr::Syntax { at: 2 }),
        (b"a  )".as_slice(), ExprErr::Syntax { at: 3 }),
        (b"(a".as_slice(), ExprErr::Syntax { at: 2 }),
        (b"* a".as_slice(), ExprErr::Syntax { at: 0 }),
        (b"a + * b".as_slice(), ExprErr::Syntax { at: 4 }),
        (b"a $ b".as_slice(), ExprErr::Syntax { at: 2 }),
        (b"(  )".as_slice(), ExprErr::Syntax { at: 3 }),
        (b"'a".as_slice(), ExprErr::Syntax { at: 0 }),
        (b"[a]".as_slice(), ExprErr::Syntax { at: 0 }),
        (b"d !".as_slice(), ExprErr::Syntax { at: 3 }),
        (b"a*d".as_slice(), ExprErr::UnknownPin { at: 2 }),
        (b"a + A b_ d".as_slice(), ExprErr::UnknownPin { at: 4 }),
        (b"a[0]".as_slice(), ExprErr::UnknownPin { at: 0 }),
    ] {
        assert_eq!(rt; table(rt.alloc(), text, names.as_slice()), Err(wanted));
    }
}

#[test]
fn the_number_of_names(rt: HostRuntime) {
    let alloc = rt.alloc();
    let one = [b"_x[1]".as_slice()];
    assert_eq!(rt; table(alloc, b"_x[1]'", one.as_slice()), Ok(1));
    assert_eq!(rt; table(alloc, b"!1'", [].as_slice()), Ok(1));
    let equal = [b"a".as_slice(), b"b".as_slice(), b"a".as_slice()];
    assert_eq!(rt; table(alloc, b"a", equal.as_slice()), Ok(170));
    let six = [
        b"a".as_slice(),
        b"b".as_slice(),
        b"c".as_slice(),
        b"d".as_slice(),
        b"e".as_slice(),
        b"f".as_slice(),
    ];
    assert_eq!(rt;
        table(alloc, b"a+b+c+d+e+f", six.as_slice()),
        Ok(u64::MAX - 1)
    );
    assert_eq!(rt;
        table(alloc, b"f", six.as_slice()),
        Ok(0xFFFF_FFFF_0000_0000)
    );
    let seven = [
        b"a".as_slice(),
        b"b".as_slice(),
        b"c".as_slice(),
        b"d".as_slice(),
        b"e".as_slice(),
        b"f".as_slice(),
        b"g".as_slice(),
    ];
    assert_eq!(rt; table(alloc, b"a", seven.as_slice()), Err(ExprErr::TooMany));
    assert_eq!(rt; table(alloc, b")", seven.as_slice()), Err(ExprErr::TooMany));
}

/// A text, with one part so many times before it and another so many times after it.
fn around(
    alloc: Global,
    before: (&[u8], usize),
    middle: &[u8],
    after: (&[u8], usize),
) -> Result<Vec<u8>, AllocError> {
    let mut text = Vec::new(alloc);
    for _ in 0..before.1 {
        text.extend_from_slice(before.0)?;
    }
    text.extend_from_slice(middle)?;
    for _ in 0..after.1 {
        text.extend_from_slice(after.0)?;
    }
    Ok(text)
}

/// The table over `a` of a text in parts.
fn table_around(
    alloc: Global,
    before: (&[u8], usize),
    middle: &[u8],
    after: (&[u8], usize),
) -> Result<u64, ExprErr> {
    match around(alloc, before, middle, after) {
        Ok(text) => table(alloc, text.as_slice(), [b"a".as_slice()].as_slice()),
        Err(_) => Err(ExprErr::Mem),
    }
}

#[test]
fn depth_counts_what_is_open(rt: HostRuntime) {
    let alloc = rt.alloc();
    let none = (b"".as_slice(), 0);
    assert_eq!(rt; table_around(alloc, (b"(", 64), b"a", (b")", 64)), Ok(2));
    assert_eq!(rt;
        table_around(alloc, (b"(", 65), b"", none),
        Err(ExprErr::TooDeep { at: 64 })
    );
    assert_eq!(rt;
        table_around(alloc, (b"a(", 65), b"a", (b")", 65)),
        Err(ExprErr::TooDeep { at: 129 })
    );
    assert_eq!(rt;
        table_around(alloc, (b"!(", 65), b"", none),
        Err(ExprErr::TooDeep { at: 129 })
    );
    assert_eq!(rt; table_around(alloc, (b"(a)", 100), b"", none), Ok(2));
    assert_eq!(rt;
        table_around(alloc, none, b")", (b"(", 65)),
        Err(ExprErr::Syntax { at: 0 })
    );
    assert_eq!(rt;
        table_around(alloc, (b"(", 64), b")", none),
        Err(ExprErr::Syntax { at: 64 })
    );
}

#[test]
fn long_chains(rt: HostRuntime) {
    let alloc = rt.alloc();
    let none = (b"".as_slice(), 0);
    assert_eq!(rt; table_around(alloc, (b"!", 10_000), b"a", none), Ok(2));
    assert_eq!(rt; table_around(alloc, (b"!", 10_001), b"a", none), Ok(1));
    assert_eq!(rt; table_around(alloc, none, b"a", (b"'", 10_001)), Ok(1));
    assert_eq!(rt; table_around(alloc, none, b"a", (b"^a", 10_001)), Ok(0));
    assert_eq!(rt; table_around(alloc, none, b"0", (b"+a", 10_001)), Ok(2));
    assert_eq!(rt; table_around(alloc, none, b"1", (b" a", 10_001)), Ok(2));
}
