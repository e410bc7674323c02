//! Worked texts and refusals.

use crate::{SpefErr, Wires, read_spef};
use gs_quantity::print_micro;
use std::alloc::{AllocError, Global};
use std::test::Fail;

/// Reads a text, unless it is longer than the tests' longest.
fn read_bytes(alloc: Global, bytes: &[u8]) -> Result<Wires, SpefErr> {
    if bytes.len() > 20_000_000 {
        return Err(SpefErr::Mem);
    }
    read_spef(alloc, bytes)
}

fn read(alloc: Global, text: &str) -> Result<Wires, SpefErr> {
    read_bytes(alloc, text.as_bytes())
}

/// A text of one net with a name of so many bytes, on a line with so many words more.
fn wide(alloc: Global, name: usize, words: usize) -> Result<Vec<u8>, AllocError> {
    let mut text = Vec::new(alloc);
    text.extend_from_slice(b"*D_NET ")?;
    for _ in 0..name {
        text.push(b'n')?;
    }
    text.extend_from_slice(b" 1")?;
    for _ in 0..words {
        text.extend_from_slice(b" x")?;
    }
    text.extend_from_slice(b"\n*END\n")?;
    Ok(text)
}

/// Wires as text: each net, and its total in femtofarads.
fn shown(alloc: Global, wires: &Wires) -> Option<Vec<u8>> {
    let mut out = Vec::new(alloc);
    for wire in wires.as_slice() {
        out.extend_from_slice(wire.net.as_bytes()).ok()?;
        out.push(b' ').ok()?;
        print_micro(alloc, wire.total, &mut out).ok()?;
        out.push(b' ').ok()?;
    }
    Some(out)
}

#[test]
fn reads_worked_texts(rt: HostRuntime) {
    for (text, want) in [
        ("", ""),
        ("\n\r\n", ""),
        ("*NAME_MAP\n*1 n1\n*D_NET *1 2.5\n*END\n", "n1 2.500000 "),
        ("*C_UNIT 1 FF\n*D_NET n1 1\n*RES\n*END", "n1 1.000000 "),
        (
            "*D_NET a 1 2 x\r\n*CONN\r\n*I g:a I\r\n*CAP\r\n1 a 1\r\n*END\r\n",
            "a 1.000000 ",
        ),
        (
            "*SPEF \"IEEE 1481-1999\" // a comment\n// *END\n*DESIGN x",
            "",
        ),
        // The unit of a block is that of the last line before it which sets one.
        (
            "*C_UNIT 10 fF\n*D_NET a 1\n*C_UNIT 1 PF\n*END\n*C_UNIT 1.0e2 Pf\n*D_NET b 0.5\n*END\n*C_UNIT 1 FF\n*D_NET c -0.0000001\n*END",
            "a 10.000000 b 50000.000000 c 0.000000 ",
        ),
        // An index that is given again takes the new name; names drop their backslashes.
        (
            "*NAME_MAP\n*1 a\n*1 b\\[0\\]\n*01 c\n*D_NET *1 1\n*END\n*D_NET a\\\\b\\ 2\n*END\n*D_NET *01 3\n*END",
            "b[0] 1.000000 a\\b 2.000000 c 3.000000 ",
        ),
        // A star alone and a star before other bytes are names, and a line of three words ends the map.
        (
            "*NAME_MAP\n*2 d\n*1 a b\n*1 c\n*D_NET * 1\n*END\n*D_NET *x 1\n*END\n*D_NET *2 4\n*END",
            "* 1.000000 *x 1.000000 d 4.000000 ",
        ),
        // A blank line and a comment within the map don't end it; a line of the map with one word does.
        (
            "*NAME_MAP\n*1 a\n\n// x\n*2 b\n*3\n*4 c\n*D_NET *2 1\n*END\n*D_NET \\*4 1\n*END",
            "b 1.000000 *4 1.000000 ",
        ),
        // In a block a unit and a map are passed over, and set nothing.
        (
            "*D_NET a 1\n*C_UNIT 1 PF\n*NAME_MAP\n*1 x\n*END\n*D_NET b 1e0\n*END",
            "a 1.000000 b 1.000000 ",
        ),
        // A comment begins only where a word would.
        ("*D_NET n1//x 1 // *END\n*END // x\n", "n1//x 1.000000 "),
        // In a block the first word alone decides.
        (
            "*D_NET n1 1\n*CONN x\n*RES x\n*CAP y\n*NAME_MAP z\n*R_NET\n*END x",
            "n1 1.000000 ",
        ),
    ] {
        let got = match read(rt.alloc(), text) {
            Ok(wires) => shown(rt.alloc(), &wires),
            Err(_) => None,
        };
        let got = got.unwrap_or(Vec::new(rt.alloc()));
        assert!(rt; got.as_slice() == want.as_bytes(), "at {text}");
        assert!(rt; read(rt.alloc(), text).is_ok(), "at {text}");
    }
}

#[test]
fn refuses_at_the_exact_line(rt: HostRuntime) {
    for (text, want) in [
        (
            "*C_UNIT 1 FF\n*D_NET n1 1\n*CONN",
            SpefErr::BadLine { i: 3 },
        ),
        (
            "*C_UNIT 1 FF\n*D_NET n1 1\n*RES\n1 n1:1 n1:2 0.5\n*END\n",
            SpefErr::Distributed { i: 4 },
        ),
        (
            "*NAME_MAP\n*1 n1\n*D_NET *2 2.5\n*END",
            SpefErr::UnknownIndex { i: 3 },
        ),
        (
            "*D_NET *1 1\n*END\n*NAME_MAP\n*1 a",
            SpefErr::UnknownIndex { i: 1 },
        ),
        (
            "*D_NET a 1\n*END\n\n*D_NET a 1\n*END",
            SpefErr::TwoNets { i: 4 },
        ),
        (
            "*NAME_MAP\n*1 a\n*D_NET *1 1\n*END\n*D_NET \\a 1\n*END",
            SpefErr::TwoNets { i: 5 },
        ),
        (
            "*NAME_MAP\n*01 a\n*D_NET *1 1\n*END",
            SpefErr::UnknownIndex { i: 3 },
        ),
        (
            "*NAME_MAP\n*1 a\n*1 b c\n*2 d\n*D_NET *2 1\n*END",
            SpefErr::UnknownIndex { i: 5 },
        ),
        (
            "*NAME_MAP\n*1 a\n*2 a\n*D_NET *1 1\n*END\n*D_NET *2 1\n*END",
            SpefErr::TwoNets { i: 6 },
        ),
        // On one line the unknown index comes first, and the bad total before it.
        ("*D_NET *1 1\n*END\n*END", SpefErr::UnknownIndex { i: 1 }),
        ("*D_NET *1 -1\n*END", SpefErr::BadLine { i: 1 }),
        ("*NAME_MAP x", SpefErr::BadLine { i: 1 }),
        ("\n*C_UNIT 1 FF x", SpefErr::BadLine { i: 2 }),
        ("*C_UNIT 2 FF", SpefErr::BadLine { i: 1 }),
        ("*C_UNIT 1 F", SpefErr::BadLine { i: 1 }),
        ("*R_NET a 1", SpefErr::BadLine { i: 1 }),
        ("*D_PNET a 1", SpefErr::BadLine { i: 1 }),
        ("*R_PNET a 1", SpefErr::BadLine { i: 1 }),
        ("*END", SpefErr::BadLine { i: 1 }),
        ("*NAME_MAP\n*END", SpefErr::BadLine { i: 2 }),
        ("*D_NET a", SpefErr::BadLine { i: 1 }),
        ("*D_NET a -1\n*END", SpefErr::BadLine { i: 1 }),
        ("*D_NET *7 1x\n*END", SpefErr::BadLine { i: 1 }),
        ("*D_NET a 1099511.627776\n*END", SpefErr::BadLine { i: 1 }),
        (
            "*C_UNIT 1 PF\n*D_NET a 1099.511627776\n*END",
            SpefErr::BadLine { i: 2 },
        ),
        ("*D_NET a 1\n*D_NET b 1\n*END", SpefErr::BadLine { i: 2 }),
        (
            "*D_NET a 1\n*RES\n*D_NET b 1\n*END",
            SpefErr::BadLine { i: 3 },
        ),
        // A text that ends in a block is bad at its last line, blank or not, whatever else that says.
        ("*D_NET a 1\n\n \n", SpefErr::BadLine { i: 3 }),
        ("*D_NET *9 1", SpefErr::BadLine { i: 1 }),
        ("*D_NET a 1\n*RES\n1 a b 2", SpefErr::BadLine { i: 3 }),
        ("*D_NET a 1\n*RES\n1 a b 2\n", SpefErr::BadLine { i: 3 }),
        (
            "*D_NET a 1\n*RES\n1 a b 2\n\n",
            SpefErr::Distributed { i: 3 },
        ),
    ] {
        let got = read(rt.alloc(), text).err();
        assert_eq!(rt; got, Some(want), "at {text}");
    }
}

#[test]
fn reads_long_words_and_long_lines(rt: HostRuntime) -> Result<(), Fail> {
    for (name, words) in [(1_000_000, 0), (1, 5_000_000)] {
        let text = wide(rt.alloc(), name, words)?;
        let got = read_bytes(rt.alloc(), text.as_slice());
        let mut names = Vec::new(rt.alloc());
        if let Ok(wires) = &got {
            for wire in wires.as_slice() {
                names.push(wire.net.as_bytes().len())?;
            }
        }
        assert!(rt; names.as_slice() == [name].as_slice());
    }
    Ok(())
}
