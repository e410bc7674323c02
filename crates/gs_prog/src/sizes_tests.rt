//! Texts of sizes over the mixed design, and over one without instances: what each is read as, or why it is refused.

use crate::linked::{Texts, design_of};
use crate::mixed::{LIMITS, texts_with};
use gs_design::{Design, Sizes};
use gs_sizes::{SizesErr, read_sizes, write_sizes};
use itoa::Buffer;
use std::alloc::{AllocError, Global};
use std::test::Fail;

const LIMIT: usize = 1 << 16;

/// A clock alone.
const CLOCK: &str = "create_clock -period 1";

fn mixed_design(alloc: Global) -> Result<Design, Fail> {
    design_of(alloc, &texts_with(LIMITS))
}

/// A design without instances.
fn empty_design(alloc: Global) -> Result<Design, Fail> {
    let texts = Texts {
        verilog: b"module e (a); input a; endmodule",
        spef: b"",
        ..texts_with(CLOCK)
    };
    design_of(alloc, &texts)
}

/// A word and a number after it.
fn numbered(alloc: Global, word: &[u8], number: u32) -> Result<Vec<u8>, AllocError> {
    let mut digits = Buffer::new();
    let mut text = Vec::from_slice(alloc, word)?;
    text.push(b' ')?;
    text.extend_from_slice(digits.format(number).as_bytes())?;
    Ok(text)
}

/// A refusal as words.
fn refusal_text(alloc: Global, error: &SizesErr) -> Result<Vec<u8>, AllocError> {
    match error {
        SizesErr::BadLine { i } => numbered(alloc, b"badline", *i),
        SizesErr::Unknown { i } => numbered(alloc, b"unknown", *i),
        SizesErr::Twice { i } => numbered(alloc, b"twice", *i),
        SizesErr::WrongCell { i } => numbered(alloc, b"wrongcell", *i),
        SizesErr::Absent { name, i } => numbered(alloc, name.as_bytes(), *i),
        SizesErr::Mem => Vec::from_slice(alloc, b"memory"),
    }
}

/// The places of sizes, a digit each, behind a colon.
fn places_text(alloc: Global, sizes: &Sizes) -> Result<Vec<u8>, AllocError> {
    let mut text = Vec::from_slice(alloc, b":")?;
    for place in sizes.as_slice() {
        let mut digits = Buffer::new();
        text.extend_from_slice(digits.format(*place).as_bytes())?;
    }
    Ok(text)
}

/// What a text is read as.
fn read_as(alloc: Global, design: &Design, text: &[u8]) -> Result<Vec<u8>, Fail> {
    if text.len() > LIMIT {
        return Err(Fail::new("a text of tests is short"));
    }
    match read_sizes(alloc, design, text) {
        Ok(sizes) => Ok(places_text(alloc, &sizes)?),
        Err(error) => Ok(refusal_text(alloc, &error)?),
    }
}

#[test]
fn texts_over_the_mixed_design(rt: HostRuntime) -> Result<(), Fail> {
    let rows: [(&[u8], &[u8]); 34] = [
        // In the order of instances, and in another one.
        (
            b"u1 INV_M\nu2 NAND_L\nu3 BUF_M\nu4 XOR_M\nr1 DFF_M\nu5 NAND_S\nu6 INV_L\nu7 XOR_M\nu8 INV_M\nu9 INV_S\n",
            b":1100002010",
        ),
        (
            b"\r\nu9\tINV_L\r\n \tu8  INV_S\t \r\n\nu7 XOR_M\n\t\nu6 INV_M\nu5 NAND_L\nr1 DFF_M\nu4 XOR_M\nu3 BUF_M\nu2 NAND_S\n \r\nu1 INV_S",
            b":0000011002",
        ),
        // Lines without two words.
        (b"u1", b"badline 1"),
        (b"u1\n", b"badline 1"),
        (b"u1 \t\r\n", b"badline 1"),
        (b"u1 INV_S u2 NAND_S\n", b"badline 1"),
        (b"u1 INV_S x\n", b"badline 1"),
        // Only a space and a tab part words, and one return at the end is passed over.
        (b"u1\rINV_S\n", b"badline 1"),
        (b"u1\x0cINV_S\n", b"badline 1"),
        (b"\r\r\n", b"badline 1"),
        (b"u1 INV_S \r\r\n", b"badline 1"),
        (b"u1 INV_S\r\r\n", b"wrongcell 1"),
        // Names of no instance.
        (b"u0 INV_S\n", b"unknown 1"),
        (b"U1 INV_S\n", b"unknown 1"),
        (b"u10 INV_S\n", b"unknown 1"),
        (b"mixed INV_S\n", b"unknown 1"),
        (b"n1 INV_S\n", b"unknown 1"),
        (b"u1 INV_S\n\nu0 INV_S\n", b"unknown 3"),
        // An instance named twice.
        (b"u1 INV_S\nu1 INV_S\n", b"twice 2"),
        (b"u1 INV_S\nu2 NAND_S\nu1 INV_M", b"twice 3"),
        // A cell of another class, or of none.
        (b"u1 BUF_M\n", b"wrongcell 1"),
        (b"u2 INV_S\n", b"wrongcell 1"),
        (b"u3 INV_M\n", b"wrongcell 1"),
        (b"r1 XOR_M\n", b"wrongcell 1"),
        (b"u4 DFF_M\n", b"wrongcell 1"),
        (b"u1 INV\n", b"wrongcell 1"),
        (b"u1 inv_s\n", b"wrongcell 1"),
        // The order of refusals on one line.
        (b"u0 INV_S x\n", b"badline 1"),
        (b"u0 NONE\n", b"unknown 1"),
        (b"u1 INV_S\nu1 BUF_M\n", b"twice 2"),
        // The first line at fault decides, also before an instance that isn't named.
        (b"u1 INV_S\nu1\nu1 INV_S\n", b"badline 2"),
        // The first instance that isn't named, and the number of lines.
        (b"u2 NAND_S\nu1 INV_S\n\n", b"u3 3"),
        (
            b"u1 INV_S\nu2 NAND_S\nu3 BUF_M\nu4 XOR_M\nu5 NAND_S\nu6 INV_S\nu7 XOR_M\nu8 INV_S",
            b"r1 8",
        ),
        (b"", b"u1 0"),
    ];
    let design = mixed_design(rt.alloc())?;
    for (text, want) in rows {
        assert_eq!(rt; read_as(rt.alloc(), &design, text)?.as_slice(), want);
    }
    Ok(())
}

#[test]
fn texts_over_no_instances(rt: HostRuntime) -> Result<(), Fail> {
    let rows: [(&[u8], &[u8]); 4] = [
        (b"", b":"),
        (b"\n \r\n\t", b":"),
        (b"a", b"badline 1"),
        (b"\na INV_S\n", b"unknown 2"),
    ];
    let design = empty_design(rt.alloc())?;
    for (text, want) in rows {
        assert_eq!(rt; read_as(rt.alloc(), &design, text)?.as_slice(), want);
    }
    Ok(())
}

#[test]
fn the_sizes_of_the_netlist_as_a_text(rt: HostRuntime) -> Result<(), Fail> {
    let design = mixed_design(rt.alloc())?;
    let sizes = design.netlist_sizes(rt.alloc())?;
    let text = write_sizes(rt.alloc(), &design, &sizes)?;
    let want =
        b"u1 INV_M\nu2 NAND_L\nu3 BUF_M\nu4 XOR_M\nr1 DFF_M\nu5 NAND_S\nu6 INV_L\nu7 XOR_M\nu8 INV_M\nu9 INV_S\n";
    assert!(rt; text.as_slice() == want.as_slice());
    Ok(())
}
