//! A large design of short chains: a cone has three nets of 150,000, and a body that times the whole design for each move doesn't end here.

use crate::chain::LIBRARY;
use crate::numbered::add;
use crate::words::size_words;
use gs_shelf::{Bytes, FileList, NeverFails};
use gs_top::run;
use std::alloc::{AllocError, Global};
use std::test::Fail;

/// How many chains there are.
const CHAINS: u32 = 50_000;

/// Adds a text with the number of each chain.
fn add_each(text: &mut Vec<u8>, before: &[u8]) -> Result<(), AllocError> {
    for chain in 0..CHAINS {
        add(text, before, chain)?;
    }
    Ok(())
}

/// Adds the two inverters of a chain.
fn add_chain(text: &mut Vec<u8>, chain: u32) -> Result<(), AllocError> {
    add(text, b"I2 a", chain)?;
    add(text, b" (.a(x", chain)?;
    add(text, b"), .o(n", chain)?;
    add(text, b")); I2 b", chain)?;
    add(text, b" (.a(n", chain)?;
    add(text, b"), .o(z", chain)?;
    text.extend_from_slice(b"));\n")
}

/// The netlist of all chains, after an input that nothing is connected to.
fn netlist(alloc: Global) -> Result<Vec<u8>, AllocError> {
    let mut text = Vec::from_slice(alloc, b"module m (x")?;
    add_each(&mut text, b", x")?;
    add_each(&mut text, b", z")?;
    text.extend_from_slice(b"); input x")?;
    add_each(&mut text, b", x")?;
    text.extend_from_slice(b"; output z0")?;
    for chain in 1..CHAINS {
        add(&mut text, b", z", chain)?;
    }
    text.extend_from_slice(b";\n")?;
    for chain in 0..CHAINS {
        add_chain(&mut text, chain)?;
    }
    text.extend_from_slice(b"endmodule")?;
    Ok(text)
}

/// A clock, and a load at each output.
fn constraints(alloc: Global) -> Result<Vec<u8>, AllocError> {
    let mut text = Vec::from_slice(
        alloc,
        b"create_clock -name k -period 100\nset_load -pin_load 6 [get_ports {",
    )?;
    add_each(&mut text, b" z")?;
    text.extend_from_slice(b"}]\n")?;
    Ok(text)
}

#[test]
fn each_gate_of_many_chains_takes_its_smaller_cell(rt: HostRuntime) -> Result<(), Fail> {
    let alloc = rt.alloc();
    let mut files = FileList::new(alloc);
    files.put(alloc, b"n.lib", LIBRARY)?;
    files.put(alloc, b"n.v", netlist(alloc)?.as_slice())?;
    files.put(alloc, b"n.spef", b"*C_UNIT 1 FF")?;
    files.put(alloc, b"n.sdc", constraints(alloc)?.as_slice())?;
    let said = Bytes::empty(alloc);
    let mut shelf = NeverFails { files, said };
    let _ = run(&rt, alloc, &size_words(alloc, "0")?, &mut shelf);
    let line = "done settled leakage 100000.000000 violations 0 commits 100000\n";
    assert!(rt; shelf.said.as_slice() == line.as_bytes());
    Ok(())
}
