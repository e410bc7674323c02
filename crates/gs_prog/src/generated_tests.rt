//! Runs of `size` on a generated design of 200 gates, as a program reckoned them that has no code in common with this one.

ghost use Rattle.std.specs.Prelude.{◌<◌};

use crate::numbered::add;
use crate::start_tests::LIBRARY;
use gs_quantity::Mem;
use gs_shelf::{Bytes, FileList, NeverFails};
use gs_top::{Name, SizeJob, run_size_alone};
use std::alloc::{AllocError, Global};
use std::test::Fail;
use std::thread::Threads;

const GATES: u32 = 200;

/// The input ports beside the clock.
const INPUTS: u32 = 16;

const PORTS: &[u8] = b"ck, i0, i1, i2, i3, i4, i5, i6, i7, i8, i9, i10, i11, i12, i13, i14, i15";

const CONSTRAINTS: &[u8] =
    b"create_clock -name ck -period 600 [get_ports ck]\nset_input_delay 0 [get_ports {i0 i1 i2 i3 i4 i5 i6 i7 i8 i9 i10 i11 i12 i13 i14 i15}] -clock [get_clocks ck]\nset_load -pin_load 4 [get_ports o]\n";

/// A number below a count, from a congruence of 32 bits.
fn draw(state: &mut u32, count: u32) -> u32
    requires { 0 < count }
    ensures { result < count }
{
    *state = state.wrapping_mul(1_664_525).wrapping_add(1_013_904_223);
    (*state >> 16) % count
}

/// One of the last 64 of so many nets.
fn pick(state: &mut u32, count: u32) -> u32
    requires { 0 < count }
    ensures { result < count }
{
    let last = if count < 64 { count } else { 64 };
    count - 1 - draw(state, last)
}

/// Adds the name of a net: the inputs come first, then the outputs of the gates.
fn add_net(text: &mut Vec<u8>, before: &[u8], net: u32) -> Result<(), AllocError> {
    text.extend_from_slice(before)?;
    if net < INPUTS {
        return add(text, b"i", net);
    }
    add(text, b"n", net - INPUTS)
}

/// Adds a gate with an input pin.
fn add_small(
    text: &mut Vec<u8>,
    pins: [&'static [u8]; 3],
    gate: u32,
    net: u32,
) -> Result<(), AllocError> {
    let [cell, input, output] = pins;
    add(text, cell, gate)?;
    add_net(text, input, net)?;
    add(text, output, gate)?;
    text.extend_from_slice(b"));\n")
}

/// Adds a gate with two.
fn add_nand(text: &mut Vec<u8>, gate: u32, a: u32, b: u32) -> Result<(), AllocError> {
    add(text, b"N2 g", gate)?;
    add_net(text, b" (.a(", a)?;
    add_net(text, b"), .b(", b)?;
    add(text, b"), .o(n", gate)?;
    text.extend_from_slice(b"));\n")
}

/// Adds a gate: each tenth is a flip-flop.
fn add_gate(text: &mut Vec<u8>, state: &mut u32, gate: u32) -> Result<(), AllocError>
    requires { gate < 1000000 }
{
    let nets = INPUTS + gate;
    if gate % 10 == 9 {
        let net = pick(state, nets);
        return add_small(text, [b"F1 g", b" (.ck(ck), .d(", b"), .q(n"], gate, net);
    }
    if draw(state, 2) == 0 {
        let net = pick(state, nets);
        return add_small(text, [b"I2 g", b" (.a(", b"), .o(n"], gate, net);
    }
    let a = pick(state, nets);
    let b = pick(state, nets);
    add_nand(text, gate, a, b)
}

/// Adds the wire of a gate's output.
fn add_wire(text: &mut Vec<u8>, gate: u32, total: u32) -> Result<(), AllocError> {
    add(text, b"*D_NET n", gate)?;
    add(text, b" ", total)?;
    text.extend_from_slice(b"\n*END\n")
}

/// Adds all gates with their wires.
fn add_gates(netlist: &mut Vec<u8>, wires: &mut Vec<u8>) -> Result<(), AllocError> {
    let mut state = 7;
    for gate in 0..GATES {
        add_gate(netlist, &mut state, gate)?;
        let total = draw(&mut state, 4) + 1;
        add_wire(wires, gate, total)?;
    }
    Ok(())
}

/// The files of the design.
fn files(alloc: Global) -> Result<FileList, AllocError> {
    let mut netlist = Vec::from_slice(alloc, b"module gen (")?;
    netlist.extend_from_slice(PORTS)?;
    netlist.extend_from_slice(b", o);\ninput ")?;
    netlist.extend_from_slice(PORTS)?;
    netlist.extend_from_slice(b";\noutput o;\n")?;
    let mut wires = Vec::from_slice(
        alloc,
        b"*SPEF \"IEEE 1481-1999\"\n*DESIGN \"gen\"\n*C_UNIT 1 FF\n",
    )?;
    add_gates(&mut netlist, &mut wires)?;
    add(&mut netlist, b"I2 go (.a(n", GATES - 1)?;
    netlist.extend_from_slice(b"), .o(o));\nendmodule\n")?;
    let mut files = FileList::new(alloc);
    files.put(alloc, b"n.lib", LIBRARY)?;
    files.put(alloc, b"n.v", netlist.as_slice())?;
    files.put(alloc, b"n.spef", wires.as_slice())?;
    files.put(alloc, b"n.sdc", CONSTRAINTS)?;
    Ok(files)
}

fn job(alloc: Global, passes: u32, budget: Option<u64>) -> Result<SizeJob, Mem> {
    Ok(SizeJob {
        lib: Name::copy_of(alloc, "n.lib")?,
        verilog: Name::copy_of(alloc, "n.v")?,
        spef: Name::copy_of(alloc, "n.spef")?,
        sdc: Name::copy_of(alloc, "n.sdc")?,
        sizes: Name::copy_of(alloc, "n.sizes")?,
        log: Name::copy_of(alloc, "n.log")?,
        report: Name::copy_of(alloc, "n.rpt")?,
        from: None,
        workers: 0,
        passes,
        budget,
    })
}

/// Whether what is said of such a run ends so.
fn ends_so<R: Threads + Sync>(
    rt: &R,
    alloc: Global,
    passes: u32,
    budget: Option<u64>,
    said: &str,
) -> Result<bool, Fail> {
    let mut shelf = NeverFails {
        files: files(alloc)?,
        said: Bytes::empty(alloc),
    };
    let job = job(alloc, passes, budget)?;
    if !job.is_good() {
        return Ok(false);
    }
    let _ = run_size_alone(rt, alloc, &job, &mut shelf);
    Ok(shelf.said.as_slice().ends_with(said.as_bytes()))
}

/// From the third pass on no single move is left, so a run without entries has settled too.
#[test]
fn passes_choose_smaller_cells(rt: HostRuntime) -> Result<(), Fail> {
    let rows = [
        (0, "done spent leakage 787.000000 violations 0 commits 0\n"),
        (1, "done spent leakage 396.000000 violations 0 commits 0\n"),
        (2, "done spent leakage 348.000000 violations 0 commits 0\n"),
        (
            3,
            "done settled leakage 343.000000 violations 0 commits 0\n",
        ),
        (
            16,
            "done settled leakage 343.000000 violations 0 commits 0\n",
        ),
    ];
    for (passes, said) in rows {
        assert!(rt;
            ends_so(&rt, rt.alloc(), passes, Some(0), said)?,
            "{passes}"
        );
    }
    Ok(())
}

#[test]
fn recovery_goes_on_from_what_passes_chose(rt: HostRuntime) -> Result<(), Fail> {
    let rows = [
        (
            0,
            "done settled leakage 343.000000 violations 0 commits 181\n",
        ),
        (1, " commits 20\n"),
        (2, " commits 2\n"),
        (
            3,
            "done settled leakage 343.000000 violations 0 commits 0\n",
        ),
        (
            16,
            "done settled leakage 343.000000 violations 0 commits 0\n",
        ),
    ];
    for (passes, said) in rows {
        assert!(rt; ends_so(&rt, rt.alloc(), passes, None, said)?, "{passes}");
    }
    Ok(())
}
