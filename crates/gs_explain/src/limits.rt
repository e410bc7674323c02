//! Where a port of the constraints and a net of the wires stand that the netlist lacks.
ghost use Rattle.std.specs.Prelude.{◌≡◌, ◌≢◌, ◌≤◌, IfOk, None, OnErr, length};
ghost use Rattle.std.specs.List.{position_or_len};
ghost use Rattle.std.specs.Str.{bytes_eq};
ghost use Rattle.gs_text.specs.Bytes.{max_text};
ghost use Rattle.gs_explain.specs.Limits.{IsPortInEither, IsPortPlace, IsWirePlace, at_fault, first_given};

use gs_locate::{constraint_place, net_block_place};
use gs_spef::{SpefErr, Wire, read_spef};
use std::alloc::{AllocError, Global};

fn first_given(one: Option<u32>, other: Option<u32>) -> Option<u32>
    ensures { result ≡ first_given one other }
{
    match one {
        Some(at) => Some(at),
        None => other,
    }
}

/// The place of a port in a command of one word, or else of another.
fn port_in_either(
    alloc: Global,
    bytes: &[u8],
    word: &[u8],
    other: &[u8],
    port: &[u8],
) -> Result<Option<u32>, AllocError>
    requires { length bytes.now ≤ max_text }
    ensures { IfOk result (IsPortInEither word.now other.now port.now bytes.now) }
{
    let one = constraint_place(alloc, bytes, word, port)?;
    let two = constraint_place(alloc, bytes, other, port)?;
    Ok(first_given(one, two))
}

/// Which of these places is at fault, as far as the constraints alone tell.
fn at_fault(input: Option<u32>, output: Option<u32>, either: Option<u32>) -> Option<u32>
    ensures { result ≡ at_fault input output either }
{
    match (input, output) {
        (None, None) => either,
        (None, Some(at)) => Some(at),
        (Some(at), None) => Some(at),
        (Some(_), Some(_)) => None,
    }
}

/// The place of a port that the netlist doesn't have, or not in the direction of the command.
pub(crate) fn port_place(
    alloc: Global,
    port: &[u8],
    bytes: &[u8],
) -> Result<Option<u32>, AllocError>
    requires { length bytes.now ≤ max_text }
    ensures { IfOk result (IsPortPlace port.now bytes.now) }
{
    let input = port_in_either(alloc, bytes, b"create_clock", b"set_input_delay", port)?;
    let output = constraint_place(alloc, bytes, b"set_output_delay", port)?;
    let either = port_in_either(alloc, bytes, b"set_load", b"set_driving_cell", port)?;
    Ok(at_fault(input, output, either))
}

/// The number of the first wire of a net, or how many wires there are where none is.
fn wire_number(wires: &[Wire], net: &[u8]) -> usize
    ensures { result ≡ position_or_len (λ w. bytes_eq net.now w.net) wires.now }
{
    wires.iter().take_while(|wire| !wire.net.is(net)).count()
}

/// What is answered of a text that isn't read: no place, or want of memory.
fn unread(error: SpefErr) -> Result<Option<u32>, AllocError>
    ensures none { IfOk result (λ found. found ≡ None) }
    ensures cause { IfOk result (λ found. error ≢ SpefErr.Mem) }
    ensures told { OnErr result (error ≡ SpefErr.Mem) }
{
    match error {
        SpefErr::BadLine { .. }
        | SpefErr::Distributed { .. }
        | SpefErr::UnknownIndex { .. }
        | SpefErr::TwoNets { .. } => Ok(None),
        SpefErr::Mem => Err(AllocError),
    }
}

/// The place of the block of a net that the netlist doesn't have. It reads the text, so that a name is found that the name map gives.
pub(crate) fn wire_place(alloc: Global, net: &[u8], bytes: &[u8]) -> Result<Option<u32>, AllocError>
    requires { length bytes.now ≤ max_text }
    ensures { IfOk result (IsWirePlace net.now bytes.now) }
{
    match read_spef(alloc, bytes) {
        Ok(wires) => net_block_place(alloc, bytes, wire_number(wires.as_slice(), net)),
        Err(error) => unread(error),
    }
}
