//! The first two drivers of a net.

ghost use Rattle.std.specs.Prelude.{◌≡◌, ◌≢◌, ◌≤◌, IfOk, None, OnErr, length};
ghost use Rattle.gs_text.specs.Bytes.{max_text};
ghost use Rattle.gs_drivers.specs.Twice.{AreDrivers, AreDriversBy, AreDriversOf, both};

use crate::outputs::CellOutputs;
use gs_design::Cell;
use gs_lib::{LibErr, read_library};
use gs_libtree::{Group, LibTextErr, read_tree};
use gs_locate::driver_place;
use std::alloc::{AllocError, Global};

/// Where a net is driven first and where a second time, by bytes of the netlist, counted from 0.
#[derive(Clone, Copy, Debug, PartialEq, Eq)]
pub struct Drivers {
    /// The net's name at its first driver.
    pub first: u32,
    /// The net's name at its second.
    pub second: u32,
}

/// Both places, where there are two.
fn both(first: Option<u32>, second: Option<u32>) -> Option<Drivers>
    ensures { result ≡ both first second }
{
    match (first, second) {
        (Some(first), Some(second)) => Some(Drivers { first, second }),
        (None, _) => None,
        (Some(_), None) => None,
    }
}

/// The first two drivers by these cells.
fn drivers_by(
    alloc: Global,
    cells: &[Cell],
    net: &[u8],
    netlist: &[u8],
) -> Result<Option<Drivers>, AllocError>
    requires { length netlist.now ≤ max_text }
    ensures { IfOk result (AreDriversBy cells.now net.now netlist.now) }
{
    let outputs = CellOutputs { cells };
    let first = driver_place(alloc, netlist, &outputs, net, 0)?;
    let second = driver_place(alloc, netlist, &outputs, net, 1)?;
    Ok(both(first, second))
}

/// The first two drivers by the library of a tree.
fn drivers_in(
    alloc: Global,
    root: &Group,
    net: &[u8],
    netlist: &[u8],
) -> Result<Option<Drivers>, AllocError>
    requires { length netlist.now ≤ max_text }
    ensures { IfOk result (AreDriversOf root.now net.now netlist.now) }
{
    match read_library(alloc, root) {
        Ok(library) => drivers_by(alloc, library.cells.as_slice(), net, netlist),
        Err(LibErr::Mem) => Err(AllocError),
        Err(_error) => Ok(None),
    }
}

/// What is answered of bytes that are no text of a library: no drivers, or want of memory.
fn unread(error: LibTextErr) -> Result<Option<Drivers>, AllocError>
    ensures none { IfOk result (λ found. found ≡ None) }
    ensures cause { IfOk result (λ found. error ≢ LibTextErr.Mem) }
    ensures told { OnErr result (error ≡ LibTextErr.Mem) }
{
    match error {
        LibTextErr::OpenString { .. }
        | LibTextErr::OpenComment { .. }
        | LibTextErr::TooDeep { .. }
        | LibTextErr::BadPiece { .. } => Ok(None),
        LibTextErr::Mem => Err(AllocError),
    }
}

/// Where a net of a netlist is driven first and where a second time, by the output pins of a library's cells. `None` where it is driven
/// once or not at all, and where the bytes of the library aren't read.
///
/// # Errors
///
/// Want of memory.
pub fn drivers_of(
    alloc: Global,
    library: &[u8],
    net: &[u8],
    netlist: &[u8],
) -> Result<Option<Drivers>, AllocError>
    requires library { length library.now ≤ max_text }
    requires netlist { length netlist.now ≤ max_text }
    // The first two drivers of the net, by the library that the bytes are read as.
    ensures { IfOk result (AreDrivers library.now net.now netlist.now) }
{
    match read_tree(alloc, library) {
        Ok(root) => drivers_in(alloc, &root, net, netlist),
        Err(error) => unread(error),
    }
}
