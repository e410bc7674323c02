//! Where the object of a refused library or design stands in its file.
ghost use Rattle.std.specs.Prelude.{◌≡◌, ◌≤◌, IfOk, length, slice_get};
ghost use Rattle.gs_text.specs.Bytes.{max_text};
ghost use Rattle.gs_explain.specs.Object.{IsCellPlace, IsFirstNetPlace, IsLibPlace, IsLinkPlace, IsPlaced, placed};
ghost use Rattle.gs_explain.specs.Rest.{lib_text, link_text};

use crate::excerpt::{located, unplaced};
use crate::limits::{port_place, wire_place};
use crate::rest::{lib_text, link_text};
use gs_lib::LibErr;
use gs_locate::{
    instance_cell_place, instance_place, library_cell_place, library_pin_place, net_place,
    pin_place,
};
use gs_quantity::Mem;
use gs_survey::LinkErr;
use gs_text::Names;
use std::alloc::{AllocError, Global};

/// The place of the cell that is at fault.
fn lib_place(alloc: Global, error: &LibErr, bytes: &[u8]) -> Result<Option<u32>, AllocError>
    requires { length bytes.now ≤ max_text }
    ensures { IfOk result (IsLibPlace error.now bytes.now) }
{
    match error {
        LibErr::Missing { cell, .. } | LibErr::BadNumber { cell } | LibErr::BadTable { cell, .. } =>
            { library_cell_place(alloc, bytes, cell.as_bytes(), 0) }
        LibErr::TwoCells { name } => library_cell_place(alloc, bytes, name.as_bytes(), 1),
        LibErr::NoUnit | LibErr::BadUnit | LibErr::TooMany | LibErr::Mem => Ok(None),
    }
}

/// The place of the first net of a cycle.
fn cycle_place(alloc: Global, cycle: &Names, bytes: &[u8]) -> Result<Option<u32>, AllocError>
    requires { length bytes.now ≤ max_text }
    ensures { IfOk result (IsFirstNetPlace (slice_get cycle.now 0) bytes.now) }
{
    match cycle.as_slice().first() {
        Some(net) => net_place(alloc, bytes, net.as_bytes()),
        None => Ok(None),
    }
}

/// The place of what is at fault in the file that is.
fn link_place(alloc: Global, error: &LinkErr, bytes: &[u8]) -> Result<Option<u32>, AllocError>
    requires { length bytes.now ≤ max_text }
    ensures { IfOk result (IsLinkPlace error.now bytes.now) }
{
    match error {
        LinkErr::UnknownCell { by } => instance_cell_place(alloc, bytes, by.as_bytes()),
        LinkErr::UnknownPin { by, pin } => pin_place(alloc, bytes, by.as_bytes(), pin.as_bytes()),
        LinkErr::OpenPin { inst, .. } => instance_place(alloc, bytes, inst.as_bytes()),
        LinkErr::TwoDrivers { net } | LinkErr::Undriven { net } => {
            net_place(alloc, bytes, net.as_bytes())
        }
        LinkErr::NoArc { cell, pin } => {
            library_pin_place(alloc, bytes, cell.as_bytes(), pin.as_bytes(), 0)
        }
        LinkErr::Loop { cycle } => cycle_place(alloc, cycle, bytes),
        LinkErr::UnknownPort { name } => port_place(alloc, name.as_bytes(), bytes),
        LinkErr::UnknownNet { name } => wire_place(alloc, name.as_bytes(), bytes),
        LinkErr::TooMany { .. } | LinkErr::Mem => Ok(None),
    }
}

/// What is said, at its place where one was found.
pub(crate) fn placed(
    alloc: Global,
    name: &[u8],
    bytes: &[u8],
    found: Option<u32>,
    what: &[u8],
) -> Result<Vec<u8>, Mem>
    ensures { IfOk result (λ v. v.items ≡ placed name.now bytes.now found what.now) }
{
    match found {
        Some(at) if at as usize <= bytes.len() => located(alloc, name, bytes, at as usize, what),
        _ => unplaced(alloc, name, what),
    }
}

/// What is printed of a library's refusal.
pub(crate) fn library_told(
    alloc: Global,
    name: &[u8],
    error: &LibErr,
    bytes: &[u8],
) -> Result<Vec<u8>, Mem>
    requires { length bytes.now ≤ max_text }
    ensures { IfOk result (λ v. IsPlaced (IsLibPlace error.now) name.now (lib_text error.now) bytes.now v.items) }
{
    let what = lib_text(alloc, error)?;
    let found = lib_place(alloc, error, bytes)?;
    placed(alloc, name, bytes, found, what.as_slice())
}

/// What is printed of a design's refusal.
pub(crate) fn design_told(
    alloc: Global,
    name: &[u8],
    error: &LinkErr,
    bytes: &[u8],
) -> Result<Vec<u8>, Mem>
    requires { length bytes.now ≤ max_text }
    ensures { IfOk result (λ v. IsPlaced (IsLinkPlace error.now) name.now (link_text error.now) bytes.now v.items) }
{
    let what = link_text(alloc, error)?;
    let found = link_place(alloc, error, bytes)?;
    placed(alloc, name, bytes, found, what.as_slice())
}
