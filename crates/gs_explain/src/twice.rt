//! What is printed of a net that has two drivers.
ghost use Rattle.std.specs.Prelude.{◌≡◌, ◌≤◌, IfOk, None, Some, length, option_copied};
ghost use Rattle.gs_text.specs.Bytes.{max_text};
ghost use Rattle.gs_explain.specs.Object.{placed};
ghost use Rattle.gs_explain.specs.Place.{line_of};
ghost use Rattle.gs_explain.specs.Twice.{IsTwiceBy, IsTwiceTold, twice_driven, twice_text};

use crate::joined::joined;
use crate::object::placed;
use crate::place::line_of;
use crate::rest::two_drivers;
use gs_drivers::{Drivers, drivers_of};
use gs_locate::net_place;
use gs_quantity::Mem;
use gs_survey::LinkErr;
use gs_text::Name;
use itoa::Buffer;
use std::alloc::Global;

/// The net of a refusal for two drivers.
pub(crate) fn twice_driven(error: &LinkErr) -> Option<&Name>
    ensures { option_copied result ≡ twice_driven error.now }
{
    match error {
        LinkErr::TwoDrivers { net } => Some(net),
        LinkErr::UnknownCell { .. }
        | LinkErr::UnknownPin { .. }
        | LinkErr::OpenPin { .. }
        | LinkErr::Undriven { .. }
        | LinkErr::UnknownPort { .. }
        | LinkErr::UnknownNet { .. }
        | LinkErr::NoArc { .. }
        | LinkErr::TooMany { .. }
        | LinkErr::Loop { .. }
        | LinkErr::Mem => None,
    }
}

/// The line of a place, from 1; past the text it is the last.
fn line_at(bytes: &[u8], at: usize) -> usize
    ensures { result ≡ line_of bytes.now at }
{
    if at <= bytes.len() {
        line_of(bytes, at)
    } else {
        line_of(bytes, bytes.len())
    }
}

/// What is said at the second driver, with the line of the first.
fn twice_text(alloc: Global, net: &Name, bytes: &[u8], first: u32) -> Result<Vec<u8>, Mem>
    ensures { IfOk result (λ v. v.items ≡ twice_text net.now bytes.now first) }
{
    let mut line = Buffer::new();
    let said = two_drivers(alloc, net)?;
    joined(
        alloc,
        &[
            said.as_slice(),
            b"; the first is in line ",
            line.format(line_at(bytes, first as usize)).as_bytes(),
        ],
    )
}

/// What is printed of both drivers.
fn both_told(
    alloc: Global,
    drivers: Drivers,
    net: &Name,
    name: &[u8],
    bytes: &[u8],
) -> Result<Vec<u8>, Mem>
    ensures { IfOk result (λ v. IsTwiceBy (Some drivers) net.now name.now bytes.now v.items) }
{
    let what = twice_text(alloc, net, bytes, drivers.first)?;
    placed(alloc, name, bytes, Some(drivers.second), what.as_slice())
}

/// What is printed of the net where its drivers aren't found.
pub(crate) fn net_told(alloc: Global, net: &Name, name: &[u8], bytes: &[u8]) -> Result<Vec<u8>, Mem>
    requires { length bytes.now ≤ max_text }
    ensures { IfOk result (λ v. IsTwiceBy None net.now name.now bytes.now v.items) }
{
    let what = two_drivers(alloc, net)?;
    let found = net_place(alloc, bytes, net.as_bytes())?;
    placed(alloc, name, bytes, found, what.as_slice())
}

/// What is printed of the net, by the library and the netlist.
pub(crate) fn twice_told(
    alloc: Global,
    library: &[u8],
    net: &Name,
    name: &[u8],
    bytes: &[u8],
) -> Result<Vec<u8>, Mem>
    requires library { length library.now ≤ max_text }
    requires bytes { length bytes.now ≤ max_text }
    ensures { IfOk result (λ v. IsTwiceTold library.now net.now name.now bytes.now v.items) }
{
    match drivers_of(alloc, library, net.as_bytes(), bytes)? {
        Some(drivers) => both_told(alloc, drivers, net, name, bytes),
        None => net_told(alloc, net, name, bytes),
    }
}
