//! Designs are built of their parts.
#![tactic(auto)]

ghost use Rattle.std.specs.Prelude.{◌≡◌, ◌<◌, ◌≤◌, List, map, length, All, IfOk};
ghost use Rattle.std.specs.List.{range_with_len};
ghost use Rattle.gs_design.specs.Design.{IsDesign};
ghost use Rattle.gs_design.specs.Ends.{end_net};
ghost use Rattle.gs_design.specs.Hot.{ends_by_net, hot_pins, or_default, pin_data};
ghost use Rattle.gs_design.specs.Parts.{parts_of};

use crate::cell::{Cell, Cells};
use crate::design::Design;
use crate::end::{End, Ends};
use crate::hot::PinData;
use crate::parts::Parts;
use crate::pin::CellPin;
use gs_list::Grouped;
use gs_quantity::{Mem, Micro};
use std::alloc::{AllocError, Global};

fn own_or(own: Option<Micro>, default: &Option<Micro>) -> Option<Micro>
    ensures { result ≡ or_default own default.now }
{
    match own {
        Some(bound) => Some(bound),
        None => *default,
    }
}

fn data_of(pin: &CellPin, slew_default: &Option<Micro>) -> PinData
    ensures { result ≡ pin_data slew_default.now pin.now }
{
    PinData {
        cap: pin.cap,
        slew_bound: own_or(pin.slew_bound, slew_default),
        load_bound: pin.load_bound,
    }
}

// The data of a cell's pins.
fn pins_of(
    alloc: Global,
    cell: &Cell,
    slew_default: &Option<Micro>,
) -> Result<Vec<PinData>, AllocError>
    ensures { IfOk result (λ v. v.items ≡ map (pin_data slew_default.now) cell.now.pins) }
{
    let mut data = Vec::with_capacity(alloc, cell.pins.len())?;
    for pin in cell.pins.as_slice() {
        data.push(data_of(pin, slew_default))?;
    }
    Ok(data)
}

// The data of all cells' pins.
fn pins_of_all(
    alloc: Global,
    cells: &Cells,
    slew_default: &Option<Micro>,
) -> Result<Grouped<PinData>, AllocError>
    requires { length cells.now ≤ 65535 }
    ensures { IfOk result (λ g. g ≡ hot_pins slew_default.now cells.now) }
{
    let mut data = Grouped::empty(alloc)?;
    for cell in cells.as_slice() {
        let pins = pins_of(alloc, cell, slew_default)?;
        data.push(pins.as_slice())?;
    }
    Ok(data)
}

// The net of each endpoint.
fn nets_of(alloc: Global, ends: &[End]) -> Result<Vec<u32>, AllocError>
    ensures { IfOk result (λ v. v.items ≡ map end_net ends.now) }
{
    let mut nets = Vec::with_capacity(alloc, ends.len())?;
    for end in ends {
        nets.push(end.net.number())?;
    }
    Ok(nets)
}

// The numbers below a count.
fn numbers_to(alloc: Global, count: u32) -> Result<Vec<u32>, AllocError>
    ensures { IfOk result (λ v. v.items ≡ range_with_len 0 count) }
{
    let mut numbers = Vec::with_capacity(alloc, count as usize)?;
    for number in 0..count {
        numbers.push(number)?;
    }
    Ok(numbers)
}

// The numbers of the endpoints on each net.
fn ends_of_nets(alloc: Global, ends: &Ends, nets: u32) -> Result<Grouped<u32>, AllocError>
    requires few { length ends.now < 16777216 }
    requires nets { All (λ n. n < nets) (map end_net ends.now) }
    ensures { IfOk result (λ g. g ≡ ends_by_net ends.now nets) }
{
    let keys = nets_of(alloc, ends.as_slice())?;
    let numbers = numbers_to(alloc, ends.len() as u32)?;
    let grouped = Grouped::by_key(alloc, numbers.as_slice(), keys.as_slice(), nets)?;
    Ok(grouped)
}

impl Design {
    /// The design of these parts. It takes time and memory in proportion to the pins of all cells, the nets and the endpoints.
    pub fn new(alloc: Global, parts: Parts) -> Result<Design, Mem>
        requires { IsDesign parts.cells parts.slew_default parts.insts parts.nets parts.ends parts.order parts.ranks parts.period parts.area_bound }
        ensures { IfOk result (λ d. parts_of d ≡ parts) }
    {
        let pin_data = pins_of_all(alloc, &parts.cells, &parts.slew_default)?;
        let net_ends = ends_of_nets(alloc, &parts.ends, parts.nets.len() as u32)?;
        let Parts {
            cells,
            slew_default,
            leak_unit,
            insts,
            nets,
            ends,
            order,
            ranks,
            period,
            area_bound,
        } = parts;
        Ok(Design {
            cells,
            slew_default,
            leak_unit,
            insts,
            nets,
            ends,
            order,
            ranks,
            period,
            area_bound,
            pin_data,
            net_ends,
        })
    }
}
