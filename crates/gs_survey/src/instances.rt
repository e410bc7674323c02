//! The cells of instances, the driving cells of ports, and which of their pins are connected.
#![tactic(auto)]

ghost use Rattle.std.specs.Prelude.{◌≡◌, ◌<◌, ◌≤◌, ◌&&◌, IfOk, length, map, nat_lt, slice_index_or};
ghost use Rattle.gs_design.specs.Cell.{is_gate};
ghost use Rattle.gs_design.specs.Cells.{cell_at};
ghost use Rattle.gs_design.specs.Load.{output_pin};
ghost use Rattle.gs_survey.specs.Found.{AreDriving, AreFound, IsCellOf};
ghost use Rattle.gs_survey.specs.First.{Checks, first_some};
ghost use Rattle.gs_survey.specs.Instances.{cell_named, cell_number, cell_of, has_pin, is_connected, not_output, open_at, open_pin, unknown_cell, unknown_driving_cell, unknown_driving_pin, unknown_link, unknown_pin};

use crate::error::LinkErr;
use crate::names::{OfCell, Places, copy_of};
use gs_design::{Cell, CellKind, CellPin};
use gs_list::Rows;
use gs_sdc::DriverSpec;
use gs_text::Name;
use gs_verilog::{Link, RawInst};
use std::alloc::{AllocError, Global};

// The number of the cell that is named, or the number of cells where there is none of the name.
fn find_cell<T: OfCell>(alloc: Global, cells: &Places<Cell>, item: &T) -> Result<u32, AllocError>
    requires { length cells.now ≤ 65535 }
    ensures { IfOk result (λ n. n ≡ cell_number cells.now (T.cell item.now)) }
{
    let place = cells.place(alloc, item.cell())?;
    Ok(place as u32)
}

/// The number of the cell that each names, or the number of cells where there is none of the name.
pub fn find_cells<T: OfCell>(
    alloc: Global,
    cells: &Places<Cell>,
    items: &[T],
) -> Result<Rows<u32>, AllocError>
    requires { length cells.now ≤ 65535 }
    ensures { IfOk result (λ r. r ≡ map (λ x. cell_number cells.now (T.cell x)) items.now) }
{
    let mut numbers = Vec::with_capacity(alloc, items.len())?;
    for item in items {
        numbers.push(find_cell(alloc, cells, item)?)?;
    }
    Ok(Rows::from_vec(numbers))
}

/// The cell of each instance is in the library.
pub fn check_cells(
    alloc: Global,
    cells: &[Cell],
    found: &[u32],
    insts: &[RawInst],
) -> Result<(), LinkErr>
    requires { found.now ≡ map (λ i. cell_number cells.now i.cell) insts.now }
    ensures { Checks (first_some (unknown_cell cells.now) insts.now) result }
{
    for (i, inst) in insts.iter().enumerate() {
        if found[i] as usize >= cells.len() {
            return Err(LinkErr::UnknownCell {
                by: copy_of(alloc, &inst.name)?,
            });
        }
    }
    Ok(())
}

/// Whether a cell is a gate.
pub fn is_gate_kind(kind: CellKind) -> bool
    ensures { result ≡ is_gate kind }
{
    match kind {
        CellKind::Gate { .. } => true,
        CellKind::Flop => false,
    }
}

/// The cell of a number.
pub fn cell_at_number(cells: &[Cell], number: u32) -> &Cell
    requires { number < length cells.now }
    ensures { result.now ≡ cell_at cells.now number }
{
    &cells[number as usize]
}

// Whether the number is that of a gate of the library.
fn is_gate_number(cells: &[Cell], number: u32) -> bool
    ensures { result ≡ (nat_lt number (length cells.now) && is_gate (cell_at cells.now number).kind) }
{
    if number as usize >= cells.len() {
        return false;
    }
    is_gate_kind(cell_at_number(cells, number).kind)
}

/// The driving cell of each port is a gate of the library.
pub fn check_driving_cells(
    alloc: Global,
    cells: &[Cell],
    found: &[u32],
    drivers: &[DriverSpec],
) -> Result<(), LinkErr>
    requires { found.now ≡ map (λ d. cell_number cells.now d.cell) drivers.now }
    ensures { Checks (first_some (unknown_driving_cell cells.now) drivers.now) result }
{
    for (i, driver) in drivers.iter().enumerate() {
        if !is_gate_number(cells, found[i]) {
            return Err(LinkErr::UnknownCell {
                by: copy_of(alloc, &driver.port)?,
            });
        }
    }
    Ok(())
}

/// The cell of an instance, which has this number.
pub fn cell_for<'a>(cells: &'a [Cell], number: u32, inst: &RawInst) -> &'a Cell
    requires { IsCellOf cells.now inst.now number }
    ensures { result.now ≡ cell_of cells.now inst.now }
{
    cell_at_number(cells, number)
}

/// The cell of an instance.
pub fn cell_of_inst<'a>(
    cells: &'a [Cell],
    found: &[u32],
    insts: &[RawInst],
    place: usize,
) -> &'a Cell
    requires found { AreFound cells.now insts.now found.now }
    requires place { place < length insts.now }
    ensures { (d : RawInst) → result.now ≡ cell_of cells.now (slice_index_or insts.now place d) }
{
    cell_at_number(cells, found[place])
}

fn is_pin_of(cell: &Cell, name: &Name) -> bool
    ensures { result ≡ has_pin cell.now name.now }
{
    cell.pins
        .as_slice()
        .iter()
        .any(|pin| pin.name.is(name.as_bytes()))
}

fn is_pin_in(links: &[Link], name: &Name) -> bool
    ensures { result ≡ is_connected links.now name.now }
{
    links.iter().any(|link| link.pin.is(name.as_bytes()))
}

// Each connected pin of an instance is a pin of its cell.
fn check_links(alloc: Global, cell: &Cell, inst: &RawInst) -> Result<(), LinkErr>
    ensures { Checks (first_some (unknown_link cell.now inst.now) inst.now.links) result }
{
    for link in inst.links.as_slice() {
        if !is_pin_of(cell, &link.pin) {
            return Err(LinkErr::UnknownPin {
                by: copy_of(alloc, &inst.name)?,
                pin: copy_of(alloc, &link.pin)?,
            });
        }
    }
    Ok(())
}

/// Each connected pin of an instance is a pin of its cell.
pub fn check_pins(
    alloc: Global,
    cells: &[Cell],
    found: &[u32],
    insts: &[RawInst],
) -> Result<(), LinkErr>
    requires { AreFound cells.now insts.now found.now }
    ensures { Checks (first_some (unknown_pin cells.now) insts.now) result }
{
    for (i, inst) in insts.iter().enumerate() {
        if let Err(error) = check_links(alloc, cell_of_inst(cells, found, insts, i), inst) {
            return Err(error);
        }
    }
    Ok(())
}

/// The output of a cell.
pub fn output_of(cell: &Cell) -> &CellPin
    ensures { result.now ≡ output_pin cell.now }
{
    cell.pins.at(cell.pins.len() - 1)
}

// The pin that a driving cell is said to drive a port with is its output.
fn check_driving_pin(alloc: Global, cell: &Cell, driver: &DriverSpec) -> Result<(), LinkErr>
    ensures { Checks (not_output cell.now driver.now.port driver.now.pin) result }
{
    match &driver.pin {
        None => Ok(()),
        Some(pin) => {
            if output_of(cell).name.is(pin.as_bytes()) {
                Ok(())
            } else {
                Err(LinkErr::UnknownPin {
                    by: copy_of(alloc, &driver.port)?,
                    pin: copy_of(alloc, pin)?,
                })
            }
        }
    }
}

/// The driving cell of a port.
pub fn cell_of_driver<'a>(
    cells: &'a [Cell],
    found: &[u32],
    drivers: &[DriverSpec],
    place: usize,
) -> &'a Cell
    requires found { AreDriving cells.now drivers.now found.now }
    requires place { place < length drivers.now }
    ensures { (d : DriverSpec) → result.now ≡ cell_named cells.now (slice_index_or drivers.now place d).cell }
{
    cell_at_number(cells, found[place])
}

/// The pin that a driving cell is said to drive its port with is its output.
pub fn check_driving_pins(
    alloc: Global,
    cells: &[Cell],
    found: &[u32],
    drivers: &[DriverSpec],
) -> Result<(), LinkErr>
    requires { AreDriving cells.now drivers.now found.now }
    ensures { Checks (first_some (unknown_driving_pin cells.now) drivers.now) result }
{
    for (i, driver) in drivers.iter().enumerate() {
        let cell = cell_of_driver(cells, found, drivers, i);
        if let Err(error) = check_driving_pin(alloc, cell, driver) {
            return Err(error);
        }
    }
    Ok(())
}

// Each pin of an instance's cell is connected.
fn check_connected(alloc: Global, cell: &Cell, inst: &RawInst) -> Result<(), LinkErr>
    ensures { Checks (first_some (open_at inst.now) cell.now.pins) result }
{
    for pin in cell.pins.as_slice() {
        if !is_pin_in(inst.links.as_slice(), &pin.name) {
            return Err(LinkErr::OpenPin {
                inst: copy_of(alloc, &inst.name)?,
                pin: copy_of(alloc, &pin.name)?,
            });
        }
    }
    Ok(())
}

/// Each pin of an instance's cell is connected.
pub fn check_open(
    alloc: Global,
    cells: &[Cell],
    found: &[u32],
    insts: &[RawInst],
) -> Result<(), LinkErr>
    requires { AreFound cells.now insts.now found.now }
    ensures { Checks (first_some (open_pin cells.now) insts.now) result }
{
    for (i, inst) in insts.iter().enumerate() {
        if let Err(error) = check_connected(alloc, cell_of_inst(cells, found, insts, i), inst) {
            return Err(error);
        }
    }
    Ok(())
}
