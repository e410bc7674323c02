//! The checks in their order: instances and driving cells; nets; constraints and wires; arcs and counts.
#![tactic(auto)]

ghost use Rattle.std.specs.Prelude.{◌≡◌, ◌++◌, ◌≤◌, ◌<◌, All, IfOk, None, length, map};
ghost use Rattle.std.specs.List.{IsDistinct};
ghost use Rattle.std.specs.Str.{bytes_eq};
ghost use Rattle.gs_survey.specs.First.{Checks, first_some, or_else};
ghost use Rattle.gs_survey.specs.Found.{AreDriving, AreFound};
ghost use Rattle.gs_survey.specs.Instances.{inst_fault, open_pin, unknown_driving_pin, unknown_pin};
ghost use Rattle.gs_survey.specs.Limits.{limit_fault};
ghost use Rattle.gs_survey.specs.Lookup.{IsFront};
ghost use Rattle.gs_survey.specs.Survey.{AreNamed, ArePlaced, AreUsed};
ghost use Rattle.gs_survey.specs.Uses.{input_ports, net_fault, output_ports};
ghost use Rattle.gs_verilog.specs.Circuit.{IsNetlist};

use crate::error::LinkErr;
use crate::instances::{
    check_cells, check_driving_cells, check_driving_pins, check_open, check_pins, find_cells,
};
use crate::limits::{find_ports, find_wires};
use crate::names::Places;
use crate::pins::{find_inputs, find_outputs};
use crate::surveyed::{Named, Placed, Used};
use crate::tally::Tally;
use crate::uses::{check_driven, check_two, find_input_ports, find_output_ports, joined};
use gs_design::{Cell, Cells};
use gs_list::Rows;
use gs_sdc::{Constraints, DriverSpec};
use gs_spef::Wires;
use gs_text::Name;
use gs_verilog::{Netlist, RawInst};
use std::alloc::{AllocError, Global};

/// The numbers of the cells of instances and of the driving cells.
pub fn find_placed(
    alloc: Global,
    cells: &[Cell],
    insts: &[RawInst],
    drivers: &[DriverSpec],
) -> Result<Placed, AllocError>
    requires { length cells.now ≤ 65535 }
    ensures { IfOk result (λ p. ArePlaced cells.now insts.now drivers.now p) }
{
    let places = Places::new(alloc, cells)?;
    let found = find_cells(alloc, &places, insts)?;
    let driving = find_cells(alloc, &places, drivers)?;
    Ok(Placed { found, driving })
}

// The pins of instances and of driving cells.
fn check_all_pins(
    alloc: Global,
    cells: &[Cell],
    placed: &Placed,
    insts: &[RawInst],
    drivers: &[DriverSpec],
) -> Result<(), LinkErr>
    requires found { AreFound cells.now insts.now placed.now.found }
    requires driving { AreDriving cells.now drivers.now placed.now.driving }
    ensures { Checks (or_else (first_some (unknown_pin cells.now) insts.now) (or_else (first_some (unknown_driving_pin cells.now) drivers.now) (first_some (open_pin cells.now) insts.now))) result }
{
    if let Err(error) = check_pins(alloc, cells, placed.found.as_slice(), insts) {
        return Err(error);
    }
    if let Err(error) = check_driving_pins(alloc, cells, placed.driving.as_slice(), drivers) {
        return Err(error);
    }
    check_open(alloc, cells, placed.found.as_slice(), insts)
}

/// The cells of instances and the driving cells, and which of their pins are connected.
pub fn check_insts(
    alloc: Global,
    cells: &[Cell],
    placed: &Placed,
    insts: &[RawInst],
    drivers: &[DriverSpec],
) -> Result<(), LinkErr>
    requires { ArePlaced cells.now insts.now drivers.now placed.now }
    ensures fault { Checks (inst_fault cells.now insts.now drivers.now) result }
    ensures found { IfOk result (λ _. AreFound cells.now insts.now placed.now.found) }
    ensures driving { IfOk result (λ _. AreDriving cells.now drivers.now placed.now.driving) }
{
    if let Err(error) = check_cells(alloc, cells, placed.found.as_slice(), insts) {
        return Err(error);
    }
    if let Err(error) = check_driving_cells(alloc, cells, placed.driving.as_slice(), drivers) {
        return Err(error);
    }
    check_all_pins(alloc, cells, placed, insts, drivers)
}

/// Two lists of nets as one.
pub fn find_driven(
    alloc: Global,
    gates: &Rows<u32>,
    inputs: &Tally,
    nets: usize,
) -> Result<Tally, AllocError>
    requires { All (λ n. n < nets) (gates.now ++ inputs.now) }
    ensures { IfOk result (λ t. t ≡ gates.now ++ inputs.now) }
{
    let all = joined(alloc, gates.as_slice(), inputs.as_slice())?;
    Tally::new(alloc, all, nets)
}

/// What drives the nets, and what reads them.
pub fn find_uses(
    alloc: Global,
    cells: &[Cell],
    netlist: &Netlist,
    found: &Rows<u32>,
) -> Result<Used, AllocError>
    requires found { AreFound cells.now netlist.now.insts found.now }
    requires open { first_some (open_pin cells.now) netlist.now.insts ≡ None }
    requires kept { IsNetlist netlist.now }
    ensures { IfOk result (λ u. AreUsed cells.now netlist.now u) }
{
    let nets = netlist.nets().len();
    let gates = find_outputs(alloc, cells, found.as_slice(), netlist.insts())?;
    let reads = find_inputs(alloc, cells, found.as_slice(), netlist.insts())?;
    let inputs = Tally::new(alloc, find_input_ports(alloc, netlist.ports())?, nets)?;
    let outputs = Tally::new(alloc, find_output_ports(alloc, netlist.ports())?, nets)?;
    let driven = find_driven(alloc, &gates, &inputs, nets)?;
    let read = find_driven(alloc, &reads, &outputs, nets)?;
    Ok(Used {
        gates,
        inputs,
        outputs,
        driven,
        read,
    })
}

/// Each net that is used has one driver.
pub fn check_uses(
    alloc: Global,
    cells: &Cells,
    netlist: &Netlist,
    used: &Used,
) -> Result<(), LinkErr>
    requires { AreUsed cells.now netlist.now used.now }
    ensures { Checks (net_fault cells.now netlist.now) result }
{
    if let Err(error) = check_two(alloc, netlist.nets(), &used.driven) {
        return Err(error);
    }
    check_driven(alloc, netlist.nets(), &used.driven, &used.read)
}

/// The numbers of the nets that constraints and wires name, or the first refusal: clocks and input delays are of input ports, output
/// delays of output ports, loads and driving cells of ports, and wires of nets. All ports are among the nets in front.
pub fn find_named(
    alloc: Global,
    netlist: &Netlist,
    front: &Places<Name>,
    used: &Used,
    ports: &Tally,
    wires: &Wires,
    limits: &Constraints,
) -> Result<Named, LinkErr>
    requires front { IsFront front.now netlist.now.nets }
    requires inputs { used.now.inputs ≡ input_ports netlist.now.ports }
    requires outputs { used.now.outputs ≡ output_ports netlist.now.ports }
    requires ports { ports.now ≡ input_ports netlist.now.ports ++ output_ports netlist.now.ports }
    requires inputs_below { All (λ n. n < length front.now) used.now.inputs }
    requires outputs_below { All (λ n. n < length front.now) used.now.outputs }
    requires ports_below { All (λ n. n < length front.now) ports.now }
    requires differ { IsDistinct bytes_eq netlist.now.nets }
    ensures fault { Checks (limit_fault netlist.now wires.now limits.now) result }
    ensures named { IfOk result (λ n. AreNamed netlist.now.nets wires.now limits.now n) }
{
    let nets = netlist.nets();
    let clocks = match find_ports(alloc, nets, front, &used.inputs, limits.clock_ports()) {
        Ok(clocks) => clocks,
        Err(error) => return Err(error),
    };
    let inputs = match find_ports(alloc, nets, front, &used.inputs, limits.inputs()) {
        Ok(inputs) => inputs,
        Err(error) => return Err(error),
    };
    let outputs = match find_ports(alloc, nets, front, &used.outputs, limits.outputs()) {
        Ok(outputs) => outputs,
        Err(error) => return Err(error),
    };
    let loads = match find_ports(alloc, nets, front, ports, limits.loads()) {
        Ok(loads) => loads,
        Err(error) => return Err(error),
    };
    let drivers = match find_ports(alloc, nets, front, ports, limits.drivers()) {
        Ok(drivers) => drivers,
        Err(error) => return Err(error),
    };
    match find_wires(alloc, nets, wires.as_slice()) {
        Ok(wires) => Ok(Named {
            clocks,
            inputs,
            outputs,
            loads,
            drivers,
            wires,
        }),
        Err(error) => Err(error),
    }
}
