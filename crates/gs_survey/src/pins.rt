//! The nets at the pins of instances.
#![tactic(auto)]

ghost use Rattle.std.specs.Prelude.{◌≡◌, ◌++◌, ◌≤◌, IfOk, OnOk, length, map};
ghost use Rattle.gs_survey.specs.Found.{AreFound, IsCellOf};
ghost use Rattle.gs_survey.specs.Uses.{all_input_nets, input_nets, inputs_of, net_at_pin, output_net, output_nets};

use crate::instances::{cell_for, output_of};
use gs_design::{Cell, CellPin};
use gs_list::Rows;
use gs_verilog::{Link, RawInst};
use std::alloc::{AllocError, Global};

/// The net to which these connect a pin.
pub fn net_at(links: &[Link], pin: &CellPin) -> u32
    ensures { result ≡ net_at_pin links.now pin.now }
{
    for link in links {
        if link.pin.is(pin.name.as_bytes()) {
            return link.net;
        }
    }
    0
}

/// The inputs of a cell.
pub fn inputs(cell: &Cell) -> &[CellPin]
    ensures pins { result.now ≡ inputs_of cell.now }
    ensures few { length result.now ≤ 6 }
{
    let pins = cell.pins.as_slice();
    &pins[..pins.len() - 1]
}

// Puts last the nets at these pins.
fn push_nets(nets: &mut Vec<u32>, links: &[Link], pins: &[CellPin]) -> Result<(), AllocError>
    ensures { OnOk result (nets.new.items ≡ nets.old.items ++ map (net_at_pin links.now) pins.now) }
{
    for pin in pins {
        nets.push(net_at(links, pin))?;
    }
    Ok(())
}

// Puts last the nets at the inputs of an instance.
fn push_inputs(
    nets: &mut Vec<u32>,
    cells: &[Cell],
    number: u32,
    inst: &RawInst,
) -> Result<(), AllocError>
    requires { IsCellOf cells.now inst.now number }
    ensures { OnOk result (nets.new.items ≡ nets.old.items ++ input_nets cells.now inst.now) }
{
    push_nets(
        nets,
        inst.links.as_slice(),
        inputs(cell_for(cells, number, inst)),
    )
}

/// The nets at the input pins of all instances, by instance and pin.
pub fn find_inputs(
    alloc: Global,
    cells: &[Cell],
    found: &[u32],
    insts: &[RawInst],
) -> Result<Rows<u32>, AllocError>
    requires { AreFound cells.now insts.now found.now }
    ensures { IfOk result (λ r. r ≡ all_input_nets cells.now insts.now) }
{
    let mut nets = Vec::new(alloc);
    for (i, inst) in insts.iter().enumerate() {
        push_inputs(&mut nets, cells, found[i], inst)?;
    }
    Ok(Rows::from_vec(nets))
}

// The net at the output of an instance.
fn output_for(cells: &[Cell], number: u32, inst: &RawInst) -> u32
    requires { IsCellOf cells.now inst.now number }
    ensures { result ≡ output_net cells.now inst.now }
{
    net_at(
        inst.links.as_slice(),
        output_of(cell_for(cells, number, inst)),
    )
}

/// The net at the output of each instance.
pub fn find_outputs(
    alloc: Global,
    cells: &[Cell],
    found: &[u32],
    insts: &[RawInst],
) -> Result<Rows<u32>, AllocError>
    requires { AreFound cells.now insts.now found.now }
    ensures { IfOk result (λ r. r ≡ output_nets cells.now insts.now) }
{
    let mut nets = Vec::with_capacity(alloc, insts.len())?;
    for (i, inst) in insts.iter().enumerate() {
        nets.push(output_for(cells, found[i], inst))?;
    }
    Ok(Rows::from_vec(nets))
}
