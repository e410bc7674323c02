//! What wires and constraints give for each net.
#![tactic(auto)]

ghost use Rattle.std.specs.Prelude.{◌≡◌, ◌<◌, All, IfOk, Some, length, map};
ghost use Rattle.std.specs.List.{range_with_len};
ghost use Rattle.gs_link.specs.Built.{AreGiven, gate_of};
ghost use Rattle.gs_survey.specs.Instances.{cell_number};
ghost use Rattle.gs_link.specs.Linked.{driven_by, port_driver, port_value, wire_total};
ghost use Rattle.gs_survey.specs.Numbers.{net_number};
ghost use Rattle.gs_survey.specs.Survey.{AreNamed};
ghost use Rattle.gs_survey.specs.Uses.{output_nets};

use crate::values::{Values, numbers_to, port_values, spread, widened, wire_totals};
use gs_design::{Cell, CellId, Driven};
use gs_list::Rows;
use gs_quantity::Micro;
use gs_sdc::{Constraints, DriverSpec, PortValue};
use gs_spef::{Wire, Wires};
use gs_survey::Named;
use gs_text::Name;
use gs_verilog::Netlist;
use std::alloc::{AllocError, Global};

// The value that is given for the port of each net.
fn give_ports(
    alloc: Global,
    nets: &[Name],
    named: &Rows<usize>,
    given: &[PortValue],
) -> Result<Rows<Micro>, AllocError>
    requires named { named.now ≡ map (λ v. net_number nets.now v.port) given.now }
    requires below { All (λ n. n < length nets.now) named.now }
    ensures { IfOk result (λ r. r ≡ map (port_value nets.now given.now) (range_with_len 0 (length nets.now))) }
{
    let values = port_values(alloc, given)?;
    spread(
        alloc,
        named.as_slice(),
        values.as_slice(),
        Micro(0),
        nets.len(),
    )
}

// The total of the wire of each net.
fn give_wires(
    alloc: Global,
    nets: &[Name],
    named: &Rows<usize>,
    wires: &[Wire],
) -> Result<Rows<Micro>, AllocError>
    requires named { named.now ≡ map (λ w. net_number nets.now w.net) wires.now }
    requires below { All (λ n. n < length nets.now) named.now }
    ensures { IfOk result (λ r. r ≡ map (wire_total nets.now wires.now) (range_with_len 0 (length nets.now))) }
{
    let totals = wire_totals(alloc, wires)?;
    spread(
        alloc,
        named.as_slice(),
        totals.as_slice(),
        Micro(0),
        nets.len(),
    )
}

fn driven_of(number: u32, driver: &DriverSpec) -> Option<Driven>
    ensures { result ≡ Some (record { cell = number; rise = driver.now.rise; fall = driver.now.fall }) }
{
    Some(Driven {
        cell: CellId(number),
        rise: driver.rise,
        fall: driver.fall,
    })
}

// The driving cells.
fn driving_cells(
    alloc: Global,
    cells: &[Cell],
    driving: &[u32],
    drivers: &[DriverSpec],
) -> Result<Rows<Option<Driven>>, AllocError>
    requires { driving.now ≡ map (λ d. cell_number cells.now d.cell) drivers.now }
    ensures { IfOk result (λ r. r ≡ map (driven_by cells.now) drivers.now) }
{
    let mut given = Vec::with_capacity(alloc, drivers.len())?;
    for (i, driver) in drivers.iter().enumerate() {
        given.push(driven_of(driving[i], driver))?;
    }
    Ok(Rows::from_vec(given))
}

// The driving cell of the port of each net.
fn give_drivers(
    alloc: Global,
    cells: &[Cell],
    nets: &[Name],
    named: &Rows<usize>,
    driving: &Rows<u32>,
    drivers: &[DriverSpec],
) -> Result<Rows<Option<Driven>>, AllocError>
    requires named { named.now ≡ map (λ d. net_number nets.now d.port) drivers.now }
    requires below { All (λ n. n < length nets.now) named.now }
    requires driving { driving.now ≡ map (λ d. cell_number cells.now d.cell) drivers.now }
    ensures { IfOk result (λ r. r ≡ map (port_driver cells.now nets.now drivers.now) (range_with_len 0 (length nets.now))) }
{
    let given = driving_cells(alloc, cells, driving.as_slice(), drivers)?;
    spread(alloc, named.as_slice(), given.as_slice(), None, nets.len())
}

// The instance whose output each net is.
fn give_gates(
    alloc: Global,
    cells: &[Cell],
    netlist: &Netlist,
    gates: &Rows<u32>,
) -> Result<Rows<u32>, AllocError>
    requires gates { gates.now ≡ output_nets cells.now netlist.now.insts }
    requires below { All (λ n. n < length netlist.now.nets) gates.now }
    requires few { length netlist.now.insts < 2097152 }
    ensures { IfOk result (λ r. r ≡ map (gate_of cells.now netlist.now) (range_with_len 0 (length netlist.now.nets))) }
{
    let numbers = numbers_to(alloc, netlist.insts().len() as u32)?;
    let wide = widened(alloc, gates.as_slice())?;
    spread(
        alloc,
        wide.as_slice(),
        numbers.as_slice(),
        0,
        netlist.nets().len(),
    )
}

/// What is given for each net.
pub fn give_all(
    alloc: Global,
    cells: &[Cell],
    netlist: &Netlist,
    wires: &Wires,
    limits: &Constraints,
    named: &Named,
    driving: &Rows<u32>,
    gates: &Rows<u32>,
) -> Result<Values, AllocError>
    requires named { AreNamed netlist.now.nets wires.now limits.now named.now }
    requires inputs { All (λ n. n < length netlist.now.nets) named.now.inputs }
    requires outputs { All (λ n. n < length netlist.now.nets) named.now.outputs }
    requires loads { All (λ n. n < length netlist.now.nets) named.now.loads }
    requires drivers { All (λ n. n < length netlist.now.nets) named.now.drivers }
    requires wires { All (λ n. n < length netlist.now.nets) named.now.wires }
    requires driving { driving.now ≡ map (λ d. cell_number cells.now d.cell) limits.now.drivers }
    requires gates { gates.now ≡ output_nets cells.now netlist.now.insts }
    requires gates_below { All (λ n. n < length netlist.now.nets) gates.now }
    requires few { length netlist.now.insts < 2097152 }
    ensures { IfOk result (λ v. AreGiven cells.now netlist.now wires.now limits.now v) }
{
    let nets = netlist.nets();
    Ok(Values {
        wires: give_wires(alloc, nets, &named.wires, wires.as_slice())?,
        loads: give_ports(alloc, nets, &named.loads, limits.loads())?,
        delays: give_ports(alloc, nets, &named.inputs, limits.inputs())?,
        departures: give_ports(alloc, nets, &named.outputs, limits.outputs())?,
        cells: give_drivers(
            alloc,
            cells,
            nets,
            &named.drivers,
            driving,
            limits.drivers(),
        )?,
        gates: give_gates(alloc, cells, netlist, gates)?,
    })
}
