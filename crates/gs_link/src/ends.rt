//! The endpoints of a design.
#![tactic(auto)]

ghost use Rattle.std.specs.Prelude.{◌≡◌, ◌++◌, ◌≤◌, ◌<◌, ◌-ℤ◌, ℕ, ℤ, IfOk, OnOk, filter, flat_map, length, map, pos, slice_index_or};
ghost use Rattle.std.specs.List.{range_with_len};
ghost use Rattle.gs_amount.specs.Amount.{IsLimited};
ghost use Rattle.gs_design.specs.Cell.{is_gate, pin_at};
ghost use Rattle.gs_design.specs.Ends.{alt_cell, data_pins, is_data_pin, is_gate_inst, is_input, pins_of_inst};
ghost use Rattle.gs_design.specs.Insts.{inst_at};
ghost use Rattle.gs_link.specs.Columns.{AreReadable, IsReadable, end_of_port};
ghost use Rattle.gs_link.specs.Linked.{pin_end};
ghost use Rattle.gs_survey.specs.Numbers.{is_one_of};

use crate::values::{micro_at, number_at};
use gs_design::{Cell, End, EndPlace, Ends, InstId, Insts, NetId, Role};
use gs_list::Rows;
use gs_quantity::Micro;
use gs_survey::{Tally, cell_at_number, is_gate_kind};
use std::alloc::{AllocError, Global};

// The number.
fn millionths(quantity: Micro) -> i64
    ensures { result ≡ quantity }
{
    quantity.0
}

// The period less an output delay.
fn bound_of(period: Micro, delay: Micro) -> Micro
    requires period { IsLimited period }
    requires delay { IsLimited delay }
    ensures { result ≡ period -ℤ delay }
{
    Micro(millionths(period) - millionths(delay))
}

// The endpoint at an output port.
fn port_end_of(
    numbers: &[u32],
    departures: &[Micro],
    period: Micro,
    net: usize,
    place: EndPlace,
) -> End
    requires place { place ≡ EndPlace.Output }
    requires period { IsLimited period }
    requires delay { IsLimited (slice_index_or departures.now net (pos 0)) }
    ensures { result ≡ end_of_port numbers.now departures.now period net }
{
    End {
        place,
        net: NetId(number_at(numbers, net)),
        bound: bound_of(period, micro_at(departures, net)),
    }
}

// The endpoints at output ports.
fn find_port_ends(
    alloc: Global,
    outputs: &Tally,
    numbers: &[u32],
    departures: &[Micro],
    period: Micro,
    used: &[u32],
) -> Result<Vec<End>, AllocError>
    requires period { IsLimited period }
    requires delays { (n : ℕ) → IsLimited (slice_index_or departures.now n (pos 0)) }
    ensures { IfOk result (λ v. v.items ≡ map (end_of_port numbers.now departures.now period) (filter (is_one_of outputs.now) used.now)) }
{
    let mut ends = Vec::new(alloc);
    for i in 0..used.len() {
        let net = used[i] as usize;
        if !outputs.has(net) {
            continue;
        }
        let end = port_end_of(numbers, departures, period, net, EndPlace::Output);
        ends.push(end)?;
    }
    Ok(ends)
}

fn is_input_role(role: Role) -> bool
    ensures { result ≡ is_input role }
{
    match role {
        Role::Input => true,
        Role::Clock => false,
        Role::Output => false,
    }
}

/// The first alternative of an instance.
pub fn first_cell<'a>(cells: &'a [Cell], insts: &Insts, inst: InstId) -> &'a Cell
    requires inst { inst < length insts.now }
    requires readable { IsReadable cells.now (inst_at insts.now inst) }
    ensures { result.now ≡ alt_cell cells.now (inst_at insts.now inst) 0 }
{
    cell_at_number(cells, insts.cell(inst, 0).number())
}

fn is_data_pin_at(cells: &[Cell], insts: &Insts, inst: u32, pin: u8) -> bool
    requires inst { inst < length insts.now }
    requires readable { IsReadable cells.now (inst_at insts.now inst) }
    requires pin { pin < length (inst_at insts.now inst).inputs }
    ensures { result ≡ is_data_pin cells.now insts.now (record { inst = inst; pin = pin }) }
{
    let cell = first_cell(cells, insts, InstId(inst));
    if is_gate_kind(cell.kind) {
        return false;
    }
    is_input_role(cell.pins.at(pin as usize).role)
}

// The endpoint at a data pin.
fn pin_end_of(insts: &Insts, period: Micro, inst: u32, pin: u8, place: EndPlace) -> End
    requires place { place ≡ EndPlace.Pin inst pin }
    requires inst { inst < length insts.now }
    requires pin { pin < length (inst_at insts.now inst).inputs }
    ensures { result ≡ pin_end insts.now period (record { inst = inst; pin = pin }) }
{
    End {
        place,
        net: insts.inputs(InstId(inst))[pin as usize],
        bound: period,
    }
}

// Puts last the endpoints at the data pins of an instance.
fn push_pin_ends(
    ends: &mut Vec<End>,
    cells: &[Cell],
    insts: &Insts,
    period: Micro,
    inst: u32,
) -> Result<(), AllocError>
    requires inst { inst < length insts.now }
    requires readable { IsReadable cells.now (inst_at insts.now inst) }
    ensures { OnOk result (ends.new.items ≡ ends.old.items ++ map (pin_end insts.now period) (filter (is_data_pin cells.now insts.now) (pins_of_inst insts.now inst))) }
{
    for pin in 0..insts.inputs(InstId(inst)).len() as u8 {
        if !is_data_pin_at(cells, insts, inst, pin) {
            continue;
        }
        let place = EndPlace::Pin {
            inst: InstId(inst),
            pin,
        };
        ends.push(pin_end_of(insts, period, inst, pin, place))?;
    }
    Ok(())
}

// Puts last the endpoints at data pins.
fn push_all_pin_ends(
    ends: &mut Vec<End>,
    cells: &[Cell],
    insts: &Insts,
    period: Micro,
) -> Result<(), AllocError>
    requires many { length insts.now < 2097152 }
    requires readable { AreReadable cells.now insts.now }
    ensures { OnOk result (ends.new.items ≡ ends.old.items ++ map (pin_end insts.now period) (data_pins cells.now insts.now)) }
{
    for inst in 0..insts.len() as u32 {
        push_pin_ends(ends, cells, insts, period, inst)?;
    }
    Ok(())
}

/// What the endpoints at output ports are made of.
#[derive(Clone, Copy)]
pub struct PortParts<'a> {
    /// The nets that are output ports.
    pub outputs: &'a Tally,
    /// The new number of each net.
    pub numbers: &'a [u32],
    /// The output delay of each net, in millionths of 1 ps.
    pub departures: &'a [Micro],
    /// The nets that are used.
    pub used: &'a [u32],
}

/// The endpoints: output ports in net order, and then the data pins of the flip-flops.
pub fn find_ends(
    alloc: Global,
    ports: &PortParts,
    cells: &[Cell],
    insts: &Insts,
    period: Micro,
) -> Result<Ends, AllocError>
    requires many { length insts.now < 2097152 }
    requires readable { AreReadable cells.now insts.now }
    requires period { IsLimited period }
    requires delays { (n : ℕ) → IsLimited (slice_index_or ports.now.departures.now n (pos 0)) }
    ensures { IfOk result (λ r. r ≡ map (end_of_port ports.now.numbers.now ports.now.departures.now period) (filter (is_one_of ports.now.outputs.now) ports.now.used.now) ++ map (pin_end insts.now period) (data_pins cells.now insts.now)) }
{
    let mut ends = find_port_ends(
        alloc,
        ports.outputs,
        ports.numbers,
        ports.departures,
        period,
        ports.used,
    )?;
    push_all_pin_ends(&mut ends, cells, insts, period)?;
    Ok(Rows::from_vec(ends))
}
