//! What is given for each net.
#![tactic(auto)]

ghost use Rattle.std.specs.Prelude.{◌≡◌, ◌<◌, All, IfOk, None, length, map, pos, replicate, slice_index, slice_index_or};
ghost use Rattle.std.specs.List.{range_with_len};
ghost use Rattle.gs_link.specs.Linked.{driven_by};
ghost use Rattle.gs_survey.specs.Numbers.{given};

use gs_design::{CellId, Driven};
use gs_list::Rows;
use gs_quantity::Micro;
use gs_sdc::{DriverSpec, PortValue};
use gs_spef::Wire;
use std::alloc::{AllocError, Global};

/// What is known of each net of the netlist, by number.
#[derive(Drop)]
pub struct Values {
    /// The total of its wire, in millionths of 1 fF.
    pub wires: Rows<Micro>,
    /// The load at its port, in millionths of 1 fF.
    pub loads: Rows<Micro>,
    /// The delay at the input port, in millionths of 1 ps.
    pub delays: Rows<Micro>,
    /// The delay at the output port, in millionths of 1 ps.
    pub departures: Rows<Micro>,
    /// The driving cell of the port.
    pub cells: Rows<Option<Driven>>,
    /// The instance whose output it is.
    pub gates: Rows<u32>,
}

// The same value so many times.
fn repeated<V: Copy + Drop>(alloc: Global, value: V, count: usize) -> Result<Vec<V>, AllocError>
    ensures { IfOk result (λ v. v.items ≡ replicate count value) }
{
    let mut out = Vec::with_capacity(alloc, count)?;
    for _ in 0..count {
        out.push(value)?;
    }
    Ok(out)
}

/// For each number below a count, the value that is given for it.
pub fn spread<V: Copy + Drop>(
    alloc: Global,
    numbers: &[usize],
    values: &[V],
    other: V,
    count: usize,
) -> Result<Rows<V>, AllocError>
    requires same { length numbers.now ≡ length values.now }
    requires below { All (λ n. n < count) numbers.now }
    ensures { IfOk result (λ r. r ≡ map (given numbers.now values.now other) (range_with_len 0 count)) }
{
    let mut out = repeated(alloc, other, count)?;
    for i in 0..numbers.len() {
        out[numbers[i]] = values[i];
    }
    Ok(Rows::from_vec(out))
}

/// The values of ports.
pub fn port_values(alloc: Global, given: &[PortValue]) -> Result<Rows<Micro>, AllocError>
    ensures { IfOk result (λ r. r ≡ map (λ v. v.value) given.now) }
{
    let mut values = Vec::with_capacity(alloc, given.len())?;
    for value in given {
        values.push(value.value)?;
    }
    Ok(Rows::from_vec(values))
}

/// The totals of wires.
pub fn wire_totals(alloc: Global, wires: &[Wire]) -> Result<Rows<Micro>, AllocError>
    ensures { IfOk result (λ r. r ≡ map (λ w. w.total) wires.now) }
{
    let mut totals = Vec::with_capacity(alloc, wires.len())?;
    for wire in wires {
        totals.push(wire.total)?;
    }
    Ok(Rows::from_vec(totals))
}

/// A value by number, 0 past the end.
pub fn micro_at(values: &[Micro], number: usize) -> Micro
    ensures { result ≡ slice_index_or values.now number (pos 0) }
{
    if number < values.len() {
        values[number]
    } else {
        Micro(0)
    }
}

/// A driving cell by number, none past the end.
pub fn driven_at(cells: &[Option<Driven>], number: usize) -> Option<Driven>
    ensures { result ≡ slice_index_or cells.now number None }
{
    if number < cells.len() {
        cells[number]
    } else {
        None
    }
}

/// A number by number, 0 past the end.
pub fn number_at(numbers: &[u32], number: usize) -> u32
    ensures { result ≡ slice_index numbers.now number }
{
    if number < numbers.len() {
        numbers[number]
    } else {
        0
    }
}

/// The same numbers in wider words.
pub fn widened(alloc: Global, numbers: &[u32]) -> Result<Rows<usize>, AllocError>
    ensures { IfOk result (λ r. r ≡ numbers.now) }
{
    let mut wide = Vec::with_capacity(alloc, numbers.len())?;
    for i in 0..numbers.len() {
        wide.push(numbers[i] as usize)?;
    }
    Ok(Rows::from_vec(wide))
}

/// The numbers below a count.
pub fn numbers_to(alloc: Global, count: u32) -> Result<Rows<u32>, AllocError>
    ensures { IfOk result (λ r. r ≡ range_with_len 0 count) }
{
    let mut numbers = Vec::with_capacity(alloc, count as usize)?;
    for number in 0..count {
        numbers.push(number)?;
    }
    Ok(Rows::from_vec(numbers))
}
