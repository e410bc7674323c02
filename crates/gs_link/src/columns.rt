//! The columns of the instances of a design.
#![tactic(auto)]

ghost use Rattle.std.specs.Prelude.{◌≡◌, ◌≤◌, ◌<◌, ◌+◌, IfOk, drop, length, map, slice_index, take};
ghost use Rattle.gs_link.specs.Columns.{BeginsWith, inst_row, new_inputs, raw_name, row_of};
ghost use Rattle.gs_survey.specs.Found.{AreFound, IsCellOf};
ghost use Rattle.gs_survey.specs.Instances.{cell_of};
ghost use Rattle.gs_survey.specs.Uses.{all_input_nets, inputs_of, output_net, output_nets};

use crate::values::number_at;
use gs_alternatives::Stretch;
use gs_design::{Cell, InstRow, NetId};
use gs_list::{Grouped, Rows};
use gs_survey::{cell_for, copy_of, inputs};
use gs_text::{Name, Names};
use gs_verilog::RawInst;
use std::alloc::{AllocError, Global};

fn row_with(stretches: &Rows<Stretch>, number: u32, output: u32) -> InstRow
    requires { number < length stretches.now }
    ensures { result ≡ inst_row stretches.now number output }
{
    let stretch = stretches.at(number as usize);
    InstRow {
        from: stretch.from,
        to: stretch.to,
        first: stretch.first,
        output: NetId(output),
    }
}

// The row of an instance, whose cell has this number and whose output is on this net.
fn row_for(
    cells: &[Cell],
    stretches: &Rows<Stretch>,
    numbers: &[u32],
    number: u32,
    net: u32,
    inst: &RawInst,
) -> InstRow
    requires cell { IsCellOf cells.now inst.now number }
    requires net { net ≡ output_net cells.now inst.now }
    requires many { length stretches.now ≡ length cells.now }
    ensures { result ≡ row_of cells.now stretches.now numbers.now inst.now }
{
    row_with(stretches, number, number_at(numbers, net as usize))
}

/// The rows of the instances.
pub fn find_rows(
    alloc: Global,
    cells: &[Cell],
    stretches: &Rows<Stretch>,
    numbers: &[u32],
    found: &[u32],
    gates: &[u32],
    insts: &[RawInst],
) -> Result<Rows<InstRow>, AllocError>
    requires found { AreFound cells.now insts.now found.now }
    requires gates { gates.now ≡ output_nets cells.now insts.now }
    requires many { length stretches.now ≡ length cells.now }
    ensures { IfOk result (λ r. r ≡ map (row_of cells.now stretches.now numbers.now) insts.now) }
{
    let mut rows = Vec::with_capacity(alloc, insts.len())?;
    for (i, inst) in insts.iter().enumerate() {
        rows.push(row_for(cells, stretches, numbers, found[i], gates[i], inst))?;
    }
    Ok(Rows::from_vec(rows))
}

// The new numbers of these nets.
fn new_nets(alloc: Global, numbers: &[u32], nets: &[u32]) -> Result<Vec<NetId>, AllocError>
    ensures { IfOk result (λ v. v.items ≡ map (λ n. slice_index numbers.now n) nets.now) }
{
    let mut ids = Vec::with_capacity(alloc, nets.len())?;
    for i in 0..nets.len() {
        ids.push(NetId(number_at(numbers, nets[i] as usize)))?;
    }
    Ok(ids)
}

// How many inputs the cell of an instance has.
fn input_count(cells: &[Cell], number: u32, inst: &RawInst) -> usize
    requires { IsCellOf cells.now inst.now number }
    ensures count { result ≡ length (inputs_of (cell_of cells.now inst.now)) }
    ensures few { result ≤ 6 }
{
    inputs(cell_for(cells, number, inst)).len()
}

// So many of these from a place on.
fn part_of(nets: &[NetId], start: usize, count: usize) -> &[NetId]
    requires { start + count ≤ length nets.now }
    ensures { result.now ≡ take count (drop start nets.now) }
{
    &nets[start..start + count]
}

/// The nets at the inputs of the instances, by their new numbers. The nets that are read are given by instance and pin.
pub fn find_new_inputs(
    alloc: Global,
    cells: &[Cell],
    numbers: &[u32],
    found: &[u32],
    reads: &[u32],
    insts: &[RawInst],
) -> Result<Grouped<NetId>, AllocError>
    requires found { AreFound cells.now insts.now found.now }
    requires reads { BeginsWith (all_input_nets cells.now insts.now) reads.now }
    requires few { length insts.now < 2097152 }
    ensures { IfOk result (λ r. r ≡ map (new_inputs cells.now numbers.now) insts.now) }
{
    let nets = new_nets(alloc, numbers, reads)?;
    let mut all = Grouped::empty(alloc)?;
    let mut start = 0;
    for (i, inst) in insts.iter().enumerate() {
        let count = input_count(cells, found[i], inst);
        all.push(part_of(nets.as_slice(), start, count))?;
        start += count;
    }
    Ok(all)
}

/// The names of the instances.
pub fn find_names(alloc: Global, insts: &[RawInst]) -> Result<Names, AllocError>
    ensures { IfOk result (λ r. r ≡ map raw_name insts.now) }
{
    let mut names = Vec::with_capacity(alloc, insts.len())?;
    for inst in insts {
        names.push(copy_of(alloc, &inst.name)?)?;
    }
    Ok(Names::from_vec(names))
}
