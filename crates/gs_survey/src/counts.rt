//! The arcs of the cells that are used, and how much there is of each kind.
#![tactic(auto)]

ghost use Rattle.std.specs.Prelude.{◌≡◌, ◌≤◌, ◌<◌, All, length, slice_range};
ghost use Rattle.std.specs.List.{range_with_len};
ghost use Rattle.gs_alternatives.specs.Choices.{AreChoices, stretch_at};
ghost use Rattle.gs_design.specs.Alternatives.{alternatives};
ghost use Rattle.gs_design.specs.Cell.{output_place};
ghost use Rattle.gs_design.specs.Design.{has_arc};
ghost use Rattle.gs_survey.specs.Arcs.{no_arc_among, no_arc_of};
ghost use Rattle.gs_survey.specs.Found.{AreFound, IsCellOf};
ghost use Rattle.gs_survey.specs.Counts.{no_arc, no_arc_at, pin_count, too_many};
ghost use Rattle.gs_survey.specs.First.{Checks, first_some, or_else};
ghost use Rattle.gs_survey.specs.Instances.{cell_of};
ghost use Rattle.gs_survey.specs.declared.error.Counted.TheVariants.{Instances, Nets, Pins};

use crate::error::{Counted, LinkErr};
use crate::instances::{cell_at_number, cell_for, is_gate_kind};
use crate::names::copy_of;
use gs_alternatives::{Alternatives, Stretch};
use gs_design::{Cell, CellId};
use gs_verilog::RawInst;
use std::alloc::{AllocError, Global};

fn has_arc_from(cell: &Cell, pin: usize) -> bool
    ensures { result ≡ has_arc cell.now.arcs pin }
{
    cell.arcs
        .as_slice()
        .iter()
        .any(|arc| usize::from(arc.pin) == pin)
}

// Each input of a cell has an arc.
fn check_inputs(alloc: Global, cell: &Cell) -> Result<(), LinkErr>
    ensures { Checks (first_some (no_arc_at cell.now) (range_with_len 0 (output_place cell.now.pins))) result }
{
    let count = cell.pins.len() - 1;
    for pin in 0..count {
        if !has_arc_from(cell, pin) {
            return Err(LinkErr::NoArc {
                cell: copy_of(alloc, &cell.name)?,
                pin: copy_of(alloc, &cell.pins.at(pin).name)?,
            });
        }
    }
    Ok(())
}

// Each input of a gate has an arc.
fn check_cell(alloc: Global, cell: &Cell) -> Result<(), LinkErr>
    ensures { Checks (no_arc cell.now) result }
{
    if is_gate_kind(cell.kind) {
        check_inputs(alloc, cell)
    } else {
        Ok(())
    }
}

// Each input of each of these that is a gate has an arc.
fn check_choices(alloc: Global, cells: &[Cell], choices: &[CellId]) -> Result<(), LinkErr>
    requires { All (λ x. x < length cells.now) choices.now }
    ensures { Checks (first_some (no_arc_of cells.now) choices.now) result }
{
    for i in 0..choices.len() {
        if let Err(error) = check_cell(alloc, cell_at_number(cells, choices[i].number())) {
            return Err(error);
        }
    }
    Ok(())
}

// The stretch of the choices that is the alternatives of a cell.
fn stretch_of(table: &Alternatives, number: u32) -> Stretch
    requires { number < length table.now.stretches }
    ensures { result ≡ stretch_at table.now.stretches number }
{
    *table.stretches.at(number as usize)
}

// Each input of each cell of a stretch of the choices has an arc, where it is a gate.
fn check_stretch(
    alloc: Global,
    cells: &[Cell],
    choices: &[CellId],
    stretch: Stretch,
) -> Result<(), LinkErr>
    requires order { stretch.from ≤ stretch.to }
    requires within { stretch.to ≤ length choices.now }
    requires inside { All (λ x. x < length cells.now) (slice_range choices.now stretch.from stretch.to) }
    ensures { Checks (first_some (no_arc_of cells.now) (slice_range choices.now stretch.from stretch.to)) result }
{
    let part = &choices[stretch.from as usize..stretch.to as usize];
    check_choices(alloc, cells, part)
}

/// The cells of these numbers, and their alternatives, have an arc from each input, where they are gates. The cells of one class share
/// their stretch of the choices, and each stretch is looked at once.
pub fn check_used(
    alloc: Global,
    cells: &[Cell],
    table: &Alternatives,
    found: &[u32],
) -> Result<(), LinkErr>
    requires choices { AreChoices cells.now table.now.choices table.now.stretches }
    requires numbers { All (λ x. x < length cells.now) found.now }
    requires inside { All (λ x. All (λ y. y < length cells.now) (alternatives cells.now x)) found.now }
    ensures { Checks (first_some (no_arc_among cells.now) found.now) result }
{
    let choices = table.choices.as_slice();
    // where the stretch ends that begins at each place and has been looked at
    let mut ends = vec![in alloc; 0u32; choices.len()]?;
    for i in 0..found.len() {
        let stretch = stretch_of(table, found[i]);
        if ends[stretch.from as usize] == stretch.to {
            continue;
        }
        if let Err(error) = check_stretch(alloc, cells, choices, stretch) {
            return Err(error);
        }
        ends[stretch.from as usize] = stretch.to;
    }
    Ok(())
}

/// The driving cells of these numbers have an arc from each input.
pub fn check_driving(alloc: Global, cells: &[Cell], found: &[u32]) -> Result<(), LinkErr>
    requires { All (λ x. x < length cells.now) found.now }
    ensures { Checks (first_some (no_arc_of cells.now) found.now) result }
{
    for i in 0..found.len() {
        if let Err(error) = check_cell(alloc, cell_at_number(cells, found[i])) {
            return Err(error);
        }
    }
    Ok(())
}

// How many pins the cell of an instance has.
fn pins_for(cells: &[Cell], number: u32, inst: &RawInst) -> u64
    requires { IsCellOf cells.now inst.now number }
    ensures pins { result ≡ length (cell_of cells.now inst.now).pins }
    ensures few { result ≤ 7 }
{
    cell_for(cells, number, inst).pins.len() as u64
}

// How many pins are connected.
fn count_pins(cells: &[Cell], found: &[u32], insts: &[RawInst]) -> u64
    requires found { AreFound cells.now insts.now found.now }
    requires few { length insts.now < 2097152 }
    ensures { result ≡ pin_count cells.now insts.now }
{
    let mut count: u64 = 0;
    for (i, inst) in insts.iter().enumerate() {
        count += pins_for(cells, found[i], inst);
    }
    count
}

fn check_count(what: Counted, limit: u64, count: u64) -> Result<(), LinkErr>
    ensures { Checks (too_many what limit count) result }
{
    if count < limit {
        Ok(())
    } else {
        Err(LinkErr::TooMany { what, count })
    }
}

/// There aren't too many instances, nets or connected pins.
pub fn check_counts(
    cells: &[Cell],
    found: &[u32],
    insts: &[RawInst],
    nets: usize,
) -> Result<(), LinkErr>
    requires { AreFound cells.now insts.now found.now }
    ensures { Checks (or_else (too_many Instances 2097152 (length insts.now)) (or_else (too_many Nets 4194304 nets) (too_many Pins 8388608 (pin_count cells.now insts.now)))) result }
{
    if let Err(error) = check_count(Counted::Instances, 2097152, insts.len() as u64) {
        return Err(error);
    }
    if let Err(error) = check_count(Counted::Nets, 4194304, nets as u64) {
        return Err(error);
    }
    check_count(Counted::Pins, 8388608, count_pins(cells, found, insts))
}

/// Each cell that is used has an arc from each input, where it is a gate.
pub fn check_arcs(
    alloc: Global,
    cells: &[Cell],
    table: &Alternatives,
    found: &[u32],
    driving: &[u32],
) -> Result<(), LinkErr>
    requires choices { AreChoices cells.now table.now.choices table.now.stretches }
    requires numbers { All (λ x. x < length cells.now) found.now }
    requires inside { All (λ x. All (λ y. y < length cells.now) (alternatives cells.now x)) found.now }
    requires driving { All (λ x. x < length cells.now) driving.now }
    ensures { Checks (or_else (first_some (no_arc_among cells.now) found.now) (first_some (no_arc_of cells.now) driving.now)) result }
{
    if let Err(error) = check_used(alloc, cells, table, found) {
        return Err(error);
    }
    check_driving(alloc, cells, driving)
}
