//! Cells from what they say.

ghost use Rattle.std.specs.Prelude.{◌≡◌, ◌==◌, ◌++◌, List, true, IfOk, IfErr, All, filter, length, map};
ghost use Rattle.std.specs.List.{flat_map, list_any};
ghost use Rattle.gs_design.specs.Cell.{IsCell};
ghost use Rattle.gs_libcell.specs.Grid.{grid_lists, table_lists};
ghost use Rattle.gs_libcell.specs.Timing.{timing_lists};
ghost use Rattle.gs_design.specs.declared.arc.TimingArc.{TimingArc};
ghost use Rattle.gs_quantity.specs.Lookup.{IsTable};
ghost use Rattle.gs_lib.specs.Draft.{amount_or_zero, arc_lists, arc_of, arcs_of, cell_lists, cell_of, draft_lists, given_amount, grid_is_given, has_tables, input_pin, input_pins, is_related, lists_given, output_pin, pins_of_draft, role_of};
ghost use Rattle.gs_lib.specs.Profile.{is_output};
ghost use Rattle.gs_lib.specs.declared.error.LibErr.{LibErr};

use crate::draft::Draft;
use crate::error::LibErr;
use crate::profile::is_output;
use gs_design::{Arcs, Cell, CellKind, CellPin, CellPins, Role, TimingArc};
use gs_libcell::{Amount, Grid, NamedPin, Timing};
use gs_list::Rows;
use gs_quantity::{Micro, Micros, Table};
use gs_text::Name;
use std::alloc::Global;

pub fn given_amount(amount: Amount) -> Option<Micro>
    ensures { result ≡ given_amount amount }
{
    match amount {
        Amount::Absent => None,
        Amount::Bad => None,
        Amount::Is(number) => Some(number),
    }
}

fn amount_or_zero(amount: Amount) -> Micro
    ensures { result ≡ amount_or_zero amount }
{
    match given_amount(amount) {
        Some(number) => number,
        None => Micro(0),
    }
}

/// Whether a group names the input of a place.
fn names_input(place: usize, related: &[u8]) -> bool
    ensures { result ≡ list_any (λ p. p == place) related.now }
{
    related.iter().any(|input| usize::from(*input) == place)
}

/// Whether one of the groups names the input of a place.
fn is_related(place: usize, timings: &[Timing]) -> bool
    ensures { result ≡ is_related place (map timing_lists timings.now) }
{
    for timing in timings {
        if names_input(place, timing.related.as_slice()) {
            return true;
        }
    }
    false
}

fn role_of(flop: bool, timings: &[Timing], place: usize, pin: &NamedPin) -> Role
    ensures { result ≡ role_of flop (map timing_lists timings.now) place pin.now }
{
    if flop && (pin.facts.clock || is_related(place, timings)) {
        return Role::Clock;
    }
    Role::Input
}

fn input_pin(alloc: Global, role: Role, pin: &NamedPin) -> Result<CellPin, LibErr>
    ensures ok { IfOk result (λ p. p ≡ input_pin role pin.now) }
    ensures err { IfErr result (λ e. e ≡ LibErr.Mem) }
{
    let name = Name::copy_of(alloc, pin.name.as_bytes())?;
    Ok(CellPin {
        name,
        role,
        cap: amount_or_zero(pin.facts.cap),
        slew_bound: given_amount(pin.facts.max_transition),
        load_bound: None,
    })
}

fn output_pin(alloc: Global, pin: &NamedPin) -> Result<CellPin, LibErr>
    ensures ok { IfOk result (λ p. p ≡ output_pin pin.now) }
    ensures err { IfErr result (λ e. e ≡ LibErr.Mem) }
{
    let name = Name::copy_of(alloc, pin.name.as_bytes())?;
    Ok(CellPin {
        name,
        role: Role::Output,
        cap: Micro(0),
        slew_bound: given_amount(pin.facts.max_transition),
        load_bound: given_amount(pin.facts.max_cap),
    })
}

/// The inputs as pins.
fn input_pins(
    alloc: Global,
    flop: bool,
    timings: &[Timing],
    inputs: &[NamedPin],
) -> Result<Vec<CellPin>, LibErr>
    ensures ok { IfOk result (λ v. v.items ≡ input_pins flop (map timing_lists timings.now) 0 inputs.now) }
    ensures err { IfErr result (λ e. e ≡ LibErr.Mem) }
{
    // the output comes behind them
    let mut pins = Vec::with_capacity(alloc, inputs.len() + 1)?;
    for (place, input) in inputs.iter().enumerate() {
        let pin = input_pin(alloc, role_of(flop, timings, place, input), input)?;
        pins.push(pin)?;
    }
    Ok(pins)
}

/// Puts the outputs last.
fn push_outputs(alloc: Global, named: &[NamedPin], pins: &mut Vec<CellPin>) -> Result<(), LibErr>
    ensures ok { IfOk result (λ _. pins.new.items ≡ pins.old.items ++ map output_pin (filter is_output named.now)) }
    ensures err { IfErr result (λ e. e ≡ LibErr.Mem) }
{
    for pin in named {
        if !is_output(pin) {
            continue;
        }
        let output = output_pin(alloc, pin)?;
        pins.push(output)?;
    }
    Ok(())
}

/// The pins of a draft: its inputs in order, and then its output.
fn pins_of(alloc: Global, draft: &Draft) -> Result<CellPins, LibErr>
    ensures ok { IfOk result (λ p. p ≡ pins_of_draft (draft_lists draft.now)) }
    ensures err { IfErr result (λ e. e ≡ LibErr.Mem) }
{
    let mut pins = input_pins(
        alloc,
        draft.flop,
        draft.timings.as_slice(),
        draft.inputs.as_slice(),
    )?;
    push_outputs(alloc, draft.pins.as_slice(), &mut pins)?;
    Ok(Rows::from_vec(pins))
}

fn copy_points(alloc: Global, points: &Micros) -> Result<Micros, LibErr>
    ensures ok { IfOk result (λ m. m ≡ points.now) }
    ensures err { IfErr result (λ e. e ≡ LibErr.Mem) }
{
    let copy = Vec::from_slice(alloc, points.as_slice())?;
    Ok(Micros::from_vec(copy))
}

fn make_table(xs: Micros, ys: Micros, zs: Micros) -> Table
    requires { IsTable xs ys zs }
    ensures { table_lists result ≡ record { xs = xs; ys = ys; zs = zs } }
{
    Table { xs, ys, zs }
}

/// The table of a group that has it.
fn table_in(grid: &Grid) -> &Table
    requires { grid_is_given (grid_lists grid.now) ≡ true }
    ensures { table_lists result.now ≡ lists_given (grid_lists grid.now) }
{
    let Grid::Is(table) = grid else {
        unreachable!()
    };
    table
}

/// A copy of a table.
fn copy_table(alloc: Global, table: &Table) -> Result<Table, LibErr>
    ensures ok { IfOk result (λ t. table_lists t ≡ table_lists table.now) }
    ensures err { IfErr result (λ e. e ≡ LibErr.Mem) }
{
    let xs = copy_points(alloc, &table.xs)?;
    let ys = copy_points(alloc, &table.ys)?;
    let zs = copy_points(alloc, &table.zs)?;
    Ok(make_table(xs, ys, zs))
}

/// The arc of a group from an input.
fn arc_of(alloc: Global, timing: &Timing, pin: u8) -> Result<TimingArc, LibErr>
    requires { has_tables (timing_lists timing.now) ≡ true }
    ensures ok { IfOk result (λ a. arc_lists a ≡ arc_of (timing_lists timing.now) pin) }
    ensures err { IfErr result (λ e. e ≡ LibErr.Mem) }
{
    let cell_rise = copy_table(alloc, table_in(&timing.cell_rise))?;
    let cell_fall = copy_table(alloc, table_in(&timing.cell_fall))?;
    let rise_transition = copy_table(alloc, table_in(&timing.rise_transition))?;
    let fall_transition = copy_table(alloc, table_in(&timing.fall_transition))?;
    Ok(TimingArc {
        pin,
        sense: timing.sense,
        cell_rise,
        cell_fall,
        rise_transition,
        fall_transition,
    })
}

/// Puts the arcs of a group last.
fn push_arcs(alloc: Global, timing: &Timing, arcs: &mut Vec<TimingArc>) -> Result<(), LibErr>
    requires { has_tables (timing_lists timing.now) ≡ true }
    ensures ok { IfOk result (λ _. map arc_lists arcs.new.items ≡ map arc_lists arcs.old.items ++ arcs_of (timing_lists timing.now)) }
    ensures err { IfErr result (λ e. e ≡ LibErr.Mem) }
{
    for pin in timing.related.as_slice() {
        let arc = arc_of(alloc, timing, *pin)?;
        arcs.push(arc)?;
    }
    Ok(())
}

/// The arcs of the groups.
fn arcs_of(alloc: Global, timings: &[Timing]) -> Result<Arcs, LibErr>
    requires { All (λ t. has_tables (timing_lists t) ≡ true) timings.now }
    ensures ok { IfOk result (λ a. map arc_lists a ≡ flat_map arcs_of (map timing_lists timings.now)) }
    ensures err { IfErr result (λ e. e ≡ LibErr.Mem) }
{
    // most groups name one input
    let mut arcs = Vec::with_capacity(alloc, timings.len())?;
    for timing in timings {
        push_arcs(alloc, timing, &mut arcs)?;
    }
    Ok(Rows::from_vec(arcs))
}

fn make_cell(draft: Draft, pins: CellPins, arcs: Arcs) -> Cell
    requires { IsCell (amount_or_zero draft.leakage) (amount_or_zero draft.area) draft.kind pins arcs }
    ensures name { result.name ≡ draft.name }
    ensures footprint { result.footprint ≡ draft.footprint }
    ensures leakage { result.leakage ≡ amount_or_zero draft.leakage }
    ensures area { result.area ≡ amount_or_zero draft.area }
    ensures marked { result.marked ≡ draft.marked }
    ensures kind { result.kind ≡ draft.kind }
    ensures pins { result.pins ≡ pins }
    ensures arcs { result.arcs ≡ arcs }
{
    let leakage = amount_or_zero(draft.leakage);
    let area = amount_or_zero(draft.area);
    let Draft {
        name,
        footprint,
        marked,
        kind,
        ..
    } = draft;
    Cell {
        name,
        footprint,
        leakage,
        area,
        marked,
        kind,
        pins,
        arcs,
    }
}

/// The cell of a draft in which nothing is missing or bad.
pub fn cell_of(alloc: Global, draft: Draft) -> Result<Cell, LibErr>
    requires tables { All (λ t. has_tables (timing_lists t) ≡ true) draft.timings }
    requires well { (arcs : List TimingArc) → map arc_lists arcs ≡ flat_map arcs_of (map timing_lists draft.timings)
        → IsCell (amount_or_zero draft.leakage) (amount_or_zero draft.area) draft.kind (pins_of_draft (draft_lists draft)) arcs }
    ensures ok { IfOk result (λ c. cell_lists c ≡ cell_of (draft_lists draft)) }
    ensures err { IfErr result (λ e. e ≡ LibErr.Mem) }
{
    let pins = pins_of(alloc, &draft)?;
    let arcs = arcs_of(alloc, draft.timings.as_slice())?;
    Ok(make_cell(draft, pins, arcs))
}
