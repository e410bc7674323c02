//! Cells.
#![tactic(auto)]

ghost use Rattle.gs_design.specs.Cell.{IsCell};

use crate::arc::Arcs;
use crate::kind::CellKind;
use crate::pin::CellPins;
use gs_list::Rows;
use gs_quantity::Micro;
use gs_text::Name;

/// A cell of a library, after the Liberty reference manual's group `cell`.
///
/// Every cell keeps that its pins are one to six inputs in byte order of their names and then one output of another name; that
/// each arc is from one of the inputs; that a flip-flop has one rising-edge arc or more and no other arcs, and a gate no rising-edge
/// arc; and the ranges of its numbers: a capacitance is below 2^34 millionths, every other number below 2^40, none is negative.
/// Tables keep their own.
#[derive(Drop)]
pub struct Cell {
    /// The cell's name.
    pub name: Name,
    /// Its footprint (`cell_footprint`); empty where the library gives none.
    pub footprint: Name,
    /// Its leakage (`cell_leakage_power`), in millionths of the library's unit.
    pub leakage: Micro,
    /// Its area, in millionths of the library's unit; 0 where the library gives none.
    pub area: Micro,
    /// Whether the library keeps sizing from it (`dont_touch` or `dont_use`).
    pub marked: bool,
    /// What it computes.
    pub kind: CellKind,
    /// Its pins.
    pub pins: CellPins,
    /// Its timing arcs.
    pub arcs: Arcs,
    pub ghost well: { IsCell leakage area kind pins arcs },
}

/// A list of cells.
pub type Cells = Rows<Cell>;
