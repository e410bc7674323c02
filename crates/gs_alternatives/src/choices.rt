//! Alternatives, as they lie in memory.
#![tactic(auto)]

use gs_design::CellIds;
use gs_list::Rows;

/// The alternatives of one cell: a stretch of the list of choices.
#[derive(Clone, Copy, Debug, PartialEq, Eq)]
pub struct Stretch {
    /// Where it begins.
    pub from: u32,
    /// Where it ends.
    pub to: u32,
    /// The place of the cell itself, counted from where the stretch begins.
    pub first: u32,
}

/// The alternatives of all cells of a library.
#[derive(Debug, Drop)]
pub struct Alternatives {
    /// The cells of every class, one class after another, each by leakage and then by name. A cell that isn't sizable stands for itself
    /// alone.
    pub choices: CellIds,
    /// The stretch of each cell, by its number.
    pub stretches: Rows<Stretch>,
}
