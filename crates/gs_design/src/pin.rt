//! Pins of cells.
#![tactic(auto)]

use gs_list::Rows;
use gs_quantity::Micro;
use gs_text::Name;

/// What a pin of a cell is for.
#[derive(Clone, Copy, Debug, PartialEq, Eq)]
pub enum Role {
    /// An input of a gate, or a data pin of a flip-flop.
    Input,
    /// An input at which a flip-flop takes its data over.
    Clock,
    /// The cell's output.
    Output,
}

/// A pin of a cell, after the Liberty reference manual's group `pin`.
#[derive(Debug, Drop)]
pub struct CellPin {
    /// The pin's name.
    pub name: Name,
    /// What it is for.
    pub role: Role,
    /// What it adds to the load of its net (`capacitance`), in millionths of 1 fF; of an output it counts for nothing.
    pub cap: Micro,
    /// The greatest slew that it allows on its net (`max_transition`), in millionths of 1 ps, where it has one of its own.
    pub slew_bound: Option<Micro>,
    /// The greatest load that it drives (`max_capacitance`), in millionths of 1 fF, where it has one.
    pub load_bound: Option<Micro>,
}

/// The pins of a cell: its inputs in byte order of their names, and then its output.
pub type CellPins = Rows<CellPin>;
