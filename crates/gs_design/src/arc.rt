//! Timing arcs of cells.
#![tactic(auto)]

use gs_list::Rows;
use gs_quantity::Table;

/// Which edges at an arc's input make which edges at the output: the Liberty reference manual's `timing_sense`, and for
/// flip-flops its `timing_type` of `rising_edge`.
#[derive(Clone, Copy, Debug, PartialEq, Eq)]
pub enum Sense {
    /// A rise makes a rise, a fall a fall: `positive_unate`.
    Same,
    /// A rise makes a fall, a fall a rise: `negative_unate`.
    Other,
    /// Each edge makes both: `non_unate`.
    Both,
    /// The output of a flip-flop changes at the clock's rising edge, which comes at time 0 with slew 0: `rising_edge`.
    Launch,
}

/// An arc from an input of a cell to its output, with its tables over input slew and output load.
#[derive(Drop)]
pub struct TimingArc {
    /// The input: its place among the cell's pins.
    pub pin: u8,
    /// Which edges it passes.
    pub sense: Sense,
    /// The delay of the output's rise.
    pub cell_rise: Table,
    /// The delay of the output's fall.
    pub cell_fall: Table,
    /// The slew of the output's rise.
    pub rise_transition: Table,
    /// The slew of the output's fall.
    pub fall_transition: Table,
}

/// The arcs of a cell, in the order of the library.
pub type Arcs = Rows<TimingArc>;
