//! Kinds of cells.
#![tactic(auto)]

/// What a cell computes.
#[derive(Clone, Copy, Debug, PartialEq, Eq)]
pub enum CellKind {
    /// A gate: bit `i` of the truth table, for `i` below 2 to the number of inputs, is the output where input `j` has bit `j` of `i`.
    Gate {
        /// The truth table.
        truth: u64,
    },
    /// A flip-flop.
    Flop,
}
