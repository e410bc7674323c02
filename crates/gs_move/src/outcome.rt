//! What a judge answers of a move.
#![tactic(auto)]

use gs_design::Limit;

/// Why a move isn't Fair.
#[derive(Clone, Copy, Debug, PartialEq, Eq)]
pub enum Why {
    /// The move gains nothing.
    NoGain,
    /// The move breaks this limit, which was met before it.
    Breaks(Limit),
}

/// What a judge answers of a move.
#[derive(Clone, Copy, Debug, PartialEq, Eq)]
pub enum Outcome {
    /// The move may be committed.
    Fair,
    /// The move must not be committed.
    NotFair(Why),
}
