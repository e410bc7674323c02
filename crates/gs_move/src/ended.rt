//! How a run ended.
#![tactic(auto)]

/// How a run ended.
#[derive(Clone, Copy, Debug, PartialEq, Eq)]
pub enum Ended {
    /// No move is left that a run would commit.
    Settled,
    /// The run has as many entries as it may have.
    Spent,
}
