//! What is told of a run.
#![tactic(auto)]

use gs_move::{Ended, Entries};

/// The log of a run.
#[derive(Debug, Drop)]
pub struct Log {
    /// What the run did with each move that it tried, in order.
    pub entries: Entries,
    /// How it ended.
    pub ended: Ended,
    /// How many entries it was allowed.
    pub budget: u64,
}

/// A run, for the report.
#[derive(Clone, Copy, Debug)]
pub struct Ran<'a> {
    /// Its log.
    pub log: &'a Log,
    /// How many workers it had beside worker 0, which began it.
    pub workers: u32,
}
