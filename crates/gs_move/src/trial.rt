//! Trials of moves, and the journal of commits.
#![tactic(auto)]

use crate::delta::Delta;
use crate::moves::Move;
use crate::outcome::Outcome;
use crate::site::Site;
use gs_list::Rows;

/// A list of sites.
pub type Sites = Rows<Site>;

/// What a worker found out about a move, before anything is changed. What it is of a move at sizes says `trial_of` (`specs/Trial.antt`).
#[derive(Debug, Drop)]
pub struct Trial {
    /// The move.
    pub mv: Move,
    /// How many commits the state had at which it was tried.
    pub front: u64,
    /// The worker that tried it.
    pub worker: u32,
    /// The sites that the trial read.
    pub reads: Sites,
    /// What the move changes.
    pub delta: Delta,
    /// What the judge says of it.
    pub outcome: Outcome,
}

/// A commit, with what it changed.
#[derive(Debug, Drop)]
pub struct JournalEntry {
    /// The move.
    pub mv: Move,
    /// The worker that tried it.
    pub worker: u32,
    /// What it changed.
    pub delta: Delta,
}
