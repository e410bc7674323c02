//! Entries of a run.
#![tactic(auto)]

ghost use Rattle.std.specs.Prelude.{◌≡◌};
ghost use Rattle.gs_move.specs.Entries.{is_commit, move_of, worker_of};

use crate::moves::Move;
use gs_list::Rows;

/// What a run did with a move that one of its workers tried. Worker 0 is the one that began the run.
#[derive(Clone, Copy, Debug, PartialEq, Eq)]
pub enum Entry {
    /// The move was committed.
    Commit {
        /// The move.
        mv: Move,
        /// The worker that tried it.
        worker: u32,
    },
    /// The move was rejected.
    Reject {
        /// The move.
        mv: Move,
        /// The worker that tried it.
        worker: u32,
    },
}

impl Entry {
    /// The move that was tried.
    #[inline]
    pub fn mv(&self) -> Move
        ensures { result ≡ move_of self.now }
    {
        match *self {
            Entry::Commit { mv, worker: _ } => mv,
            Entry::Reject { mv, worker: _ } => mv,
        }
    }

    /// The worker that tried it.
    #[inline]
    pub fn worker(&self) -> u32
        ensures { result ≡ worker_of self.now }
    {
        match *self {
            Entry::Commit { mv: _, worker } => worker,
            Entry::Reject { mv: _, worker } => worker,
        }
    }

    /// Whether the move was committed.
    #[inline]
    pub fn is_commit(&self) -> bool
        ensures { result ≡ is_commit self.now }
    {
        matches!(self, Entry::Commit { .. })
    }
}

/// The entries of a run, in order.
pub type Entries = Rows<Entry>;
