//! What settling a trial answers.
#![tactic(auto)]

use crate::site::Site;

/// What settling a trial answers. Entries and commits count from 1. Which answer comes when says `settle_of` (`specs/Settle.antt`).
#[derive(Clone, Copy, Debug, PartialEq, Eq)]
pub enum Settled {
    /// There are as many entries as there may be; nothing changed.
    Spent {
        /// How many entries there are.
        settled: u64,
    },
    /// A commit came after the state at which the trial was made; nothing changed.
    Stale {
        /// A site that a later commit changed.
        site: Site,
        /// The number of that commit.
        at: u64,
    },
    /// The same move was rejected, and no commit came after that; nothing changed.
    Known {
        /// The number of the entry that rejects it.
        k: u64,
    },
    /// The move isn't Fair now, and an entry says so.
    Rejected {
        /// The number of that entry.
        k: u64,
    },
    /// The move is Fair now, and was committed.
    Committed {
        /// The number of this commit.
        k: u64,
    },
}
