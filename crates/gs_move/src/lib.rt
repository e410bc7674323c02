//! Moves: their types, what they mean, and who judges them.
//!
//! A move gives one instance of a design another of its alternatives. A run tries moves, commits some and rejects the others, and keeps an
//! entry of each. This crate tries nothing itself. It has the types that all crates which try, judge, record or check moves share, and the
//! definitions by which they say what they do. The definitions speak of a design, sizes, entries and the answers of any judge:
//!
//! | file of `specs` | what it says |
//! |---|---|
//! | `Moves.antt` | what a move is, the sizes after it, and all moves in order |
//! | `Fair.antt` | which moves are Fair, by leakages and limits alone |
//! | `Records.antt`, `Cone.antt` | which records differ, and the nets that a move may change |
//! | `Change.antt` | what a judge sees of a move |
//! | `Judge.antt` | a judge's answers, their law, and which moves are Fair by a judge |
//! | `Recovery.antt` | the judge of leakage recovery |
//! | `Run.antt`, `Minimum.antt` | runs of Fair moves, their end, and sizes at which no move is Fair |
//! | `Trial.antt`, `Delta.antt` | what a trial gives, and what installing a delta changes |
//! | `Entries.antt`, `State.antt` | what entries say, and the states that their commits lead through |
//! | `Settle.antt` | what settling a trial answers, and the entry that it leaves |
//! | `Legal.antt`, `Earned.antt` | which entries a run may have, and which rejects are earned |
//! | `Alone.antt` | the entries of recovery without further workers |
//!
//! [`Judge`] is the trait of judges and [`Recovery`] the one that `size` uses. [`install`] changes sizes and timing as a [`Delta`] says.
//!
//! What holds of the definitions for all inputs are calls that do nothing (`src/laws.rt`), which the crates above reason with. So they speak of
//! settling, sweeping and recovery without proving any of it again: that recovery's judge finds exactly the Fair moves Fair, that a delta gives the
//! timing after its move, that settling keeps entries legal, that each round adds an entry and keeps rejects earned, and how many entries there
//! can be.
//!
//! To add a judge, implement [`Judge`] for it: the check asks for the proof of its law, and everything above holds of it.
#![tactic(auto)]

mod change;
mod delta;
mod ended;
mod entry;
mod judge;
mod laws;
mod moves;
mod outcome;
mod recovery;
mod settled;
mod site;
#[cfg(test)]
mod tests;
mod trial;

pub use change::Change;
pub use delta::{Delta, install};
pub use ended::Ended;
pub use entry::{Entries, Entry};
pub use judge::Judge;
pub use laws::{
    delta_is_exact, judges_are_lawful, legal_is_few, legal_is_run, minimum_is_none_fair, moves_fit,
    recovery_finds_fair, recovery_goes_on, settling_is_legal, trials_are_judged,
};
pub use moves::Move;
pub use outcome::{Outcome, Why};
pub use recovery::Recovery;
pub use settled::Settled;
pub use site::Site;
pub use trial::{JournalEntry, Sites, Trial};
