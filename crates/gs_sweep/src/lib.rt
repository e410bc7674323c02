//! Sweeps: all moves at sizes that a judge finds Fair.
//!
//! [`sweep`] promises the list `fair_moves` of `gs_move` (`specs/Judge.antt` there): all moves, by instance and then place, of which the judge
//! says Fair. It tries each move at the sizes that it is given, and changes nothing.
//!
//! Where to change what: what a sweep reads in `swept`, whether one move is Fair in `fair`, the moves of one instance in `insts`, the parallel
//! map over all instances in `sweeps`.
#![tactic(auto)]

mod fair;
mod insts;
mod sweeps;
mod swept;

pub use sweeps::sweep;
