//! Recovery: runs that commit Fair moves, round after round, until none is left or the budget is spent.
//!
//! [`recover_alone`] promises the recovery without further workers that `gs_move` states (`alone_from`, `specs/Alone.antt` there), from the
//! entries that a book already has. It ends settled exactly at a minimum for the book's judge, and else with as many entries as the budget.
//!
//! Where to change what: the sweep of a book, one move and one round in `round`, the rounds in `alone`.
#![tactic(auto)]

mod alone;
mod round;

pub use alone::recover_alone;
