//! The judge of leakage recovery.
#![tactic(auto)]

ghost use Rattle.std.specs.Prelude.{◌≡◌, int_lt};
ghost use Rattle.gs_move.specs.Recovery.{recovery, unless_broken};
ghost use Rattle.gs_move.specs.RecoveryLaw.{recovery_lawful};

use crate::change::Change;
use crate::judge::Judge;
use crate::outcome::{Outcome, Why};
use gs_design::Limit;
use gs_quantity::Micro;

/// The judge of leakage recovery: a move is Fair where the new cell leaks less than the present one and no limit that was met is broken.
/// Its measure is the leakage of the moved instance's cell. At a glance it refuses a move whose new cell doesn't leak less.
#[derive(Clone, Copy, Debug, PartialEq, Eq)]
pub struct Recovery;

#[inline]
fn leaks_less(leak_old: Micro, leak_new: Micro) -> bool
    ensures { result ≡ int_lt leak_new leak_old }
{
    leak_new < leak_old
}

#[inline]
fn outcome_of(broken: &Option<Limit>) -> Outcome
    ensures { result ≡ unless_broken broken.now }
{
    match *broken {
        None => Outcome::Fair,
        Some(limit) => Outcome::NotFair(Why::Breaks(limit)),
    }
}

// The millionths of an amount.
#[inline]
fn millionths(amount: Micro) -> i128
    ensures { result ≡ amount }
{
    amount.0 as i128
}

impl Judge for Recovery {
    ghost answers = { λ j. recovery };

    fn glance(&self, leak_old: Micro, leak_new: Micro) -> Option<Why> {
        if leaks_less(leak_old, leak_new) {
            None
        } else {
            Some(Why::NoGain)
        }
    }

    fn judge(&self, change: &Change) -> Outcome {
        if leaks_less(change.leak_old, change.leak_new) {
            outcome_of(&change.broken)
        } else {
            Outcome::NotFair(Why::NoGain)
        }
    }

    fn before(&self, change: &Change) -> i128 {
        millionths(change.leak_old)
    }

    fn after(&self, change: &Change) -> i128 {
        millionths(change.leak_new)
    }

    ghost lawful = { λ j. recovery_lawful };
}
