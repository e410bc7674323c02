//! Judges of moves.
#![tactic(auto)]

ghost use Rattle.std.specs.Prelude.{◌≡◌};
ghost use Rattle.gs_move.specs.Change.{facts_of};

use crate::change::Change;
use crate::outcome::{Outcome, Why};
use gs_quantity::Micro;

/// Who decides which moves are committed. Each of the four answers is a function of the judge's value and of the arguments alone; `answers`
/// is these four functions. They keep the law `IsLawful` (`specs/Judge.antt`): a move that is Fair lowers the judge's measure of the state, and a
/// glance refuses only what `judge` refuses for the same reason, so it never makes a move Fair.
///
/// The calls take no memory.
pub trait Judge: Copy + Send + Sync {
    ghost use Rattle.gs_move.specs.Judge.{Answers, IsLawful};

    ghost answers: { Self → Answers };

    /// Why a move isn't Fair, where the leakages of the moved instance's present and of its new cell alone decide that.
    fn glance(&self, leak_old: Micro, leak_new: Micro) -> Option<Why>
        ensures { result ≡ (answers self.now).glance leak_old leak_new };

    /// Whether a move with this change is Fair, and why not.
    fn judge(&self, change: &Change) -> Outcome
        ensures { result ≡ (answers self.now).judge (facts_of change.now) };

    /// The judge's measure of the state before a change, in a unit of its own.
    fn before(&self, change: &Change) -> i128
        ensures { result ≡ (answers self.now).before (facts_of change.now) };

    /// The same of the state after it.
    fn after(&self, change: &Change) -> i128
        ensures { result ≡ (answers self.now).after (facts_of change.now) };

    ghost lawful: { (j : Self) → IsLawful (answers j) };
}
