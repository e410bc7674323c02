//! What a move changes, as a judge sees it.
#![tactic(auto)]

ghost use Rattle.std.specs.Prelude.{◌<◌};

use gs_design::Limit;
use gs_quantity::Micro;

/// What a move changes, as a judge sees it. Both sums are below 2^127. What these are of a move at sizes says `change_of`
/// (`specs/Change.antt`).
#[derive(Debug, Drop)]
pub struct Change {
    /// The leakage of the moved instance's present cell, in millionths of the library's unit.
    pub leak_old: Micro,
    /// The leakage of its new cell.
    pub leak_new: Micro,
    /// The first limit that is met before the move and not after it: setup by endpoint, then slew by net, then load by net.
    pub broken: Option<Limit>,
    /// The sum, over the limits of the nets of the move's cone, of what is held above the bound before the move, in millionths of 1 ps and
    /// of 1 fF.
    pub over_old: u128,
    /// The same after the move.
    pub over_new: u128,
    pub ghost few_old: { over_old < 170141183460469231731687303715884105728 },
    pub ghost few_new: { over_new < 170141183460469231731687303715884105728 },
}
