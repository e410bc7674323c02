//! The best sizes so far.
#![tactic(auto)]

use crate::score::Score;
use gs_design::Sizes;

/// The first sizes of least score so far, with the score.
#[derive(Drop)]
pub struct Best {
    pub sizes: Sizes,
    pub score: Score,
}
