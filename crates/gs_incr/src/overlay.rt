//! What a move changes of a timing.
#![tactic(auto)]

ghost use Rattle.std.specs.Prelude.{◌≡◌, ◌+◌, IfOk, length, true};
ghost use Rattle.gs_design.specs.Sizes.{FitSizes};
ghost use Rattle.gs_design.specs.Timing.{IsTiming};
ghost use Rattle.gs_incr.specs.Seen.{seen_of};
ghost use Rattle.gs_move.specs.Moves.{is_move};

use crate::scratch::Scratch;
use gs_design::{Design, NetTimes, Sizes, Timing};
use gs_move::Move;
use gs_quantity::{Mem, Steps};
use std::alloc::Global;
use std::sync::ledger::Ledger;

/// What is laid over a timing where a gate is moved: all that the move changes of it.
#[derive(Debug, Drop)]
pub struct Overlay {
    /// The nets that were evaluated, in the design's order, each with its new record.
    pub seen: NetTimes,
}

/// Times what a move changes. Evaluated are exactly the moved instance's output net and input nets, and each net of a gate with an input net
/// whose record changes; each is evaluated once, after its input nets, and counts as one step. Conditions: the timing is that of the sizes,
/// and the move is one at the sizes.
///
/// It makes its own memory, which takes time by the size of the design. A caller with many moves keeps a [`Scratch`].
///
/// # Errors
///
/// `Mem` is want of memory.
pub fn retime<L: Ledger>(
    alloc: Global,
    design: &Design,
    sizes: &Sizes,
    timing: &Timing,
    mv: Move,
    steps: &mut Steps<L>,
) -> Result<Overlay, Mem>
    requires sizes { FitSizes design.now sizes.now }
    requires timing { IsTiming design.now sizes.now timing.now }
    requires mv { is_move design.now sizes.now mv ≡ true }
    ensures seen { IfOk result (λ o. o.seen ≡ seen_of design.now sizes.now mv) }
    ensures steps { IfOk result (λ o. steps.new ≡ steps.old + length o.seen) }
{
    let mut scratch = Scratch::new(alloc, design)?;
    scratch.retime(design, sizes, timing, &mv, steps)?;
    Ok(Overlay {
        seen: scratch.into_seen(),
    })
}
