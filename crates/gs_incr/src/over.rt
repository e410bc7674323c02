//! Sizes after a move, and a timing with records laid over it, as views: nothing is copied.
#![tactic(auto)]

ghost use Rattle.std.specs.Prelude.{◌≡◌, ◌<◌, length, slice_index, slice_index_or};

use crate::laid::Laid;
use gs_design::{InstId, NetId, NetTime, SizeView, Sizes, TimeView, Timing};
use gs_move::Move;

/// Sizes after a move.
#[derive(Clone, Copy)]
pub struct Moved<'a> {
    /// The sizes before it.
    pub sizes: &'a Sizes,
    /// The move.
    pub mv: &'a Move,
}

impl<'a> SizeView for Moved<'a> {
    ghost use Rattle.gs_move.specs.Moves.{after};

    ghost places = { λ m. after m.sizes.now m.mv.now };

    #[inline]
    fn place(&self, inst: InstId) -> u32 {
        let sizes = self.sizes;
        let mv = self.mv;
        if inst.number() == mv.inst.number() {
            return mv.place;
        }
        sizes.place(inst)
    }
}

/// A timing with records laid over it.
#[derive(Clone, Copy)]
pub struct Over<'a> {
    /// The timing.
    pub base: &'a Timing,
    /// The records.
    pub laid: &'a Laid,
    ghost as_many: { length laid.now ≡ length base.now },
}

impl<'a> TimeView for Over<'a> {
    ghost use Rattle.gs_incr.specs.Laid.{times_over};

    ghost times = { λ o. times_over o.base.now o.laid.now };

    #[inline]
    fn at(&self, net: NetId) -> NetTime {
        let base = self.base;
        let laid = self.laid;
        match laid.at(net) {
            Some(time) => time,
            None => base.at(net),
        }
    }
}
