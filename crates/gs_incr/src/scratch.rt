//! Memory for retiming, which is kept from move to move.
#![tactic(auto)]

ghost use Rattle.std.specs.Prelude.{◌≡◌, ◌==◌, ◌+◌, [], IfOk, OnOk, length, true};
ghost use Rattle.gs_design.specs.Sizes.{FitSizes};
ghost use Rattle.gs_design.specs.Timing.{IsTiming};
ghost use Rattle.gs_incr.specs.Seen.{seen_of};
ghost use Rattle.gs_move.specs.Moves.{is_move};

use crate::cone::{Work, begin, walk};
use crate::laid::Laid;
use crate::queue::Queue;
use gs_design::{Design, NetAt, NetTimes, Sizes, Timing};
use gs_list::Rows;
use gs_move::{Move, moves_fit};
use gs_quantity::{Mem, Steps};
use gs_timing::timing_is_made;
use std::alloc::Global;
use std::marker::Model;
use std::sync::ledger::Ledger;

/// Memory for retiming moves of one design, kept from move to move: to make it takes time by the size of the design, to retime a move with
/// it doesn't. Contracts see for how many `nets` it is, and what the last retiming has `seen`: the nets that it evaluated, in the design's
/// order, each with its new record.
#[derive(Drop)]
pub struct Scratch {
    work: Work,
}

impl Model for Scratch {
    ghost use Rattle.std.specs.Prelude.{length};
    ghost use Rattle.gs_incr.specs.Shown.{Shown};

    ghost Value = { Shown };

    ghost view = { λ s. record { nets = length s.work.laid; seen = s.work.seen.items } };
}

impl Scratch {
    /// Memory for moves of a design. It has seen nothing yet.
    ///
    /// # Errors
    ///
    /// `Mem` is want of memory.
    pub fn new(alloc: Global, design: &Design) -> Result<Scratch, Mem>
        ensures nets { IfOk result (λ s. s.nets ≡ length design.now.nets) }
        ensures seen { IfOk result (λ s. s.seen ≡ []) }
    {
        let laid = Laid::new(alloc, design.nets.len())?;
        let work = Work {
            laid,
            queue: Queue::new(alloc),
            seen: Vec::new(alloc),
        };
        Ok(Scratch { work })
    }

    /// Whether it is memory for as many nets as a design has. It can be used for moves of that design then, whatever it was made for.
    #[inline]
    pub fn is_for(&self, design: &Design) -> bool
        ensures { result ≡ (self.now.nets == length design.now.nets) }
    {
        self.work.laid.count() == design.nets.len()
    }

    /// What the last retiming has seen.
    #[inline]
    pub fn seen(&self) -> &[NetAt]
        ensures { result.now ≡ self.now.seen }
    {
        self.work.seen.as_slice()
    }

    /// The same as a list of its own; the rest of the memory is let go. It takes no memory.
    pub fn into_seen(self) -> NetTimes
        ensures { result ≡ self.seen }
    {
        let Scratch { work } = self;
        let Work { laid, queue, seen } = work;
        let _ = (laid, queue);
        Rows::from_vec(seen)
    }

    /// Evaluates the nets of a move's cone, as [`retime`](crate::retime) does, and keeps them in `seen`.
    ///
    /// # Errors
    ///
    /// `Mem` is want of memory; nothing is said of `seen` then, and the memory can be used again.
    pub fn retime<L: Ledger>(
        &mut self,
        design: &Design,
        sizes: &Sizes,
        timing: &Timing,
        mv: &Move,
        steps: &mut Steps<L>,
    ) -> Result<(), Mem>
        requires nets { self.old.nets ≡ length design.now.nets }
        requires sizes { FitSizes design.now sizes.now }
        requires timing { IsTiming design.now sizes.now timing.now }
        requires mv { is_move design.now sizes.now mv.now ≡ true }
        ensures nets { self.new.nets ≡ self.old.nets }
        ensures seen { OnOk result (self.new.seen ≡ seen_of design.now sizes.now mv.now) }
        ensures steps { OnOk result (steps.new ≡ steps.old + length self.new.seen) }
    {
        moves_fit(design);
        timing_is_made(design);
        begin(design, mv, &mut self.work)?;
        walk(design, sizes, timing, mv, &mut self.work, steps)
    }
}
