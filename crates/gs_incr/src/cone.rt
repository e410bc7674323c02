//! The walk through the cone of a move, rank by rank.
#![tactic(auto)]

ghost use Rattle.std.specs.Prelude.{◌≡◌, ◌+◌, ◌++◌, ◌<◌, ◌∷◌, ℕ, List, [], OnOk, length, true};
ghost use Rattle.gs_design.specs.Sizes.{FitSizes};
ghost use Rattle.gs_design.specs.Timing.{FitTiming, IsTiming, local_of, timing_of};
ghost use Rattle.gs_design.specs.declared.time.NetTime.{NetTime};
ghost use Rattle.gs_incr.specs.Laid.{times_over};
ghost use Rattle.gs_incr.specs.Queue.{has};
ghost use Rattle.gs_incr.specs.Seen.{seen_between};
ghost use Rattle.gs_incr.specs.Walk.{IsWalk};
ghost use Rattle.gs_move.specs.Moves.{after, is_move};
ghost use Rattle.gs_timing.specs.Calm.{IsCalmAt};

use crate::laid::Laid;
use crate::over::{Moved, Over};
use crate::queue::Queue;
use crate::readers::{put_readers_if, put_seeds};
use crate::same::same_record;
use gs_design::{Design, NetAt, NetId, NetTime, Sizes, TimeView, Timing};
use gs_move::{Move, moves_fit};
use gs_quantity::{Mem, Steps};
use gs_timing::{arrivals_are_small, eval_net, record_reads, timing_is_made};
use std::alloc::AllocError;
use std::sync::ledger::Ledger;

/// What a walk writes.
#[derive(Drop)]
pub struct Work {
    /// The new records of the nets that were evaluated.
    pub laid: Laid,
    /// The ranks of nets that are to be evaluated.
    pub queue: Queue,
    /// The nets that were evaluated, in order, each with its new record.
    pub seen: Vec<NetAt>,
}

// The record of a net at the sizes after a move, over what is laid so far.
#[inline]
fn evaluated<L: Ledger>(
    design: &Design,
    sizes: &Sizes,
    timing: &Timing,
    mv: &Move,
    laid: &Laid,
    net: NetId,
    steps: &mut Steps<L>,
) -> NetTime
    requires sizes { FitSizes design.now sizes.now }
    requires timing { FitTiming design.now timing.now }
    requires laid { length laid.now ≡ length design.now.nets }
    requires mv { is_move design.now sizes.now mv.now ≡ true }
    requires net { net < length design.now.nets }
    requires calm { IsCalmAt design.now (times_over timing.now laid.now) net }
    ensures value { result ≡ local_of design.now (after sizes.now mv.now) (times_over timing.now laid.now) net }
    ensures steps { steps.new ≡ steps.old + 1 }
{
    moves_fit(design);
    let moved = Moved { sizes, mv };
    let over = Over { base: timing, laid };
    eval_net(design, &moved, &over, net, steps)
}

// Puts one net last.
#[inline]
fn add(seen: &mut Vec<NetAt>, net: NetId, time: NetTime) -> Result<(), AllocError>
    ensures { OnOk result (seen.new.items ≡ seen.old.items ++ record { net = net; time = time } ∷ []) }
{
    seen.push(NetAt { net, time })?;
    Ok(())
}

// Evaluates the net of a rank that waits.
fn visit<L: Ledger>(
    design: &Design,
    sizes: &Sizes,
    timing: &Timing,
    mv: &Move,
    rank: u32,
    work: &mut Work,
    steps: &mut Steps<L>,
) -> Result<(), Mem>
    requires sizes { FitSizes design.now sizes.now }
    requires timing { IsTiming design.now sizes.now timing.now }
    requires mv { is_move design.now sizes.now mv.now ≡ true }
    requires laid { length work.old.laid ≡ length design.now.nets }
    requires waits { has work.old.queue rank ≡ true }
    requires walk { IsWalk design.now mv.now timing.now (timing_of design.now (after sizes.now mv.now)) (times_over timing.now work.old.laid) work.old.queue work.old.seen.items rank }
    ensures laid { length work.new.laid ≡ length work.old.laid }
    ensures steps { steps.new ≡ steps.old + 1 }
    ensures longer { OnOk result (length work.new.seen.items ≡ length work.old.seen.items + 1) }
    ensures walk { OnOk result (IsWalk design.now mv.now timing.now (timing_of design.now (after sizes.now mv.now)) (times_over timing.now work.new.laid) work.new.queue work.new.seen.items (rank + 1)) }
{
    moves_fit(design);
    record_reads(design);
    timing_is_made(design);
    arrivals_are_small(design);
    let net = *design.order.at(rank as usize);
    let time = evaluated(design, sizes, timing, mv, &work.laid, net, steps);
    let changed = !same_record(&timing.at(net), &time);
    work.laid.put(net, time);
    add(&mut work.seen, net, time)?;
    put_readers_if(&mut work.queue, design, net, changed)
}

/// Evaluates the nets of a move's cone, in the design's order, from where a walk begins.
pub fn walk<L: Ledger>(
    design: &Design,
    sizes: &Sizes,
    timing: &Timing,
    mv: &Move,
    work: &mut Work,
    steps: &mut Steps<L>,
) -> Result<(), Mem>
    requires sizes { FitSizes design.now sizes.now }
    requires timing { IsTiming design.now sizes.now timing.now }
    requires mv { is_move design.now sizes.now mv.now ≡ true }
    requires laid { length work.old.laid ≡ length design.now.nets }
    requires empty { work.old.seen.items ≡ [] }
    requires walk { IsWalk design.now mv.now timing.now (timing_of design.now (after sizes.now mv.now)) (times_over timing.now work.old.laid) work.old.queue work.old.seen.items 0 }
    ensures laid { length work.new.laid ≡ length work.old.laid }
    ensures seen { OnOk result (work.new.seen.items ≡ seen_between design.now mv.now timing.now (timing_of design.now (after sizes.now mv.now))) }
    ensures steps { OnOk result (steps.new ≡ steps.old + length work.new.seen.items) }
{
    moves_fit(design);
    record_reads(design);
    timing_is_made(design);
    let mut next = 0;
    while let Some(rank) = work.queue.first_from(next) {
        visit(design, sizes, timing, mv, rank, work, steps)?;
        next = rank + 1;
    }
    Ok(())
}

/// Makes work ready for a walk: nothing is laid, and the nets of the moved instance wait.
pub fn begin(design: &Design, mv: &Move, work: &mut Work) -> Result<(), Mem>
    requires { mv.now.inst < length design.now.insts }
    ensures laid { length work.new.laid ≡ length work.old.laid }
    ensures empty { OnOk result (work.new.seen.items ≡ []) }
    ensures walk { OnOk result ((t u : List NetTime) → FitTiming design.now t → IsWalk design.now mv.now t u (times_over t work.new.laid) work.new.queue work.new.seen.items 0) }
{
    work.laid.clear();
    work.queue.clear();
    work.seen.clear();
    put_seeds(&mut work.queue, design, mv.inst)
}
