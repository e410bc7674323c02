//! Sweeps.
#![tactic(auto)]

ghost use Rattle.std.specs.Prelude.{◌≡◌, ◌<◌, All, IfOk, length, map, true};
ghost use Rattle.std.specs.List.{flat_map, range_with_len};
ghost use Rattle.gs_design.specs.Sizes.{FitSizes};
ghost use Rattle.gs_design.specs.Timing.{IsTiming};
ghost use Rattle.gs_move.specs.Judge.{fair_moves};
ghost use Rattle.gs_move.specs.Moves.{is_move};
ghost use Rattle.gs_sweep.specs.Inst.{fair_of_inst};

use crate::insts::fair_at;
use crate::swept::Swept;
use gs_design::{Design, Sizes, Timing};
use gs_incr::Scratch;
use gs_move::{Judge, Move};
use gs_quantity::Mem;
use rayon::prelude::*;
use std::alloc::{AllocError, Global};
use std::thread::Threads;

// As many instances as a thread takes at least.
const LEAST_SHARE: usize = 16;

// The Fair moves of each instance, by number, found in parallel. No answer shows how many threads took part.
fn fair_of_each<R: Threads + Sync, J: Judge>(
    rt: &R,
    alloc: Global,
    swept: &Swept<J>,
) -> Result<Vec<Vec<Move>>, Mem>
    ensures { IfOk result (λ v. map (λ w. w.items) v.items ≡ map (fair_of_inst (J.answers swept.now.judge.now) swept.now.design.now swept.now.sizes.now) (range_with_len 0 (length swept.now.design.now.insts))) }
{
    (0..swept.design.insts.len())
        .into_par_iter()
        .with_min_len(LEAST_SHARE)
        .map_init(
            || -> Option<Scratch> { None },
            |kept: &mut Option<Scratch>, number: usize| -> Result<Vec<Move>, Mem>
                requires { number < length swept.now.design.now.insts }
                ensures { IfOk result (λ v. v.items ≡ fair_of_inst (J.answers swept.entry.now.judge.now) swept.entry.now.design.now swept.entry.now.sizes.now number) }
            { fair_at(alloc, swept, kept, number) },
        )
        .collect::<Result<Vec<Vec<Move>>, Mem>>(rt, alloc)?
}

// Lists one after another.
fn joined(alloc: Global, lists: &[Vec<Move>]) -> Result<Vec<Move>, AllocError>
    ensures { IfOk result (λ v. v.items ≡ flat_map (λ w. w.items) lists.now) }
{
    let mut all = Vec::new(alloc);
    for list in lists {
        all.extend_from_slice(list.as_slice())?;
    }
    Ok(all)
}

/// All moves at sizes that a judge finds Fair, by instance and then place. Conditions: the sizes fit the design, and the timing is theirs.
///
/// It judges each move of the design by what it changes, in several threads: the instances are shared out among them, and each keeps its
/// memory from move to move. How many threads there are is seen in no answer.
///
/// # Errors
///
/// `Mem` is want of memory.
pub fn sweep<R: Threads + Sync, J: Judge>(
    rt: &R,
    alloc: Global,
    design: &Design,
    sizes: &Sizes,
    timing: &Timing,
    judge: &J,
) -> Result<Vec<Move>, Mem>
    requires sizes { FitSizes design.now sizes.now }
    requires timing { IsTiming design.now sizes.now timing.now }
    ensures fair { IfOk result (λ v. v.items ≡ fair_moves (J.answers judge.now) design.now sizes.now) }
    // each of them is a move at the sizes
    ensures moves { IfOk result (λ v. All (λ m. is_move design.now sizes.now m ≡ true) v.items) }
{
    let swept = Swept {
        design,
        sizes,
        timing,
        judge,
    };
    let lists = fair_of_each(rt, alloc, &swept)?;
    let all = joined(alloc, lists.as_slice())?;
    Ok(all)
}
