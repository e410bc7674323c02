//! Starting sizes.
#![tactic(auto)]

ghost use Rattle.std.specs.Prelude.{◌≡◌, IfOk};
ghost use Rattle.gs_design.specs.Sizes.{FitSizes};
ghost use Rattle.gs_lagrange.specs.Kept.{IsKept, IsScored};
ghost use Rattle.gs_lagrange.specs.Start.{better, start_of};

use crate::best::Best;
use crate::flow::Flows;
use crate::pass::{after_pass, first_state};
use crate::score::{is_less, score_of};
use crate::state::State;
use gs_design::{Design, Sizes};
use gs_quantity::Mem;
use std::alloc::Global;
use std::thread::Threads;

// The sizes of a state, with their score.
fn scored(alloc: Global, design: &Design, state: &State) -> Result<Best, Mem>
    requires kept { IsKept design.now state.now }
    ensures sizes { IfOk result (λ b. b.sizes ≡ state.now.sizes) }
    ensures scored { IfOk result (λ b. IsScored design.now b) }
{
    let score = score_of(design, &state.sizes, &state.timing);
    let sizes = state.sizes.copy(alloc)?;
    Ok(Best { sizes, score })
}

// The better of the best sizes so far and those of a state.
fn better_of(alloc: Global, design: &Design, best: Best, state: &State) -> Result<Best, Mem>
    requires kept { IsKept design.now state.now }
    requires scored { IsScored design.now best }
    ensures sizes { IfOk result (λ b. b.sizes ≡ better design.now best.sizes state.now.sizes) }
    ensures scored { IfOk result (λ b. IsScored design.now b) }
{
    let score = score_of(design, &state.sizes, &state.timing);
    if is_less(&score, &best.score) {
        scored(alloc, design, state)
    } else {
        Ok(best)
    }
}

/// The starting sizes after so many passes: of the sizes of the netlist and those after each pass the first with the least excess, and among
/// these with the least leakage.
///
/// A pass gives each instance the place of least cost, all at once, by the timing before it: 2^20 times the leakage, and the arrivals of the
/// instance's nets times the nets' weights. A net's weight is the sum of the multipliers of the endpoints whose latest path comes by it, and
/// a multiplier rises while its endpoint is late. It takes for each pass the time of some timings of the design. The places of a
/// pass are chosen in parallel, by as many threads as `rt` has; no answer shows how many.
///
/// # Errors
///
/// `Mem` is want of memory.
pub fn start<R: Threads + Sync>(
    rt: &R,
    alloc: Global,
    design: &Design,
    passes: u32,
) -> Result<Sizes, Mem>
    ensures start { IfOk result (λ s. s ≡ start_of design.now passes) }
    ensures fit { IfOk result (λ s. FitSizes design.now s) }
{
    let mut flows = Flows::none(alloc, design.nets.len())?;
    let mut state = first_state(alloc, design)?;
    let mut best = scored(alloc, design, &state)?;
    for _ in 0..passes {
        let next = after_pass(rt, alloc, design, &state, &mut flows)?;
        let better = better_of(alloc, design, best, &next)?;
        state = next;
        best = better;
    }
    let Best { sizes, score: _ } = best;
    Ok(sizes)
}
