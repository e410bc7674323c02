//! Passes, from state to state.
#![tactic(auto)]

ghost use Rattle.std.specs.Prelude.{◌≡◌, IfOk, length, replicate};
ghost use Rattle.gs_design.specs.Sizes.{FitSizes};
ghost use Rattle.gs_lagrange.specs.Carry.{AreHeld};
ghost use Rattle.gs_lagrange.specs.Flow.{AreLight, weight_in};
ghost use Rattle.gs_lagrange.specs.Kept.{IsKept};
ghost use Rattle.gs_lagrange.specs.Place.{places_for};
ghost use Rattle.gs_lagrange.specs.Start.{after_pass, first_state, state_with};
ghost use Rattle.gs_lagrange.specs.Weight.{weight_of};

use crate::flow::Flows;
use crate::multiplier::raised_all;
use crate::place::places_for;
use crate::state::State;
use crate::weigh::weigh;
use crate::weighed::Weighed;
use gs_design::{Design, Numbers, Sizes};
use gs_list::Rows;
use gs_quantity::Mem;
use gs_timing::{arrivals_are_small, time_all, timing_is_made};
use std::alloc::Global;
use std::thread::Threads;

// These sizes with their timing, and these multipliers.
fn state_with(
    alloc: Global,
    design: &Design,
    sizes: Sizes,
    multipliers: Numbers,
) -> Result<State, Mem>
    requires fit { FitSizes design.now sizes }
    requires many { length multipliers ≡ length design.now.ends }
    requires held { AreHeld multipliers }
    ensures value { IfOk result (λ x. x ≡ state_with design.now sizes multipliers) }
    ensures kept { IfOk result (λ x. IsKept design.now x) }
{
    timing_is_made(design);
    let timing = time_all(alloc, design, &sizes)?;
    Ok(State {
        sizes,
        timing,
        multipliers,
    })
}

// So many multipliers of 0.
fn zeros(alloc: Global, count: usize) -> Result<Numbers, Mem>
    ensures value { IfOk result (λ r. r ≡ replicate count 0) }
    ensures held { IfOk result (λ r. AreHeld r) }
{
    let items = vec![in alloc; 0; count]?;
    Ok(Rows::from_vec(items))
}

/// The state before the first pass: the sizes of the netlist, and each multiplier at 0.
///
/// # Errors
///
/// `Mem` is want of memory.
pub fn first_state(alloc: Global, design: &Design) -> Result<State, Mem>
    ensures value { IfOk result (λ x. x ≡ first_state design.now) }
    ensures kept { IfOk result (λ x. IsKept design.now x) }
{
    let sizes = design.netlist_sizes(alloc)?;
    let multipliers = zeros(alloc, design.ends.len())?;
    state_with(alloc, design, sizes, multipliers)
}

// What the costs of a pass are reckoned from.
fn weighed<'a>(design: &'a Design, state: &'a State, flows: &'a Flows) -> Weighed<'a>
    requires kept { IsKept design.now state.now }
    requires as_many { length flows.now ≡ length design.now.nets }
    requires light { AreLight flows.now }
    ensures design { result.design.now ≡ design.now }
    ensures sizes { result.sizes.now ≡ state.now.sizes }
    ensures timing { result.timing.now ≡ state.now.timing }
    ensures flows { result.flows.now ≡ flows.now }
{
    Weighed {
        design,
        sizes: &state.sizes,
        timing: &state.timing,
        flows,
    }
}

// The places that the nets' weights give.
fn replaced<R: Threads + Sync>(
    rt: &R,
    alloc: Global,
    design: &Design,
    state: &State,
    flows: &Flows,
) -> Result<Sizes, Mem>
    requires kept { IsKept design.now state.now }
    requires as_many { length flows.now ≡ length design.now.nets }
    requires light { AreLight flows.now }
    ensures value { IfOk result (λ s. s ≡ places_for design.now state.now.sizes state.now.timing (weight_in flows.now)) }
    ensures fit { IfOk result (λ s. FitSizes design.now s) }
{
    places_for(rt, alloc, &weighed(design, state, flows))
}

// The sizes after a pass.
fn sizes_after<R: Threads + Sync>(
    rt: &R,
    alloc: Global,
    design: &Design,
    state: &State,
    flows: &mut Flows,
) -> Result<Sizes, Mem>
    requires kept { IsKept design.now state.now }
    requires as_many { length flows.old ≡ length design.now.nets }
    ensures as_many { length flows.new ≡ length design.now.nets }
    ensures value { IfOk result (λ s. s ≡ places_for design.now state.now.sizes state.now.timing (weight_of design.now state.now.sizes state.now.timing state.now.multipliers)) }
    ensures fit { IfOk result (λ s. FitSizes design.now s) }
{
    weigh(
        design,
        &state.sizes,
        &state.timing,
        &state.multipliers,
        flows,
    );
    replaced(rt, alloc, design, state, flows)
}

/// The state after a pass. `flows` is of as many nets as the design; what it held is gone.
///
/// # Errors
///
/// `Mem` is want of memory.
pub fn after_pass<R: Threads + Sync>(
    rt: &R,
    alloc: Global,
    design: &Design,
    state: &State,
    flows: &mut Flows,
) -> Result<State, Mem>
    requires kept { IsKept design.now state.now }
    requires as_many { length flows.old ≡ length design.now.nets }
    ensures as_many { length flows.new ≡ length design.now.nets }
    ensures value { IfOk result (λ x. x ≡ after_pass design.now state.now) }
    ensures kept { IfOk result (λ x. IsKept design.now x) }
{
    arrivals_are_small(design);
    let sizes = sizes_after(rt, alloc, design, state, flows)?;
    let multipliers = raised_all(alloc, design, &state.timing, &state.multipliers)?;
    state_with(alloc, design, sizes, multipliers)
}
