//! The places that instances take in a pass.
#![tactic(auto)]

ghost use Rattle.std.specs.Prelude.{◌≡◌, ◌<◌, IfOk, None, fold, length};
ghost use Rattle.gs_design.specs.Insts.{inst_at};
ghost use Rattle.gs_lagrange.specs.Flow.{weight_in};
ghost use Rattle.gs_lagrange.specs.Place.{cheaper, choices_to, place_for, places_for};

use crate::choice::{Choice, cheaper_of, place_or};
use crate::chooser::{Chooser, choose_all};
use crate::price::choice_at;
use crate::weighed::Weighed;
use gs_design::{InstId, SizeView, Sizes};
use gs_quantity::Mem;
use std::alloc::Global;
use std::thread::Threads;

// The first choice of least cost among the allowed places of an instance.
fn cheapest(weighed: &Weighed, inst: InstId) -> Option<Choice>
    requires inst { inst < length weighed.now.design.now.insts }
    ensures { result ≡ fold cheaper None (choices_to weighed.now.design.now weighed.now.sizes.now weighed.now.timing.now (weight_in weighed.now.flows.now) inst (length (inst_at weighed.now.design.now.insts inst).alts)) }
{
    let mut best: Option<Choice> = None;
    for place in 0..weighed.design.insts.alts(inst).len() as u32 {
        let choice = match choice_at(weighed, inst, place) {
            Some(choice) => choice,
            None => continue,
        };
        best = cheaper_of(&best, &choice);
    }
    best
}

// The place that an instance takes.
fn place_for(weighed: &Weighed, inst: InstId) -> u32
    requires inst { inst < length weighed.now.design.now.insts }
    ensures { result ≡ place_for weighed.now.design.now weighed.now.sizes.now weighed.now.timing.now (weight_in weighed.now.flows.now) inst }
{
    let present = weighed.sizes.place(inst);
    if weighed.design.insts.alts(inst).len() > 1 {
        place_or(&cheapest(weighed, inst), present)
    } else {
        present
    }
}

impl Chooser for Weighed<'_> {
    ghost use Rattle.std.specs.Prelude.{length};
    ghost use Rattle.gs_lagrange.specs.Flow.{weight_in};
    ghost use Rattle.gs_lagrange.specs.Place.{place_for};

    ghost count = { λ w. length w.design.now.insts };

    ghost chosen = { λ w. place_for w.design.now w.sizes.now w.timing.now (weight_in w.flows.now) };

    fn choose(&self, number: usize) -> u32 {
        let _count = self.design.insts.len();
        place_for(self, InstId(number as u32))
    }
}

/// The places that all instances take, chosen in parallel.
///
/// # Errors
///
/// `Mem` is want of memory.
pub fn places_for<R: Threads + Sync>(rt: &R, alloc: Global, weighed: &Weighed) -> Result<Sizes, Mem>
    ensures { IfOk result (λ s. s ≡ places_for weighed.now.design.now weighed.now.sizes.now weighed.now.timing.now (weight_in weighed.now.flows.now)) }
{
    choose_all(rt, alloc, weighed, weighed.design.insts.len())
}
