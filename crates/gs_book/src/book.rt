//! Books.
#![tactic(auto)]

ghost use Rattle.std.specs.Prelude.{◌≡◌, ◌<◌, [], IfOk, OnErr, OnOk, length};
ghost use Rattle.std.specs.Arc.{arc_value};
ghost use Rattle.gs_design.specs.Sizes.{FitSizes};
ghost use Rattle.gs_design.specs.Timing.{timing_of};
ghost use Rattle.gs_move.specs.Entries.{commits_of};
ghost use Rattle.gs_move.specs.Legal.{IsLegal};
ghost use Rattle.gs_move.specs.State.{sizes_now};

use crate::rejected::Rejected;
use gs_design::{Design, Sizes, Timing};
use gs_move::{Entry, JournalEntry, Judge};
use gs_quantity::Mem;
use std::alloc::Global;
use std::marker::Model;
use std::sync::Arc;

/// The entries of a run, with the state that its commits lead to. Contracts see a `BookOf`.
#[derive(Drop)]
pub struct Book<J: Judge> {
    pub(crate) design: Arc<Design>,
    pub(crate) judge: J,
    pub(crate) start: Sizes,
    pub(crate) budget: u64,
    pub(crate) entries: Vec<Entry>,
    pub(crate) journal: Vec<JournalEntry>,
    pub(crate) sizes: Sizes,
    pub(crate) timing: Timing,
    pub(crate) rejected: Rejected,
    // the number of the last entry that is a commit, from 1, or 0
    pub(crate) last: u64,
}

impl<J: Judge> Model for Book<J> {
    ghost use Rattle.std.specs.Prelude.{◌-◌, length, min, vec_capacity, vec_len};
    ghost use Rattle.std.specs.Arc.{arc_value};
    ghost use Rattle.gs_book.specs.Book.{BookOf, IsKept};

    ghost Value = { BookOf J };

    ghost view = { λ b. record {
      design = arc_value b.design;
      judge = b.judge;
      start = b.start;
      budget = b.budget;
      entries = b.entries.items;
      spare = min (vec_capacity b.entries - vec_len b.entries) (vec_capacity b.journal - vec_len b.journal);
    } };

    ghost invariant = { λ b. IsKept (J.answers b.judge) (arc_value b.design) b.start b.budget b.entries.items b.journal.items b.sizes b.timing b.rejected b.last };
}

impl<J: Judge> Book<J> {
    /// A book without entries. `start` are the sizes at the start, `timing` is their timing, and `budget` is how many entries the book may have.
    ///
    /// # Errors
    ///
    /// `Mem` is want of memory.
    pub fn open(
        alloc: Global,
        design: Arc<Design>,
        start: Sizes,
        timing: Timing,
        judge: J,
        budget: u64,
    ) -> Result<Book<J>, Mem>
        requires start { FitSizes (arc_value design) start }
        requires timing { timing ≡ timing_of (arc_value design) start }
        ensures design { IfOk result (λ b. b.design ≡ arc_value design) }
        ensures judge { IfOk result (λ b. b.judge ≡ judge) }
        ensures start { IfOk result (λ b. b.start ≡ start) }
        ensures budget { IfOk result (λ b. b.budget ≡ budget) }
        ensures entries { IfOk result (λ b. b.entries ≡ []) }
    {
        let rejected = Rejected::none(alloc, &design)?;
        let sizes = start.copy(alloc)?;
        Ok(Book {
            design,
            judge,
            start,
            budget,
            entries: Vec::new(alloc),
            journal: Vec::new(alloc),
            sizes,
            timing,
            rejected,
            last: 0,
        })
    }

    /// Makes memory for one more entry, so that the next trial can be settled. Nothing else changes.
    ///
    /// # Errors
    ///
    /// `Mem` is want of memory; nothing at all changed.
    pub fn make_room(&mut self) -> Result<(), Mem>
        ensures room { OnOk result (0 < self.new.spare) }
        ensures kept { self.new ≡ record self.old { spare = self.new.spare } }
        ensures mem { OnErr result (self.new ≡ self.old) }
        // Memory runs out only where there is no room.
        ensures told { OnErr result (self.old.spare ≡ 0) }
    {
        self.entries.reserve(1)?;
        self.journal.reserve(1)?;
        Ok(())
    }

    /// The design.
    pub fn design(&self) -> &Design
        ensures { result.now ≡ self.now.design }
    {
        &self.design
    }

    /// The judge.
    pub fn judge(&self) -> &J
        ensures { result.now ≡ self.now.judge }
    {
        &self.judge
    }

    /// The sizes at the start.
    pub fn start(&self) -> &Sizes
        ensures value { result.now ≡ self.now.start }
        ensures fits { FitSizes self.now.design self.now.start }
    {
        &self.start
    }

    /// How many entries the book may have.
    pub fn budget(&self) -> u64
        ensures { result ≡ self.now.budget }
    {
        self.budget
    }

    /// The entries, in order. They are legal.
    pub fn entries(&self) -> &[Entry]
        ensures value { result.now ≡ self.now.entries }
        ensures legal { IsLegal (J.answers self.now.judge) self.now.design self.now.start self.now.budget self.now.entries }
    {
        self.entries.as_slice()
    }

    /// The sizes after all commits.
    pub fn sizes(&self) -> &Sizes
        ensures value { result.now ≡ sizes_now self.now.start self.now.entries }
        ensures fits { FitSizes self.now.design (sizes_now self.now.start self.now.entries) }
    {
        &self.sizes
    }

    /// The timing of these sizes.
    pub fn timing(&self) -> &Timing
        ensures value { result.now ≡ timing_of self.now.design (sizes_now self.now.start self.now.entries) }
    {
        &self.timing
    }

    /// How many commits there are.
    pub fn front(&self) -> u64
        ensures { result ≡ length (commits_of self.now.entries) }
    {
        self.journal.len() as u64
    }
}
