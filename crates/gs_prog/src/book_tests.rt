//! What settling trials leaves in a book, found by hand on the chain of two inverters. Which answer a trial gets says the clause `answer` of
//! `Book::settle`.

ghost use Rattle.std.specs.Prelude.{◌≡◌, ◌<◌, IfOk, true};
ghost use Rattle.gs_book.specs.Book.{IsTrialOf};
ghost use Rattle.gs_design.specs.Sizes.{FitSizes};
ghost use Rattle.gs_design.specs.Timing.{IsTiming};
ghost use Rattle.gs_move.specs.Moves.{is_move};
ghost use Rattle.gs_move.specs.Recovery.{recovery};
ghost use Rattle.gs_move.specs.Trial.{trial_of};

use crate::chain::{CHAIN, FAST, SLOW, fitting, inverters, is_one};
use gs_book::Book;
use gs_design::{Design, InstId, Sizes, Timing};
use gs_move::{Move, Recovery, Trial};
use gs_quantity::{Mem, Steps};
use gs_timing::{time_all, timing_is_made};
use gs_trial::try_move;
use std::alloc::Global;
use std::marker::Brand;
use std::sync::Arc;
use std::sync::ledger::{Blank, Ledger};
use std::test::Fail;

/// To the inverter that leaks less.
fn down(inst: u32) -> Move {
    Move {
        inst: InstId(inst),
        place: 0,
    }
}

/// Back to the inverter of the netlist.
fn back(inst: u32) -> Move {
    Move {
        inst: InstId(inst),
        place: 1,
    }
}

/// A book of the chain at the sizes of the netlist.
fn open(alloc: Global, sdc: &[u8], budget: u64) -> Result<Book<Recovery>, Fail> {
    let design = inverters(alloc, CHAIN, sdc)?;
    timing_is_made(&design);
    let start = fitting(alloc, &design, &[1, 1])?;
    let timing = time_all(alloc, &design, &start)?;
    match Arc::new(alloc, design) {
        Ok(design) => Ok(Book::open(alloc, design, start, timing, Recovery, budget)?),
        Err(_) => Err(Fail::new("there is memory")),
    }
}

fn tried<L: Ledger>(
    alloc: Global,
    blank: Blank,
    design: &Design,
    sizes: &Sizes,
    timing: &Timing,
    front: u64,
    mv: Move,
) -> Result<Trial, Mem>
    requires name { blank.name ≡ L.name }
    requires parts { blank.parts ≡ L.parts }
    requires some { 0 < blank.parts }
    requires sizes { FitSizes design.now sizes.now }
    requires timing { IsTiming design.now sizes.now timing.now }
    requires mv { is_move design.now sizes.now mv ≡ true }
    ensures { IfOk result (λ t. t ≡ trial_of recovery design.now sizes.now mv front 3) }
{
    let mut steps = Steps::<L>::begin(blank);
    try_move(
        alloc, design, sizes, timing, front, 3, mv, &Recovery, &mut steps,
    )
}

/// The trial of a move at the start of a book.
fn first_trial(alloc: Global, book: &Book<Recovery>, mv: Move) -> Result<Trial, Fail>
    ensures { IfOk result (IsTrialOf recovery book.now.design book.now.start book.now.entries) }
{
    timing_is_made(book.design());
    if !is_one(book.design(), book.start(), &mv) {
        return Err(Fail::new("it is a move"));
    }
    let timing = time_all(alloc, book.design(), book.start())?;
    Ok(tried::<Brand>(
        alloc,
        Blank::new(1),
        book.design(),
        book.start(),
        &timing,
        0,
        mv,
    )?)
}

/// The trial of a move at the end of a book.
fn last_trial(alloc: Global, book: &Book<Recovery>, mv: Move) -> Result<Trial, Fail>
    ensures { IfOk result (IsTrialOf recovery book.now.design book.now.start book.now.entries) }
{
    timing_is_made(book.design());
    if !is_one(book.design(), book.sizes(), &mv) {
        return Err(Fail::new("it is a move"));
    }
    let front = book.front();
    Ok(tried::<Brand>(
        alloc,
        Blank::new(1),
        book.design(),
        book.sizes(),
        book.timing(),
        front,
        mv,
    )?)
}

/// Settles the trial of a move at the start.
fn settle_first(alloc: Global, book: &mut Book<Recovery>, mv: Move) -> Result<(), Fail> {
    book.make_room()?;
    let trial = first_trial(alloc, book, mv)?;
    book.settle(trial);
    Ok(())
}

/// Settles the trial of a move at the end.
fn settle_last(alloc: Global, book: &mut Book<Recovery>, mv: Move) -> Result<(), Fail> {
    book.make_room()?;
    let trial = last_trial(alloc, book, mv)?;
    book.settle(trial);
    Ok(())
}

/// Whether the book has so many entries, and so many of them are commits.
fn has(book: &Book<Recovery>, entries: usize, commits: u64) -> bool {
    book.entries().len() == entries && book.front() == commits
}

#[test]
fn a_move_that_is_not_fair_is_rejected_once(rt: HostRuntime) -> Result<(), Fail> {
    let mut book = open(rt.alloc(), FAST, 9)?;
    settle_last(rt.alloc(), &mut book, down(0))?;
    assert!(rt; has(&book, 1, 1));
    settle_last(rt.alloc(), &mut book, down(1))?;
    assert!(rt; has(&book, 2, 1));
    settle_last(rt.alloc(), &mut book, down(1))?;
    assert!(rt; has(&book, 2, 1));
    Ok(())
}

#[test]
fn a_full_book_takes_no_entry(rt: HostRuntime) -> Result<(), Fail> {
    let mut book = open(rt.alloc(), FAST, 1)?;
    settle_last(rt.alloc(), &mut book, down(0))?;
    assert!(rt; has(&book, 1, 1));
    settle_last(rt.alloc(), &mut book, down(1))?;
    assert!(rt; has(&book, 1, 1));
    let mut none = open(rt.alloc(), FAST, 0)?;
    settle_last(rt.alloc(), &mut none, down(0))?;
    assert!(rt; has(&none, 0, 0));
    Ok(())
}

#[test]
fn a_trial_from_before_a_commit_is_stale(rt: HostRuntime) -> Result<(), Fail> {
    let mut book = open(rt.alloc(), SLOW, 9)?;
    settle_first(rt.alloc(), &mut book, down(1))?;
    assert!(rt; has(&book, 1, 1));
    settle_first(rt.alloc(), &mut book, down(0))?;
    assert!(rt; has(&book, 1, 1));
    settle_last(rt.alloc(), &mut book, down(0))?;
    assert!(rt; has(&book, 2, 2));
    assert_eq!(rt; book.sizes().as_slice(), [0, 0].as_slice());
    assert_eq!(rt; book.start().as_slice(), [1, 1].as_slice());
    Ok(())
}

#[test]
fn a_reject_does_not_count_after_a_commit(rt: HostRuntime) -> Result<(), Fail> {
    let mut book = open(rt.alloc(), SLOW, 9)?;
    settle_last(rt.alloc(), &mut book, down(0))?;
    assert!(rt; has(&book, 1, 1));
    settle_last(rt.alloc(), &mut book, back(0))?;
    assert!(rt; has(&book, 2, 1));
    settle_last(rt.alloc(), &mut book, down(1))?;
    assert!(rt; has(&book, 3, 2));
    settle_last(rt.alloc(), &mut book, back(0))?;
    assert!(rt; has(&book, 4, 2));
    settle_last(rt.alloc(), &mut book, back(0))?;
    assert!(rt; has(&book, 4, 2));
    Ok(())
}
