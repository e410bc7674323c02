//! One round of recovery without further workers.
#![tactic(auto)]

ghost use Rattle.std.specs.Prelude.{◌≡◌, ◌<◌, ◌==◌, All, IfOk, OnOk, length, slice_index, true};
ghost use Rattle.gs_move.specs.Alone.{after_move, after_round, sweep_of};
ghost use Rattle.gs_move.specs.Entries.{IsMoveOf, commits_of};
ghost use Rattle.gs_move.specs.Moves.{is_move};
ghost use Rattle.gs_move.specs.State.{sizes_now};
ghost use Rattle.gs_move.specs.Trial.{trial_of};

use gs_book::Book;
use gs_design::SizeView;
use gs_incr::Scratch;
use gs_move::{Judge, Move, Trial, moves_fit};
use gs_quantity::{Mem, Steps};
use gs_sweep::sweep;
use gs_timing::timing_is_made;
use gs_trial::try_in;
use std::alloc::Global;
use std::marker::Brand;
use std::sync::ledger::{Blank, Ledger};
use std::thread::Threads;

/// The moves that are Fair at a book's sizes by its judge, by instance and then place: what a round begins with.
///
/// # Errors
///
/// `Mem` is want of memory.
pub fn sweep_book<R: Threads + Sync, J: Judge>(
    rt: &R,
    alloc: Global,
    book: &Book<J>,
) -> Result<Vec<Move>, Mem>
    ensures fair { IfOk result (λ v. v.items ≡ sweep_of (J.answers book.now.judge) book.now.design book.now.start book.now.entries) }
    ensures moves { IfOk result (λ v. All (IsMoveOf book.now.design) v.items) }
{
    timing_is_made(book.design());
    moves_fit(book.design());
    sweep(
        rt,
        alloc,
        book.design(),
        book.sizes(),
        book.timing(),
        book.judge(),
    )
}

// The trial of a move on a book itself, under worker 0. The counter of the trial is thrown away.
fn tried<J: Judge, L: Ledger>(
    alloc: Global,
    blank: Blank,
    scratch: &mut Scratch,
    book: &Book<J>,
    mv: Move,
) -> Result<Trial, Mem>
    requires name { blank.name ≡ L.name }
    requires parts { blank.parts ≡ L.parts }
    requires some { 0 < blank.parts }
    requires nets { scratch.old.nets ≡ length book.now.design.nets }
    requires mv { is_move book.now.design (sizes_now book.now.start book.now.entries) mv ≡ true }
    ensures nets { scratch.new.nets ≡ scratch.old.nets }
    ensures trial { IfOk result (λ t. t ≡ trial_of (J.answers book.now.judge) book.now.design (sizes_now book.now.start book.now.entries) mv (length (commits_of book.now.entries)) 0) }
{
    timing_is_made(book.design());
    let mut steps = Steps::<L>::begin(blank);
    let worker = 0;
    try_in(
        alloc,
        scratch,
        book.design(),
        book.sizes(),
        book.timing(),
        book.front(),
        worker,
        mv,
        book.judge(),
        &mut steps,
    )
}

// Whether a move's place is the present one.
fn is_present<J: Judge>(book: &Book<J>, mv: &Move) -> bool
    requires { IsMoveOf book.now.design mv.now }
    ensures { result ≡ (mv.now.place == slice_index (sizes_now book.now.start book.now.entries) mv.now.inst) }
{
    mv.place == book.sizes().place(mv.inst)
}

// Tries a move on a book itself and settles it; a move whose place is the present one is skipped.
fn settle_move<J: Judge>(
    alloc: Global,
    scratch: &mut Scratch,
    book: &mut Book<J>,
    mv: Move,
) -> Result<(), Mem>
    requires nets { scratch.old.nets ≡ length book.old.design.nets }
    requires mv { IsMoveOf book.old.design mv }
    ensures nets { scratch.new.nets ≡ scratch.old.nets }
    ensures book { OnOk result (book.new ≡ record book.old { entries = after_move (J.answers book.old.judge) book.old.design book.old.start book.old.budget book.old.entries mv; spare = book.new.spare }) }
{
    if is_present(book, &mv) {
        return Ok(());
    }
    book.make_room()?;
    let trial = tried::<J, Brand>(alloc, Blank::new(1), scratch, book, mv)?;
    book.settle(trial);
    Ok(())
}

/// Runs a round over these moves of the book's design: each is tried and settled at once, in order, until the budget is reached.
///
/// # Errors
///
/// `Mem` is want of memory; the book has then been through a part of the round.
pub fn run_round<J: Judge>(alloc: Global, book: &mut Book<J>, moves: &[Move]) -> Result<(), Mem>
    requires { All (IsMoveOf book.old.design) moves.now }
    ensures { OnOk result (book.new ≡ record book.old { entries = after_round (J.answers book.old.judge) book.old.design book.old.start book.old.budget book.old.entries moves.now; spare = book.new.spare }) }
{
    let mut scratch = Scratch::new(alloc, book.design())?;
    for mv in moves {
        if book.entries().len() as u64 == book.budget() {
            return Ok(());
        }
        settle_move(alloc, &mut scratch, book, *mv)?;
    }
    Ok(())
}
