//! Recovery without further workers.
#![tactic(auto)]

ghost use Rattle.std.specs.Prelude.{◌≡◌, ◌<◌, ◌≤◌, ◌↔◌, ℕ, IfOk, length, take};
ghost use Rattle.gs_move.specs.Alone.{alone_from};
ghost use Rattle.gs_move.specs.Earned.{IsEarned};
ghost use Rattle.gs_move.specs.Entries.{worker_of};
ghost use Rattle.gs_move.specs.Legal.{IsLegal};
ghost use Rattle.gs_move.specs.Minimum.{IsMinimumBy};
ghost use Rattle.gs_move.specs.Settle.{entry_at};
ghost use Rattle.gs_move.specs.State.{sizes_now};
ghost use Rattle.gs_move.specs.declared.ended.Ended.TheVariants.{Settled, Spent};

use crate::round::{run_round, sweep_book};
use gs_book::Book;
use gs_move::{Ended, Judge, minimum_is_none_fair, recovery_goes_on};
use gs_quantity::Mem;
use std::alloc::Global;
use std::thread::Threads;

/// Recovery without further workers, from the entries that a book has: rounds, each of which sweeps for Fair moves and tries and settles
/// them in order under worker 0, until a sweep finds none (`Settled`) or there are as many entries as the budget (`Spent`).
///
/// A sweep waits for the threads that it starts, and for nothing else; `rt` starts them, and they are seen in no answer. Each trial times
/// what its move changes. Every round but the last adds an entry; and with P moves away from any sizes there are, under leakage recovery,
/// at most P commits and at most P * (P + 2) entries in all (law `legal_is_few` of `gs_move`), so that a greater budget is never spent.
///
/// # Errors
///
/// `Mem` is want of memory; the book is given up.
pub fn recover_alone<R: Threads + Sync, J: Judge>(
    rt: &R,
    alloc: Global,
    book: Book<J>,
) -> Result<(Book<J>, Ended), Mem>
    // Design, judge, start and budget stay.
    ensures same { IfOk result (λ r. r.0 ≡ record book { entries = r.0.entries; spare = r.0.spare }) }
    // Exactly the entries, and the way of ending, of recovery from the book's entries on.
    ensures alone { IfOk result (λ r. alone_from (J.answers book.judge) book.design book.start book.budget book.entries ≡ (r.0.entries, r.1)) }
    // Settled exactly where no move is Fair by the judge at the end.
    ensures settled { IfOk result (λ r. (r.1 ≡ Settled) ↔ IsMinimumBy (J.answers book.judge) book.design (sizes_now book.start r.0.entries)) }
    // Spent with as many entries as the budget.
    ensures spent { IfOk result (λ r. r.1 ≡ Spent → length r.0.entries ≡ book.budget) }
    // The book's entries stay, in front.
    ensures front { IfOk result (λ r. take (length book.entries) r.0.entries ≡ book.entries) }
    ensures legal { IfOk result (λ r. IsLegal (J.answers book.judge) book.design book.start book.budget r.0.entries) }
    // What was earned stays earned, and each reject that is added is.
    ensures earned { IfOk result (λ r. (n : ℕ) → IsEarned (J.answers book.judge) book.design book.start book.entries n → IsEarned (J.answers book.judge) book.design book.start r.0.entries n) }
    // Each entry that is added is one of worker 0.
    ensures worker { IfOk result (λ r. (k : ℕ) → length book.entries ≤ k → k < length r.0.entries → worker_of (entry_at r.0.entries k) ≡ 0) }
{
    let mut book = book;
    loop {
        let moves = sweep_book(rt, alloc, &book)?;
        minimum_is_none_fair(book.design());
        recovery_goes_on(book.design());
        if moves.len() == 0 {
            return Ok((book, Ended::Settled));
        }
        if book.entries().len() as u64 == book.budget() {
            return Ok((book, Ended::Spent));
        }
        run_round(alloc, &mut book, moves.as_slice())?;
    }
}
