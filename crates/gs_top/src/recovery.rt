//! Leakage recovery of a design, and its log.
ghost use Rattle.std.specs.Prelude.{◌≡◌, ◌<◌, ◌≤◌, ◌-◌, ◌^◌, IfOk, [], length};
ghost use Rattle.gs_design.specs.Insts.{inst_at};
ghost use Rattle.gs_design.specs.Sizes.{FitSizes, move_count};
ghost use Rattle.gs_top.specs.Recovery.{IsRecovery, budget_of, log_with};

use gs_book::Book;
use gs_design::{Design, InstId, Sizes};
use gs_list::Rows;
use gs_move::{Ended, Recovery, legal_is_few, legal_is_run, minimum_is_none_fair, moves_fit};
use gs_pool::recover_alone;
use gs_quantity::Mem;
use gs_report::{Log, each_log_is_determined};
use gs_timing::{time_all, timing_is_made};
use std::alloc::Global;
use std::sync::Arc;
use std::thread::Threads;

/// How many moves an instance has from any place.
fn moves_of(design: &Design, number: u32) -> u64
    requires { number < length design.now.insts }
    ensures value { result ≡ length (inst_at design.now.insts number).alts - 1 }
    ensures few { result ≤ 1023 }
{
    design.insts.alts(InstId(number)).len() as u64 - 1
}

/// How many moves there are from any sizes: fewer than `2^31`.
fn count_moves(design: &Design) -> u64
    ensures value { result ≡ move_count design.now }
    ensures few { result ≤ 2147483648 }
{
    let mut count: u64 = 0;
    for number in 0..design.insts.len() as u32 {
        count += moves_of(design, number);
    }
    count
}

/// How many entries a log may have.
fn budget_of(design: &Design, budget: Option<u64>) -> u64
    ensures { result ≡ budget_of budget design.now }
{
    match budget {
        Some(budget) => budget,
        None => {
            let moves = count_moves(design);
            moves * (moves + 2) + 1
        }
    }
}

/// A book of a design, opened at these sizes.
fn open(alloc: Global, design: Design, start: Sizes, budget: u64) -> Result<Book<Recovery>, Mem>
    requires { FitSizes design start }
    ensures design { IfOk result (λ b. b.design ≡ design) }
    ensures start { IfOk result (λ b. b.start ≡ start) }
    ensures budget { IfOk result (λ b. b.budget ≡ budget) }
    ensures entries { IfOk result (λ b. b.entries ≡ []) }
{
    timing_is_made(&design);
    let timing = time_all(alloc, &design, &start)?;
    match Arc::new(alloc, design) {
        Ok(design) => Book::open(alloc, design, start, timing, Recovery, budget),
        Err(_) => Err(Mem),
    }
}

/// The log of a book.
fn log_of(alloc: Global, book: &Book<Recovery>, ended: Ended) -> Result<Log, Mem>
    ensures { IfOk result (λ l. l ≡ log_with book.now.entries ended book.now.budget) }
{
    let entries = Vec::from_slice(alloc, book.entries())?;
    Ok(Log {
        entries: Rows::from_vec(entries),
        ended,
        budget: book.budget(),
    })
}

/// A budget has 64 bits. The call does nothing.
fn has_64_bits(budget: u64)
    ensures { budget < 2 ^ 64 }
{
    let _ = budget;
}

/// Recovers leakage of a design from these sizes, without workers. Answers the book with which it ended, and its log.
pub(crate) fn recover<R: Threads + Sync>(
    rt: &R,
    alloc: Global,
    design: Design,
    start: Sizes,
    budget: Option<u64>,
) -> Result<(Book<Recovery>, Log), Mem>
    requires { FitSizes design start }
    ensures design { IfOk result (λ r. r.0.design ≡ design) }
    ensures start { IfOk result (λ r. r.0.start ≡ start) }
    ensures entries { IfOk result (λ r. r.0.entries ≡ r.1.entries) }
    ensures log { IfOk result (λ r. IsRecovery design start (budget_of budget design) 0 r.1) }
{
    legal_is_run(&design);
    legal_is_few(&design);
    minimum_is_none_fair(&design);
    moves_fit(&design);
    each_log_is_determined(&design);
    let entries = budget_of(&design, budget);
    has_64_bits(entries);
    let book = open(alloc, design, start, entries)?;
    let (book, ended) = recover_alone(rt, alloc, book)?;
    let log = log_of(alloc, &book, ended)?;
    Ok((book, log))
}
