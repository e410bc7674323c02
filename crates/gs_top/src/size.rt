//! The command `size`: the sizes to which leakage recovery leads, its log, and a report.
ghost use Rattle.std.specs.Prelude.{◌≡◌, IfOk, true};
ghost use Rattle.gs_design.specs.Sizes.{FitSizes};
ghost use Rattle.gs_design.specs.Timing.{timing_of};
ghost use Rattle.gs_move.specs.Entries.{AreEntriesOf};
ghost use Rattle.gs_move.specs.State.{sizes_now};
ghost use Rattle.gs_top.specs.Answer.{seen};
ghost use Rattle.gs_top.specs.Command.{Prepares, SizePlans, command_of, run_done, run_texts};
ghost use Rattle.gs_top.specs.Job.{input_of, is_good};
ghost use Rattle.gs_top.specs.Start.{begun};
ghost use Rattle.gs_top.specs.declared.job.Job.{Job};

use crate::from::load_start;
use crate::job::SizeJob;
use crate::link::load_design;
use crate::plan::{Plan, Texts, add_text};
use crate::recovery::recover;
use crate::status::{Output, Status};
use gs_book::Book;
use gs_design::{Design, Sizes};
use gs_lagrange::start;
use gs_limits::{leakage, violations};
use gs_move::{Recovery, delta_is_exact, moves_fit};
use gs_quantity::Mem;
use gs_report::{Log, Ran, write_log, write_report};
use gs_shelf::Shelf;
use gs_sizes::write_sizes;
use std::alloc::Global;
use std::thread::Threads;

/// The status of a run: how it ended, and what its sizes are worth.
fn done(alloc: Global, book: &Book<Recovery>, log: &Log) -> Result<Status, Mem>
    requires { book.now.entries ≡ log.now.entries }
    ensures { IfOk result (λ s. s ≡ run_done book.now.design (sizes_now book.now.start book.now.entries) (timing_of book.now.design (sizes_now book.now.start book.now.entries)) log.now) }
{
    delta_is_exact(book.design());
    let unmet = violations(alloc, book.design(), book.timing())?;
    Ok(Status::Done {
        ended: log.ended,
        violations: unmet.len() as u64,
        leakage: leakage(book.design(), book.sizes()),
        commits: book.front(),
    })
}

/// The entries of a book are of moves of its design. The call does nothing.
fn entries_are_moves(book: &Book<Recovery>)
    ensures { AreEntriesOf book.now.design book.now.entries }
{
    moves_fit(book.design());
    let _ = book.entries();
}

/// The texts of a run: the sizes at its end, its log, and the report.
fn texts_of(alloc: Global, book: &Book<Recovery>, log: &Log, workers: u32) -> Result<Texts, Mem>
    requires { book.now.entries ≡ log.now.entries }
    ensures { IfOk result (λ ts. ts ≡ run_texts book.now.design (sizes_now book.now.start book.now.entries) (timing_of book.now.design (sizes_now book.now.start book.now.entries)) workers log.now) }
{
    let design = book.design();
    delta_is_exact(design);
    entries_are_moves(book);
    let sizes = write_sizes(alloc, design, book.sizes())?;
    let written = write_log(alloc, design, log)?;
    let ran = Ran { log, workers };
    let report = write_report(alloc, design, book.sizes(), book.timing(), Some(ran))?;
    let mut texts = Texts::empty(alloc);
    add_text(&mut texts, Output::Sizes, sizes)?;
    add_text(&mut texts, Output::Log, written)?;
    add_text(&mut texts, Output::Report, report)?;
    Ok(texts)
}

/// What a run from these sizes stores.
fn plan_size<R: Threads + Sync>(
    rt: &R,
    alloc: Global,
    job: &SizeJob,
    design: Design,
    start: Sizes,
) -> Result<Plan, Mem>
    requires start { FitSizes design start }
    requires workers { job.now.workers ≡ 0 }
    ensures { IfOk result (SizePlans job.now design start) }
{
    let (book, log) = recover(rt, alloc, design, start, job.budget)?;
    let texts = texts_of(alloc, &book, &log, job.workers)?;
    let success = done(alloc, &book, &log)?;
    Ok(Plan { texts, success })
}

/// The sizes at which a run begins, from those that were read.
fn begun<R: Threads + Sync>(
    rt: &R,
    alloc: Global,
    job: &SizeJob,
    design: &Design,
    read: Sizes,
) -> Result<Sizes, Mem>
    requires { FitSizes design.now read }
    ensures value { IfOk result (λ s. s ≡ begun job.now.from job.now.passes design.now read) }
    ensures fit { IfOk result (FitSizes design.now) }
{
    match &job.from {
        Some(_) => Ok(read),
        None => start(rt, alloc, design, job.passes),
    }
}

/// What a run stores, of the sizes that were read.
fn plan_job<R: Threads + Sync>(
    rt: &R,
    alloc: Global,
    job: &SizeJob,
    design: Design,
    read: Sizes,
) -> Result<Plan, Mem>
    requires start { FitSizes design read }
    requires workers { job.now.workers ≡ 0 }
    ensures { IfOk result (SizePlans job.now design (begun job.now.from job.now.passes design read)) }
{
    let start = begun(rt, alloc, job, &design, read)?;
    plan_size(rt, alloc, job, design, start)
}

/// Reads the files of a job, sizes the design, and makes all texts.
pub(crate) fn prepare_size<R: Threads + Sync, H: Shelf>(
    rt: &R,
    alloc: Global,
    shelf: &mut H,
    job: &SizeJob,
) -> Result<Plan, Status>
    requires { is_good (Job.Size job.now) ≡ true }
    ensures { Prepares H.tells (command_of (Job.Size job.now)) (input_of (Job.Size job.now)) (seen (H.files shelf.old) (H.said shelf.old) (H.faults shelf.old)) (seen (H.files shelf.new) (H.said shelf.new) (H.faults shelf.new)) result }
{
    let design = match load_design(alloc, shelf, job) {
        Ok(design) => design,
        Err(status) => return Err(status),
    };
    let start = match load_start(alloc, shelf, job, &job.from, &design) {
        Ok(start) => start,
        Err(status) => return Err(status),
    };
    match plan_job(rt, alloc, job, design, start) {
        Ok(plan) => Ok(plan),
        Err(_) => Err(Status::OutOfMemory),
    }
}
