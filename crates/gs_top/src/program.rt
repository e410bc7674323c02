//! A whole run: the work that the words ask for, and the line of its status.
ghost use Rattle.std.specs.Prelude.{◌≡◌, ◌≢◌, true, Some};
ghost use Rattle.gs_shelf.specs.Faults.{NoneFell};
ghost use Rattle.gs_top.specs.Answer.{seen};
ghost use Rattle.gs_top.specs.Act.{Acts, Ran, words_status};
ghost use Rattle.gs_top.specs.Job.{is_good, job_of};
ghost use Rattle.gs_top.specs.Line.{line_of, unsaid, IsSaid};
ghost use Rattle.gs_top.specs.Run.{AnswersRefusal, Causes, FirstRefusal, FirstRefusalOf, IsAccepted, IsDone, JobCauses, JobLeaves, JobSays, Leaves, NoneRose, Says};
ghost use Rattle.gs_top.specs.declared.job.Job.{Job};
ghost use Rattle.gs_top.specs.declared.status.Status.{Status};

use crate::check::prepare_check;
use crate::job::{CheckJob, Job, SizeJob};
use crate::line::{USAGE, line_of};
use crate::read::{WordsErr, read_words};
use crate::size::prepare_size;
use crate::status::{Output, Status};
use crate::store::store_plan;
use crate::words::Words;
use gs_shelf::{Shelf, ShelfErr};
use std::alloc::Global;
use std::thread::Threads;

/// The status where its line could not be said for a fault of the console: a success is lost, another status stays.
fn unsaid(status: Status) -> Status
    ensures { result ≡ unsaid status }
{
    match status {
        Status::Done { .. } | Status::Checked { .. } => Status::WriteFault {
            file: Output::Console,
        },
        Status::Usage
        | Status::ReadFault { .. }
        | Status::TooLarge { .. }
        | Status::BadText { .. }
        | Status::BadLibrary(_)
        | Status::BadDesign(_)
        | Status::WriteFault { .. }
        | Status::OutOfMemory => status,
    }
}

/// Says a status's line, and answers the status that the call ends with.
fn say_line<H: Shelf>(alloc: Global, shelf: &mut H, status: Status, line: &[u8]) -> Status
    requires { line.now ≡ line_of status }
    ensures { IsSaid H.tells status (seen (H.files shelf.old) (H.said shelf.old) (H.faults shelf.old)) (seen (H.files shelf.new) (H.said shelf.new) (H.faults shelf.new)) result }
{
    if line.is_empty() {
        return status;
    }
    match shelf.say(alloc, line) {
        Ok(()) => status,
        Err(ShelfErr::Failed) => unsaid(status),
        Err(ShelfErr::Mem) => Status::OutOfMemory,
    }
}

/// Says the line of the status, which takes memory for all but the line of `Usage`.
fn say<H: Shelf>(alloc: Global, shelf: &mut H, status: Status) -> Status
    ensures { IsSaid H.tells status (seen (H.files shelf.old) (H.said shelf.old) (H.faults shelf.old)) (seen (H.files shelf.new) (H.said shelf.new) (H.faults shelf.new)) result }
{
    if matches!(status, Status::Usage) {
        return say_line(alloc, shelf, Status::Usage, USAGE);
    }
    match line_of(alloc, &status) {
        Ok(line) => say_line(alloc, shelf, status, line.as_slice()),
        Err(_) => Status::OutOfMemory,
    }
}

/// Does the work of `size`, and says nothing.
fn act_size<R: Threads + Sync, H: Shelf>(
    rt: &R,
    alloc: Global,
    shelf: &mut H,
    job: &SizeJob,
) -> Status
    requires { is_good (Job.Size job.now) ≡ true }
    ensures { Acts H.tells (Job.Size job.now) (seen (H.files shelf.old) (H.said shelf.old) (H.faults shelf.old)) (seen (H.files shelf.new) (H.said shelf.new) (H.faults shelf.new)) result }
{
    match prepare_size(rt, alloc, shelf, job) {
        Ok(plan) => store_plan(alloc, shelf, job, plan),
        Err(status) => status,
    }
}

/// Does the work of `check`, and says nothing.
fn act_check<H: Shelf>(alloc: Global, shelf: &mut H, job: &CheckJob) -> Status
    requires { is_good (Job.Check job.now) ≡ true }
    ensures { Acts H.tells (Job.Check job.now) (seen (H.files shelf.old) (H.said shelf.old) (H.faults shelf.old)) (seen (H.files shelf.new) (H.said shelf.new) (H.faults shelf.new)) result }
{
    match prepare_check(alloc, shelf, job) {
        Ok(plan) => store_plan(alloc, shelf, job, plan),
        Err(status) => status,
    }
}

/// Runs `size` without workers: reads the library, the netlist, the wires and the constraints, links them, and recovers leakage from the
/// sizes at the start, which passes choose where the job names no file of them. It stores the sizes, the log and the report and says
/// `done`, how the run ended, the leakage, how many limits the sizes don't meet and how many moves were committed. The first refusal ends
/// the work. It waits for nobody.
///
/// What the log says is `IsRecovery` (`specs/Recovery.antt`), and what the sizes and the report are of it `size_plan` (`specs/Command.antt`).
pub fn run_size_alone<R: Threads + Sync, H: Shelf>(
    rt: &R,
    alloc: Global,
    job: &SizeJob,
    shelf: &mut H,
) -> Status
    // No name is empty, and all differ; there are no workers, and at most 64 passes.
    requires { is_good (Job.Size job.now) ≡ true }
    // What the files hold after each status, as far as the shelf tells; and which files stay, on every shelf.
    ensures leaves { JobLeaves H.tells (Job.Size job.now) (H.files shelf.old) (H.files shelf.new) result }
    // What stands behind each status, on every shelf.
    ensures cause { JobCauses H.tells (Job.Size job.now) (H.files shelf.old) (H.files shelf.new) (H.faults shelf.old) (H.faults shelf.new) result }
    // What was said with each status, on a shelf that tells.
    ensures said { H.tells → JobSays H.tells (Job.Size job.now) (H.files shelf.old) (H.files shelf.new) (H.faults shelf.old) (H.faults shelf.new) (H.said shelf.old) (H.said shelf.new) result }
    // After want of memory nothing was said, on every shelf.
    ensures silent { result ≡ Status.OutOfMemory → H.said shelf.new ≡ H.said shelf.old }
    // Files that make a design and sizes of it, and no fault: `Done`, or want of memory.
    ensures complete { H.tells → IsAccepted (Job.Size job.now) (H.files shelf.old) → NoneRose (H.faults shelf.old) (H.faults shelf.new) → IsDone (Job.Size job.now) result }
    // The first refusal that the bytes decide is the answer, but for a fault of reading or want of memory.
    ensures exact { H.tells → (refusal : Status) → FirstRefusalOf (Job.Size job.now) (H.files shelf.old) refusal → AnswersRefusal refusal result }
    // No count of faults falls.
    ensures later { NoneFell (H.faults shelf.old) (H.faults shelf.new) }
{
    let status = act_size(rt, alloc, shelf, job);
    say(alloc, shelf, status)
}

/// Runs `check`: reads the library, the netlist, the wires and the constraints, links them, and reads the sizes to check, which are the
/// netlist's where the job names no file of them. It stores the report and says `checked`, the leakage, and how many limits the
/// sizes don't meet. The first refusal ends the work.
pub fn run_check<R, H: Shelf>(_rt: &R, alloc: Global, job: &CheckJob, shelf: &mut H) -> Status
    // No name is empty, and all differ.
    requires { is_good (Job.Check job.now) ≡ true }
    // What the files hold after each status, as far as the shelf tells; and which files stay, on every shelf.
    ensures leaves { JobLeaves H.tells (Job.Check job.now) (H.files shelf.old) (H.files shelf.new) result }
    // What stands behind each status, on every shelf.
    ensures cause { JobCauses H.tells (Job.Check job.now) (H.files shelf.old) (H.files shelf.new) (H.faults shelf.old) (H.faults shelf.new) result }
    // What was said with each status, on a shelf that tells.
    ensures said { H.tells → JobSays H.tells (Job.Check job.now) (H.files shelf.old) (H.files shelf.new) (H.faults shelf.old) (H.faults shelf.new) (H.said shelf.old) (H.said shelf.new) result }
    // After want of memory nothing was said, on every shelf.
    ensures silent { result ≡ Status.OutOfMemory → H.said shelf.new ≡ H.said shelf.old }
    // Files that make a design and sizes of it, and no fault: `Checked`, or want of memory.
    ensures complete { H.tells → IsAccepted (Job.Check job.now) (H.files shelf.old) → NoneRose (H.faults shelf.old) (H.faults shelf.new) → IsDone (Job.Check job.now) result }
    // The first refusal that the bytes decide is the answer, but for a fault of reading or want of memory.
    ensures exact { H.tells → (refusal : Status) → FirstRefusalOf (Job.Check job.now) (H.files shelf.old) refusal → AnswersRefusal refusal result }
    // No count of faults falls.
    ensures later { NoneFell (H.faults shelf.old) (H.faults shelf.new) }
{
    let status = act_check(alloc, shelf, job);
    say(alloc, shelf, status)
}

/// Does what a job is to do, and says the line of its status.
fn run_job<R: Threads + Sync, H: Shelf>(rt: &R, alloc: Global, job: &Job, shelf: &mut H) -> Status
    requires { is_good job.now ≡ true }
    ensures { Ran H.tells (Some job.now) (seen (H.files shelf.old) (H.said shelf.old) (H.faults shelf.old)) (seen (H.files shelf.new) (H.said shelf.new) (H.faults shelf.new)) result }
{
    match job {
        Job::Size(job) => run_size_alone(rt, alloc, job, shelf),
        Job::Check(job) => run_check(rt, alloc, job, shelf),
    }
}

fn words_status(error: WordsErr) -> Status
    ensures { result ≡ words_status error }
{
    match error {
        WordsErr::Usage => Status::Usage,
        WordsErr::Mem => Status::OutOfMemory,
    }
}

/// Does what the words ask for, and says the line of its status.
fn run_words<R: Threads + Sync, H: Shelf>(
    rt: &R,
    alloc: Global,
    words: &Words,
    shelf: &mut H,
) -> Status
    ensures { Ran H.tells (job_of words.now) (seen (H.files shelf.old) (H.said shelf.old) (H.faults shelf.old)) (seen (H.files shelf.new) (H.said shelf.new) (H.faults shelf.new)) result }
{
    match read_words(alloc, words) {
        Ok(job) => run_job(rt, alloc, &job, shelf),
        Err(error) => say(alloc, shelf, words_status(error)),
    }
}

/// Runs the command that the words name: reads its files through the shelf, stores what it makes, says one line.
///
/// The words come first, then the command's files in their order and what they make; all texts are made before the first store, the
/// sizes are stored before the report, and the line is said last. The first refusal ends the work. The shelf stays the caller's.
pub fn run<R: Threads + Sync, H: Shelf>(
    rt: &R,
    alloc: Global,
    words: &Words,
    shelf: &mut H,
) -> Status
    // What the files hold after each status, as far as the shelf tells; and which files stay, on every shelf.
    ensures leaves { Leaves H.tells words.now (H.files shelf.old) (H.files shelf.new) result }
    // What stands behind each status, on every shelf.
    ensures cause { Causes H.tells words.now (H.files shelf.old) (H.files shelf.new) (H.faults shelf.old) (H.faults shelf.new) result }
    // What was said with each status, on a shelf that tells.
    ensures said { H.tells → Says H.tells words.now (H.files shelf.old) (H.files shelf.new) (H.faults shelf.old) (H.faults shelf.new) (H.said shelf.old) (H.said shelf.new) result }
    // After want of memory nothing was said, on every shelf.
    ensures silent { result ≡ Status.OutOfMemory → H.said shelf.new ≡ H.said shelf.old }
    // Words of a job, files of which its command makes what it is to make, and no fault: the job's own success, or want of memory.
    ensures complete { H.tells → (job : Job) → job_of words.now ≡ Some job → IsAccepted job (H.files shelf.old) → NoneRose (H.faults shelf.old) (H.faults shelf.new) → IsDone job result }
    // The first refusal that the words and the bytes decide is the answer, but for a fault of reading or want of memory.
    ensures exact { H.tells → (refusal : Status) → FirstRefusal words.now (H.files shelf.old) refusal → AnswersRefusal refusal result }
    // No count of faults falls.
    ensures later { NoneFell (H.faults shelf.old) (H.faults shelf.new) }
{
    run_words(rt, alloc, words, shelf)
}
