//! The command `check`: the limits that sizes of a design don't meet, and what they leak.
ghost use Rattle.std.specs.Prelude.{◌≡◌, IfOk, List};
ghost use Rattle.gs_design.specs.Sizes.{FitSizes};
ghost use Rattle.gs_design.specs.Timing.{IsTiming};
ghost use Rattle.gs_design.specs.declared.time.NetTime.{NetTime};
ghost use Rattle.gs_top.specs.Answer.{seen};
ghost use Rattle.gs_top.specs.Command.{Prepares, check_plan, command_of};
ghost use Rattle.gs_top.specs.Job.{input_of};
ghost use Rattle.gs_top.specs.declared.job.Job.{Job};

use crate::from::load_start;
use crate::job::CheckJob;
use crate::link::load_design;
use crate::plan::{Plan, Texts, add_text};
use crate::status::{Output, Status};
use gs_design::{Design, Sizes};
use gs_limits::{leakage, violations};
use gs_quantity::Mem;
use gs_report::write_report;
use gs_shelf::Shelf;
use gs_timing::time_all;
use std::alloc::Global;

/// The report of a design at these sizes, and how many limits aren't met.
fn plan_check(alloc: Global, design: &Design, sizes: &Sizes) -> Result<Plan, Mem>
    requires { FitSizes design.now sizes.now }
    ensures { IfOk result (λ plan. (t : List NetTime) × IsTiming design.now sizes.now t × (plan ≡ check_plan design.now sizes.now t)) }
{
    let timing = time_all(alloc, design, sizes)?;
    let unmet = violations(alloc, design, &timing)?;
    let report = write_report(alloc, design, sizes, &timing, None)?;
    let mut texts = Texts::empty(alloc);
    add_text(&mut texts, Output::Report, report)?;
    Ok(Plan {
        texts,
        success: Status::Checked {
            violations: unmet.len() as u64,
            leakage: leakage(design, sizes),
        },
    })
}

/// Reads the files of a job, and makes the report.
pub(crate) fn prepare_check<H: Shelf>(
    alloc: Global,
    shelf: &mut H,
    job: &CheckJob,
) -> Result<Plan, Status>
    ensures { Prepares H.tells (command_of (Job.Check job.now)) (input_of (Job.Check job.now)) (seen (H.files shelf.old) (H.said shelf.old) (H.faults shelf.old)) (seen (H.files shelf.new) (H.said shelf.new) (H.faults shelf.new)) result }
{
    let design = match load_design(alloc, shelf, job) {
        Ok(design) => design,
        Err(status) => return Err(status),
    };
    let sizes = match load_start(alloc, shelf, job, &job.from, &design) {
        Ok(sizes) => sizes,
        Err(status) => return Err(status),
    };
    match plan_check(alloc, &design, &sizes) {
        Ok(plan) => Ok(plan),
        Err(_) => Err(Status::OutOfMemory),
    }
}
