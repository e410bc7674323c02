//! Writing a report.
#![tactic(auto)]

ghost use Rattle.std.specs.Prelude.{◌≡◌, ◌++◌, IfOk, OnOk};
ghost use Rattle.std.specs.List.{flat_map};
ghost use Rattle.gs_design.specs.Sizes.{FitSizes};
ghost use Rattle.gs_design.specs.Timing.{FitTiming};
ghost use Rattle.gs_report.specs.Lines.{spaced};
ghost use Rattle.gs_report.specs.Report.{leak_line, ran_text, report_text, unit_words};

use crate::run::Ran;
use crate::unmet::add_violations;
use crate::words::{add_newline, add_value, add_word};
use crate::workers::add_run;
use gs_design::{Design, Sizes, Timing};
use gs_limits::leakage;
use gs_quantity::Mem;
use std::alloc::{AllocError, Global};

// Puts a space and the unit last, or nothing for a library without one.
fn add_unit(text: &mut Vec<u8>, unit: &[u8]) -> Result<(), AllocError>
    ensures { OnOk result (text.new.items ≡ text.old.items ++ flat_map spaced (unit_words unit.now)) }
{
    if unit.is_empty() {
        return Ok(());
    }
    add_word(text, unit)
}

// Puts the line of the leakage last.
fn add_leakage(alloc: Global, text: &mut Vec<u8>, design: &Design, sizes: &Sizes) -> Result<(), Mem>
    requires { FitSizes design.now sizes.now }
    ensures { OnOk result (text.new.items ≡ text.old.items ++ leak_line design.now sizes.now) }
{
    text.extend_from_slice(b"leakage")?;
    add_value(alloc, text, leakage(design, sizes))?;
    add_unit(text, design.leak_unit.as_bytes())?;
    add_newline(text)?;
    Ok(())
}

// Puts the lines of a run last, if there was one.
fn add_ran(alloc: Global, text: &mut Vec<u8>, ran: Option<Ran>) -> Result<(), AllocError>
    ensures { OnOk result (text.new.items ≡ text.old.items ++ ran_text ran.entry) }
{
    match ran {
        Some(ran) => add_run(alloc, text, ran.log, ran.workers),
        None => Ok(()),
    }
}

/// The report of a design with these sizes and this timing: a line with the version; of a run how it ended, how many entries it made and
/// was allowed, and how many moves were committed, in all and by each worker; the leakage, in the library's unit; and every limit that
/// isn't met, with what is held and the bound, times in ps and loads in fF.
///
/// # Errors
///
/// `Mem` is want of memory.
pub fn write_report(
    alloc: Global,
    design: &Design,
    sizes: &Sizes,
    timing: &Timing,
    ran: Option<Ran>,
) -> Result<Vec<u8>, Mem>
    requires sizes { FitSizes design.now sizes.now }
    requires timing { FitTiming design.now timing.now }
    ensures { IfOk result (λ v. v.items ≡ report_text design.now sizes.now timing.now ran.entry) }
{
    let mut text = Vec::from_slice(alloc, b"gate-sizing-report 1\n")?;
    add_ran(alloc, &mut text, ran)?;
    add_leakage(alloc, &mut text, design, sizes)?;
    add_violations(alloc, &mut text, design, timing)?;
    Ok(text)
}
