//! The lines of limits that aren't met.
#![tactic(auto)]

ghost use Rattle.std.specs.Prelude.{◌≡◌, ◌++◌, All, OnOk};
ghost use Rattle.std.specs.List.{flat_map};
ghost use Rattle.gs_design.specs.Limits.{IsLimitOf, violations_of};
ghost use Rattle.gs_design.specs.Timing.{FitTiming};
ghost use Rattle.gs_report.specs.Report.{violation_line, violations_text};

use crate::names::{add_limit, limit_word};
use crate::words::{add_count, add_newline, add_value, add_word};
use gs_design::{Design, Timing, Violation};
use gs_limits::violations;
use gs_quantity::Mem;
use std::alloc::Global;

// Puts the line of a limit that isn't met last.
fn add_violation(
    alloc: Global,
    text: &mut Vec<u8>,
    design: &Design,
    unmet: &Violation,
) -> Result<(), Mem>
    requires { IsLimitOf design.now unmet.now.limit }
    ensures { OnOk result (text.new.items ≡ text.old.items ++ violation_line design.now unmet.now) }
{
    text.extend_from_slice(limit_word(&unmet.limit).as_bytes())?;
    add_limit(text, design, &unmet.limit)?;
    add_word(text, b"held")?;
    add_value(alloc, text, unmet.held)?;
    add_word(text, b"bound")?;
    add_value(alloc, text, unmet.bound)?;
    add_newline(text)?;
    Ok(())
}

// Puts a line for each of these limits last.
fn add_each(
    alloc: Global,
    text: &mut Vec<u8>,
    design: &Design,
    all: &[Violation],
) -> Result<(), Mem>
    requires { All (λ v. IsLimitOf design.now v.limit) all.now }
    ensures { OnOk result (text.new.items ≡ text.old.items ++ flat_map (violation_line design.now) all.now) }
{
    for unmet in all {
        add_violation(alloc, text, design, unmet)?;
    }
    Ok(())
}

/// Puts the number of limits that aren't met last, and a line for each.
pub fn add_violations(
    alloc: Global,
    text: &mut Vec<u8>,
    design: &Design,
    timing: &Timing,
) -> Result<(), Mem>
    requires { FitTiming design.now timing.now }
    ensures { OnOk result (text.new.items ≡ text.old.items ++ violations_text design.now (violations_of design.now timing.now)) }
{
    let all = violations(alloc, design, timing)?;
    add_count(text, b"violations", all.len() as u64)?;
    add_each(alloc, text, design, all.as_slice())
}
