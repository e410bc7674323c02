//! The limits that aren't met.
#![tactic(auto)]

ghost use Rattle.std.specs.Prelude.{◌≡◌, ◌++◌, IfOk, OnOk, filter_map, pos, unwrap_or};
ghost use Rattle.gs_design.specs.Limits.{violations_of};
ghost use Rattle.gs_design.specs.Timing.{FitTiming};
ghost use Rattle.gs_limits.specs.Kinds.{kind_count, of_kind, violation_if};
ghost use Rattle.gs_limits.specs.Limit.{IsPlaced};

use crate::kind::{Kind, count_of, is_one, limit_at};
use crate::limit::{bound, held, is_met, net_of};
use gs_design::{Design, Limit, TimeView, Timing, Violation};
use gs_quantity::{Mem, Micro};
use std::alloc::{AllocError, Global};

fn or_zero(bound: &Option<Micro>) -> Micro
    ensures { result ≡ unwrap_or bound.now (pos 0) }
{
    match *bound {
        Some(bound) => bound,
        None => Micro(0),
    }
}

// The violation of a limit, if the design has it and it isn't met.
fn violation(design: &Design, timing: &Timing, limit: &Limit) -> Option<Violation>
    requires fit { FitTiming design.now timing.now }
    requires placed { IsPlaced design.now limit.now }
    ensures { result ≡ violation_if design.now timing.now limit.now }
{
    if !is_one(design, limit) {
        return None;
    }
    let time = timing.at(net_of(design, limit));
    if is_met(design, &time, limit) {
        return None;
    }
    Some(Violation {
        limit: *limit,
        held: held(&time, limit),
        bound: or_zero(&bound(design, &time, limit)),
    })
}

// Puts the violations of a kind last.
fn add_kind(
    design: &Design,
    timing: &Timing,
    kind: Kind,
    found: &mut Vec<Violation>,
) -> Result<(), AllocError>
    requires { FitTiming design.now timing.now }
    ensures { OnOk result (found.new.items ≡ found.old.items ++ filter_map (violation_if design.now timing.now) (of_kind kind (kind_count design.now kind))) }
{
    for number in 0..count_of(design, kind) {
        let limit = limit_at(kind, number);
        let broken = match violation(design, timing, &limit) {
            Some(broken) => broken,
            None => continue,
        };
        found.push(broken)?;
    }
    Ok(())
}

/// All limits that a design with this timing doesn't meet, with what is held and the bound: setup by endpoint, then slew by net, then
/// load by net.
///
/// # Errors
///
/// `Mem` is want of memory.
pub fn violations(alloc: Global, design: &Design, timing: &Timing) -> Result<Vec<Violation>, Mem>
    requires { FitTiming design.now timing.now }
    ensures { IfOk result (λ v. v.items ≡ violations_of design.now timing.now) }
{
    let mut found = Vec::new(alloc);
    add_kind(design, timing, Kind::Setups, &mut found)?;
    add_kind(design, timing, Kind::Slews, &mut found)?;
    add_kind(design, timing, Kind::Loads, &mut found)?;
    Ok(found)
}
