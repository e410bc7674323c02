//! Laws of timing that the crates above reason with. The calls do nothing.
#![tactic(auto)]

ghost use Rattle.std.specs.Prelude.{◌≡◌, ◌<◌, ℕ, List, length, nat_abs};
ghost use Rattle.gs_design.specs.Sizes.{FitSizes};
ghost use Rattle.gs_design.specs.Times.{time_at};
ghost use Rattle.gs_design.specs.Timing.{IsTiming, local_of, timing_of};
ghost use Rattle.gs_design.specs.declared.time.NetTime.{NetTime};
ghost use Rattle.gs_timing.specs.Late.{IsLate};
ghost use Rattle.gs_timing.specs.Same.{SameSizesAt, SameTimesAt};

use gs_design::Design;

/// A design at its sizes has one timing.
pub fn one_timing(design: &Design)
    ensures { (s : List ℕ) (t u : List NetTime) → FitSizes design.now s → IsTiming design.now s t → IsTiming design.now s u → t ≡ u }
{
    let _ = design;
}

/// The timing of a design at its sizes is the one that is made net by net in the design's order.
pub fn timing_is_made(design: &Design)
    ensures made { (s : List ℕ) → FitSizes design.now s → IsTiming design.now s (timing_of design.now s) }
    ensures only { (s : List ℕ) (t : List NetTime) → FitSizes design.now s → IsTiming design.now s t → t ≡ timing_of design.now s }
{
    let _ = design;
}

/// The record of a net depends on the sizes of the instances on it, and on the records of the input nets of a gate that drives it.
pub fn record_reads(design: &Design)
    ensures { (r s : List ℕ) (t u : List NetTime) (n : ℕ) → FitSizes design.now r → n < length design.now.nets → SameSizesAt design.now r s n → SameTimesAt design.now t u n → local_of design.now r t n ≡ local_of design.now s u n }
{
    let _ = design;
}

/// In a timing the arrivals are below 2^60 millionths of 1 ps in magnitude.
pub fn arrivals_are_small(design: &Design)
    ensures { (s : List ℕ) (t : List NetTime) (n : ℕ) → FitSizes design.now s → IsTiming design.now s t → n < length design.now.nets → IsLate (time_at t n) 1152921504606846975 }
{
    let _ = design;
}

/// In a timing the loads are below 2^58 millionths of 1 fF.
pub fn loads_are_small(design: &Design)
    ensures { (s : List ℕ) (t : List NetTime) (n : ℕ) → FitSizes design.now s → IsTiming design.now s t → n < length design.now.nets → nat_abs (time_at t n).load < 288230376151711744 }
{
    let _ = design;
}
