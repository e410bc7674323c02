//! Why a cell isn't read.

ghost use Rattle.std.specs.Prelude.{◌≡◌, map};
ghost use Rattle.std.specs.List.{list_any};
ghost use Rattle.gs_libcell.specs.Grid.{grid_lists};
ghost use Rattle.gs_libcell.specs.Timing.{timing_lists};
ghost use Rattle.gs_lib.specs.Draft.{amount_missing, bad_table, bad_table_in, cap_missing, cap_missing_by, draft_is_bad, draft_lists, draft_missing, grid_is_bad, is_bad, load_is_bad, pin_is_bad, related_missing, table_missing, timing_missing};
ghost use Rattle.gs_lib.specs.Faults.{first_some, or_else};

use crate::draft::Draft;
use crate::error::What;
use gs_libcell::{Amount, Direction, Grid, NamedPin, Timing};

fn amount_missing(what: What, amount: Amount) -> Option<What>
    ensures { result ≡ amount_missing what amount }
{
    match amount {
        Amount::Absent => Some(what),
        Amount::Bad => None,
        Amount::Is(_) => None,
    }
}

fn table_missing(what: What, grid: &Grid) -> Option<What>
    ensures { result ≡ table_missing what (grid_lists grid.now) }
{
    match grid {
        Grid::Absent => Some(what),
        Grid::Bad => None,
        Grid::Is(_) => None,
    }
}

fn related_missing(related: &[u8]) -> Option<What>
    ensures { result ≡ related_missing related.now }
{
    match related {
        [] => Some(What::RelatedPin),
        [_, ..] => None,
    }
}

/// What a `timing` group lacks first.
fn timing_missing(timing: &Timing) -> Option<What>
    ensures { result ≡ timing_missing (timing_lists timing.now) }
{
    if let Some(what) = related_missing(timing.related.as_slice()) {
        return Some(what);
    }
    if let Some(what) = table_missing(What::CellRise, &timing.cell_rise) {
        return Some(what);
    }
    if let Some(what) = table_missing(What::CellFall, &timing.cell_fall) {
        return Some(what);
    }
    if let Some(what) = table_missing(What::RiseTransition, &timing.rise_transition) {
        return Some(what);
    }
    table_missing(What::FallTransition, &timing.fall_transition)
}

fn cap_missing(pin: &NamedPin) -> Option<What>
    ensures { result ≡ cap_missing pin.now }
{
    match pin.facts.direction {
        Direction::Input => amount_missing(What::Capacitance, pin.facts.cap),
        Direction::Output => None,
        Direction::Other => None,
    }
}

fn pins_missing(pins: &[NamedPin]) -> Option<What>
    ensures { result ≡ first_some cap_missing pins.now }
{
    for pin in pins {
        match cap_missing(pin) {
            Some(what) => return Some(what),
            None => {}
        }
    }
    None
}

fn timings_missing(timings: &[Timing]) -> Option<What>
    ensures { result ≡ first_some timing_missing (map timing_lists timings.now) }
{
    for timing in timings {
        match timing_missing(timing) {
            Some(what) => return Some(what),
            None => {}
        }
    }
    None
}

/// What a cell lacks first.
pub fn draft_missing(draft: &Draft) -> Option<What>
    ensures { result ≡ draft_missing (draft_lists draft.now) }
{
    if let Some(what) = amount_missing(What::Leakage, draft.leakage) {
        return Some(what);
    }
    if let Some(what) = pins_missing(draft.pins.as_slice()) {
        return Some(what);
    }
    timings_missing(draft.timings.as_slice())
}

pub fn is_bad(amount: Amount) -> bool
    ensures { result ≡ is_bad amount }
{
    match amount {
        Amount::Absent => false,
        Amount::Bad => true,
        Amount::Is(_) => false,
    }
}

fn load_is_bad(direction: Direction, cap: Amount, max_cap: Amount) -> bool
    ensures { result ≡ load_is_bad direction cap max_cap }
{
    match direction {
        Direction::Input => is_bad(cap),
        Direction::Output => is_bad(max_cap),
        Direction::Other => false,
    }
}

fn pin_is_bad(pin: &NamedPin) -> bool
    ensures { result ≡ pin_is_bad pin.now }
{
    if is_bad(pin.facts.max_transition) {
        return true;
    }
    load_is_bad(pin.facts.direction, pin.facts.cap, pin.facts.max_cap)
}

fn pins_are_bad(pins: &[NamedPin]) -> bool
    ensures { result ≡ list_any pin_is_bad pins.now }
{
    pins.iter().any(|pin| pin_is_bad(pin))
}

/// Whether a number of a cell is none.
pub fn draft_is_bad(draft: &Draft) -> bool
    ensures { result ≡ draft_is_bad (draft_lists draft.now) }
{
    if is_bad(draft.leakage) {
        return true;
    }
    if is_bad(draft.area) {
        return true;
    }
    pins_are_bad(draft.pins.as_slice())
}

fn grid_is_bad(grid: &Grid) -> bool
    ensures { result ≡ grid_is_bad (grid_lists grid.now) }
{
    match grid {
        Grid::Absent => false,
        Grid::Bad => true,
        Grid::Is(_) => false,
    }
}

/// The number of the first bad table of a group, whose first table has the number `first`.
fn bad_table_in(first: u32, timing: &Timing) -> Option<u32>
    ensures { result ≡ bad_table_in first (timing_lists timing.now) }
{
    if grid_is_bad(&timing.cell_rise) {
        return Some(first);
    }
    if grid_is_bad(&timing.cell_fall) {
        return Some(first.saturating_add(1));
    }
    if grid_is_bad(&timing.rise_transition) {
        return Some(first.saturating_add(2));
    }
    if grid_is_bad(&timing.fall_transition) {
        return Some(first.saturating_add(3));
    }
    None
}

/// The number of the first bad table.
pub fn bad_table(timings: &[Timing]) -> Option<u32>
    ensures { result ≡ bad_table 0 (map timing_lists timings.now) }
{
    let mut first = 0u32;
    for timing in timings {
        match bad_table_in(first, timing) {
            Some(i) => return Some(i),
            None => first = first.saturating_add(4),
        }
    }
    None
}
