//! Pins of a cell.

ghost use Rattle.std.specs.Prelude.{◌≡◌, ◌++◌, IfOk, codes, map, option_copied};
ghost use Rattle.gs_libcell.specs.Attribute.{group_in, last_simple};
ghost use Rattle.gs_libcell.specs.Pin.{direction_by, facts_of, is_true, is_true_by, named, pins_by, pins_in, pins_of};
ghost use Rattle.gs_libcell.specs.Unit.{scale};

use crate::attribute::{group_in, last_simple};
use crate::number::{Amount, amount_in, narrow};
use gs_design::Units;
use gs_libtree::{Item, Node};
use gs_text::Name;
use std::alloc::{AllocError, Global};

/// Where a pin's signal goes.
#[derive(Clone, Copy, Debug, PartialEq, Eq)]
pub enum Direction {
    Input,
    Output,
    /// The direction is missing, or is another one.
    Other,
}

/// What a group `pin` says of its pins. Capacitances are in millionths of 1 fF, the transition is in millionths of 1 ps.
#[derive(Clone, Copy, Debug, PartialEq, Eq)]
pub struct PinFacts {
    pub direction: Direction,
    /// Whether it is marked as a clock.
    pub clock: bool,
    /// The capacitance, below 2^34 millionths.
    pub cap: Amount,
    pub max_cap: Amount,
    pub max_transition: Amount,
}

/// A pin of a cell.
#[derive(Debug, Drop)]
pub struct NamedPin {
    pub name: Name,
    pub facts: PinFacts,
}

fn direction_by(value: Option<&Name>) -> Direction
    ensures { result ≡ direction_by (option_copied value.entry) }
{
    match value {
        None => Direction::Other,
        Some(text) => {
            if text.is(b"input") {
                return Direction::Input;
            }
            if text.is(b"output") {
                return Direction::Output;
            }
            Direction::Other
        }
    }
}

/// The direction that a group with these items gives its pins.
pub fn direction_in(items: &[Item]) -> Direction
    ensures { result ≡ direction_by (last_simple (codes "direction") items.now) }
{
    direction_by(last_simple(b"direction", items))
}

fn is_true_by(value: Option<&Name>) -> bool
    ensures { result ≡ is_true_by (option_copied value.entry) }
{
    match value {
        None => false,
        Some(text) => text.is(b"true"),
    }
}

/// Whether the simple attribute of the name is `true`.
pub fn is_true(name: &[u8], items: &[Item]) -> bool
    ensures { result ≡ is_true name.now items.now }
{
    is_true_by(last_simple(name, items))
}

/// What a group with these items says of its pins.
fn facts_of(units: Units, items: &[Item]) -> PinFacts
    ensures { result ≡ facts_of (scale units) items.now }
{
    PinFacts {
        direction: direction_in(items),
        clock: is_true(b"clock", items),
        cap: narrow(amount_in(b"capacitance", units.load_tens, items)),
        max_cap: amount_in(b"max_capacitance", units.load_tens, items),
        max_transition: amount_in(b"max_transition", units.time_tens, items),
    }
}

fn named(alloc: Global, facts: &PinFacts, given: &Name) -> Result<NamedPin, AllocError>
    ensures { IfOk result (λ p. p ≡ named facts.now given.now) }
{
    let name = Name::copy_of(alloc, given.as_bytes())?;
    Ok(NamedPin {
        name,
        facts: *facts,
    })
}

/// Puts pins of these names last.
fn push_named(
    alloc: Global,
    facts: &PinFacts,
    names: &[Name],
    pins: &mut Vec<NamedPin>,
) -> Result<(), AllocError>
    ensures { IfOk result (λ _. pins.new.items ≡ pins.old.items ++ map (named facts.now) names.now) }
{
    for given in names {
        let pin = named(alloc, facts, given)?;
        pins.push(pin)?;
    }
    Ok(())
}

/// Puts the pins of an item last, where that is a group of pins.
fn push_pins(
    alloc: Global,
    units: Units,
    item: &Item,
    pins: &mut Vec<NamedPin>,
) -> Result<(), AllocError>
    ensures { IfOk result (λ _. pins.new.items ≡ pins.old.items ++ pins_by (scale units) (group_in (codes "pin") item.now)) }
{
    let Some(group) = group_in(b"pin", item) else {
        return Ok(());
    };
    let facts = facts_of(units, group.items.as_slice());
    push_named(alloc, &facts, group.args.as_slice(), pins)?;
    Ok(())
}

/// The pins of a cell with these items, in the order of the file.
pub fn pins_in(alloc: Global, units: Units, items: &[Item]) -> Result<Vec<NamedPin>, AllocError>
    ensures { IfOk result (λ v. v.items ≡ pins_in (scale units) items.now) }
{
    let mut pins = Vec::new(alloc);
    for item in items {
        push_pins(alloc, units, item, &mut pins)?;
    }
    Ok(pins)
}
