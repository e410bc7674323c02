//! What a library says of itself.

ghost use Rattle.std.specs.Prelude.{◌≡◌, ◌≤◌, ◌||◌, not, IfOk, IfErr, codes, option_copied, unwrap_or};
ghost use Rattle.std.specs.Option.{ForSome, option_and_then};
ghost use Rattle.gs_libcell.specs.Attribute.{last_complex, last_simple};
ghost use Rattle.gs_libcell.specs.Number.{amount_in};
ghost use Rattle.gs_libcell.specs.Unit.{is_unit, load_tens, scale, time_tens};
ghost use Rattle.gs_lib.specs.Library.{Checks, has_bad_units, header_fault, is_unit_by, lacks_units, leak_unit, load_unit, slew_default, tens_of_items, time_unit};
ghost use Rattle.gs_lib.specs.declared.error.LibErr.{LibErr};

use crate::cell::given_amount;
use crate::draft::text_in;
use crate::error::{LibErr, What};
use crate::fault::is_bad;
use gs_design::Units;
use gs_libcell::{Amount, amount_in, is_unit, last_complex, last_simple, load_tens, time_tens};
use gs_libtree::{Item, Node};
use gs_quantity::Micro;
use gs_text::{Name, Names};
use std::alloc::Global;

/// What a library says of itself.
#[derive(Drop)]
pub struct Header {
    pub units: Units,
    pub leak_unit: Name,
    pub slew_default: Option<Micro>,
}

fn time_by(value: Option<&Name>) -> Option<u8>
    ensures value { result ≡ option_and_then time_tens (option_copied value.entry) }
    ensures small { ForSome result (λ t. t ≤ 9) }
{
    match value {
        None => None,
        Some(text) => time_tens(text),
    }
}

fn load_by(values: Option<&Names>) -> Option<u8>
    ensures value { result ≡ option_and_then load_tens (option_copied values.entry) }
    ensures small { ForSome result (λ t. t ≤ 9) }
{
    match values {
        None => None,
        Some(values) => load_tens(values.as_slice()),
    }
}

fn time_unit(items: &[Item]) -> Option<u8>
    ensures value { result ≡ time_unit items.now }
    ensures small { ForSome result (λ t. t ≤ 9) }
{
    time_by(last_simple(b"time_unit", items))
}

fn load_unit(items: &[Item]) -> Option<u8>
    ensures value { result ≡ load_unit items.now }
    ensures small { ForSome result (λ t. t ≤ 9) }
{
    load_by(last_complex(b"capacitive_load_unit", items))
}

fn is_unit_by(value: Option<&Name>) -> bool
    ensures { result ≡ is_unit_by (option_copied value.entry) }
{
    match value {
        None => true,
        Some(text) => is_unit(text.as_bytes()),
    }
}

/// Whether the unit of time or of capacitance is missing.
fn lacks_units(items: &[Item]) -> bool
    ensures { result ≡ lacks_units items.now }
{
    if last_simple(b"time_unit", items).is_none() {
        return true;
    }
    last_complex(b"capacitive_load_unit", items).is_none()
}

/// Whether a unit isn't of its form.
fn has_bad_units(items: &[Item]) -> bool
    ensures { result ≡ has_bad_units items.now }
{
    if time_unit(items).is_none() {
        return true;
    }
    if load_unit(items).is_none() {
        return true;
    }
    !is_unit_by(last_simple(b"leakage_power_unit", items))
}

fn tens_or_zero(tens: Option<u8>) -> u8
    requires { ForSome tens (λ t. t ≤ 9) }
    ensures value { result ≡ unwrap_or tens 0 }
    ensures small { result ≤ 9 }
{
    match tens {
        Some(tens) => tens,
        None => 0,
    }
}

fn make_units(time_tens: u8, load_tens: u8) -> Units
    requires time { time_tens ≤ 9 }
    requires load { load_tens ≤ 9 }
    ensures { scale result ≡ record { time = time_tens; load = load_tens } }
{
    Units {
        time_tens,
        load_tens,
    }
}

/// The units of time and of capacitance.
fn units_in(items: &[Item]) -> Units
    ensures { scale result ≡ tens_of_items items.now }
{
    make_units(
        tens_or_zero(time_unit(items)),
        tens_or_zero(load_unit(items)),
    )
}

fn slew_amount(units: Units, items: &[Item]) -> Amount
    ensures { result ≡ amount_in (codes "default_max_transition") (scale units).time items.now }
{
    amount_in(b"default_max_transition", units.time_tens, items)
}

/// Why the library itself is refused.
fn header_fault(alloc: Global, root: &Node) -> Option<LibErr>
    ensures { result ≡ header_fault root.now }
{
    if !root.name.is(b"library") {
        return Some(LibErr::Missing {
            cell: Name::empty(alloc),
            what: What::Library,
        });
    }
    let items = root.items.as_slice();
    if lacks_units(items) {
        return Some(LibErr::NoUnit);
    }
    if has_bad_units(items) {
        return Some(LibErr::BadUnit);
    }
    if is_bad(slew_amount(units_in(items), items)) {
        return Some(LibErr::BadNumber {
            cell: Name::empty(alloc),
        });
    }
    None
}

/// What a library says of itself.
pub fn read_header(alloc: Global, root: &Node) -> Result<Header, LibErr>
    ensures fault { Checks (header_fault root.now) result }
    ensures units { IfOk result (λ h. scale h.units ≡ tens_of_items root.now.items) }
    ensures leak { IfOk result (λ h. h.leak_unit ≡ leak_unit root.now.items) }
    ensures slew { IfOk result (λ h. h.slew_default ≡ slew_default root.now.items) }
{
    if let Some(fault) = header_fault(alloc, root) {
        return Err(fault);
    }
    let items = root.items.as_slice();
    let units = units_in(items);
    let slew_default = given_amount(slew_amount(units, items));
    let leak_unit = text_in(alloc, b"leakage_power_unit", items)?;
    Ok(Header {
        units,
        leak_unit,
        slew_default,
    })
}
