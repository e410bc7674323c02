//! The ports that constraints name, and the nets that wires are of.
#![tactic(auto)]

ghost use Rattle.std.specs.Prelude.{◌≡◌, ◌+◌, ◌<◌, ◌≤◌, All, IfOk, IfSome, IsTrue, length, map, nat_lt, if◌then◌else◌};
ghost use Rattle.std.specs.List.{IsDistinct};
ghost use Rattle.std.specs.Str.{bytes_eq};
ghost use Rattle.gs_survey.specs.First.{Checks, first_some};
ghost use Rattle.gs_survey.specs.Limits.{unknown_net, unknown_port};
ghost use Rattle.gs_survey.specs.Lookup.{IsFront};
ghost use Rattle.gs_survey.specs.Numbers.{net_name, net_number};

use crate::error::LinkErr;
use crate::names::{Named, Places, copy_of};
use crate::tally::Tally;
use gs_list::Rows;
use gs_spef::Wire;
use gs_text::Name;
use std::alloc::{AllocError, Global};

// A count of nets that takes in this one.
fn with_net(count: usize, net: u32) -> usize
    ensures { result ≡ (if nat_lt net count then count else net + 1) }
{
    if (net as usize) < count {
        count
    } else {
        net as usize + 1
    }
}

/// How many nets there are up to the last of these.
pub fn count_to_last(numbers: &[u32], limit: usize) -> usize
    requires { All (λ n. n < limit) numbers.now }
    ensures below { All (λ n. n < result) numbers.now }
    ensures within { result ≤ limit }
{
    let mut count = 0;
    for i in 0..numbers.len() {
        count = with_net(count, numbers[i]);
    }
    count
}

// The number of the port that is named. The ports are among the nets in front.
fn find_port<T: Named>(
    alloc: Global,
    nets: &[Name],
    front: &Places<Name>,
    ports: &Tally,
    item: &T,
) -> Result<usize, LinkErr>
    requires front { IsFront front.now nets.now }
    requires below { All (λ n. n < length front.now) ports.now }
    ensures fault { Checks (unknown_port nets.now ports.now (T.name item.now)) result }
    ensures number { IfOk result (λ n. n ≡ net_number nets.now (T.name item.now)) }
{
    let number = front.place(alloc, item.name())?;
    if ports.has(number) {
        Ok(number)
    } else {
        Err(LinkErr::UnknownPort {
            name: Name::copy_of(alloc, item.name())?,
        })
    }
}

/// The number of the port that each names, or the refusal of the first that names none.
pub fn find_ports<T: Named>(
    alloc: Global,
    nets: &[Name],
    front: &Places<Name>,
    ports: &Tally,
    items: &[T],
) -> Result<Rows<usize>, LinkErr>
    requires front { IsFront front.now nets.now }
    requires below { All (λ n. n < length front.now) ports.now }
    ensures fault { Checks (first_some (λ x. unknown_port nets.now ports.now (T.name x)) items.now) result }
    ensures numbers { IfOk result (λ r. r ≡ map (λ x. net_number nets.now (T.name x)) items.now) }
{
    let mut numbers = Vec::with_capacity(alloc, items.len())?;
    for item in items {
        match find_port(alloc, nets, front, ports, item) {
            Ok(number) => numbers.push(number)?,
            Err(error) => return Err(error),
        }
    }
    Ok(Rows::from_vec(numbers))
}

// The first number from here on of a net with the name, or how many nets there are.
fn number_from(nets: &[Name], start: usize, name: &[u8]) -> usize
    ensures named { result < length nets.now → IsTrue (bytes_eq name.now (net_name nets.now result)) }
{
    for number in start..nets.len() {
        if nets[number].is(name) {
            return number;
        }
    }
    nets.len()
}

// The number of the net of each wire, where the wires stand in the order of the nets. It searches nothing.
fn find_in_order(
    alloc: Global,
    nets: &[Name],
    wires: &[Wire],
) -> Result<Option<Rows<usize>>, AllocError>
    requires { IsDistinct bytes_eq nets.now }
    ensures { IfOk result (λ o. IfSome o (λ r. r ≡ map (λ w. net_number nets.now w.net) wires.now)) }
{
    let mut numbers = Vec::with_capacity(alloc, wires.len())?;
    let mut start = 0;
    for wire in wires {
        let number = number_from(nets, start, wire.net.as_bytes());
        if number >= nets.len() {
            return Ok(None);
        }
        numbers.push(number)?;
        start = number + 1;
    }
    Ok(Some(Rows::from_vec(numbers)))
}

// The number of the net of each wire, or the number of nets where there is none of the name.
fn find_anywhere(alloc: Global, nets: &[Name], wires: &[Wire]) -> Result<Rows<usize>, AllocError>
    ensures { IfOk result (λ r. r ≡ map (λ w. net_number nets.now w.net) wires.now) }
{
    let places = Places::new(alloc, nets)?;
    let mut numbers = Vec::with_capacity(alloc, wires.len())?;
    for wire in wires {
        numbers.push(places.place(alloc, wire.net.as_bytes())?)?;
    }
    Ok(Rows::from_vec(numbers))
}

// The number of the net of each wire, or the number of nets where there is none of the name. A map of all nets is made only where the
// wires stand in another order than the nets.
fn number_wires(alloc: Global, nets: &[Name], wires: &[Wire]) -> Result<Rows<usize>, AllocError>
    requires { IsDistinct bytes_eq nets.now }
    ensures { IfOk result (λ r. r ≡ map (λ w. net_number nets.now w.net) wires.now) }
{
    match find_in_order(alloc, nets, wires)? {
        Some(numbers) => Ok(numbers),
        None => find_anywhere(alloc, nets, wires),
    }
}

// Each wire is of a net.
fn check_wires(
    alloc: Global,
    nets: &[Name],
    numbers: &[usize],
    wires: &[Wire],
) -> Result<(), LinkErr>
    requires { numbers.now ≡ map (λ w. net_number nets.now w.net) wires.now }
    ensures { Checks (first_some (λ w. unknown_net nets.now w.net) wires.now) result }
{
    for (i, wire) in wires.iter().enumerate() {
        if numbers[i] >= nets.len() {
            return Err(LinkErr::UnknownNet {
                name: copy_of(alloc, &wire.net)?,
            });
        }
    }
    Ok(())
}

/// The number of the net of each wire, or the refusal of the first that is of none.
pub fn find_wires(alloc: Global, nets: &[Name], wires: &[Wire]) -> Result<Rows<usize>, LinkErr>
    requires { IsDistinct bytes_eq nets.now }
    ensures fault { Checks (first_some (λ w. unknown_net nets.now w.net) wires.now) result }
    ensures numbers { IfOk result (λ r. r ≡ map (λ w. net_number nets.now w.net) wires.now) }
{
    let numbers = number_wires(alloc, nets, wires)?;
    match check_wires(alloc, nets, numbers.as_slice(), wires) {
        Ok(()) => Ok(numbers),
        Err(error) => Err(error),
    }
}
