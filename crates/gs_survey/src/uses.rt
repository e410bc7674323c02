//! What drives the nets of a netlist, and what reads them.
#![tactic(auto)]

ghost use Rattle.std.specs.Prelude.{◌≡◌, ◌++◌, ◌&&◌, not, IfOk, length};
ghost use Rattle.std.specs.List.{range_with_len};
ghost use Rattle.gs_survey.specs.First.{Checks, first_some};
ghost use Rattle.gs_survey.specs.Numbers.{is_one_of};
ghost use Rattle.gs_survey.specs.Uses.{input_ports, output_ports, two_drivers, undriven};

use crate::error::LinkErr;
use crate::names::copy_of;
use crate::tally::Tally;
use gs_list::Rows;
use gs_text::Name;
use gs_verilog::Port;
use std::alloc::{AllocError, Global};

/// The nets that are input ports.
pub fn find_input_ports(alloc: Global, ports: &[Port]) -> Result<Rows<u32>, AllocError>
    ensures { IfOk result (λ r. r ≡ input_ports ports.now) }
{
    let mut nets = Vec::new(alloc);
    for port in ports {
        if !port.input {
            continue;
        }
        nets.push(port.net)?;
    }
    Ok(Rows::from_vec(nets))
}

/// The nets that are output ports.
pub fn find_output_ports(alloc: Global, ports: &[Port]) -> Result<Rows<u32>, AllocError>
    ensures { IfOk result (λ r. r ≡ output_ports ports.now) }
{
    let mut nets = Vec::new(alloc);
    for port in ports {
        if port.input {
            continue;
        }
        nets.push(port.net)?;
    }
    Ok(Rows::from_vec(nets))
}

/// Two lists of numbers, one after the other.
pub fn joined(alloc: Global, first: &[u32], second: &[u32]) -> Result<Rows<u32>, AllocError>
    ensures { IfOk result (λ r. r ≡ first.now ++ second.now) }
{
    let mut all = Vec::from_slice(alloc, first)?;
    all.extend_from_slice(second)?;
    Ok(Rows::from_vec(all))
}

/// No net has two drivers.
pub fn check_two(alloc: Global, nets: &[Name], driven: &Tally) -> Result<(), LinkErr>
    ensures { Checks (first_some (two_drivers nets.now driven.now) (range_with_len 0 (length nets.now))) result }
{
    for n in 0..nets.len() {
        if driven.has_more(n) {
            return Err(LinkErr::TwoDrivers {
                net: copy_of(alloc, &nets[n])?,
            });
        }
    }
    Ok(())
}

// Whether a net has a sink or is an output port, and nothing drives it.
fn is_undriven(driven: &Tally, read: &Tally, net: usize) -> bool
    ensures { result ≡ (is_one_of read.now net && not (is_one_of driven.now net)) }
{
    read.has(net) && !driven.has(net)
}

/// Each net that is read has a driver.
pub fn check_driven(
    alloc: Global,
    nets: &[Name],
    driven: &Tally,
    read: &Tally,
) -> Result<(), LinkErr>
    ensures { Checks (first_some (undriven nets.now driven.now read.now) (range_with_len 0 (length nets.now))) result }
{
    for n in 0..nets.len() {
        if is_undriven(driven, read, n) {
            return Err(LinkErr::Undriven {
                net: copy_of(alloc, &nets[n])?,
            });
        }
    }
    Ok(())
}
