//! The nets that are kept, and their new numbers.
#![tactic(auto)]

ghost use Rattle.std.specs.Prelude.{◌≡◌, ◌+◌, ◌<◌, IfOk, length, map, if◌then◌else◌};
ghost use Rattle.std.specs.List.{range_with_len};
ghost use Rattle.gs_survey.specs.Uses.{is_used, kept};

use gs_list::Rows;
use gs_survey::Tally;
use std::alloc::{AllocError, Global};

// Whether a net has a driver, a sink or an output port.
fn is_net_used(driven: &Tally, read: &Tally, net: u32) -> bool
    ensures { result ≡ is_used driven.now read.now net }
{
    driven.has(net as usize) || read.has(net as usize)
}

/// The nets that are used.
pub fn find_used(
    alloc: Global,
    driven: &Tally,
    read: &Tally,
    count: u32,
) -> Result<Rows<u32>, AllocError>
    ensures { IfOk result (λ r. r ≡ kept driven.now read.now count) }
{
    let mut used = Vec::new(alloc);
    for net in 0..count {
        if !is_net_used(driven, read, net) {
            continue;
        }
        used.push(net)?;
    }
    Ok(Rows::from_vec(used))
}

fn number_after(number: u32, used: bool) -> u32
    requires { number < 4294967295 }
    ensures { result ≡ number + (if used then 1 else 0) }
{
    if used { number + 1 } else { number }
}

/// The new number of each net: how many before it are used.
pub fn find_numbers(
    alloc: Global,
    driven: &Tally,
    read: &Tally,
    count: u32,
) -> Result<Rows<u32>, AllocError>
    ensures { IfOk result (λ r. r ≡ map (λ n. length (kept driven.now read.now n)) (range_with_len 0 count)) }
{
    let mut numbers = Vec::with_capacity(alloc, count as usize)?;
    let mut number = 0;
    for net in 0..count {
        numbers.push(number)?;
        number = number_after(number, is_net_used(driven, read, net));
    }
    Ok(Rows::from_vec(numbers))
}
