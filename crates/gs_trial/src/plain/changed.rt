//! The records that a move changes.
#![tactic(auto)]

ghost use Rattle.std.specs.Prelude.{◌≡◌, ◌<◌, IfOk, length};
ghost use Rattle.gs_move.specs.Trial.{changed_records};

use crate::changed::add;
use crate::plain::same::differ;
use gs_design::{NetId, NetTimes, TimeView, Timing};
use gs_list::Rows;
use gs_quantity::Mem;
use std::alloc::Global;

/// The nets below a count whose records in two timings differ, by number, each with the later record.
pub fn changed_records(
    alloc: Global,
    old: &Timing,
    new: &Timing,
    count: u32,
) -> Result<NetTimes, Mem>
    requires old { length old.now ≡ count }
    requires new { length new.now ≡ count }
    ensures { IfOk result (λ v. v ≡ changed_records old.now new.now count) }
{
    let mut found = Vec::new(alloc);
    for number in 0..count {
        let net = NetId(number);
        if !differ(old, new, net) {
            continue;
        }
        add(&mut found, net, new.at(net))?;
    }
    Ok(Rows::from_vec(found))
}
