//! Whether the records of a net in two timings differ.
#![tactic(auto)]

ghost use Rattle.std.specs.Prelude.{◌≡◌, ◌<◌, length};
ghost use Rattle.gs_move.specs.Records.{differ};

use gs_design::{NetId, TimeView, Timing};
use gs_incr::same_record;

/// Whether the records of a net in two timings differ.
pub fn differ(old: &Timing, new: &Timing, net: NetId) -> bool
    requires old { net < length old.now }
    requires new { net < length new.now }
    ensures { result ≡ differ old.now new.now net }
{
    !same_record(&old.at(net), &new.at(net))
}
