//! Deltas: what a commit changes.
#![tactic(auto)]

ghost use Rattle.std.specs.Prelude.{◌≡◌, ◌<◌, IfOk, length, slice_set};
ghost use Rattle.gs_move.specs.Delta.{AreInstalled, AreRecordsFor};

use gs_design::{InstId, NetAt, NetTimes, Sizes, Timing};
use gs_list::Rows;
use gs_quantity::Mem;
use std::alloc::Global;

/// What a move changes: the place of one instance, and the timing of the nets whose records change.
#[derive(Debug, Drop)]
pub struct Delta {
    /// The moved instance.
    pub inst: InstId,
    /// Its new place among its alternatives.
    pub place: u32,
    /// The nets whose record changes, by number, each with its new record.
    pub nets: NetTimes,
}

impl Delta {
    /// An equal delta.
    ///
    /// # Errors
    ///
    /// `Mem` is want of memory.
    pub fn copy(&self, alloc: Global) -> Result<Delta, Mem>
        ensures { IfOk result (λ d. d ≡ self.now) }
    {
        let nets = Vec::from_slice(alloc, self.nets.as_slice())?;
        Ok(Delta {
            inst: self.inst,
            place: self.place,
            nets: Rows::from_vec(nets),
        })
    }
}

// Puts the record of one net into a timing.
#[inline]
fn put_record(timing: &mut Timing, named: &NetAt)
    requires { named.now.net < length timing.old }
    ensures { timing.new ≡ slice_set timing.old named.now.net named.now.time }
{
    timing.set(named.net, named.time);
}

// Puts the records of the named nets into a timing.
fn put_records(timing: &mut Timing, delta: &Delta)
    requires { AreRecordsFor (length timing.old) delta.now.nets }
    ensures { AreInstalled delta.now.nets timing.old timing.new }
{
    for named in delta.nets.as_slice() {
        put_record(timing, named);
    }
}

/// Changes sizes and their timing as a delta says. Exactly the named place and the named records change. It takes no memory, and time in
/// proportion to the nets that are named.
pub fn install(sizes: &mut Sizes, timing: &mut Timing, delta: &Delta)
    requires inst { delta.now.inst < length sizes.old }
    requires nets { AreRecordsFor (length timing.old) delta.now.nets }
    ensures sizes { sizes.new ≡ slice_set sizes.old delta.now.inst delta.now.place }
    ensures timing { AreInstalled delta.now.nets timing.old timing.new }
{
    sizes.set(delta.inst, delta.place);
    put_records(timing, delta);
}
