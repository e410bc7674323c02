//! Sizes and timings, as lists and as views of lists.
#![tactic(auto)]

ghost use Rattle.std.specs.Prelude.{◌≡◌, ◌<◌, IfOk, length, slice_index, slice_index_or, slice_set};
ghost use Rattle.gs_design.specs.Times.{no_time};

use crate::ids::{InstId, NetId};
use crate::time::NetTime;
use gs_quantity::Mem;
use std::alloc::Global;
use std::marker::Model;

/// A view of sizes: whatever can tell the place of each instance's cell among its alternatives. `places` is the list for which it
/// stands.
pub trait SizeView {
    ghost use Rattle.std.specs.Prelude.{List, ℕ};

    ghost places: { Self → List ℕ };

    /// The place of an instance's cell among its alternatives. It takes no memory.
    fn place(&self, inst: InstId) -> u32
        requires { inst < length (places self.now) }
        ensures { result ≡ slice_index (places self.now) inst };
}

/// A view of a timing: whatever can tell the timing of each net. `times` is the list for which it stands.
pub trait TimeView {
    ghost use Rattle.std.specs.Prelude.{List};
    ghost use Rattle.gs_design.specs.declared.time.NetTime.{NetTime};

    ghost times: { Self → List NetTime };

    /// The timing of a net. It takes no memory.
    fn at(&self, net: NetId) -> NetTime
        requires { net < length (times self.now) }
        ensures { result ≡ slice_index_or (times self.now) net no_time };
}

/// For each instance of a design the place of its cell among its alternatives. Contracts see the list.
#[derive(Debug, Drop)]
pub struct Sizes {
    places: Vec<u32>,
}

impl Model for Sizes {
    ghost use Rattle.std.specs.Prelude.{List, ℕ};

    ghost Value = { List ℕ };

    ghost view = { λ s. s.places.items };
}

impl Sizes {
    /// These places. It takes no memory.
    pub fn from_vec(places: Vec<u32>) -> Sizes
        ensures { result ≡ places.items }
    {
        Sizes { places }
    }

    /// The places as a `Vec`. It takes no memory.
    pub fn into_vec(self) -> Vec<u32>
        ensures { result.items ≡ self }
    {
        let Sizes { places } = self;
        places
    }

    /// The places, by instance.
    pub fn as_slice(&self) -> &[u32]
        ensures { result.now ≡ self.now }
    {
        self.places.as_slice()
    }

    /// How many instances there are.
    pub fn len(&self) -> usize
        ensures { result ≡ length self.now }
    {
        self.places.len()
    }

    /// Gives an instance another place.
    pub fn set(&mut self, inst: InstId, place: u32)
        requires { inst < length self.old }
        ensures { self.new ≡ slice_set self.old inst place }
    {
        let at = inst.index();
        self.places[at] = place;
    }

    /// Equal sizes.
    pub fn copy(&self, alloc: Global) -> Result<Sizes, Mem>
        ensures { IfOk result (λ s. s ≡ self.now) }
    {
        let places = Vec::from_slice(alloc, self.places.as_slice())?;
        Ok(Sizes { places })
    }
}

impl SizeView for Sizes {
    ghost places = { λ s. s };

    #[inline]
    fn place(&self, inst: InstId) -> u32 {
        self.places[inst.index()]
    }
}

/// For each net of a design its timing. Contracts see the list.
#[derive(Debug, Drop)]
pub struct Timing {
    records: Vec<NetTime>,
}

impl Model for Timing {
    ghost use Rattle.std.specs.Prelude.{List};
    ghost use Rattle.gs_design.specs.declared.time.NetTime.{NetTime};

    ghost Value = { List NetTime };

    ghost view = { λ t. t.records.items };
}

impl Timing {
    /// These records. It takes no memory.
    pub fn from_vec(records: Vec<NetTime>) -> Timing
        ensures { result ≡ records.items }
    {
        Timing { records }
    }

    /// The records as a `Vec`. It takes no memory.
    pub fn into_vec(self) -> Vec<NetTime>
        ensures { result.items ≡ self }
    {
        let Timing { records } = self;
        records
    }

    /// The records, by net.
    pub fn as_slice(&self) -> &[NetTime]
        ensures { result.now ≡ self.now }
    {
        self.records.as_slice()
    }

    /// How many nets there are.
    pub fn len(&self) -> usize
        ensures { result ≡ length self.now }
    {
        self.records.len()
    }

    /// Gives a net another record.
    pub fn set(&mut self, net: NetId, time: NetTime)
        requires { net < length self.old }
        ensures { self.new ≡ slice_set self.old net time }
    {
        let at = net.index();
        self.records[at] = time;
    }

    /// An equal timing.
    pub fn copy(&self, alloc: Global) -> Result<Timing, Mem>
        ensures { IfOk result (λ t. t ≡ self.now) }
    {
        let records = Vec::from_slice(alloc, self.records.as_slice())?;
        Ok(Timing { records })
    }
}

impl TimeView for Timing {
    ghost times = { λ t. t };

    #[inline]
    fn at(&self, net: NetId) -> NetTime {
        self.records[net.index()]
    }
}
