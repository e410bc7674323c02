//! Why a text is refused.
#![tactic(auto)]

use std::alloc::{AllocError, AllocFailed};

/// Why a text isn't read. A line `i` counts from 1. The first line at fault decides, and on one line the order is that of the
/// variants.
#[derive(Debug, PartialEq, Eq, Drop)]
pub enum SpefErr {
    /// Line `i` isn't of its form, or leaves a net block open at the text's end.
    BadLine { i: u32 },
    /// Line `i` gives resistances: the net isn't lumped.
    Distributed { i: u32 },
    /// Line `i` begins the block of an index that no line before it maps.
    UnknownIndex { i: u32 },
    /// Line `i` begins the block of a net that an earlier one has.
    TwoNets { i: u32 },
    /// Memory ran out.
    Mem,
}

impl From<AllocError> for SpefErr {
    ghost use Rattle.std.specs.Prelude.{◌≡◌};
    ghost use Rattle.gs_spef.specs.declared.error.SpefErr.{SpefErr};

    ghost from_gives = { λ _ error. error ≡ SpefErr.Mem };

    fn from(_error: AllocError) -> SpefErr {
        SpefErr::Mem
    }
}

/// The fault of a line.
#[derive(Clone, Copy, Debug, PartialEq, Eq)]
pub enum Fault {
    BadLine,
    Distributed,
    UnknownIndex,
    TwoNets,
}

/// Why a reader doesn't go on from a line.
#[derive(Debug, PartialEq, Eq, Drop)]
pub enum Stop {
    /// The line has a fault.
    At(Fault),
    /// Memory ran out.
    Mem,
}

impl From<AllocError> for Stop {
    ghost use Rattle.std.specs.Prelude.{◌≡◌};
    ghost use Rattle.gs_spef.specs.declared.error.Stop.{Stop};

    ghost from_gives = { λ _ error. error ≡ Stop.Mem };

    fn from(_error: AllocError) -> Stop {
        Stop::Mem
    }
}

impl<T: Drop> From<AllocFailed<T>> for Stop {
    ghost use Rattle.std.specs.Prelude.{◌≡◌};
    ghost use Rattle.gs_spef.specs.declared.error.Stop.{Stop};

    ghost from_gives = { λ _ error. error ≡ Stop.Mem };

    fn from(_error: AllocFailed<T>) -> Stop {
        Stop::Mem
    }
}
