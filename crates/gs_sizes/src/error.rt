//! Why a text is refused.
#![tactic(auto)]

use gs_text::Name;
use std::alloc::{AllocError, AllocFailed};

/// Why a text gives a design no sizes. A line `i` counts from 1. The first line at fault decides, and on one line the order is that of
/// the variants.
#[derive(Debug, PartialEq, Eq, Drop)]
pub enum SizesErr {
    /// Line `i` has words, and not two.
    BadLine { i: u32 },
    /// No instance has the name that line `i` begins with.
    Unknown { i: u32 },
    /// An earlier line names the instance of line `i`.
    Twice { i: u32 },
    /// The cell of line `i` isn't an alternative of its instance.
    WrongCell { i: u32 },
    /// No line names the instance `name`, which is the first such; `i` is the number of lines.
    Absent { name: Name, i: u32 },
    /// Memory ran out.
    Mem,
}

impl From<AllocError> for SizesErr {
    ghost use Rattle.std.specs.Prelude.{◌≡◌};
    ghost use Rattle.gs_sizes.specs.declared.error.SizesErr.{SizesErr};

    ghost from_gives = { λ _ error. error ≡ SizesErr.Mem };

    fn from(_error: AllocError) -> SizesErr {
        SizesErr::Mem
    }
}

impl<T: Drop> From<AllocFailed<T>> for SizesErr {
    ghost use Rattle.std.specs.Prelude.{◌≡◌};
    ghost use Rattle.gs_sizes.specs.declared.error.SizesErr.{SizesErr};

    ghost from_gives = { λ _ error. error ≡ SizesErr.Mem };

    fn from(_error: AllocFailed<T>) -> SizesErr {
        SizesErr::Mem
    }
}

/// The fault of a line.
#[derive(Clone, Copy, Debug, PartialEq, Eq)]
pub enum Fault {
    BadLine,
    Unknown,
    Twice,
    WrongCell,
}

/// Why a reader doesn't go on from a line.
#[derive(Debug, PartialEq, Eq, Drop)]
pub enum Stop {
    /// The line has a fault.
    At(Fault),
    /// Memory ran out.
    Mem,
}

impl From<AllocError> for Stop {
    ghost use Rattle.std.specs.Prelude.{◌≡◌};
    ghost use Rattle.gs_sizes.specs.declared.error.Stop.{Stop};

    ghost from_gives = { λ _ error. error ≡ Stop.Mem };

    fn from(_error: AllocError) -> Stop {
        Stop::Mem
    }
}
