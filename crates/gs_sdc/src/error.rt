//! Why a text is refused.
#![tactic(auto)]

use std::alloc::{AllocError, AllocFailed};

/// Why a text isn't read. The first command at fault decides, and on one command the order is that of the variants. A line `i`
/// counts from 1, and is the first of its command.
#[derive(Debug, PartialEq, Eq, Drop)]
pub enum SdcErr {
    /// The command on line `i`, `set_max_area`, isn't built yet.
    NotBuilt { i: u32 },
    /// The command on line `i` isn't of a form, or a number in it isn't.
    BadLine { i: u32 },
    /// The command on line `i` makes a second clock.
    TwoClocks { i: u32 },
    /// The command on line `i` gives a port a value of a kind that the port has already.
    TwoValues { i: u32 },
    /// There is no clock; `i` is the number of the text's lines.
    NoClock { i: u32 },
    /// Memory ran out.
    Mem,
}

/// The fault of a command.
#[derive(Clone, Copy, Debug, PartialEq, Eq)]
pub enum Fault {
    NotBuilt,
    BadLine,
    TwoClocks,
    TwoValues,
}

/// Why a reader doesn't go on from a command.
#[derive(Debug, PartialEq, Eq, Drop)]
pub enum Stop {
    /// The command has a fault.
    At(Fault),
    /// Memory ran out.
    Mem,
}

impl From<AllocError> for SdcErr {
    ghost use Rattle.std.specs.Prelude.{◌≡◌};
    ghost use Rattle.gs_sdc.specs.declared.error.SdcErr.{SdcErr};

    ghost from_gives = { λ _ error. error ≡ SdcErr.Mem };

    fn from(_error: AllocError) -> SdcErr {
        SdcErr::Mem
    }
}

impl From<AllocError> for Stop {
    ghost use Rattle.std.specs.Prelude.{◌≡◌};
    ghost use Rattle.gs_sdc.specs.declared.error.Stop.{Stop};

    ghost from_gives = { λ _ error. error ≡ Stop.Mem };

    fn from(_error: AllocError) -> Stop {
        Stop::Mem
    }
}

impl<T: Drop> From<AllocFailed<T>> for Stop {
    ghost use Rattle.std.specs.Prelude.{◌≡◌};
    ghost use Rattle.gs_sdc.specs.declared.error.Stop.{Stop};

    ghost from_gives = { λ _ error. error ≡ Stop.Mem };

    fn from(_error: AllocFailed<T>) -> Stop {
        Stop::Mem
    }
}
